//! Laws of the codes that are written.
ghost use Rattle.mv_terms.specs.declared.head.PicType.{PicType};
ghost use Rattle.std.specs.Prelude.{Bool};
ghost use Rattle.mv_codes.specs.Spelled.{IsWritten, same_coef, same_increment, same_integer, same_number, same_type};
ghost use Rattle.mv_codes.specs.Coefficients.{coef_codes};
ghost use Rattle.mv_codes.specs.Increments.{increment_codes};
ghost use Rattle.mv_codes.specs.Motions.{motion_codes};
ghost use Rattle.mv_codes.specs.Patterns.{pattern_codes};
ghost use Rattle.mv_codes.specs.Sizes.{dc_size_codes};
ghost use Rattle.mv_codes.specs.Types.{type_codes};

/// Each value that a row of a table has is written by its code, and read back from it, whatever follows.
pub fn written_law()
    ensures increments { IsWritten same_increment increment_codes }
    ensures types { (pic : PicType) → IsWritten same_type (type_codes pic) }
    ensures patterns { IsWritten same_number pattern_codes }
    ensures motions { IsWritten same_integer motion_codes }
    ensures dc_sizes { (luma : Bool) → IsWritten same_number (dc_size_codes luma) }
    ensures coefs { (table_15 first : Bool) → IsWritten same_coef (coef_codes table_15 first) }
{}
