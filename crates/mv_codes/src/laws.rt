//! Laws of the look-up tables.
ghost use Rattle.std.specs.Prelude.{[]};
ghost use Rattle.mv_codes.specs.LookUp.{LooksUp};
ghost use Rattle.mv_codes.specs.Coefficients.{levels_14, levels_15};
ghost use Rattle.mv_codes.specs.Increments.{increment_codes};
ghost use Rattle.mv_codes.specs.Motions.{motion_codes};
ghost use Rattle.mv_codes.specs.Patterns.{pattern_codes};
ghost use Rattle.mv_codes.specs.Sizes.{chroma_size_codes, luma_size_codes};
ghost use Rattle.mv_codes.specs.Types.{type_b_codes, type_i_codes, type_p_codes};
ghost use Rattle.mv_codes.specs.declared.look_up.TheConstants.{LONG_14, LONG_15, LONG_CHROMA_SIZES, LONG_INCREMENTS, LONG_LUMA_SIZES, LONG_MOTIONS, LONG_PATTERNS, SHORT_14, SHORT_15, SHORT_CHROMA_SIZES, SHORT_INCREMENTS, SHORT_LUMA_SIZES, SHORT_MOTIONS, SHORT_PATTERNS, SHORT_TYPES_B, SHORT_TYPES_I, SHORT_TYPES_P};

/// Each list's tables name the code of the list that begins the bits, whatever they are.
pub fn look_up_law()
    ensures levels_14 { LooksUp levels_14 SHORT_14 16 0 LONG_14 }
    ensures levels_15 { LooksUp levels_15 SHORT_15 16 0 LONG_15 }
    ensures increments { LooksUp increment_codes SHORT_INCREMENTS 11 8 LONG_INCREMENTS }
    ensures types_i { LooksUp type_i_codes SHORT_TYPES_I 8 0 [] }
    ensures types_p { LooksUp type_p_codes SHORT_TYPES_P 8 0 [] }
    ensures types_b { LooksUp type_b_codes SHORT_TYPES_B 8 0 [] }
    ensures patterns { LooksUp pattern_codes SHORT_PATTERNS 9 1 LONG_PATTERNS }
    ensures motions { LooksUp motion_codes SHORT_MOTIONS 11 24 LONG_MOTIONS }
    ensures luma_sizes { LooksUp luma_size_codes SHORT_LUMA_SIZES 9 510 LONG_LUMA_SIZES }
    ensures chroma_sizes { LooksUp chroma_size_codes SHORT_CHROMA_SIZES 10 1020 LONG_CHROMA_SIZES }
{}
