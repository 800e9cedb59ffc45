//! What holds of the transform pair whatever the block, for the crates above.

ghost use Rattle.mv_transform.specs.Basis.{BasisIsMirrored};
ghost use Rattle.mv_transform.specs.Lines.{InverseIsFolded, ForwardIsFolded, InverseByLines, ForwardByLines};
ghost use Rattle.mv_transform.specs.Back.{ForwardOfInverseIsClose, InverseOfZeros, ForwardOfZeros, FirstIsSum};
ghost use Rattle.mv_transform.specs.Near.{InverseOfForwardIsNear, SquaresOfErrorsAreSmall};
ghost use Rattle.mv_transform.specs.Transform.{InverseIsSaturated, ForwardIsBounded, InverseOfSame, ForwardOfSame};

/// The weights at two places that mirror each other are equal, but for the sign of odd frequencies.
pub fn mirrored_basis_law()
    ensures { BasisIsMirrored }
{}

/// The inverse transform of any block lies in −256 to 255.
pub fn inverse_saturated_law()
    ensures { InverseIsSaturated }
{}

/// The forward transform of samples in −255 to 255 lies in −2040 to 2040.
pub fn forward_bounded_law()
    ensures { ForwardIsBounded }
{}

/// Each direction depends on the 64 values of its block alone, however the block is given.
pub fn same_block_law()
    ensures inverse { InverseOfSame }
    ensures forward { ForwardOfSame }
{}

/// In one dimension the sums at two places that mirror each other are made of the same two parts, and so are the
/// sums of a frequency over them.
pub fn folded_lines_law()
    ensures inverse { InverseIsFolded }
    ensures forward { ForwardIsFolded }
{}

/// By rows and then by columns, each direction has the double sum of its definition.
pub fn lines_law()
    ensures inverse { InverseByLines }
    ensures forward { ForwardByLines }
{}

/// Where saturation cuts nothing off, the forward transform of the inverse of a block is close to the block.
pub fn back_law()
    ensures { ForwardOfInverseIsClose }
{}

/// A block of zeros is transformed to zeros, and the first coefficient of any block comes from the sum of its samples.
pub fn sum_law()
    ensures inverse { InverseOfZeros }
    ensures forward { ForwardOfZeros }
    ensures first { FirstIsSum }
{}

/// Where the coefficients of samples in −255 to 255 are changed, each sample comes back to within what the changes
/// bring to its place, and 21/32 for the rounding of both directions.
pub fn near_law()
    ensures { InverseOfForwardIsNear }
{}

/// The squares of all 64 errors together are hardly more than those of the changes.
pub fn squares_law()
    ensures { SquaresOfErrorsAreSmall }
{}
