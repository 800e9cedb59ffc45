//! What holds of dequantised coefficients whatever the levels, and of levels whatever the coefficients, for the crates
//! above.

ghost use Rattle.mv_quant.specs.Dequantised.{ValueIsSaturated, DequantisedIsSaturated, DequantisedOfSame};
ghost use Rattle.mv_quant.specs.Macroblocks.{AbsentIsZero, CoefficientIsSaturated};
ghost use Rattle.mv_quant.specs.Nearest.{NearestIsNearest, OneIsNearest, NearestIsLevel, NearestDcIsInRange, CloseIsNearest};
ghost use Rattle.mv_quant.specs.Half.{NearestIsWithinHalf, OtherIsWithinHalf, FirstIsWithinHalf};

/// The value of each level and each coefficient lies in −2048 to 2047.
pub fn saturated_law()
    ensures value { ValueIsSaturated }
    ensures coefficient { DequantisedIsSaturated }
{}

/// The coefficients of a block depend on its 64 levels alone, however they are given.
pub fn same_levels_law()
    ensures { DequantisedOfSame }
{}

/// A block without coefficients has the coefficient zero at each place, and any block those of its range.
pub fn coefficients_law()
    ensures absent { AbsentIsZero }
    ensures range { CoefficientIsSaturated }
{}

/// The level of a coefficient is preferred to all that can be coded at its place, and is the only such level.
pub fn nearest_law()
    ensures nearest { NearestIsNearest }
    ensures one { OneIsNearest }
{}

/// The level of any coefficient, however large, can be coded.
pub fn nearest_range_law()
    ensures level { NearestIsLevel }
    ensures dc { NearestDcIsInRange }
{}

/// What is found near the value of a level has this level again.
pub fn close_law()
    ensures { CloseIsNearest }
{}

/// The value of the nearest level lies within half of what values of neighbouring levels lie apart.
pub fn half_law()
    ensures intra { NearestIsWithinHalf }
    ensures other { OtherIsWithinHalf }
    ensures first { FirstIsWithinHalf }
{}
