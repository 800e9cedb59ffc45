//! The inverse quantiser (H.262, 7.4): what the levels of a block stand for, and the levels nearest to coefficients.
//! Its promise: `dequantise` gives the coefficients of a block as the standard defines them, one at a time, with
//! saturation and mismatch control, `nearest` the levels whose values are nearest to coefficients, and `scale_value`
//! the scale of a code.
//! The definitions stand in `specs/Scale.antt`, in `specs/Dequantised.antt`, where the value of one level stands
//! alone, in `specs/Nearest.antt`, how near its value comes in `specs/Half.antt`, and for the blocks of a macroblock in
//! `specs/Macroblocks.antt`.
#![tactic(auto)]

ghost use Rattle.std.specs.Prelude.{◌≡◌, ◌<◌, ◌≤◌, true};
ghost use Rattle.mv_terms.specs.Ranges.{IsScaleCode, HasLegalScales};
ghost use Rattle.mv_quant.specs.Macroblocks.{kind_of};
ghost use Rattle.mv_quant.specs.Scale.{scale_of};

mod block;
mod laws;
mod level;
mod levels;
mod reciprocals;

pub use block::{dequantise, first_value};
pub use laws::{
    close_law, coefficients_law, half_law, nearest_law, nearest_range_law, same_levels_law,
    saturated_law,
};
pub use levels::nearest;
use mv_terms::{Decision, Head};

/// How the levels of a block were quantised.
#[derive(Clone, Copy, Debug, PartialEq, Eq)]
pub struct Kind {
    /// The block is of an intra macroblock.
    pub intra: bool,
    /// `quantiser_scale`, 1 to 112.
    pub scale: u8,
    /// `intra_dc_precision`, 0 to 3.
    pub dc_precision: u8,
    /// The quantiser matrix `W[v][u]` in raster order.
    pub matrix: [u8; 64],
}

/// How the levels of a macroblock were quantised, or are to be (H.262, 7.4).
pub fn kind_of(head: &Head, decision: &Decision) -> Kind
    requires { HasLegalScales decision.now }
    ensures kind { result ≡ kind_of head.now decision.now }
    ensures scale { (0 < result.scale) × (result.scale ≤ 112) }
{
    Kind {
        intra: decision.intra,
        scale: scale_value(decision.scale, head.non_linear),
        dc_precision: head.dc_precision,
        matrix: if decision.intra {
            head.matrices.intra
        } else {
            head.matrices.non_intra
        },
    }
}

/// The quantiser scale of a `quantiser_scale_code` from 1 to 31 (H.262, 7.4.2.2); `non_linear` is `q_scale_type`.
#[tactic(auto, using(crate::proofs::ScaleLemmas::scales))]
pub fn scale_value(code: u8, non_linear: bool) -> u8
    requires { IsScaleCode code }
    ensures value { result ≡ scale_of non_linear code }
    ensures range { (0 < result) × (result ≤ 112) }
{
    if non_linear {
        non_linear_scale(code)
    } else {
        2 * code
    }
}

// Steps of 1, 2, 4 and 8, each for eight codes.
#[tactic(auto, using(crate::proofs::ScaleLemmas::scales))]
fn non_linear_scale(code: u8) -> u8
    requires { IsScaleCode code }
    ensures value { result ≡ scale_of true code }
    ensures range { (0 < result) × (result ≤ 112) }
{
    match code {
        0..=8 => code,
        9..=16 => 2 * (code - 4),
        17..=24 => 4 * (code - 10),
        _ => 8 * (code - 17),
    }
}
