//! The dequantised block: the value of each level, saturation and mismatch control.

ghost use Rattle.std.specs.Prelude.{◌≡◌, ℕ, ◌+◌, ◌*◌, ◌/◌, ◌%◌, ◌<◌, ◌≤◌, ◌^◌, pos, ◌+ℤ◌, ◌*ℤ◌, slice_index, slice_index_or, unsigned_abs, if◌then◌else◌};
ghost use Rattle.std.specs.Int.{int_signum};
ghost use Rattle.mv_terms.specs.Block.{item, entry};
ghost use Rattle.mv_terms.specs.Sums.{sum_below};
ghost use Rattle.mv_quant.specs.Dequantised.{saturated, intra_dc_mult, scaled_level, step_at, value_of, is_even, toggled, dequantised};

use super::Kind;

/// The coefficients that the levels of a coded block stand for (H.262, 7.4): each in −2048 to 2047, in raster
/// order, as the levels and the matrix are. A block that isn't coded has no mismatch control and stays zero: it
/// is not to be given to this call.
pub fn dequantise(levels: &[i16; 64], quantiser: &Kind) -> [i16; 64]
    requires scale { quantiser.now.scale ≤ 112 }
    requires precision { quantiser.now.dc_precision ≤ 3 }
    ensures { (v u : ℕ) → v < 8 → u < 8
        → entry result v u ≡ dequantised quantiser.now (entry levels.now) v u }
{
    let mut block = values(levels, quantiser);
    if has_even(sum_of(&block)) {
        block[63] = toggle(block[63]);
    }
    block
}

/// What the first level of an intra block stands for, before saturation, by `intra_dc_precision` from 0 to 3 (H.262,
/// 7.4.1): eight times the mean of the block's samples.
pub fn first_value(level: i16, dc_precision: u8) -> i32
    requires { dc_precision ≤ 3 }
    ensures value { result ≡ intra_dc_mult dc_precision *ℤ level }
    ensures size { unsigned_abs result ≤ 2 ^ 18 }
{
    product(dc_factor(dc_precision), i32::from(level))
}

// The values of a block's levels, before mismatch control.
fn values(levels: &[i16; 64], kind: &Kind) -> [i16; 64]
    requires scale { kind.now.scale ≤ 112 }
    requires precision { kind.now.dc_precision ≤ 3 }
    ensures { (v u : ℕ) → v < 8 → u < 8
        → entry result v u ≡ value_of kind.now v u (entry levels.now v u) }
{
    let mut block = scaled_levels(levels, kind);
    if kind.intra {
        block[0] = scaled_dc(levels[0], kind.dc_precision);
    }
    block
}

// The levels of a block, each as if it were not the first of an intra block.
fn scaled_levels(levels: &[i16; 64], kind: &Kind) -> [i16; 64]
    requires { kind.now.scale ≤ 112 }
    ensures { (k : ℕ) → k < 64 → item result k ≡
        saturated (scaled_level kind.now.intra (step_at kind.now k) (item levels.now k)) }
{
    let mut block = [0; 64];
    for k in 0..64 {
        block[k] = scaled(levels[k], kind.intra, step_at(kind, k));
    }
    block
}

// The value of any level but the first of an intra block.
#[tactic(auto, unfolding(crate::specs::Dequantised::scaled_level))]
fn scaled(level: i16, intra: bool, step: u16) -> i16
    requires { step ≤ 28560 }
    ensures { result ≡ saturated (scaled_level intra step level) }
{
    let twice = doubled(level, rounding(intra, level));
    saturate(product(twice, i32::from(step)) / 32)
}

// The value of the first level of an intra block.
fn scaled_dc(level: i16, precision: u8) -> i16
    requires { precision ≤ 3 }
    ensures { result ≡ saturated (intra_dc_mult precision *ℤ level) }
{
    saturate(first_value(level, precision))
}

fn dc_factor(precision: u8) -> i32
    requires { precision ≤ 3 }
    ensures value { result ≡ intra_dc_mult precision }
    ensures size { unsigned_abs result ≤ 8 }
{
    match precision {
        0 => 8,
        1 => 4,
        2 => 2,
        _ => 1,
    }
}

fn step_at(kind: &Kind, k: usize) -> u16
    requires scale { kind.now.scale ≤ 112 }
    requires place { k < 64 }
    ensures value { result ≡ step_at kind.now k }
    ensures size { result ≤ 28560 }
{
    u16::from(kind.matrix[k]) * u16::from(kind.scale)
}

fn doubled(level: i16, rounding: i32) -> i32
    requires { unsigned_abs rounding ≤ 1 }
    ensures value { result ≡ pos 2 *ℤ level +ℤ rounding }
    ensures size { unsigned_abs result ≤ 2 ^ 16 + 1 }
{
    2 * i32::from(level) + rounding
}

// What rounds the levels of a non-intra block away from zero (H.262, 7.4.2.3).
fn rounding(intra: bool, level: i16) -> i32
    ensures value { result ≡ (if intra then pos 0 else int_signum level) }
    ensures size { unsigned_abs result ≤ 1 }
{
    if intra { 0 } else { i32::from(level.signum()) }
}

fn product(a: i32, b: i32) -> i32
    requires { unsigned_abs a * unsigned_abs b < 2 ^ 31 }
    ensures { result ≡ a *ℤ b }
{
    a * b
}

fn saturate(value: i32) -> i16
    ensures { result ≡ saturated value }
{
    value.min(2047).max(-2048) as i16
}

#[tactic(auto, using(mv_terms::proofs::SumLemmas::sums))]
fn sum_of(block: &[i16; 64]) -> i32
    ensures { result ≡ sum_below 64 (item block.now) }
{
    let mut sum = 0;
    for k in 0..64 {
        sum += i32::from(block[k]);
    }
    sum
}

fn has_even(sum: i32) -> bool
    ensures { result ≡ is_even sum }
{
    sum % 2 == 0
}

fn toggle(value: i16) -> i16
    ensures { result ≡ toggled value }
{
    if value % 2 == 0 { value + 1 } else { value - 1 }
}
