//! The levels of a block of coefficients.

ghost use Rattle.std.specs.Prelude.{◌≡◌, ℕ, ◌+◌, ◌*◌, ◌-◌, ◌^◌, ◌<◌, ◌≤◌, min, All, IsTrue, unsigned_abs, slice_index};
ghost use Rattle.mv_terms.specs.Block.{item, entry};
ghost use Rattle.mv_quant.specs.Dequantised.{step_at};
ghost use Rattle.mv_quant.specs.Nearest.{nearest_level};
ghost use Rattle.mv_quant.specs.Steps.{oddness, value_size, dc_size, dc_value, IsNearestOf, IsUpTo, IsSmall, IsNearestAt, AreFound};

use super::Kind;
use super::level::{nearest_scaled, oddness_of, step_of, value_size};

/// The levels whose values, before mismatch control, are nearest to the coefficients of a block, in raster order, as
/// the coefficients and the matrix are. Any coefficients have such levels; no entry of the matrix is 0.
pub fn nearest(coefs: &[i16; 64], kind: &Kind) -> [i16; 64]
    requires scale { (0 < kind.now.scale) × (kind.now.scale ≤ 112) }
    requires precision { kind.now.dc_precision ≤ 3 }
    requires matrix { All (λ w. 0 < w) kind.now.matrix }
    ensures { (v u : ℕ) → v < 8 → u < 8
        → entry result v u ≡ nearest_level kind.now v u (entry coefs.now v u) }
{
    let mut levels = nearest_by_steps(coefs, kind);
    if kind.intra {
        levels[0] = nearest_dc(coefs[0], kind.dc_precision);
    }
    levels
}

// The levels of a block, each as if it were not the first of an intra block. Most are zero: where eight coefficients of
// a row are small, nothing more is computed.
fn nearest_by_steps(coefs: &[i16; 64], kind: &Kind) -> [i16; 64]
    requires scale { (0 < kind.now.scale) × (kind.now.scale ≤ 112) }
    requires matrix { All (λ w. 0 < w) kind.now.matrix }
    ensures { (k : ℕ) → k < 64 → IsNearestAt kind.now coefs.now k (item result k) }
{
    let excesses = excesses(coefs, kind);
    let mut levels = [0; 64];
    for row in 0..8 {
        find_row(coefs, kind, &excesses, row, &mut levels);
    }
    levels
}

fn find_row(
    coefs: &[i16; 64],
    kind: &Kind,
    excesses: &[u16; 64],
    row: usize,
    levels: &mut [i16; 64],
)
    requires scale { (0 < kind.now.scale) × (kind.now.scale ≤ 112) }
    requires matrix { All (λ w. 0 < w) kind.now.matrix }
    requires row { row < 8 }
    requires small { (k : ℕ) → k < 64 → slice_index excesses.now k ≡ 0
        → IsSmall kind.now coefs.now k }
    requires before { AreFound kind.now coefs.now levels.old (8 * row) }
    ensures { AreFound kind.now coefs.now levels.new (8 * row + 8) }
{
    if has_no_excess(excesses, row) {
        return;
    }
    for j in 0..8 {
        let k = 8 * row + j;
        levels[k] = level_at(coefs, kind, k, excesses[k]);
    }
}

fn level_at(coefs: &[i16; 64], kind: &Kind, k: usize, excess: u16) -> i16
    requires scale { (0 < kind.now.scale) × (kind.now.scale ≤ 112) }
    requires matrix { All (λ w. 0 < w) kind.now.matrix }
    requires place { k < 64 }
    requires small { excess ≡ 0 → IsSmall kind.now coefs.now k }
    ensures { IsNearestAt kind.now coefs.now k result }
{
    if excess == 0 {
        0
    } else {
        nearest_scaled(
            coefs[k],
            kind.intra,
            entry_at(kind, k),
            u32::from(kind.scale),
        )
    }
}

// By how much the sizes of coefficients exceed half the values of level 1.
fn excesses(coefs: &[i16; 64], kind: &Kind) -> [u16; 64]
    requires scale { (0 < kind.now.scale) × (kind.now.scale ≤ 112) }
    requires matrix { All (λ w. 0 < w) kind.now.matrix }
    ensures { (k : ℕ) → k < 64 → slice_index result k ≡ 0 → IsSmall kind.now coefs.now k }
{
    let mut excesses = [0; 64];
    for k in 0..64 {
        excesses[k] = excess_at(coefs, kind, k);
    }
    excesses
}

fn excess_at(coefs: &[i16; 64], kind: &Kind, k: usize) -> u16
    requires scale { (0 < kind.now.scale) × (kind.now.scale ≤ 112) }
    requires matrix { All (λ w. 0 < w) kind.now.matrix }
    requires place { k < 64 }
    ensures { result ≡ 0 → IsSmall kind.now coefs.now k }
{
    let step = step_of(entry_at(kind, k), u32::from(kind.scale));
    coefs[k]
        .unsigned_abs()
        .saturating_sub(half_of_first(oddness_of(kind.intra), step))
}

// Half the size of the value of level 1.
fn half_of_first(odd: u32, step: u32) -> u16
    requires odd { odd ≤ 1 }
    requires step { step ≤ 28560 }
    ensures { 2 * result ≤ min (value_size odd step 1) 2047 }
{
    (value_size(odd, step, 1).min(2047) / 2) as u16
}

fn entry_at(kind: &Kind, k: usize) -> u32
    requires matrix { All (λ w. 0 < w) kind.now.matrix }
    requires place { k < 64 }
    ensures value { result ≡ slice_index kind.now.matrix k }
    ensures range { (0 < result) × (result ≤ 255) }
{
    u32::from(kind.matrix[k])
}

fn has_no_excess(excesses: &[u16; 64], row: usize) -> bool
    requires { row < 8 }
    ensures { IsTrue result → (j : ℕ) → j < 8 → slice_index excesses.now (8 * row + j) ≡ 0 }
{
    let mut greatest = 0;
    for j in 0..8 {
        greatest = excesses[8 * row + j].max(greatest);
    }
    greatest == 0
}

// The first level of an intra block.
fn nearest_dc(coefficient: i16, precision: u8) -> i16
    requires { precision ≤ 3 }
    ensures { IsNearestOf (dc_value precision)
        (IsUpTo (2 ^ (8 + precision) - 1)) coefficient result }
{
    if coefficient <= 0 {
        0
    } else {
        dc_size(precision, u32::from(coefficient.unsigned_abs())) as i16
    }
}

// Its size: of two with values as near to the coefficient the lower one.
fn dc_size(precision: u8, size: u32) -> u32
    requires precision { precision ≤ 3 }
    requires size { size ≤ 32768 }
    ensures value { result ≡ dc_size precision size }
    ensures range { result ≤ 2047 }
{
    match precision {
        0 => ((2 * size + 7) / 16).min(255),
        1 => ((2 * size + 3) / 8).min(511),
        2 => ((2 * size + 1) / 4).min(1023),
        _ => size.min(2047),
    }
}
