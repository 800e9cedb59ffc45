//! When the levels of a block are surely the nearest ones to its coefficients: their values lie close to these.
ghost use Rattle.std.specs.Prelude.{◌≡◌, ℕ, ◌+◌, ◌^◌, ◌<◌, ◌≤◌, IsTrue, true, pos, ◌≤ℤ◌, unsigned_abs};
ghost use Rattle.mv_terms.specs.Block.{item, entry};
ghost use Rattle.mv_terms.specs.Ranges.{IsLevel, IsDcLevel};
ghost use Rattle.mv_quant.specs.Nearest.{distance, nearest_level};
ghost use Rattle.mv_quant.specs.Steps.{dc_size};
ghost use Rattle.cert_picture.specs.Steps.{IsClose, change_at};

use crate::sure::{first_size, is_first, step_at};
use mv_quant::{Kind, dequantise};

/// Whether the values of all levels lie so close to the coefficients that each level is the nearest one. Unlike the nearest
/// levels themselves this takes no quotients, and most decoded blocks are close.
pub(crate) fn are_close(coefs: &[i16; 64], levels: &[i16; 64], kind: &Kind) -> bool
    requires scale { kind.now.scale ≤ 112 }
    requires precision { kind.now.dc_precision ≤ 3 }
    requires legal { (k : ℕ) → k < 64 → IsLevel (item levels.now k) }
    requires dc { kind.now.intra ≡ true → IsDcLevel kind.now.dc_precision (item levels.now 0) }
    ensures { IsTrue result → (v u : ℕ) → v < 8 → u < 8
        → nearest_level kind.now v u (entry coefs.now v u) ≡ entry levels.now v u }
{
    let values = dequantise(levels, kind);
    if !others_are_close(&values, coefs, kind) {
        return false;
    }
    if !kind.intra {
        return is_close(&values, coefs, kind, 0);
    }
    is_close_first(first_size(levels), first_of(coefs), kind.dc_precision)
}

// Whether the values at all places but the first lie close to the coefficients.
fn others_are_close(values: &[i16; 64], coefs: &[i16; 64], kind: &Kind) -> bool
    ensures { IsTrue result → (k : ℕ) → 0 < k → k < 64
        → IsClose kind.now k (item values.now k) (item coefs.now k) }
{
    let mut close = true;
    for k in 1..64 {
        close &= is_close(values, coefs, kind, k);
    }
    close
}

fn is_close(values: &[i16; 64], coefs: &[i16; 64], kind: &Kind, k: usize) -> bool
    requires { k < 64 }
    ensures { IsTrue result → IsClose kind.now k (item values.now k) (item coefs.now k) }
{
    let apart = step_at(kind, k) / 16;
    let change = change_at(k);
    let room = size_of(values[k]) + change + apart;
    2 * (distance(values[k], coefs[k]) + change) < apart && room <= 2047
}

// What mismatch control changes a value by, at most.
fn change_at(k: usize) -> u32
    ensures value { result ≡ change_at k }
    ensures range { result ≤ 1 }
{
    u32::from(k == 63)
}

fn size_of(value: i16) -> u32
    ensures value { result ≡ unsigned_abs value }
    ensures range { result ≤ 2 ^ 15 }
{
    u32::from(value.unsigned_abs())
}

fn distance(value: i16, coefficient: i16) -> u32
    ensures value { result ≡ distance value coefficient }
    ensures range { result ≤ 2 ^ 16 }
{
    (i32::from(value) - i32::from(coefficient)).unsigned_abs()
}

fn first_of(coefs: &[i16; 64]) -> i16
    ensures { result ≡ item coefs.now 0 }
{
    coefs[0]
}

// Whether a coefficient lies nearest to the first level of an intra block of this size.
fn is_close_first(size: u16, coefficient: i16, precision: u8) -> bool
    requires { precision ≤ 3 }
    ensures { IsTrue result → size < 2 ^ (8 + precision)
        → (pos 0 ≤ℤ coefficient) × (dc_size precision (unsigned_abs coefficient) ≡ size) }
{
    if coefficient < 0 {
        return false;
    }
    is_first(size, size_of(coefficient), precision)
}
