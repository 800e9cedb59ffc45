//! The level of one coefficient: the nearest one by its size, between two levels, and by the sign of the coefficient.

ghost use Rattle.std.specs.Prelude.{◌≡◌, ℕ, ◌+◌, ◌-◌, ◌*◌, ◌/◌, ◌<◌, ◌≤◌, IsTrue, false, min, ℤ, pos, neg_ℤ, if◌then◌else◌};
ghost use Rattle.mv_terms.specs.Ranges.{IsLevel};
ghost use Rattle.mv_quant.specs.Steps.{scaled_value, oddness, value_size, negative, ComesBefore, IsNearestOf};

use super::reciprocals::quotient_by_step;

/// The nearest level of a coefficient that isn't the first of an intra block; the step of its place is the product of
/// the matrix entry and the scale.
pub fn nearest_scaled(coefficient: i16, intra: bool, entry: u32, scale: u32) -> i16
    requires entry { (0 < entry) × (entry ≤ 255) }
    requires scale { (0 < scale) × (scale ≤ 112) }
    ensures { IsNearestOf (scaled_value intra (entry * scale)) IsLevel coefficient result }
{
    if coefficient == 0 {
        return 0;
    }
    let negative = is_negative(coefficient);
    let limit = limit_of(negative);
    let target = u32::from(coefficient.unsigned_abs()).min(limit);
    let size = nearest_size(oddness_of(intra), entry, scale, limit, target);
    with_sign(size, negative)
}

/// What is added to twice the size of a level: the sign counts in non-intra blocks alone.
pub fn oddness_of(intra: bool) -> u32
    ensures { result ≡ oddness intra }
{
    if intra { 0 } else { 1 }
}

/// The size of the value of a level of size `n`, before saturation.
#[tactic(auto, unfolding(crate::specs::Steps::value_size))]
pub fn value_size(odd: u32, step: u32, n: u32) -> u32
    requires odd { odd ≤ 1 }
    requires step { step ≤ 28560 }
    requires n { n ≤ 2047 }
    ensures { result ≡ value_size odd step n }
{
    if n == 0 { 0 } else { (2 * n + odd) * step / 32 }
}

/// The product of a matrix entry and a scale.
pub fn step_of(entry: u32, scale: u32) -> u32
    requires entry { (0 < entry) × (entry ≤ 255) }
    requires scale { (0 < scale) × (scale ≤ 112) }
    ensures value { result ≡ entry * scale }
    ensures range { (0 < result) × (result ≤ 28560) }
{
    entry * scale
}

// The size of the level whose value is nearest in size to `target`, where values are saturated at `limit`: the least one
// that reaches it, or the one below.
fn nearest_size(odd: u32, entry: u32, scale: u32, limit: u32, target: u32) -> u32
    requires odd { odd ≤ 1 }
    requires entry { (0 < entry) × (entry ≤ 255) }
    requires scale { (0 < scale) × (scale ≤ 112) }
    requires limit { limit ≤ 2048 }
    requires target { (0 < target) × (target ≤ limit) }
    ensures within { result ≤ 2047 }
    ensures first { (p : ℕ) → p ≤ 2047
        → ComesBefore (λ n. min (value_size odd (entry * scale) n) limit) target result p }
{
    let step = step_of(entry, scale);
    let up = least_reaching(odd, entry, scale, target);
    let down = (up - 1).min(2047);
    let above = value_size(odd, step, up.min(2047)).min(limit);
    let below = value_size(odd, step, down);
    let size = pick(is_upper(up, above, target, below), up, down);
    least_of_value(odd, entry, scale, size)
}

// The least size of a level whose value reaches `target`.
fn least_reaching(odd: u32, entry: u32, scale: u32, target: u32) -> u32
    requires odd { odd ≤ 1 }
    requires entry { (0 < entry) × (entry ≤ 255) }
    requires scale { (0 < scale) × (scale ≤ 112) }
    requires target { target ≤ 2048 }
    ensures reaches { target ≤ value_size odd (entry * scale) result }
    ensures least { (p : ℕ) → target ≤ value_size odd (entry * scale) p → result ≤ p }
{
    if target == 0 {
        return 0;
    }
    let count = quotient_by_step(32 * target + step_of(entry, scale) - 1, entry, scale);
    ((count + 1 - odd) / 2).max(1)
}

// The least size of a level that has the value of one of size `m`: `m`, unless the step is so small that levels share
// values.
fn least_of_value(odd: u32, entry: u32, scale: u32, m: u32) -> u32
    requires odd { odd ≤ 1 }
    requires entry { (0 < entry) × (entry ≤ 255) }
    requires scale { (0 < scale) × (scale ≤ 112) }
    requires m { m ≤ 2047 }
    ensures reaches { value_size odd (entry * scale) m ≤ value_size odd (entry * scale) result }
    ensures least { (p : ℕ) → value_size odd (entry * scale) m ≤ value_size odd (entry * scale) p
        → result ≤ p }
{
    let step = step_of(entry, scale);
    if step < 16 {
        least_reaching(odd, entry, scale, value_size(odd, step, m))
    } else {
        m
    }
}

// Whether the upper one of two levels is nearer, where there is one.
fn is_upper(up: u32, above: u32, target: u32, below: u32) -> bool
    requires above { up ≤ 2047 → target ≤ above }
    requires below { below ≤ target }
    ensures upper { IsTrue result → (up ≤ 2047) × (above - target < target - below) }
    ensures lower { result ≡ false → up ≤ 2047 → target - below ≤ above - target }
{
    up <= 2047 && above - target < target - below
}

fn pick(upper: bool, up: u32, down: u32) -> u32
    ensures { result ≡ (if upper then up else down) }
{
    if upper { up } else { down }
}

fn is_negative(coefficient: i16) -> bool
    ensures { result ≡ negative coefficient }
{
    coefficient < 0
}

// What the sizes of values are saturated at.
fn limit_of(negative: bool) -> u32
    ensures { result ≡ (if negative then 2048 else 2047) }
{
    2047 + u32::from(negative)
}

fn with_sign(size: u32, negative: bool) -> i16
    requires { size ≤ 2047 }
    ensures { result ≡ (if negative then neg_ℤ (pos size) else pos size) }
{
    if negative {
        -(size as i16)
    } else {
        size as i16
    }
}
