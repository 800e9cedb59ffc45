//! When the levels of a decoded block are surely the nearest ones again, so that nothing has to be transformed.
ghost use Rattle.std.specs.Prelude.{◌≡◌, ℕ, ◌+◌, ◌*◌, ◌/◌, ◌^◌, ◌<◌, ◌≤◌, ◌==◌, false, IsTrue, slice_index, unsigned_abs};
ghost use Rattle.std.specs.List.{list_all};
ghost use Rattle.std.specs.Option.{ForSome};
ghost use Rattle.mv_terms.specs.Block.{item};
ghost use Rattle.mv_terms.specs.Sums.{total_below};
ghost use Rattle.mv_quant.specs.Dequantised.{step_at};
ghost use Rattle.mv_quant.specs.Macroblocks.{is_absent};
ghost use Rattle.mv_quant.specs.Steps.{dc_size};
ghost use Rattle.cert_picture.specs.Steps.{AreApart, AreUpTo, IsApart, StandAlone, StaysFound, first_coefficient, sample_at, total_of};

use mv_quant::Kind;

/// Whether a block has no coefficients.
pub(crate) fn is_absent(levels: &[i16; 64], kind: &Kind) -> bool
    ensures { result ≡ is_absent kind.now levels.now }
{
    if kind.intra { false } else { are_zero(levels) }
}

fn are_zero(levels: &[i16; 64]) -> bool
    ensures { result ≡ list_all (λ level. unsigned_abs level == 0) levels.now }
{
    let mut zero = true;
    for k in 0..64 {
        zero &= levels[k].unsigned_abs() == 0;
    }
    zero
}

/// The greatest size of levels that stand alone at all places but the first of an intra block; None where values lie too
/// near to each other at some place.
pub(crate) fn size_alone(kind: &Kind) -> Option<u16>
    ensures { ForSome result (StandAlone kind.now) }
{
    if !are_apart(kind) {
        return None;
    }
    let step = greatest_step(kind);
    // the least size is that of level 0
    if step > 21834 {
        return None;
    }
    Some(size_within(step))
}

// Whether values lie apart at all these places.
fn are_apart(kind: &Kind) -> bool
    ensures { IsTrue result → AreApart kind.now }
{
    for k in usize::from(kind.intra)..64 {
        if !is_apart(kind, k) {
            return false;
        }
    }
    true
}

fn is_apart(kind: &Kind, k: usize) -> bool
    requires { k < 64 }
    ensures { IsTrue result → IsApart kind.now k }
{
    let reach = if k == 63 { 6 } else { 5 };
    2 * reach < step_at(kind, k) / 16
}

// The greatest of the steps of all places, and 1.
fn greatest_step(kind: &Kind) -> u32
    ensures above { (k : ℕ) → k < 64 → step_at kind.now k ≤ result }
    ensures some { 0 < result }
{
    let mut greatest = 1;
    for k in 0..64 {
        greatest = step_at(kind, k).max(greatest);
    }
    greatest
}

/// The step of the place k: the entry of the matrix times the scale.
pub(crate) fn step_at(kind: &Kind, k: usize) -> u32
    requires { k < 64 }
    ensures value { result ≡ step_at kind.now k }
    ensures small { result ≤ 65025 }
{
    u32::from(kind.matrix[k]) * u32::from(kind.scale)
}

// The size of levels whose values by this step, and a sixteenth of it more, are at most 2047.
fn size_within(step: u32) -> u16
    requires some { 0 < step }
    requires few { step ≤ 21834 }
    ensures { (2 * result + 3) * step ≤ 65504 }
{
    ((65504 / step - 3) / 2) as u16
}

/// Whether the levels of a block with coefficients are surely found in its samples: nothing was cut off from these, and
/// all levels but the first of an intra block have a size that stands alone; that first one is looked for.
pub(crate) fn surely_stay(samples: &[u8; 64], levels: &[i16; 64], kind: &Kind, size: u16) -> bool
    requires alone { StandAlone kind.now size }
    requires precision { kind.now.dc_precision ≤ 3 }
    requires present { is_absent kind.now levels.now ≡ false }
    ensures { IsTrue result → StaysFound kind.now levels.now (sample_at samples.now) }
{
    if !are_uncut(samples) || !are_up_to(levels, kind.intra, size) {
        return false;
    }
    if !kind.intra {
        return true;
    }
    let coefficient = first_coefficient(sum_of(samples));
    is_first(first_size(levels), coefficient, kind.dc_precision)
}

// Whether no sample is 0 or 255.
fn are_uncut(samples: &[u8; 64]) -> bool
    ensures { IsTrue result → (k : ℕ) → k < 64
        → (0 < slice_index samples.now k) × (slice_index samples.now k < 255) }
{
    let mut least = 255;
    let mut greatest = 0;
    for k in 0..64 {
        least = samples[k].min(least);
        greatest = samples[k].max(greatest);
    }
    0 < least && greatest < 255
}

// Whether all levels but the first of an intra block have this size.
fn are_up_to(levels: &[i16; 64], intra: bool, size: u16) -> bool
    ensures { IsTrue result → AreUpTo intra levels.now size }
{
    let mut greatest = if intra { 0 } else { levels[0].unsigned_abs() };
    for k in 1..64 {
        greatest = levels[k].unsigned_abs().max(greatest);
    }
    greatest <= size
}

/// The size of the first level.
pub(crate) fn first_size(levels: &[i16; 64]) -> u16
    ensures { result ≡ unsigned_abs (item levels.now 0) }
{
    levels[0].unsigned_abs()
}

/// Whether a first coefficient lies nearest to the first level of an intra block of this size.
pub(crate) fn is_first(size: u16, coefficient: u32, precision: u8) -> bool
    requires precision { precision ≤ 3 }
    requires coefficient { coefficient ≤ 2 ^ 15 }
    ensures { IsTrue result → size < 2 ^ (8 + precision)
        → dc_size precision coefficient ≡ size }
{
    let multiplier = multiplier_of(precision);
    let value = multiplier * u32::from(size);
    2 * (value.max(coefficient) - value.min(coefficient)) < multiplier
}

fn multiplier_of(precision: u8) -> u32
    requires { precision ≤ 3 }
    ensures value { result ≡ 8 / 2 ^ precision }
    ensures range { (0 < result) × (result ≤ 8) }
{
    match precision {
        0 => 8,
        1 => 4,
        2 => 2,
        _ => 1,
    }
}

fn first_coefficient(sum: u32) -> u32
    requires { sum ≤ 16320 }
    ensures value { result ≡ first_coefficient sum }
    ensures range { result ≤ 2040 }
{
    ((8_386_816 * u64::from(sum) + 0x200_0000) / 0x400_0000) as u32
}

fn sum_of(samples: &[u8; 64]) -> u32
    ensures value { result ≡ total_of samples.now }
    ensures range { result ≤ 16320 }
{
    let mut sum = 0;
    for y in 0..8 {
        sum += row_sum(samples, y);
    }
    sum
}

fn row_sum(samples: &[u8; 64], y: usize) -> u32
    requires { y < 8 }
    ensures value { result ≡ total_below 8 (sample_at samples.now y) }
    ensures range { result ≤ 2040 }
{
    let mut sum = 0;
    for x in 0..8 {
        sum += u32::from(samples[8 * y + x]);
    }
    sum
}
