//! Lines of samples, and their means (H.262, 7.6.4).
ghost use Rattle.std.specs.Prelude.{◌≡◌, ℕ, ◌+◌, ◌*◌, ◌/◌, ◌%◌, ◌^◌, ◌<◌, ◌≤◌, length, [], slice_index, slice_index_or, pos, ◌⊎◌};
ghost use Rattle.mv_terms.specs.Block.{entry};
ghost use Rattle.mv_predict.specs.Steps.{quarter, value_at, IsReadable};

/// Four lines of two times eight samples in a list of samples.
#[derive(Clone, Copy)]
pub(crate) struct Lines {
    /// Where the first begins.
    pub(crate) at: usize,
    /// How far its second half lies from its first.
    pub(crate) apart: usize,
    /// How far the lines lie apart.
    pub(crate) stride: usize,
    /// How far from each sample that one lies with which it is averaged in its line; 0 for none.
    pub(crate) right: usize,
    /// The same below it.
    pub(crate) down: usize,
}

/// Every other one of eight lines, from the first or the second on. The branch stands outside of the loops, so that each
/// is compiled to vectors.
#[inline(always)]
pub(crate) fn four_lines(samples: &[u8], s: &Lines, first: usize, out: &mut [[u8; 16]; 8])
    requires inside { IsReadable samples.now s.now }
    requires small { length samples.now < 2 ^ 63 }
    requires first { first < 2 }
    ensures left { (k c : ℕ) → k < 4 → c < 8
        → slice_index (slice_index_or out.new (2 * k + first) []) c
        ≡ value_at samples.now s.now s.now.at k c }
    ensures right { (k c : ℕ) → k < 4 → c < 8
        → slice_index (slice_index_or out.new (2 * k + first) []) (8 + c)
        ≡ value_at samples.now s.now (s.now.at + s.now.apart) k c }
    ensures others { (r : ℕ) → r < 8 → (r % 2 ≡ first → ⊥)
        → slice_index_or out.new r [] ≡ slice_index_or out.old r [] }
{
    if s.right == 0 && s.down == 0 {
        'wholes: for k in 0..4 {
            out[2 * k + first] = whole_line(samples, s, k);
        }
    } else if s.right == 0 {
        'downs: for k in 0..4 {
            out[2 * k + first] = half_line(samples, s, k);
        }
    } else if s.down == 0 {
        'rights: for k in 0..4 {
            out[2 * k + first] = half_line(samples, s, k);
        }
    } else {
        'quarters: for k in 0..4 {
            out[2 * k + first] = quarter_line(samples, s, k);
        }
    }
}

/// Writes a half of eight lines as a block.
#[inline(always)]
pub(crate) fn put_half(lines: &[[u8; 16]; 8], first: usize, out: &mut [i16; 64])
    requires first { first ≤ 8 }
    ensures { (row col : ℕ) → row < 8 → col < 8 → entry out.new row col
        ≡ pos (slice_index (slice_index_or lines.now row []) (first + col)) }
{
    for row in 0..8 {
        for col in 0..8 {
            out[8 * row + col] = i16::from(lines[row][first + col]);
        }
    }
}

/// The means of two lines (H.262, 7.6.4 and 7.6.7.1).
#[inline(always)]
pub(crate) fn means(a: &[u8; 16], b: &[u8; 16]) -> [u8; 16]
    ensures { (k : ℕ) → k < 16
        → slice_index result k ≡ (slice_index a.now k + slice_index b.now k + 1) / 2 }
{
    let mut row = [0; 16];
    for k in 0..16 {
        row[k] = mean(a[k], b[k]);
    }
    row
}

// The means of four lines (H.262, 7.6.4).
#[inline(always)]
fn quarters(a: &[u8; 16], b: &[u8; 16], c: &[u8; 16], d: &[u8; 16]) -> [u8; 16]
    ensures { (k : ℕ) → k < 16 → slice_index result k
        ≡ (slice_index a.now k + slice_index b.now k
        + slice_index c.now k + slice_index d.now k + 2) / 4 }
{
    let mut row = [0; 16];
    for k in 0..16 {
        row[k] = quarter(a[k], b[k], c[k], d[k]);
    }
    row
}

// The mean of four samples, in bytes alone, so that sixteen are computed at once. The mean of two means is 1 too much
// where it is rounded up, and one of the two is too.
#[inline(always)]
fn quarter(a: u8, b: u8, c: u8, d: u8) -> u8
    ensures { result ≡ (a + b + c + d + 2) / 4 }
{
    let first = mean(a, b);
    let second = mean(c, d);
    let whole = mean(first, second);
    let excess = ((a ^ b) % 2 | (c ^ d) % 2) & (first ^ second) % 2;
    whole - excess
}

// The mean of two samples.
#[inline(always)]
fn mean(a: u8, b: u8) -> u8
    ensures { result ≡ (a + b + 1) / 2 }
{
    ((u16::from(a) + u16::from(b) + 1) / 2) as u8
}

// Line k where no half sample is left.
#[inline(always)]
fn whole_line(samples: &[u8], s: &Lines, k: usize) -> [u8; 16]
    requires inside { IsReadable samples.now s.now }
    requires small { length samples.now < 2 ^ 63 }
    requires k { k < 4 }
    requires right { s.now.right ≡ 0 }
    requires down { s.now.down ≡ 0 }
    ensures first { (c : ℕ) → c < 8
        → slice_index result c ≡ value_at samples.now s.now s.now.at k c }
    ensures second { (c : ℕ) → c < 8
        → slice_index result (8 + c) ≡ value_at samples.now s.now (s.now.at + s.now.apart) k c }
{
    sixteen(samples, s.at + k * s.stride, s.apart)
}

// Line k where one is left, to the right or down.
#[inline(always)]
fn half_line(samples: &[u8], s: &Lines, k: usize) -> [u8; 16]
    requires inside { IsReadable samples.now s.now }
    requires small { length samples.now < 2 ^ 63 }
    requires k { k < 4 }
    requires one { (s.now.right ≡ 0) ⊎ (s.now.down ≡ 0) }
    ensures first { (c : ℕ) → c < 8
        → slice_index result c ≡ value_at samples.now s.now s.now.at k c }
    ensures second { (c : ℕ) → c < 8
        → slice_index result (8 + c) ≡ value_at samples.now s.now (s.now.at + s.now.apart) k c }
{
    let at = s.at + k * s.stride;
    means(
        &sixteen(samples, at, s.apart),
        &sixteen(samples, at + s.down + s.right, s.apart),
    )
}

// Line k.
#[inline(always)]
fn quarter_line(samples: &[u8], s: &Lines, k: usize) -> [u8; 16]
    requires inside { IsReadable samples.now s.now }
    requires small { length samples.now < 2 ^ 63 }
    requires k { k < 4 }
    ensures first { (c : ℕ) → c < 8
        → slice_index result c ≡ value_at samples.now s.now s.now.at k c }
    ensures second { (c : ℕ) → c < 8
        → slice_index result (8 + c) ≡ value_at samples.now s.now (s.now.at + s.now.apart) k c }
{
    let at = s.at + k * s.stride;
    let beside = sixteen(samples, at + s.right, s.apart);
    let below = sixteen(samples, at + s.down, s.apart);
    quarters(
        &sixteen(samples, at, s.apart),
        &beside,
        &below,
        &sixteen(samples, at + s.down + s.right, s.apart),
    )
}

// Eight samples, and eight that lie so far from these.
#[inline(always)]
fn sixteen(samples: &[u8], at: usize, apart: usize) -> [u8; 16]
    requires inside { at + apart + 7 < length samples.now }
    requires small { length samples.now < 2 ^ 63 }
    ensures first { (c : ℕ) → c < 8 → slice_index result c ≡ slice_index samples.now (at + c) }
    ensures second { (c : ℕ) → c < 8
        → slice_index result (8 + c) ≡ slice_index samples.now (at + apart + c) }
{
    let mut row = [0; 16];
    for k in 0..8 {
        row[k] = samples[at + k];
    }
    for j in 0..8 {
        row[8 + j] = samples[at + apart + j];
    }
    row
}
