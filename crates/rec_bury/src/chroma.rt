//! The chroma planes of a frame, with what is buried in them.
ghost use Rattle.std.specs.Prelude.{◌≡◌, ℕ, ◌+◌, ◌*◌, ◌<◌, ◌≤◌, length, slice_index};
ghost use Rattle.rec_bury.specs.Steps.{AreWritten, AreRowValues, ArePlaneValues, pair_of_word};

use crate::bytes::{pair_of, put_sample, slot_word};

/// Writes a chroma plane whose samples stand from `start` on, with the lines of the slots from `first` on: Cb has
/// lines 0 to 7, and Cr lines 8 to 15.
pub(crate) fn put_plane(
    samples: &[u8],
    start: usize,
    slots: &[u8],
    sheet: &[u8],
    wide: u16,
    high: u16,
    first: usize,
    to: &mut [u8],
)
    requires from { start + 64 * (wide * high) ≤ length samples.now }
    requires room { 2 * length samples.now ≡ length to.old }
    requires slots { length slots.now ≡ 20 * (wide * high) }
    requires sheet { length sheet.now ≡ 12 * (wide * high) }
    requires lines { first ≤ 8 }
    ensures { (v : ℕ → ℕ) → ArePlaneValues v samples.now slots.now sheet.now start wide high first
        → AreWritten v to.old start → AreWritten v to.new (start + 64 * (wide * high)) }
{
    let wide = usize::from(wide);
    'rows: for y in 0..8 * usize::from(high) {
        put_row(
            samples,
            start + 8 * (y * wide),
            slots,
            sheet,
            y / 8 * wide,
            wide,
            first + y % 8,
            to,
        );
    }
}

/// Writes a row whose samples stand from `at` on, with line b of the slots from macroblock m on.
fn put_row(
    samples: &[u8],
    at: usize,
    slots: &[u8],
    sheet: &[u8],
    m: usize,
    wide: usize,
    b: usize,
    to: &mut [u8],
)
    requires from { at + 8 * wide ≤ length samples.now }
    requires room { 2 * length samples.now ≡ length to.old }
    requires slots { 20 * (m + wide) ≤ length slots.now }
    requires sheet { 12 * (m + wide) ≤ length sheet.now }
    requires line { b < 16 }
    ensures { (v : ℕ → ℕ) → AreRowValues v samples.now slots.now sheet.now at m wide b
        → AreWritten v to.old at → AreWritten v to.new (at + 8 * wide) }
{
    'macroblocks: for x in 0..wide {
        put_eight(samples, at + 8 * x, slot_word(slots, sheet, m + x, b), to);
    }
}

/// Writes eight samples with the eight pairs of two bytes.
fn put_eight(samples: &[u8], at: usize, word: u16, to: &mut [u8])
    requires from { at + 8 ≤ length samples.now }
    requires room { 2 * at + 16 ≤ length to.old }
    ensures { (v : ℕ → ℕ)
        → ((x : ℕ) → x < 8 → v (at + x)
        ≡ 4 * slice_index samples.now (at + x) + pair_of_word word x)
        → AreWritten v to.old at → AreWritten v to.new (at + 8) }
{
    'columns: for x in 0..8 {
        let sample = 4 * u16::from(samples[at + x]);
        put_sample(to, at + x, sample + pair_of(word, x));
    }
}
