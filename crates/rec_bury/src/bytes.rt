//! Samples as bytes, and their pairs.
ghost use Rattle.std.specs.Prelude.{◌≡◌, ◌+◌, ◌*◌, ◌/◌, ◌%◌, ◌<◌, ◌≤◌, length, slice_index, slice_set};
ghost use Rattle.rec_bury.specs.Buried.{slot_byte};
ghost use Rattle.rec_bury.specs.Steps.{pair_of_word};

/// Puts sample k of 10 bits, the low byte first.
pub(crate) fn put_sample(to: &mut [u8], k: usize, v: u16)
    requires room { 2 * k + 1 < length to.old }
    requires small { v < 1024 }
    ensures { to.new ≡ slice_set (slice_set to.old (2 * k) (v % 256)) (2 * k + 1) (v / 256) }
{
    to[2 * k] = (v % 256) as u8;
    to[2 * k + 1] = (v / 256) as u8;
}

/// Pair x of the eight of two bytes.
pub(crate) fn pair_of(word: u16, x: usize) -> u16
    requires { x < 8 }
    ensures value { result ≡ pair_of_word word x }
    ensures small { result < 4 }
{
    (word >> (14 - 2 * x)) % 4
}

/// The bytes 2b and 2b + 1 of the slot of macroblock m.
pub(crate) fn slot_word(slots: &[u8], sheet: &[u8], m: usize, b: usize) -> u16
    requires slots { 20 * m + 20 ≤ length slots.now }
    requires sheet { 12 * m + 12 ≤ length sheet.now }
    requires inside { b < 16 }
    ensures value { result ≡ 256 * slot_byte slots.now sheet.now m (2 * b)
        + slot_byte slots.now sheet.now m (2 * b + 1) }
    ensures high { slot_byte slots.now sheet.now m (2 * b) < 256 }
    ensures low { slot_byte slots.now sheet.now m (2 * b + 1) < 256 }
{
    if b < 10 {
        256 * u16::from(slots[20 * m + 2 * b]) + u16::from(slots[20 * m + 2 * b + 1])
    } else {
        256 * u16::from(sheet[12 * m + (2 * b - 20)]) + u16::from(sheet[12 * m + (2 * b - 19)])
    }
}

/// The byte of the low pairs of four samples, the first one high.
pub(crate) fn byte_of_pairs(frame: &[u8], at: usize) -> u8
    requires { 2 * at + 8 ≤ length frame.now }
    ensures { result ≡ 64 * (slice_index frame.now (2 * at) % 4)
        + 16 * (slice_index frame.now (2 * at + 2) % 4)
        + 4 * (slice_index frame.now (2 * at + 4) % 4) + slice_index frame.now (2 * at + 6) % 4 }
{
    64 * (frame[2 * at] % 4)
        + 16 * (frame[2 * at + 2] % 4)
        + 4 * (frame[2 * at + 4] % 4)
        + frame[2 * at + 6] % 4
}
