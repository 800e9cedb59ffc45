//! What is buried in a frame, taken out again.
ghost use Rattle.std.specs.Prelude.{◌≡◌, ◌+◌, ◌*◌, ◌<◌, length};
ghost use Rattle.rec_bury.specs.Exhumed.{byte_in, slots_in, sheet_in};
ghost use Rattle.rec_bury.specs.Steps.{AreTaken, slots_at, sheet_at};

use crate::bytes::byte_of_pairs;

/// Takes out what is buried in a frame of this size in macroblocks: 20 bytes of each slot, and the 12 of each share of
/// the sheet, both in the order of the macroblocks.
pub fn exhume(frame: &[u8], wide: u16, high: u16, slots: &mut [u8], sheet: &mut [u8])
    requires size { length frame.now ≡ 768 * (wide * high) }
    requires slots { length slots.old ≡ 20 * (wide * high) }
    requires sheet { length sheet.old ≡ 12 * (wide * high) }
    ensures slots { slots.new ≡ slots_in wide high frame.now }
    ensures sheet { sheet.new ≡ sheet_in wide high frame.now }
{
    let wide = usize::from(wide);
    let high = usize::from(high);
    'rows: for y in 0..high {
        'macroblocks: for x in 0..wide {
            take_slot(frame, wide, high, x, y, slots);
            take_share(frame, wide, high, x, y, sheet);
        }
    }
}

/// Takes out the bytes of the decision of the macroblock at column x of row y.
fn take_slot(frame: &[u8], wide: usize, high: usize, x: usize, y: usize, slots: &mut [u8])
    requires size { length frame.now ≡ 768 * (wide * high) }
    requires slots { length slots.old ≡ 20 * (wide * high) }
    requires narrow { wide < 65536 }
    requires low { high < 65536 }
    requires column { x < wide }
    requires row { y < high }
    ensures { AreTaken (slots_at wide high frame.now) slots.old (20 * (y * wide + x))
        → AreTaken (slots_at wide high frame.now) slots.new (20 * (y * wide + x) + 20) }
{
    let m = y * wide + x;
    'bytes: for b in 0..20 {
        slots[20 * m + b] = byte_at(frame, wide, high, x, y, b);
    }
}

/// Takes out its share of the sheet.
fn take_share(frame: &[u8], wide: usize, high: usize, x: usize, y: usize, sheet: &mut [u8])
    requires size { length frame.now ≡ 768 * (wide * high) }
    requires sheet { length sheet.old ≡ 12 * (wide * high) }
    requires narrow { wide < 65536 }
    requires low { high < 65536 }
    requires column { x < wide }
    requires row { y < high }
    ensures { AreTaken (sheet_at wide high frame.now) sheet.old (12 * (y * wide + x))
        → AreTaken (sheet_at wide high frame.now) sheet.new (12 * (y * wide + x) + 12) }
{
    let m = y * wide + x;
    'bytes: for b in 0..12 {
        sheet[12 * m + b] = byte_at(frame, wide, high, x, y, 20 + b);
    }
}

/// Byte k of the sheet.
pub(crate) fn sheet_byte(frame: &[u8], wide: usize, high: usize, k: usize) -> u8
    requires size { length frame.now ≡ 768 * (wide * high) }
    requires narrow { wide < 65536 }
    requires low { high < 65536 }
    requires inside { k < 12 * (wide * high) }
    ensures { result ≡ sheet_at wide high frame.now k }
{
    let m = k / 12;
    byte_at(frame, wide, high, m % wide, m / wide, 20 + k % 12)
}

/// Byte b of the slot of the macroblock at column x of row y: half of line b / 2 of its chroma blocks.
fn byte_at(frame: &[u8], wide: usize, high: usize, x: usize, y: usize, b: usize) -> u8
    requires size { length frame.now ≡ 768 * (wide * high) }
    requires narrow { wide < 65536 }
    requires low { high < 65536 }
    requires column { x < wide }
    requires row { y < high }
    requires inside { b < 32 }
    ensures { result ≡ byte_in wide high frame.now (y * wide + x) b }
{
    let start = if b < 16 {
        256 * (wide * high)
    } else {
        320 * (wide * high)
    };
    byte_of_pairs(
        frame,
        start + ((8 * y + b % 16 / 2) * (8 * wide) + (8 * x + 4 * (b % 2))),
    )
}
