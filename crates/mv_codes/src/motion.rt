//! Motion codes.
ghost use Rattle.std.specs.Prelude.{◌≤ℤ◌, IfSome, pos, neg_ℤ};
ghost use Rattle.mv_codes.specs.Tables.{Reads, ReadsWhatever};
ghost use Rattle.mv_codes.specs.Motions.{motion_codes};

use crate::code::{Code, codes, read};
use crate::look_up::{LONG_MOTIONS, LongTable, SHORT_MOTIONS};
use mv_bits::BitWindow;

/// Reads a motion code, -16 to 16 (H.262, Table B.10).
pub fn read_motion(w: &mut BitWindow<'_>) -> Option<i8>
    ensures reads { Reads motion_codes w.old w.new result }
    ensures whatever { ReadsWhatever motion_codes w.old w.new result }
    ensures bound { IfSome result (λ code. (neg_ℤ (pos 16) ≤ℤ code) × (code ≤ℤ pos 16)) }
{
    read(
        &MOTIONS,
        &SHORT_MOTIONS,
        LongTable {
            width: 11,
            first: 24,
            rows: &LONG_MOTIONS,
        },
        w,
    )
}

const MOTIONS: [Code<i8>; 33] = codes![
    (0b1, 1) => 0, (0b010, 3) => 1, (0b011, 3) => -1,
    (0b0010, 4) => 2, (0b0011, 4) => -2, (0b0001_0, 5) => 3,
    (0b0001_1, 5) => -3, (0b0000_110, 7) => 4, (0b0000_111, 7) => -4,
    (0b0000_1010, 8) => 5, (0b0000_1011, 8) => -5, (0b0000_1000, 8) => 6,
    (0b0000_1001, 8) => -6, (0b0000_0110, 8) => 7, (0b0000_0111, 8) => -7,
    (0b0000_0101_10, 10) => 8, (0b0000_0101_11, 10) => -8, (0b0000_0101_00, 10) => 9,
    (0b0000_0101_01, 10) => -9, (0b0000_0100_10, 10) => 10, (0b0000_0100_11, 10) => -10,
    (0b0000_0100_010, 11) => 11, (0b0000_0100_011, 11) => -11, (0b0000_0100_000, 11) => 12,
    (0b0000_0100_001, 11) => -12, (0b0000_0011_110, 11) => 13, (0b0000_0011_111, 11) => -13,
    (0b0000_0011_100, 11) => 14, (0b0000_0011_101, 11) => -14, (0b0000_0011_010, 11) => 15,
    (0b0000_0011_011, 11) => -15, (0b0000_0011_000, 11) => 16, (0b0000_0011_001, 11) => -16,
];
