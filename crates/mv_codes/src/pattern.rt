//! The patterns of coded blocks.
ghost use Rattle.std.specs.Prelude.{◌<◌, IfSome};
ghost use Rattle.mv_codes.specs.Tables.{Reads, ReadsWhatever};
ghost use Rattle.mv_codes.specs.Patterns.{pattern_codes};

use crate::code::{Code, codes, read};
use crate::look_up::{LONG_PATTERNS, LongTable, SHORT_PATTERNS};
use mv_bits::BitWindow;

/// Reads the pattern of the blocks that are coded, below 64: bit 5, worth 32, is Y0, and then come Y1, Y2, Y3, Cb and
/// Cr (H.262, Table B.9).
pub fn read_pattern(w: &mut BitWindow<'_>) -> Option<u8>
    ensures reads { Reads pattern_codes w.old w.new result }
    ensures whatever { ReadsWhatever pattern_codes w.old w.new result }
    ensures bound { IfSome result (λ pattern. pattern < 64) }
{
    read(
        &PATTERNS,
        &SHORT_PATTERNS,
        LongTable {
            width: 9,
            first: 1,
            rows: &LONG_PATTERNS,
        },
        w,
    )
}

const PATTERNS: [Code<u8>; 64] = codes![
    (0b111, 3) => 60, (0b1101, 4) => 4, (0b1100, 4) => 8, (0b1011, 4) => 16,
    (0b1010, 4) => 32, (0b1001_1, 5) => 12, (0b1001_0, 5) => 48, (0b1000_1, 5) => 20,
    (0b1000_0, 5) => 40, (0b0111_1, 5) => 28, (0b0111_0, 5) => 44, (0b0110_1, 5) => 52,
    (0b0110_0, 5) => 56, (0b0101_1, 5) => 1, (0b0101_0, 5) => 61, (0b0100_1, 5) => 2,
    (0b0100_0, 5) => 62, (0b0011_11, 6) => 24, (0b0011_10, 6) => 36, (0b0011_01, 6) => 3,
    (0b0011_00, 6) => 63, (0b0010_111, 7) => 5, (0b0010_110, 7) => 9, (0b0010_101, 7) => 17,
    (0b0010_100, 7) => 33, (0b0010_011, 7) => 6, (0b0010_010, 7) => 10, (0b0010_001, 7) => 18,
    (0b0010_000, 7) => 34, (0b0001_1111, 8) => 7, (0b0001_1110, 8) => 11, (0b0001_1101, 8) => 19,
    (0b0001_1100, 8) => 35, (0b0001_1011, 8) => 13, (0b0001_1010, 8) => 49, (0b0001_1001, 8) => 21,
    (0b0001_1000, 8) => 41, (0b0001_0111, 8) => 14, (0b0001_0110, 8) => 50, (0b0001_0101, 8) => 22,
    (0b0001_0100, 8) => 42, (0b0001_0011, 8) => 15, (0b0001_0010, 8) => 51, (0b0001_0001, 8) => 23,
    (0b0001_0000, 8) => 43, (0b0000_1111, 8) => 25, (0b0000_1110, 8) => 37, (0b0000_1101, 8) => 26,
    (0b0000_1100, 8) => 38, (0b0000_1011, 8) => 29, (0b0000_1010, 8) => 45, (0b0000_1001, 8) => 53,
    (0b0000_1000, 8) => 57, (0b0000_0111, 8) => 30, (0b0000_0110, 8) => 46, (0b0000_0101, 8) => 54,
    (0b0000_0100, 8) => 58, (0b0000_0011_1, 9) => 31, (0b0000_0011_0, 9) => 47, (0b0000_0010_1, 9) => 55,
    (0b0000_0010_0, 9) => 59, (0b0000_0001_1, 9) => 27, (0b0000_0001_0, 9) => 39, (0b0000_0000_1, 9) => 0,
];
