//! The sizes of DC differences.
ghost use Rattle.std.specs.Prelude.{◌≤◌, IfSome};
ghost use Rattle.mv_codes.specs.Tables.{Reads, ReadsWhatever};
ghost use Rattle.mv_codes.specs.Sizes.{dc_size_codes};

use crate::code::{Code, codes, read};
use crate::look_up::{
    LONG_CHROMA_SIZES, LONG_LUMA_SIZES, LongTable, SHORT_CHROMA_SIZES, SHORT_LUMA_SIZES,
};
use mv_bits::BitWindow;

/// Reads the size of a DC difference in bits, 0 to 11 (H.262, Tables B.12 and B.13).
pub fn read_dc_size(w: &mut BitWindow<'_>, luma: bool) -> Option<u8>
    ensures reads { Reads (dc_size_codes luma) w.old w.new result }
    ensures whatever { ReadsWhatever (dc_size_codes luma) w.old w.new result }
    ensures bound { IfSome result (λ size. size ≤ 11) }
{
    if luma {
        read(
            &LUMA_SIZES,
            &SHORT_LUMA_SIZES,
            LongTable {
                width: 9,
                first: 510,
                rows: &LONG_LUMA_SIZES,
            },
            w,
        )
    } else {
        read(
            &CHROMA_SIZES,
            &SHORT_CHROMA_SIZES,
            LongTable {
                width: 10,
                first: 1020,
                rows: &LONG_CHROMA_SIZES,
            },
            w,
        )
    }
}

const LUMA_SIZES: [Code<u8>; 12] = codes![
    (0b100, 3) => 0, (0b00, 2) => 1, (0b01, 2) => 2, (0b101, 3) => 3,
    (0b110, 3) => 4, (0b1110, 4) => 5, (0b1111_0, 5) => 6, (0b1111_10, 6) => 7,
    (0b1111_110, 7) => 8, (0b1111_1110, 8) => 9, (0b1111_1111_0, 9) => 10, (0b1111_1111_1, 9) => 11,
];

const CHROMA_SIZES: [Code<u8>; 12] = codes![
    (0b00, 2) => 0, (0b01, 2) => 1, (0b10, 2) => 2, (0b110, 3) => 3,
    (0b1110, 4) => 4, (0b1111_0, 5) => 5, (0b1111_10, 6) => 6, (0b1111_110, 7) => 7,
    (0b1111_1110, 8) => 8, (0b1111_1111_0, 9) => 9, (0b1111_1111_10, 10) => 10, (0b1111_1111_11, 10) => 11,
];
