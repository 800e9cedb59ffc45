//! Heads and slices of pictures of 6x4 macroblocks, and how many samples of a plane aren't of one value.
ghost use Rattle.std.specs.Prelude.{◌≡◌, IsTrue};
ghost use Rattle.mv_bits.specs.Zeros.{zeros_at_end};

use mv_planes::{Picture, Plane};
use mv_terms::{Head, Matrices};
use std::alloc::Global;
use std::test::Fail;

/// An I picture with linear scales, precision 0, and matrices of 16.
pub const I_HEAD: Head = Head {
    f_code: [[15; 2]; 2],
    mb_wide: 6,
    mb_high: 4,
    matrices: Matrices {
        intra: [16; 64],
        non_intra: [16; 64],
    },
    ..Head::NONE
};

/// Behind the start code of a slice: six intra macroblocks whose samples are all 128, by scale code 8. Four of them are the
/// slices of the example stream.
#[rattlefmt::skip]
pub const GREY: &[u8] = &[
    0x43, 0x94, 0xA5, 0x22, 0x2E, 0x52, 0x94, 0x88, 0xB9, 0x4A, 0x52, 0x22,
    0xE5, 0x29, 0x48, 0x8B, 0x94, 0xA5, 0x22, 0x2E, 0x52, 0x94, 0x88, 0x80,
];

/// Slices of these bytes behind their start codes, one for each row of macroblocks.
pub fn slices_of(alloc: Global, rows: &[&[u8]]) -> Result<Vec<u8>, Fail> {
    let mut slices = Vec::new(alloc);
    let mut vertical_position = 0u8;
    for row in rows {
        vertical_position = vertical_position.wrapping_add(1);
        slices.extend_from_slice(&[0, 0, 1, vertical_position])?;
        slices.extend_from_slice(row)?;
    }
    Ok(slices)
}

pub fn ends_without_zero(bytes: &[u8]) -> bool
    ensures { IsTrue result → zeros_at_end bytes.now ≡ 0 }
{
    !bytes.is_empty() && bytes[bytes.len() - 1] != 0
}

/// How many samples of the plane aren't of this value.
pub fn samples_but(pic: &Picture, plane: Plane, value: u8) -> usize {
    let mut count = 0usize;
    for y in 0..pic.height(plane) {
        let row = pic.row(plane, y);
        count = count.saturating_add(row.iter().filter(|v| **v != value).count());
    }
    count
}
