//! Parts of a picture, and where the blocks of a macroblock stand.
ghost use Rattle.std.specs.Prelude.{◌≡◌, ◌*◌, ◌^◌, ◌<◌, ◌≤◌};
ghost use Rattle.mv_planes.specs.Layout.{plane_of, part_at, IsInMacroblock};

use crate::picture::Plane;

/// Eight by eight samples of a plane.
#[derive(Clone, Copy, Debug, PartialEq, Eq)]
pub struct Part {
    pub plane: Plane,
    /// The column of its first sample in the plane.
    pub x: usize,
    /// The line of its first sample.
    pub y: usize,
    /// How many lines its rows lie apart: 1, or 2 for the lines of one field.
    pub step: usize,
}

/// Where block b (Y 0 to 3, two beside each other, then Cb 4 and Cr 5) of the macroblock at this column and row stands in
/// its picture (H.262, 6.1.3). The luma blocks have the lines of the fields where `field_dct` is true (6.3.17.1).
#[inline(always)]
pub fn part_at(field_dct: bool, mb_x: usize, mb_y: usize, b: usize) -> Part
    requires b { b < 6 }
    requires small { (mb_x < 2 ^ 16) × (mb_y < 2 ^ 16) }
    ensures value { result ≡ part_at field_dct (plane_of b) mb_x mb_y b }
    ensures inside { IsInMacroblock result mb_x mb_y }
    ensures small { (result.x < 2 ^ 21) × (result.y < 2 ^ 21) }
    ensures step { (1 ≤ result.step) × (result.step ≤ 2) }
{
    if b < 4 {
        luma_part(field_dct, mb_x, mb_y, b)
    } else if b == 4 {
        chroma_part(Plane::Cb, mb_x, mb_y)
    } else {
        chroma_part(Plane::Cr, mb_x, mb_y)
    }
}

#[inline(always)]
fn luma_part(field_dct: bool, mb_x: usize, mb_y: usize, b: usize) -> Part
    requires b { b < 4 }
    requires small { (mb_x < 2 ^ 16) × (mb_y < 2 ^ 16) }
    ensures { result ≡ part_at field_dct Plane.Y mb_x mb_y b }
{
    let x = 16 * mb_x + 8 * (b % 2);
    if field_dct {
        Part {
            plane: Plane::Y,
            x,
            y: 16 * mb_y + b / 2,
            step: 2,
        }
    } else {
        Part {
            plane: Plane::Y,
            x,
            y: 16 * mb_y + 8 * (b / 2),
            step: 1,
        }
    }
}

#[inline(always)]
fn chroma_part(plane: Plane, mb_x: usize, mb_y: usize) -> Part
    requires small { (mb_x < 2 ^ 16) × (mb_y < 2 ^ 16) }
    ensures { result ≡ record { plane = plane; x = 8 * mb_x; y = 8 * mb_y; step = 1 } }
{
    Part {
        plane,
        x: 8 * mb_x,
        y: 8 * mb_y,
        step: 1,
    }
}
