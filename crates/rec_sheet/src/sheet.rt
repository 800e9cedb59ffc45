//! What a sheet says, and whether it has room.
ghost use Rattle.std.specs.Prelude.{◌+◌, ◌*◌, ◌≤◌, IsTrue, ◌↔◌};

use mv_terms::PicType;

/// What a sheet says of a picture.
#[derive(Clone, Copy, Debug)]
pub struct Sheet<'a> {
    pub pic: PicType,
    /// 1 where the picture is certified, 2 where it uses its forward reference, 4 and 8 where it has a forward and a
    /// backward link, 16 where an end code stands behind it.
    pub flags: u8,
    /// The seal of the frame that the picture refers to forward, or zeros.
    pub forward: [u8; 32],
    /// The seal of the frame that the picture refers to backward, or zeros.
    pub backward: [u8; 32],
    /// How many zero bytes stand behind the slices.
    pub n1: u32,
    /// How many zero bytes stand behind the end code, 0 without one.
    pub n2: u32,
    /// The sequence header in force, with its extensions.
    pub context: &'a [u8],
    /// The sequence header and the group of pictures header in front of the picture, or nothing.
    pub prefix: &'a [u8],
    /// The picture header with its extensions.
    pub head: &'a [u8],
}

/// Whether a sheet with parts of these lengths fits into the shares of so many macroblocks, 12 bytes each.
pub fn fits(macroblocks: usize, context: usize, prefix: usize, head: usize) -> bool
    ensures { IsTrue result ↔ (118 + context + prefix + head ≤ 12 * macroblocks) }
{
    let shares = context / 12 + prefix / 12 + head / 12;
    let left = 118 + context % 12 + prefix % 12 + head % 12;
    shares + (left + 11) / 12 <= macroblocks
}
