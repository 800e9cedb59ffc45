//! Heads and decisions from which those of the tests are made, and headers as bytes.
use mv_terms::{Decision, Head, Matrices, PicType};

/// An I picture of frames of 6 by 4 macroblocks.
pub const I_HEAD: Head = Head {
    f_code: [[15; 2]; 2],
    mb_wide: 6,
    mb_high: 4,
    matrices: Matrices {
        intra: [16; 64],
        non_intra: [16; 64],
    },
    ..Head::NONE
};

/// P and B pictures of the same size.
pub const P_HEAD: Head = Head {
    pic: PicType::P,
    f_code: [[1; 2]; 2],
    ..I_HEAD
};

pub const B_HEAD: Head = Head {
    pic: PicType::B,
    ..P_HEAD
};

/// A B picture with field motion, and a P picture with concealment vectors.
pub const FIELD_HEAD: Head = Head {
    frame_only: false,
    ..B_HEAD
};

pub const CONCEALED_HEAD: Head = Head {
    concealment: true,
    ..P_HEAD
};

/// A P picture with field motion, whose vectors have one residual bit.
pub const MOVED_HEAD: Head = Head {
    f_code: [[2, 2], [15, 15]],
    frame_only: false,
    ..P_HEAD
};

/// An intra macroblock with scale code 8, not the first of its slice.
pub const INTRA: Decision = Decision {
    intra: true,
    scale: 8,
    ..Decision::NONE
};

/// The sequence part and the head of the example: 96x64 luma samples, progressive, 25 frames a second, an I picture.
pub const PART: &[u8] =
    b"\x00\x00\x01\xB3\x06\x00\x40\x13\xFF\xFF\xE3\x80\x00\x00\x01\xB5\x14\x8A\x00\x01\x00\x00";

pub const I_BYTES: &[u8] = b"\x00\x00\x01\x00\x00\x0F\xFF\xF8\x00\x00\x01\xB5\x8F\xFF\xF3\x41\x80";

/// Heads of a P picture, which FFmpeg wrote, and of a B picture in the same form.
pub const P_BYTES: &[u8] =
    b"\x00\x00\x01\x00\x00\x57\xFF\xFB\x80\x00\x00\x01\xB5\x81\x1F\xF3\x41\x80";

pub const B_BYTES: &[u8] =
    b"\x00\x00\x01\x00\x00\x9F\xFF\xFB\xB8\x00\x00\x01\xB5\x81\x11\x13\x41\x80";

/// A group of pictures header.
pub const GROUP: &[u8] = b"\x00\x00\x01\xB8\x00\x08\x00\x40";
