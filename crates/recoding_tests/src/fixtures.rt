//! The record of the example stream's picture, those of a P and of a B picture of its size, and frames that carry records.
ghost use Rattle.std.specs.Prelude.{◌≡◌, length, IfOk};

use mv_planes::Picture;
use mv_terms::{Decision, FrameHeader, PicType};
use rec_bury::{bury, seal};
use rec_sheet::{Sheet, fits, write_sheet};
use rec_slot::slot_bytes;
use std::alloc::Global;
use std::process::Abort;
use std::test::Fail;

/// The header of a file of 96x64 samples, which are 24 macroblocks.
pub const FILE: FrameHeader = FrameHeader {
    wide: 96,
    high: 64,
    progressive: true,
    bottom_first: false,
    rate_num: 25,
    rate_den: 1,
};

/// A sequence header and its extension, a group of pictures header, and a prefix of all of these.
#[rattlefmt::skip]
pub const CONTEXT: [u8; 22] = [
    0, 0, 1, 0xB3, 0x06, 0, 0x40, 0x13, 0xFF, 0xFF, 0xE3, 0x80, 0, 0, 1, 0xB5, 0x14, 0x8A, 0, 1, 0, 0,
];

pub const GROUP: [u8; 8] = [0, 0, 1, 0xB8, 0, 0x08, 0, 0x40];

#[rattlefmt::skip]
pub const PREFIX: [u8; 30] = [
    0, 0, 1, 0xB3, 0x06, 0, 0x40, 0x13, 0xFF, 0xFF, 0xE3, 0x80, 0, 0, 1, 0xB5, 0x14, 0x8A, 0, 1, 0, 0,
    0, 0, 1, 0xB8, 0, 0x08, 0, 0x40,
];

/// Picture headers and picture coding extensions of each type, with f_codes of 1.
pub const I_HEAD: [u8; 17] = [
    0, 0, 1, 0, 0, 0x0F, 0xFF, 0xF8, 0, 0, 1, 0xB5, 0x8F, 0xFF, 0xF3, 0x41, 0x80,
];

pub const P_HEAD: [u8; 18] = [
    0, 0, 1, 0, 0, 0x17, 0xFF, 0xFB, 0x80, 0, 0, 1, 0xB5, 0x81, 0x1F, 0xF3, 0x41, 0x80,
];

pub const B_HEAD: [u8; 18] = [
    0, 0, 1, 0, 0, 0x1F, 0xFF, 0xFB, 0xB8, 0, 0, 1, 0xB5, 0x81, 0x11, 0x13, 0x41, 0x80,
];

/// The sheet of an I picture behind a sequence header, certified.
pub const I_SHEET: Sheet<'static> = Sheet {
    pic: PicType::I,
    flags: 1,
    forward: [0; 32],
    backward: [0; 32],
    n1: 0,
    n2: 0,
    context: &CONTEXT,
    prefix: &PREFIX,
    head: &I_HEAD,
};

/// Those of a P and of a B picture that use the forward reference. They have all links of their type, and aren't certified.
pub const P_SHEET: Sheet<'static> = Sheet {
    pic: PicType::P,
    flags: 6,
    forward: [5; 32],
    prefix: &[],
    head: &P_HEAD,
    ..I_SHEET
};

pub const B_SHEET: Sheet<'static> = Sheet {
    pic: PicType::B,
    flags: 14,
    backward: [6; 32],
    head: &B_HEAD,
    ..P_SHEET
};

/// The slots of macroblocks that are all alike, intra or predicted forward without motion, in slices of a row each.
pub fn slots(intra: bool) -> [u8; 480] {
    let mut slots = [0; 480];
    for m in 0..24 {
        let start = m % 6 == 0;
        let slot = slot_bytes(&Decision {
            slice_start: start,
            intra,
            forward: !intra,
            scale: 8,
            head_scale: if start { 8 } else { 0 },
            ..Decision::NONE
        });
        for i in 0..20 {
            slots[20 * m + i] = slot[i];
        }
    }
    slots
}

/// A sheet as bytes, with zeros for its seal.
pub fn sheet_bytes(rt: &impl Abort, said: &Sheet<'_>) -> [u8; 288] {
    let (context, prefix, head) = (said.context.len(), said.prefix.len(), said.head.len());
    assert!(rt; context <= 65535 && prefix <= 65535 && head <= 65535);
    assert!(rt; fits(24, context, prefix, head));
    let mut sheet = [0; 288];
    write_sheet(said, &mut sheet);
    sheet
}

/// The frame of a grey picture that carries this record, with this seal.
pub fn frame_with(
    rt: &impl Abort,
    alloc: Global,
    said: &Sheet<'_>,
    seal: &[u8; 32],
) -> Result<Vec<u8>, Fail>
    ensures { IfOk result (λ frame. length frame.items ≡ 18432) }
{
    let mut sheet = sheet_bytes(rt, said);
    for i in 0..32 {
        sheet[256 + i] = seal[i];
    }
    let slots = slots(matches!(said.pic, PicType::I));
    let picture = Picture::grey(alloc, 6, 4).map_err(|_| "no memory")?;
    let mut frame = vec![in alloc; 0; 18_432]?;
    assert!(rt; picture.mb_wide() == 6 && picture.mb_high() == 4);
    assert!(rt; frame.len() == 2 * picture.samples().len());
    bury(&picture, &slots, &sheet, &mut frame);
    Ok(frame)
}

/// The seal of such a frame, by which it is found: that of the frame with zeros in its place.
pub fn seal_of(rt: &impl Abort, alloc: Global, said: &Sheet<'_>) -> Result<[u8; 32], Fail> {
    let frame = frame_with(rt, alloc, said, &[0; 32])?;
    Ok(seal(&frame, 6, 4))
}
