//! `cert_picture`: the frame of the example stream, whose seal another program computed, and pictures with and without room
//! for a record.
ghost use Rattle.std.specs.Prelude.{◌≡◌, ◌*◌, length, IsTrue};
ghost use Rattle.mv_bits.specs.Elements.{are_elements};
ghost use Rattle.mv_bits.specs.Zeros.{zeros_at_end};
ghost use Rattle.mv_terms.specs.CodedPicture.{macroblocks};
ghost use Rattle.mv_terms.specs.Ranges.{IsHead};

use crate::comparison::same;
use crate::fixtures::{GREY, I_HEAD, ends_without_zero, slices_of};
use cert_picture::{FrameRoom, StreamParts, make_frame};
use mv_bits::has_no_front;
use mv_planes::{Coded, Picture, RefPair};
use mv_recon::reconstruct;
use mv_slices::read_slices;
use mv_terms::{Decision, Head, MacroLevels, Matrices, UnitParts};
use rec_bury::{exhume, seal_holds};
use std::alloc::Global;
use std::process::Abort;
use std::test::Fail;

/// The head of the example stream's picture; the other pictures have fewer rows.
const HEAD: Head = Head {
    matrices: Matrices::DEFAULT,
    ..I_HEAD
};

/// The sequence part and the group of pictures header of the example stream, and its picture's head.
#[rattlefmt::skip]
const PREFIX: [u8; 30] = [
    0, 0, 1, 0xB3, 6, 0, 0x40, 0x13, 0xFF, 0xFF, 0xE3, 0x80,
    0, 0, 1, 0xB5, 0x14, 0x8A, 0, 1, 0, 0,
    0, 0, 1, 0xB8, 0, 8, 0, 0x40,
];

const PICTURE_HEAD: [u8; 17] = [
    0, 0, 1, 0, 0, 0x0F, 0xFF, 0xF8, 0, 0, 1, 0xB5, 0x8F, 0xFF, 0xF3, 0x41, 0x80,
];

/// The digest of the frame whose seal is zeros.
#[rattlefmt::skip]
const SEAL: [u8; 32] = [
    0xAF, 0x00, 0x2F, 0x97, 0xD4, 0x50, 0x16, 0x29, 0x34, 0xAD, 0xFB, 0x22, 0x10, 0xD4, 0x9B, 0x4A,
    0x6D, 0x0D, 0x23, 0x4E, 0x05, 0xF2, 0x7A, 0x30, 0x5D, 0x64, 0x1F, 0xD9, 0xF6, 0x62, 0xCB, 0x2E,
];

/// The first samples of Cb, 514, 513, four times 512, 514 and 512: they have the bytes 0x90 and 8 in their low pairs.
const FIRST_EIGHT: [u8; 16] = [2, 2, 1, 2, 0, 2, 0, 2, 0, 2, 0, 2, 2, 2, 0, 2];

/// The lengths of the example's sequence part, prefix and head, as its sheet has them.
const LENGTHS: [u8; 6] = [0, 0x16, 0, 0x1E, 0, 0x11];

/// So many slices of the example stream.
fn grey_slices(alloc: Global, rows: u16) -> Result<Vec<u8>, Fail> {
    match rows {
        1 => slices_of(alloc, &[GREY]),
        2 => slices_of(alloc, &[GREY, GREY]),
        _ => slices_of(alloc, &[GREY, GREY, GREY, GREY]),
    }
}

/// Decodes a picture from its slices, with grey references, and makes its frame. Answers the seal.
fn decoded_frame(
    alloc: Global,
    head: &Head,
    extended: bool,
    stream: &StreamParts<'_>,
    decisions: &mut [Decision],
    levels: &mut [MacroLevels],
    to: &mut Vec<u8>,
) -> Result<Option<[u8; 32]>, Fail>
    requires head { IsHead head.now }
    requires elements { IsTrue (are_elements stream.now.unit.slices.now) }
    requires slices { zeros_at_end stream.now.unit.slices.now ≡ 0 }
    requires decisions { length decisions.old ≡ macroblocks head.now }
    requires levels { length levels.old ≡ macroblocks head.now }
    requires frame { length to.old.items ≡ 768 * macroblocks head.now }
{
    if let Ok(()) = read_slices(head, stream.unit.slices, decisions, levels) {
        let grey = Picture::grey(alloc, head.mb_wide, head.mb_high)?;
        let mut picture = Picture::grey(alloc, head.mb_wide, head.mb_high)?;
        let mut room = FrameRoom::start(alloc, head.mb_wide, head.mb_high)?;
        let refs = RefPair {
            forward: &grey,
            backward: &grey,
        };
        reconstruct(head, decisions, levels, &refs, &mut picture);
        let coded = Coded {
            head,
            decisions,
            levels,
            picture: &picture,
            refs,
            extended,
        };
        Ok(make_frame(&coded, stream, &mut room, to))
    } else {
        Err("refused slices")?
    }
}

/// Makes the frame of a picture of so many rows, and answers its seal.
fn frame_of(
    rt: &impl Abort,
    alloc: Global,
    mb_high: u16,
    extended: bool,
    stream: &StreamParts<'_>,
    to: &mut Vec<u8>,
) -> Result<Option<[u8; 32]>, Fail> {
    let head = Head { mb_high, ..HEAD };
    assert!(rt; head.is_legal());
    assert!(rt; has_no_front(stream.unit.slices));
    assert!(rt; ends_without_zero(stream.unit.slices));
    let count = 6 * usize::from(mb_high);
    assert_eq!(rt; to.len(), 768 * count);
    let mut decisions = vec![in alloc; Decision::NONE; count]?;
    let mut levels = vec![in alloc; MacroLevels::NONE; count]?;
    decoded_frame(
        alloc,
        &head,
        extended,
        stream,
        &mut decisions,
        &mut levels,
        to,
    )
}

/// The frame of the example has its record: certified, and nothing else.
fn has_record(rt: &impl Abort, frame: &[u8]) {
    assert_eq!(rt; frame.len(), 18_432);
    assert_eq!(rt; &frame[12_288..12_304], &FIRST_EIGHT[..]);
    assert!(rt; seal_holds(frame, 6, 4));
    let mut slots = [7; 480];
    let mut sheet = [7; 288];
    exhume(frame, 6, 4, &mut slots, &mut sheet);
    assert_eq!(rt; sheet[6], 1);
    assert_eq!(rt; &sheet[80..86], &LENGTHS[..]);
}

#[test]
fn the_frame_of_the_example_has_its_record(rt: HostRuntime) -> Result<(), Fail> {
    let alloc = rt.alloc();
    let slices = grey_slices(alloc, 4)?;
    let unit = UnitParts {
        prefix: &PREFIX,
        head: &PICTURE_HEAD,
        slices: &slices,
        zeros: 0,
        end: None,
    };
    let stream = StreamParts {
        unit,
        context: &PREFIX[..22],
        forward: None,
        backward: None,
    };
    let mut frame = vec![in alloc; 7; 18_432]?;
    let seal = frame_of(&rt, alloc, 4, false, &stream, &mut frame)?;
    same(&rt, &seal, &Some(SEAL));
    has_record(&rt, &frame);
    Ok(())
}

/// Rows of a picture; whether a quant matrix extension is in force; the bytes of the context; the zero bytes behind the
/// slices, and behind an end code; and whether the picture has a record.
#[rattlefmt::skip]
const PICTURES: &[(u16, bool, usize, u64, Option<u64>, bool)] = &[
    // six macroblocks have room for 72 bytes, and 118 are taken whatever there is to say
    (1, false, 0, 0, None, false),
    // twelve have room for 144
    (2, false, 26, 0, None, true),
    (2, false, 27, 0, None, false),
    (2, true, 0, 0, None, false),
    (2, false, 0, 16_777_215, Some(16_777_215), true),
    (2, false, 0, 16_777_216, None, false),
    (2, false, 0, 0, Some(16_777_216), false),
];

#[test]
fn a_picture_has_a_record_where_there_is_room(rt: HostRuntime) -> Result<(), Fail> {
    let alloc = rt.alloc();
    for (mb_high, extended, context, zeros, end, recorded) in PICTURES {
        let slices = grey_slices(alloc, *mb_high)?;
        let unit = UnitParts {
            prefix: &[],
            head: &[],
            slices: &slices,
            zeros: *zeros,
            end: *end,
        };
        let stream = StreamParts {
            unit,
            context: context_of(*context),
            forward: None,
            backward: None,
        };
        let mut frame = vec![in alloc; 7; 4608 * usize::from(*mb_high)]?;
        let seal = frame_of(&rt, alloc, *mb_high, *extended, &stream, &mut frame)?;
        same(&rt, &seal.is_some(), recorded);
    }
    Ok(())
}

/// A context of so many zero bytes.
fn context_of(count: usize) -> &'static [u8] {
    ZEROS.get(..count).unwrap_or(&ZEROS)
}

const ZEROS: [u8; 27] = [0; 27];
