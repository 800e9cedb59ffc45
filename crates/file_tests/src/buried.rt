//! `rec_bury`: frames worked by hand, and a seal that another program computed.
ghost use Rattle.std.specs.Prelude.{◌≡◌, length, IfOk};

use crate::comparison::{same, same_bytes};
use mv_planes::{Picture, Plane};
use rec_bury::{bury, exhume, seal, seal_holds, source, write_unrecorded};
use std::alloc::Global;
use std::process::Abort;
use std::test::Fail;

/// What is buried in a frame of two by two macroblocks: the bytes of the decisions, of which the first is an intra
/// macroblock that starts its slice, and the sheet in front of the seal.
#[rattlefmt::skip]
const SLOTS: [u8; 80] = [
    0x90, 8, 0, 0, 0, 0, 0, 0, 0, 0, 0, 0, 0, 0, 0, 0, 0, 0, 0, 8, 0x16, 0x33, 0x50, 0x6D, 0x8A, 0xA7, 0xC4,
    0xE1, 0xFE, 0x1B, 0x38, 0x55, 0x72, 0x8F, 0xAC, 0xC9, 0xE6, 3, 0x20, 0x3D, 0x27, 0x44, 0x61, 0x7E, 0x9B,
    0xB8, 0xD5, 0xF2, 0x0F, 0x2C, 0x49, 0x66, 0x83, 0xA0, 0xBD, 0xDA, 0xF7, 0x14, 0x31, 0x4E, 0x38, 0x55, 0x72,
    0x8F, 0xAC, 0xC9, 0xE6, 3, 0x20, 0x3D, 0x5A, 0x77, 0x94, 0xB1, 0xCE, 0xEB, 8, 0x25, 0x42, 0x5F,
];

#[rattlefmt::skip]
const SHEET: [u8; 48] = [
    3, 0x5E, 0xB9, 0x14, 0x6F, 0xCA, 0x25, 0x80, 0xDB, 0x36, 0x91, 0xEC, 0x47, 0xA2, 0xFD, 0x58, 0, 0, 0, 0, 0,
    0, 0, 0, 0, 0, 0, 0, 0, 0, 0, 0, 0, 0, 0, 0, 0, 0, 0, 0, 0, 0, 0, 0, 0, 0, 0, 0,
];

/// The digest of the frame.
#[rattlefmt::skip]
const SEAL: [u8; 32] = [
    0x94, 0xF5, 0xA0, 0xB4, 0x95, 0x5F, 0x92, 0x99, 0x8B, 0x54, 0x8B, 0x53, 0x58, 0x5A, 0xB8, 0xEE, 0x8A, 0x48,
    0x35, 0x0C, 0x2C, 0x7B, 0x91, 0xB5, 0x96, 0x5C, 0x0B, 0x3F, 0x51, 0x8B, 0x39, 0x85,
];

/// The first eight samples of Cb, with the bytes 0x90 and 8 in their low pairs.
const FIRST_EIGHT: [u16; 8] = [514, 513, 512, 512, 512, 512, 514, 512];

/// The frame of a grey picture but for a sample of luma and the last one of Cr, with this sheet.
fn buried(rt: &impl Abort, alloc: Global, sheet: &[u8; 48]) -> Result<Vec<u8>, Fail>
    ensures { IfOk result (λ frame. length frame.items ≡ 3072) }
{
    let mut picture = Picture::grey(alloc, 2, 2).map_err(|_| "no memory")?;
    picture.row_mut(Plane::Y, 0)[1] = 255;
    picture.row_mut(Plane::Cr, 15)[15] = 1;
    let mut frame = vec![in alloc; 7; 3072]?;
    assert!(rt; picture.mb_wide() == 2 && picture.mb_high() == 2);
    assert!(rt; frame.len() == 2 * picture.samples().len());
    bury(&picture, &SLOTS, sheet, &mut frame);
    Ok(frame)
}

fn sealed_sheet() -> [u8; 48] {
    let mut sheet = SHEET;
    for i in 0..32 {
        sheet[16 + i] = SEAL[i];
    }
    sheet
}

/// These samples stand at the front of Cb.
fn has_first_eight(rt: &impl Abort, frame: &[u8]) {
    for (k, sample) in FIRST_EIGHT.iter().enumerate() {
        let low = frame.get(2048 + 2 * k).copied().unwrap_or(0);
        let high = frame.get(2049 + 2 * k).copied().unwrap_or(0);
        assert_eq!(rt; u16::from(low) + 256 * u16::from(high), *sample);
    }
}

/// This sheet and the slots are taken out of the frame.
fn gives_back(rt: &impl Abort, frame: &[u8], sheet: &[u8; 48])
    requires { length frame.now ≡ 3072 }
{
    let mut slots = [7; 80];
    let mut bytes = [7; 48];
    exhume(frame, 2, 2, &mut slots, &mut bytes);
    assert_eq!(rt; slots, SLOTS);
    assert_eq!(rt; bytes, *sheet);
}

#[test]
fn a_sealed_frame_gives_back_what_is_buried_in_it(rt: HostRuntime) -> Result<(), Fail> {
    let frame = buried(&rt, rt.alloc(), &SHEET)?;
    same(&rt, &seal(&frame, 2, 2), &SEAL);
    same(&rt, &seal_holds(&frame, 2, 2), &false);
    let sheet = sealed_sheet();
    let mut frame = buried(&rt, rt.alloc(), &sheet)?;
    same(&rt, &seal_holds(&frame, 2, 2), &true);
    has_first_eight(&rt, &frame);
    gives_back(&rt, &frame, &sheet);
    frame[3071] ^= 2;
    same(&rt, &seal_holds(&frame, 2, 2), &false);
    Ok(())
}

#[test]
fn a_source_has_the_high_8_bits_of_each_sample(rt: HostRuntime) -> Result<(), Fail> {
    let alloc = rt.alloc();
    let mut picture = Picture::grey(alloc, 1, 1).map_err(|_| "no memory")?;
    let frame = vec![in alloc; 3; 768]?;
    assert!(rt; frame.len() == 2 * picture.samples().len());
    source(&frame, &mut picture);
    same(&rt, &picture.samples().iter().all(|v| *v == 192), &true);
    Ok(())
}

#[test]
fn each_sample_is_two_bytes_with_the_low_one_first(rt: HostRuntime) -> Result<(), Fail> {
    let mut picture = Picture::grey(rt.alloc(), 1, 1).map_err(|_| "no memory")?;
    picture.row_mut(Plane::Y, 0)[1] = 255;
    picture.row_mut(Plane::Cb, 0)[0] = 1;
    let mut frame = [7; 768];
    assert!(rt; frame.len() == 2 * picture.samples().len());
    write_unrecorded(&picture, &mut frame);
    same_bytes(&rt, &frame[..4], &[0, 2, 0xFC, 3]);
    same_bytes(&rt, &frame[512..515], &[4, 0, 0]);
    Ok(())
}
