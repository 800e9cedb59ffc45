//! `rec_reader`: the frame of the example stream, whose seal another program computed.
ghost use Rattle.std.specs.Prelude.{◌≡◌, ◌<◌, length, IfOk};

use crate::comparison::{same, same_bytes};
use crate::fixtures::{CONTEXT, FILE, I_SHEET, frame_with, seal_of};
use mv_planes::Picture;
use mv_terms::PicType;
use rec_bury::write_unrecorded;
use rec_reader::{Found, RecordReader, no_summary};
use std::alloc::Global;
use std::process::Abort;
use std::test::Fail;

/// The digest of its frame with zeros in place of the seal.
#[rattlefmt::skip]
const SEAL: [u8; 32] = [
    0xAF, 0x00, 0x2F, 0x97, 0xD4, 0x50, 0x16, 0x29, 0x34, 0xAD, 0xFB, 0x22, 0x10, 0xD4, 0x9B, 0x4A,
    0x6D, 0x0D, 0x23, 0x4E, 0x05, 0xF2, 0x7A, 0x30, 0x5D, 0x64, 0x1F, 0xD9, 0xF6, 0x62, 0xCB, 0x2E,
];

/// The frame of the stream, sealed, with these bits of a byte turned.
fn sealed(rt: &impl Abort, alloc: Global, at: usize, bits: u8) -> Result<Vec<u8>, Fail>
    requires { at < 18432 }
    ensures { IfOk result (λ frame. length frame.items ≡ 18432) }
{
    let mut frame = frame_with(rt, alloc, &I_SHEET, &SEAL)?;
    frame[at] ^= bits;
    Ok(frame)
}

#[test]
fn the_seal_is_that_of_another_program(rt: HostRuntime) -> Result<(), Fail> {
    same(&rt, &seal_of(&rt, rt.alloc(), &I_SHEET)?, &SEAL);
    Ok(())
}

/// The frame of a grey picture without a record.
fn unrecorded(rt: &impl Abort, alloc: Global) -> Result<Vec<u8>, Fail>
    ensures { IfOk result (λ frame. length frame.items ≡ 18432) }
{
    let picture = Picture::grey(alloc, 6, 4).map_err(|_| "no memory")?;
    let mut frame = vec![in alloc; 0; 18_432]?;
    assert!(rt; frame.len() == 2 * picture.samples().len());
    write_unrecorded(&picture, &mut frame);
    Ok(frame)
}

/// The record is that of the example, and so is its summary.
fn is_example(rt: &impl Abort, found: &Found<'_>) {
    assert_eq!(rt; found.decisions.len(), 24);
    same_bytes(rt, found.record.sheet.context, &CONTEXT);
    let summary = found.summary();
    assert_eq!(rt; summary.kind, Some(PicType::I));
    assert_eq!(rt; summary.seal, SEAL);
    assert_eq!(rt; summary.forward, None);
    assert!(rt; !summary.uses_forward && !summary.low_delay);
}

#[test]
fn the_record_of_a_sealed_frame_is_found(rt: HostRuntime) -> Result<(), Fail> {
    let alloc = rt.alloc();
    let frame = sealed(&rt, alloc, 0, 0)?;
    let mut reader = RecordReader::start(alloc, &FILE).map_err(|_| "no memory")?;
    let found = reader.read(&frame).ok_or("no record")?;
    is_example(&rt, &found);
    Ok(())
}

fn has_record(alloc: Global, frame: Vec<u8>) -> Result<bool, Fail>
    requires { length frame.items ≡ 18432 }
{
    let mut reader = RecordReader::start(alloc, &FILE).map_err(|_| "no memory")?;
    Ok(reader.read(&frame).is_some())
}

#[test]
fn nothing_is_found_where_the_seal_does_not_hold(rt: HostRuntime) -> Result<(), Fail> {
    let alloc = rt.alloc();
    assert!(rt; has_record(alloc, sealed(&rt, alloc, 0, 0)?)?);
    // a luma sample, and a bit of the seal
    assert!(rt; !has_record(alloc, sealed(&rt, alloc, 0, 1)?)?);
    assert!(rt; !has_record(alloc, sealed(&rt, alloc, 18_430, 1)?)?);
    Ok(())
}

#[test]
fn nothing_is_found_in_a_frame_without_a_record(rt: HostRuntime) -> Result<(), Fail> {
    let alloc = rt.alloc();
    assert!(rt; !has_record(alloc, unrecorded(&rt, alloc)?)?);
    let none = no_summary();
    assert_eq!(rt; none.kind, None);
    Ok(())
}
