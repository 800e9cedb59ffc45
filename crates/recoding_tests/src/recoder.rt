//! `enc_guided`: a grey picture that is coded by its record.
ghost use Rattle.std.specs.Prelude.{◌≡◌, IsTrue};
ghost use Rattle.mv_terms.specs.declared.head.PicType.TheVariants.{I};

use crate::comparison::same_bytes;
use crate::fixtures::{CONTEXT, FILE, GROUP, I_HEAD, I_SHEET, slots};
use enc_guided::{PictureCoder, Recoder};
use mv_ends::MemSink;
use mv_planes::Picture;
use mv_terms::{Decision, PicType};
use plan_window::{Mode, Step};
use rec_legal::{Record, coded_law, legal};
use rec_reader::Found;
use rec_sheet::{Sheet, write_sheet};
use std::alloc::Global;
use std::test::Fail;

/// Behind the start code of each slice: six macroblocks whose samples are all 128.
#[rattlefmt::skip]
const ROW: [u8; 24] = [
    0x43, 0x94, 0xA5, 0x22, 0x2E, 0x52, 0x94, 0x88, 0xB9, 0x4A, 0x52, 0x22,
    0xE5, 0x29, 0x48, 0x8B, 0x94, 0xA5, 0x22, 0x2E, 0x52, 0x94, 0x88, 0x80,
];

/// Three zero bytes behind the slices, and an end code with one behind it.
const BEHIND: [u8; 8] = [0, 0, 0, 0, 0, 1, 0xB7, 0];

/// Its record: without a sequence part in its prefix.
const SHEET: Sheet<'static> = Sheet {
    flags: 17,
    n1: 3,
    n2: 1,
    prefix: &GROUP,
    ..I_SHEET
};

/// The stream of this picture alone.
fn stream(alloc: Global) -> Result<Vec<u8>, Fail> {
    let mut stream = CONTEXT.to_vec(alloc)?;
    stream.extend_from_slice(&GROUP)?;
    stream.extend_from_slice(&I_HEAD)?;
    for row in 1..5 {
        stream.extend_from_slice(&[0, 0, 1, row])?;
        stream.extend_from_slice(&ROW)?;
    }
    stream.extend_from_slice(&BEHIND)?;
    Ok(stream)
}

fn is_intra(said: &Record<'_>) -> bool
    ensures { IsTrue result → said.now.sheet.pic ≡ I }
{
    matches!(said.sheet.pic, PicType::I)
}

#[test]
fn a_picture_is_coded_by_its_record(rt: HostRuntime) -> Result<(), Fail> {
    let alloc = rt.alloc();
    let mut sheet = [0; 288];
    write_sheet(&SHEET, &mut sheet);
    let mut decisions = [Decision::NONE; 24];
    let record = legal(&slots(true), &sheet, &FILE, &mut decisions).ok_or("no record")?;
    assert!(rt; is_intra(&record));
    let step = Step {
        frame: 0,
        anchor: true,
        mode: Mode::Guided,
    };
    let frame = vec![in alloc; 2; 18432]?;
    let found = Found {
        record,
        decisions: &decisions,
    };
    let mut recoder = Recoder::start(alloc, &FILE, 8).ok().ok_or("no memory")?;
    let mut sink = MemSink::with_room(alloc, 200)?;
    assert!(rt; recoder.guided(&step, &frame, &found, &mut sink).is_ok());
    assert!(rt; recoder.finish(&mut sink).is_ok());
    same_bytes(&rt, sink.bytes(), &stream(alloc)?);
    Ok(())
}

/// The same picture, by a record that stands in no frame, from a source that no frame gives.
#[test]
fn a_picture_is_coded_by_a_record_of_no_frame(rt: HostRuntime) -> Result<(), Fail> {
    // for the proof: the headers of a record are legal
    coded_law();
    let alloc = rt.alloc();
    let mut sheet = [0; 288];
    write_sheet(&SHEET, &mut sheet);
    let mut decisions = [Decision::NONE; 24];
    let record = legal(&slots(true), &sheet, &FILE, &mut decisions).ok_or("no record")?;
    assert!(rt; is_intra(&record));
    let source = Picture::grey(alloc, 6, 4).ok().ok_or("no memory")?;
    let guide = Found {
        record,
        decisions: &decisions,
    };
    let mut coder = PictureCoder::start(alloc, &FILE, 8)
        .ok()
        .ok_or("no memory")?;
    let mut sink = MemSink::with_room(alloc, 200)?;
    assert!(rt; coder.guided(7, &guide, &source, &mut sink).is_ok());
    assert!(rt; coder.finish(&mut sink).is_ok());
    same_bytes(&rt, sink.bytes(), &stream(alloc)?);
    Ok(())
}
