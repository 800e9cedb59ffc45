//! `job_coding`: files of frames over endpoints in memory, coded by a coder that writes the frame of each step.
ghost use Rattle.std.specs.Prelude.{◌≡◌, map};
ghost use Rattle.recoding_tests.specs.Example.{each_frame, is_anchor, summary_of};

use crate::comparison::{same, same_bytes};
use job_coding::{Coder, coding_job};
use mv_ends::{Failed, MemShelf, MemSink, Sink, send};
use mv_terms::{FrameFault, FrameHeader, NoMemory, PicType, Status};
use plan_window::{Step, Summary};
use std::alloc::{AllocError, Global};
use std::test::Fail;

/// Codes by `specs/Example.antt`: it writes the frame of each step.
#[derive(Drop)]
struct Frames {
    header: FrameHeader,
}

fn is_anchor(frame: &[u8]) -> bool
    ensures { result ≡ is_anchor frame.now }
{
    match frame.get(1) {
        Some(high) => *high == 3,
        None => false,
    }
}

impl Coder for Frames {
    ghost coding_of = { λ scale. each_frame };

    ghost coding = { λ coder. each_frame coder.header };

    ghost stands = { λ coder frames numbered steps. numbered ≡ map summary_of frames };

    fn start(_alloc: Global, _scale: u8, header: &FrameHeader) -> Result<Frames, NoMemory> {
        Ok(Frames { header: *header })
    }

    fn look(&mut self, frame: &[u8]) -> Summary {
        Summary {
            kind: if is_anchor(frame) {
                Some(PicType::I)
            } else {
                None
            },
            low_delay: false,
            uses_forward: false,
            forward: None,
            backward: [0; 32],
            seal: [0; 32],
            context: [0; 32],
        }
    }

    fn code<O: Sink>(&mut self, _step: Step, frame: &[u8], out: &mut O) -> Result<(), Failed> {
        send(out, frame)
    }

    fn finish<O: Sink>(&mut self, _out: &mut O) -> Result<(), Failed> {
        Ok(())
    }
}

// The order in which 20 frames are coded: 2 and 5 have anchor records, and no frame behind them has.
const ORDER: [u8; 20] = [
    2, 0, 1, 5, 3, 4, 6, 7, 8, 9, 10, 11, 12, 13, 14, 15, 16, 17, 18, 19,
];

fn push_frame(file: &mut Vec<u8>, number: u8) -> Result<(), AllocError> {
    let high = if number == 2 || number == 5 { 3 } else { 0 };
    for _ in 0..384 {
        file.extend_from_slice(&[number, high])?;
    }
    Ok(())
}

// A header line of 40 bytes, so many frames of 774 bytes with their lines, and something behind them.
fn frame_file(alloc: Global, count: u8, tail: &[u8]) -> Result<Vec<u8>, AllocError> {
    let mut file = b"YUV4MPEG2 W16 H16 F25:1 Ip A0:0 C420p10\n".to_vec(alloc)?;
    for number in 0..count {
        file.extend_from_slice(b"FRAME\n")?;
        push_frame(&mut file, number)?;
    }
    file.extend_from_slice(tail)?;
    Ok(file)
}

// How many frames the file has and what stands behind them; the calls of the shelf and of the sink that fail; the status,
// and how many steps are written. Each read gives one byte, so the call that would give the first byte of frame n is
// 41 + 774 n: 18 frames show three steps, the first anchor and its group.
#[rattlefmt::skip]
const CASES: [(u8, &[u8], &[u64], &[u64], Status, usize); 8] = [
    (0, b"", &[], &[], Status::Frames(FrameFault::NoFrames), 0),
    (1, b"", &[], &[], Status::Done, 1),
    (20, b"", &[], &[], Status::Done, 20),
    (20, b"FRAMES\n", &[], &[], Status::Frames(FrameFault::BadFrame(20)), 20),
    (20, b"", &[0], &[], Status::OpenFault, 0),
    (20, b"", &[20], &[], Status::ReadFault, 0),
    (20, b"", &[13_973], &[], Status::ReadFault, 3),
    (20, b"", &[], &[7], Status::WriteFault, 7),
];

/// The file `a` is coded: its status, and what is written.
fn coded(
    alloc: Global,
    file: Vec<u8>,
    read_fails: &[u64],
    write_fails: &[u64],
) -> Result<(Status, MemSink), Fail> {
    let mut inputs = Vec::new(alloc);
    inputs.push((String::from_str(alloc, "a")?, file))?;
    let mut shelf = MemShelf::new(alloc, inputs, read_fails.to_vec(alloc)?, 1)?;
    let mut out = MemSink::failing(alloc, 20_000, write_fails.to_vec(alloc)?, 20_000)?;
    let status = coding_job::<_, _, Frames>(alloc, "a", 8, &mut shelf, &mut out);
    Ok((status, out))
}

/// So many steps of a file of so many frames.
fn steps_of(alloc: Global, count: u8, steps: usize) -> Result<Vec<u8>, AllocError> {
    let mut written = Vec::new(alloc);
    for step in 0..steps.min(ORDER.len()) {
        push_frame(&mut written, if count == 20 { ORDER[step] } else { 0 })?;
    }
    Ok(written)
}

#[test]
fn the_frames_before_a_fault_are_coded_in_the_order_of_their_plan(
    rt: HostRuntime,
) -> Result<(), Fail> {
    let alloc = rt.alloc();
    for (count, tail, read_fails, write_fails, status, steps) in CASES {
        let file = frame_file(alloc, count, tail)?;
        let (answer, out) = coded(alloc, file, read_fails, write_fails)?;
        same(&rt, &answer, &status);
        same_bytes(&rt, out.bytes(), &steps_of(alloc, count, steps)?);
    }
    Ok(())
}
