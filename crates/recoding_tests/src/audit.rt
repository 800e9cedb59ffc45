//! `job_audit`: audits of files without records, and of a file whose records give each word of a line.
use crate::comparison::{same, same_bytes};
use crate::fixtures::{B_SHEET, I_SHEET, P_SHEET, frame_with, seal_of};
use job_audit::audit_job;
use mv_ends::{MemShelf, MemSink};
use mv_terms::{FrameFault, Status};
use rec_sheet::Sheet;
use std::alloc::{AllocError, Global};
use std::process::Abort;
use std::test::Fail;

/// A header line, so many grey frames of 16 by 16 samples, and something behind them.
fn frame_file(alloc: Global, count: u8, tail: &[u8]) -> Result<Vec<u8>, AllocError> {
    let mut file = b"YUV4MPEG2 W16 H16 F25:1 Ip A0:0 C420p10\n".to_vec(alloc)?;
    for _ in 0..count {
        push_grey(&mut file, 384)?;
    }
    file.extend_from_slice(tail)?;
    Ok(file)
}

/// Adds a frame of so many samples of 512.
fn push_grey(file: &mut Vec<u8>, samples: usize) -> Result<(), AllocError> {
    file.extend_from_slice(b"FRAME\n")?;
    for _ in 0..samples {
        file.extend_from_slice(&[0, 2])?;
    }
    Ok(())
}

/// The file `a` is audited: its status, and the lines.
fn audited(alloc: Global, file: Vec<u8>) -> Result<(Status, MemSink), Fail> {
    let mut inputs = Vec::new(alloc);
    inputs.push((String::from_str(alloc, "a")?, file))?;
    let mut shelf = MemShelf::new(alloc, inputs, Vec::new(alloc), 4096)?;
    let mut out = MemSink::failing(alloc, 400, Vec::new(alloc), 100)?;
    let status = audit_job(alloc, "a", &mut shelf, &mut out);
    Ok((status, out))
}

// How many frames the file has, what stands behind them, the status, and the lines.
#[rattlefmt::skip]
const CASES: [(u8, &[u8], Status, &[u8]); 4] = [
    (0, b"", Status::Frames(FrameFault::NoFrames), b""),
    (1, b"", Status::Done, b"0 - fresh - -\n"),
    (3, b"", Status::Done, b"0 - fresh - -\n1 - fresh - -\n2 - fresh - -\n"),
    (2, b"FRAMES\n", Status::Frames(FrameFault::BadFrame(2)), b"0 - fresh - -\n1 - fresh - -\n"),
];

#[test]
fn each_frame_before_a_fault_has_its_line(rt: HostRuntime) -> Result<(), Fail> {
    let alloc = rt.alloc();
    for (count, tail, status, lines) in CASES {
        let (answer, out) = audited(alloc, frame_file(alloc, count, tail)?)?;
        same(&rt, &answer, &status);
        same_bytes(&rt, out.bytes(), lines);
    }
    Ok(())
}

/// Adds the frame of this record.
fn push_recorded(
    rt: &impl Abort,
    alloc: Global,
    file: &mut Vec<u8>,
    said: &Sheet<'_>,
) -> Result<(), Fail> {
    let seal = seal_of(rt, alloc, said)?;
    let frame = frame_with(rt, alloc, said, &seal)?;
    file.extend_from_slice(b"FRAME\n")?;
    file.extend_from_slice(&frame)?;
    Ok(())
}

/// Twelve frames without a record; a certified I picture; a B picture that isn't certified, whose links are right; and a
/// certified P picture that has the link of another frame.
fn recorded_file(rt: &impl Abort, alloc: Global) -> Result<Vec<u8>, Fail> {
    let p = Sheet {
        flags: 7,
        ..P_SHEET
    };
    let b = Sheet {
        forward: seal_of(rt, alloc, &I_SHEET)?,
        backward: seal_of(rt, alloc, &p)?,
        ..B_SHEET
    };
    let mut file = b"YUV4MPEG2 W96 H64 F25:1 Ip A0:0 C420p10\n".to_vec(alloc)?;
    for _ in 0..12 {
        push_grey(&mut file, 9216)?;
    }
    for said in [I_SHEET, b, p] {
        push_recorded(rt, alloc, &mut file, &said)?;
    }
    Ok(file)
}

const LINES: &[u8] = b"0 - fresh - -\n1 - fresh - -\n2 - fresh - -\n3 - fresh - -\n\
    4 - fresh - -\n5 - fresh - -\n6 - fresh - -\n7 - fresh - -\n\
    8 - fresh - -\n9 - fresh - -\n10 - fresh - -\n11 - fresh - -\n\
    12 I guided certified chain\n13 B guided plain -\n14 P fresh certified -\n";

#[test]
fn a_line_says_type_mode_flag_and_chain(rt: HostRuntime) -> Result<(), Fail> {
    let alloc = rt.alloc();
    let (answer, out) = audited(alloc, recorded_file(&rt, alloc)?)?;
    same(&rt, &answer, &Status::Done);
    same_bytes(&rt, out.bytes(), LINES);
    Ok(())
}
