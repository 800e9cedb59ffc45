//! `cut_list`: lists at their limits, and cuts over endpoints in memory.
use crate::fixtures::{HEADER, frame_file, input};
use cut_list::{Entry, ListFault, cut_job, read_list};
use mv_ends::{CleanShelf, MemShelf, MemSink};
use mv_terms::{FrameFault, LineFault, Status};
use std::alloc::{AllocError, Global};
use std::process::Abort;
use std::test::Fail;

/// The same meaning as that of the header line of most files, in other words.
const OTHER: &[u8] = b"YUV4MPEG2 C420p10 H16 W16 XYSCSS=420P10\n";

const WIDER: &[u8] = b"YUV4MPEG2 C420p10 H16 W32\n";

/// The list `l`; `a`, a file of four frames, whose last one has samples that are too high; `b`, a file with another header
/// line of two frames; `c`, a file of another size; `e`, a header line alone.
fn inputs_of_cut(alloc: Global, list: &[u8]) -> Result<Vec<(String, Vec<u8>)>, AllocError> {
    let four = frame_file(alloc, HEADER, &[0, 1, 2, 4])?;
    let two = frame_file(alloc, OTHER, &[2, 3])?;
    let mut files = Vec::new(alloc);
    files.push(input(alloc, "l", list)?)?;
    files.push(input(alloc, "a", &four)?)?;
    files.push(input(alloc, "b", &two)?)?;
    files.push(input(alloc, "c", WIDER)?)?;
    files.push(input(alloc, "e", HEADER)?)?;
    Ok(files)
}

/// The cut of this list, where reads and writes move at most so many bytes.
fn cut(
    rt: &impl Abort,
    alloc: Global,
    list: &[u8],
    most: usize,
) -> Result<(Status, MemSink), Fail> {
    assert!(rt; most > 0);
    let mut shelf = MemShelf::new(alloc, inputs_of_cut(alloc, list)?, Vec::new(alloc), most)?;
    let mut out = MemSink::failing(alloc, 10_000, Vec::new(alloc), most)?;
    let status = cut_job(alloc, "l", &mut shelf, &mut out);
    Ok((status, out))
}

fn is_left(rt: &impl Abort, cut: &(Status, MemSink), status: Status, written: &[u8]) {
    let (answer, out) = cut;
    assert_eq!(rt; *answer, status);
    assert_eq!(rt; out.bytes(), written);
}

/// The cut of this list ends so, and writes these bytes.
fn cuts(
    rt: &impl Abort,
    alloc: Global,
    list: &[u8],
    status: Status,
    written: &[u8],
) -> Result<(), Fail> {
    for most in [1, 100_000] {
        is_left(rt, &cut(rt, alloc, list, most)?, status, written);
    }
    Ok(())
}

#[test]
fn listed_frames_are_joined_behind_the_first_header_line(rt: HostRuntime) -> Result<(), Fail> {
    let alloc = rt.alloc();
    let list = b"a 1 2\nb 0 0\na 0 0";
    let written = frame_file(alloc, HEADER, &[1, 2, 2, 0])?;
    cuts(&rt, alloc, list, Status::Done, &written)?;
    let written = frame_file(alloc, OTHER, &[3, 1])?;
    cuts(&rt, alloc, b"b 1 1\na 1 1\n", Status::Done, &written)
}

/// A list, the line and its fault, and the frames that are written before it; no header line where there are none.
#[rattlefmt::skip]
const REFUSED: [(&[u8], u32, LineFault, &[u8]); 7] = [
    (b"a 0 0\nb 1 4\n", 2, LineFault::ShortInput, &[0, 3]),
    (b"a 2 3\n", 1, LineFault::Frames(FrameFault::BadSample(3)), &[2]),
    (b"a 0 1\nc 0 0\n", 2, LineFault::Differs, &[0, 1]),
    (b"e 0 0\n", 1, LineFault::ShortInput, &[]),
    (b"a 0 0\nl 0 0\n", 2, LineFault::Frames(FrameFault::BadHeader), &[0]),
    (b"a 0 0\nb 0 1 2\n", 2, LineFault::BadLine, &[]),
    (b"", 1, LineFault::BadLine, &[]),
];

#[test]
fn a_line_is_refused_behind_the_frames_before_its_fault(rt: HostRuntime) -> Result<(), Fail> {
    let alloc = rt.alloc();
    for (list, line, fault, frames) in REFUSED {
        let header: &[u8] = if frames.is_empty() { &[] } else { HEADER };
        let written = frame_file(alloc, header, frames)?;
        cuts(&rt, alloc, list, Status::Line(line, fault), &written)?;
    }
    Ok(())
}

#[test]
fn faults_of_endpoints_leave_the_frames_before_them(rt: HostRuntime) -> Result<(), Fail> {
    let alloc = rt.alloc();
    // a name that no input has
    let left = cut(&rt, alloc, b"a 0 0\nx 0 0\n", 9_000)?;
    is_left(
        &rt,
        &left,
        Status::OpenFault,
        &frame_file(alloc, HEADER, &[0])?,
    );

    // the third write: the samples of the first frame
    let mut front = HEADER.to_vec(alloc)?;
    front.extend_from_slice(b"FRAME\n")?;
    is_left(
        &rt,
        &cut_with_failing_write(alloc)?,
        Status::WriteFault,
        &front,
    );
    Ok(())
}

fn cut_with_failing_write(alloc: Global) -> Result<(Status, MemSink), Fail> {
    let mut shelf = CleanShelf::new(inputs_of_cut(alloc, b"a 0 0\n")?);
    let mut out = MemSink::failing(alloc, 10_000, vec![in alloc; 2]?, 10_000)?;
    let status = cut_job(alloc, "l", &mut shelf, &mut out);
    Ok((status, out))
}

fn long_list(alloc: Global, line: &[u8], lines: usize) -> Result<Vec<u8>, AllocError> {
    let mut list = Vec::new(alloc);
    for _ in 0..lines {
        list.extend_from_slice(line)?;
    }
    Ok(list)
}

/// So many entries are read of the list, or it is refused.
fn entries(rt: &impl Abort, alloc: Global, list: &[u8], wanted: Result<usize, ListFault>) {
    let count = match read_list(alloc, list) {
        Ok(entries) => Ok(entries.len()),
        Err(fault) => Err(fault),
    };
    assert_eq!(rt; count, wanted);
}

#[test]
fn lists_are_read_up_to_their_limits(rt: HostRuntime) -> Result<(), Fail> {
    let alloc = rt.alloc();
    let most = long_list(alloc, b"a 0 999999999\n", 4096)?;
    entries(&rt, alloc, &most, Ok(4096));
    let more = long_list(alloc, b"a 0 0\n", 4097)?;
    entries(&rt, alloc, &more, Err(ListFault::BadLine(4097)));
    Ok(())
}

#[test]
fn names_are_read_up_to_their_limit(rt: HostRuntime) -> Result<(), Fail> {
    let alloc = rt.alloc();
    // names of 255 and of 256 bytes; 4,033 lines of the longest one pass the limit of bytes
    let mut named = long_list(alloc, b"n", 255)?;
    named.extend_from_slice(b" 0 0\n")?;
    entries(&rt, alloc, &named, Ok(1));
    let too_many = long_list(alloc, &named, 4034)?;
    entries(&rt, alloc, &too_many, Err(ListFault::BadLine(4033)));
    let mut longer = long_list(alloc, b"n", 1)?;
    longer.extend_from_slice(&named)?;
    entries(&rt, alloc, &longer, Err(ListFault::BadLine(1)));
    Ok(())
}

#[rattlefmt::skip]
const NO_LIST: [(&[u8], u32); 13] = [
    (b"a 01 2\n", 1),
    (b"a 0 00\n", 1),
    (b"a 2 1\n", 1),
    (b"a 0 1000000000\n", 1),
    (b"a 0 -1\n", 1),
    (b"a  0 1\n", 1),
    (b" a 0 1\n", 1),
    (b"a 0 1 \n", 1),
    (b"a 0\n", 1),
    (b"\n", 1),
    (b" 0 1\n", 1),
    (b"\xFF 0 1\n", 1),
    (b"a 0 0\n\na 0 0\n", 2),
];

fn is_one_entry(rt: &impl Abort, entries: &[Entry], text: &str, from: u32, to: u32) {
    assert_eq!(rt; entries.len(), 1);
    for entry in entries {
        assert_eq!(rt; (entry.name.text(), entry.from, entry.to), (text, from, to));
    }
}

#[test]
fn lines_of_other_forms_are_refused(rt: HostRuntime) -> Result<(), Fail> {
    let alloc = rt.alloc();
    for (list, line) in NO_LIST {
        entries(&rt, alloc, list, Err(ListFault::BadLine(line)));
    }
    is_one_entry(&rt, &read_list(alloc, b"\xC3\xA9 3 10")?, "\u{e9}", 3, 10);
    Ok(())
}
