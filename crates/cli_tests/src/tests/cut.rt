//! Cuts over endpoints that fail.
use super::{failing_at, grey_frames, left_by, same_bytes, same_front, same_status};
use mv_ends::{CleanShelf, MemShelf, MemSink};
use mv_terms::Status;
use std::alloc::{AllocError, Global};
use std::process::Abort;
use std::test::Fail;

// This list `l`, and `a`, a frame file of two grey frames.
fn inputs(alloc: Global, list: &[u8]) -> Result<Vec<(String, Vec<u8>)>, AllocError> {
    let mut inputs = Vec::new(alloc);
    inputs.push((String::from_str(alloc, "a")?, grey_frames(alloc, 2)?))?;
    inputs.push((String::from_str(alloc, "l")?, list.to_vec(alloc)?))?;
    Ok(inputs)
}

// The list, the call of the shelf that fails, that of the sink, the status, how many bytes arrive, and the line. Each call
// moves one byte. The shelf opens and reads the list in calls 0 to 7, opens `a` in call 8, and reads byte n of it in call
// 9 + n; its second frame begins with byte 18,478.
#[rattlefmt::skip]
const FAULTS: [(&[u8], Option<u64>, Option<u64>, Status, usize, &str); 10] = [
    (b"a 0 1\n", None, None, Status::Done, 36_916, ""),
    (b"a 0 0\nx 0 0\n", None, None, Status::OpenFault, 18_478, "open\n"),
    (b"a 0 1\n", Some(0), None, Status::OpenFault, 0, "open\n"),
    (b"a 0 1\n", Some(7), None, Status::ReadFault, 0, "read\n"),
    (b"a 0 1\n", Some(8), None, Status::OpenFault, 0, "open\n"),
    (b"a 0 1\n", Some(9), None, Status::ReadFault, 0, "read\n"),
    (b"a 0 1\n", Some(9 + 18_477), None, Status::ReadFault, 0, "read\n"),
    (b"a 0 1\n", Some(9 + 18_478), None, Status::ReadFault, 18_478, "read\n"),
    (b"a 0 1\n", Some(9 + 36_915), None, Status::ReadFault, 18_478, "read\n"),
    (b"a 0 1\n", None, Some(20_000), Status::WriteFault, 20_000, "write\n"),
];

#[test]
fn faults_of_endpoints_leave_a_front_of_the_frames(rt: HostRuntime) -> Result<(), Fail> {
    let alloc = rt.alloc();
    for (list, unread, unwritten, status, arrives, line) in &FAULTS {
        fails(
            &rt,
            alloc,
            list,
            [*unread, *unwritten],
            *status,
            *arrives,
            line,
        )?;
    }
    Ok(())
}

// `cut l` of this list, where these calls of the shelf and of the sink fail, ends with this status, so many bytes of `a` and
// this line.
fn fails(
    rt: &impl Abort,
    alloc: Global,
    list: &[u8],
    [unread, unwritten]: [Option<u64>; 2],
    status: Status,
    arrives: usize,
    line: &str,
) -> Result<(), Fail> {
    let mut shelf = MemShelf::new(alloc, inputs(alloc, list)?, calls(alloc, unread)?, 1)?;
    let out = MemSink::failing(alloc, 40_000, calls(alloc, unwritten)?, 1)?;
    let say = MemSink::failing(alloc, 40, Vec::new(alloc), 1)?;
    let left = left_by(alloc, &["cut", "l"], &mut shelf, out, say)?;
    same_status(rt, left.status, status);
    same_front(rt, &left.written, &grey_frames(alloc, 2)?, arrives);
    same_bytes(rt, &left.said, line.as_bytes());
    Ok(())
}

// This call alone, if any.
fn calls(alloc: Global, call: Option<u64>) -> Result<Vec<u64>, AllocError> {
    match call {
        Some(call) => vec![in alloc; call; 1],
        None => Ok(Vec::new(alloc)),
    }
}

// The writes are the header line, `FRAME` and the samples, and then these two of the second frame.
#[test]
fn a_failing_write_ends_the_output_there(rt: HostRuntime) -> Result<(), Fail> {
    let alloc = rt.alloc();
    for (call, arrives) in [(0u64, 0usize), (1, 40), (2, 46), (3, 18_478), (4, 18_484)] {
        let mut shelf = CleanShelf::new(inputs(alloc, b"a 0 1\n")?);
        let out = failing_at(alloc, 40_000, call, usize::MAX)?;
        let say = MemSink::with_room(alloc, 40)?;
        let left = left_by(alloc, &["cut", "l"], &mut shelf, out, say)?;
        same_status(&rt, left.status, Status::WriteFault);
        same_front(&rt, &left.written, &grey_frames(alloc, 2)?, arrives);
        same_bytes(&rt, &left.said, b"write\n");
    }
    Ok(())
}
