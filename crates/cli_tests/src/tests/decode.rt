//! Decoding over endpoints that fail or move few bytes at a time.
ghost use Rattle.std.specs.Prelude.{◌<◌};

use super::{
    failing_at, grey_frames, grey_stream, has_12_000_000_left, input, left_by, same_bytes,
    same_count, same_front, same_status, without_records, words,
};
use mv_ends::{CleanShelf, CleanSink, MemShelf, MemSink};
use mv_terms::{Status, Why};
use recoder_cli::{run, run_clean};
use std::alloc::Global;
use std::process::Abort;
use std::test::Fail;

// Each start code is cut between two pieces somewhere.
#[test]
fn pieces_of_any_length_give_the_same_frames(rt: HostRuntime) -> Result<(), Fail> {
    let alloc = rt.alloc();
    let file = grey_frames(alloc, 2)?;
    for most in 1..40 {
        decodes_in_pieces(&rt, alloc, most, &file)?;
    }
    Ok(())
}

// Two pictures that are read in pieces of at most so many bytes give this frame file, but for its records.
fn decodes_in_pieces(rt: &impl Abort, alloc: Global, most: usize, file: &[u8]) -> Result<(), Fail>
    requires { 0 < most }
{
    let inputs = input(alloc, grey_stream(alloc, 2)?)?;
    let mut shelf = MemShelf::new(alloc, inputs, Vec::new(alloc), most)?;
    let (out, say) = (
        MemSink::with_room(alloc, 40_000)?,
        MemSink::with_room(alloc, 40)?,
    );
    let left = left_by(alloc, &["decode", "a"], &mut shelf, out, say)?;
    same_status(rt, left.status, Status::Done);
    same_bytes(rt, &without_records(alloc, &left.written)?, file);
    Ok(())
}

// The frames of the units that were read whole stand on the output, but for the one that is held.
#[test]
fn frames_are_written_before_more_is_read(rt: HostRuntime) -> Result<(), Fail> {
    let alloc = rt.alloc();
    // a unit is decided with the start code behind it: at 163 and at 292 bytes, and each read moves one
    for (call, arrives) in [(163u64, 0usize), (164, 40), (292, 40), (293, 18_478)] {
        let inputs = input(alloc, grey_stream(alloc, 3)?)?;
        let mut shelf = MemShelf::new(alloc, inputs, vec![in alloc; call; 1]?, 1)?;
        let (out, say) = (
            MemSink::with_room(alloc, 80_000)?,
            MemSink::with_room(alloc, 40)?,
        );
        let left = left_by(alloc, &["decode", "a"], &mut shelf, out, say)?;
        same_status(&rt, left.status, Status::ReadFault);
        same_count(&rt, left.written.len(), arrives);
    }
    Ok(())
}

// Of 12,900,159 bytes at least 12,000,000 are left where the first write fails.
#[test]
fn a_long_recording_is_not_read_ahead(rt: HostRuntime) -> Result<(), Fail> {
    let alloc = rt.alloc();
    let bytes = grey_stream(alloc, 100_001)?;
    same_count(&rt, bytes.len(), 12_900_159);
    let mut shelf = CleanShelf::new(input(alloc, bytes)?);
    let out = failing_at(alloc, 40_000, 0, usize::MAX)?;
    let say = MemSink::with_room(alloc, 40)?;
    let left = left_by(alloc, &["decode", "a"], &mut shelf, out, say)?;
    same_status(&rt, left.status, Status::WriteFault);
    Ok(has_12_000_000_left(&rt, alloc, &mut shelf)?)
}

// The name, the calls of the shelf and of the sink that fail, the status, the bytes that arrive, and the line. Each
// call moves one byte.
#[test]
fn faults_of_endpoints_leave_a_front_of_the_frames(rt: HostRuntime) -> Result<(), Fail> {
    let alloc = rt.alloc();
    let cases: [(&str, &[u64], &[u64], Status, usize, &str); 9] = [
        ("a", &[], &[], Status::Done, 18_478, ""),
        ("b", &[], &[], Status::OpenFault, 0, "open\n"),
        ("a", &[0], &[], Status::OpenFault, 0, "open\n"),
        ("a", &[1], &[], Status::ReadFault, 0, "read\n"),
        ("a", &[160], &[], Status::ReadFault, 0, "read\n"),
        ("a", &[], &[0], Status::WriteFault, 0, "write\n"),
        ("a", &[], &[39], Status::WriteFault, 39, "write\n"),
        ("a", &[], &[45], Status::WriteFault, 45, "write\n"),
        ("a", &[], &[18_477], Status::WriteFault, 18_477, "write\n"),
    ];
    for (name, unread, unwritten, status, arrives, line) in cases {
        fails(&rt, alloc, name, [unread, unwritten], status, arrives, line)?;
    }
    Ok(())
}

// `decode` of this name, where these calls of the shelf and of the sink fail, ends with this status, so many bytes of the
// frame, but for its record, and this line.
fn fails(
    rt: &impl Abort,
    alloc: Global,
    name: &str,
    [unread, unwritten]: [&[u64]; 2],
    status: Status,
    arrives: usize,
    line: &str,
) -> Result<(), Fail> {
    let inputs = input(alloc, grey_stream(alloc, 1)?)?;
    let mut shelf = MemShelf::new(alloc, inputs, unread.to_vec(alloc)?, 1)?;
    let out = MemSink::failing(alloc, 20_000, unwritten.to_vec(alloc)?, 1)?;
    let say = MemSink::with_room(alloc, 40)?;
    let left = left_by(alloc, &["decode", name], &mut shelf, out, say)?;
    same_status(rt, left.status, status);
    let plain = without_records(alloc, &left.written)?;
    same_front(rt, &plain, &grey_frames(alloc, 1)?, arrives);
    same_bytes(rt, &left.said, line.as_bytes());
    Ok(())
}

// Each write fails in turn: those of the header line, of `FRAME` and of the samples, in front of which 46 bytes stand.
#[test]
fn a_failing_write_ends_the_output_there(rt: HostRuntime) -> Result<(), Fail> {
    let alloc = rt.alloc();
    let file = grey_frames(alloc, 1)?;
    let mut before = 0;
    for call in 0..13u64 {
        let arrived = arrives_up_to(&rt, alloc, call, &file)?;
        assert!(rt; call == 0 || before < arrived);
        before = arrived;
    }
    same_count(&rt, before, 46);
    Ok(())
}

// How many bytes of this frame file arrive where this write fails.
fn arrives_up_to(rt: &impl Abort, alloc: Global, call: u64, file: &[u8]) -> Result<usize, Fail> {
    let mut shelf = CleanShelf::new(input(alloc, grey_stream(alloc, 1)?)?);
    let out = failing_at(alloc, 20_000, call, usize::MAX)?;
    let say = MemSink::with_room(alloc, 40)?;
    let left = left_by(alloc, &["decode", "a"], &mut shelf, out, say)?;
    same_status(rt, left.status, Status::WriteFault);
    let arrived = left.written.len();
    same_front(rt, &without_records(alloc, &left.written)?, file, arrived);
    Ok(arrived)
}

#[test]
fn a_fault_of_what_is_said_changes_no_status(rt: HostRuntime) -> Result<(), Fail> {
    let alloc = rt.alloc();
    let words = words(alloc, &["decode", "a"])?;
    let mut shelf = CleanShelf::new(input(alloc, Vec::new(alloc))?);
    let mut out = MemSink::with_room(alloc, 0)?;
    let mut say = failing_at(alloc, 40, 1, 40)?;
    let status = run(alloc, &words, &mut shelf, &mut out, &mut say);
    same_status(&rt, status, Status::Unit(0, Why::NoStart));
    same_bytes(&rt, say.bytes(), b"unit ");
    let mut say = CleanSink::with_room(alloc, 7)?;
    let status = run(alloc, &words, &mut shelf, &mut out, &mut say);
    same_status(&rt, status, Status::Unit(0, Why::NoStart));
    same_bytes(&rt, say.bytes(), b"unit 0:");
    Ok(())
}

#[test]
fn no_words_have_no_form_where_nothing_fails(rt: HostRuntime) -> Result<(), Fail> {
    let alloc = rt.alloc();
    let mut shelf = CleanShelf::new(input(alloc, Vec::new(alloc))?);
    let mut out = CleanSink::with_room(alloc, 0)?;
    let mut say = CleanSink::with_room(alloc, 6)?;
    let status = run_clean(alloc, &[], &mut shelf, &mut out, &mut say);
    same_status(&rt, status, Status::Words);
    same_bytes(&rt, say.bytes(), b"words\n");
    Ok(())
}
