//! `mv_ends`: endpoints in memory that fail where they are told, what is sent to them, and those of the system.
use crate::comparison::{same, same_bytes};
use crate::fixtures::inputs;
use mv_ends::{
    CleanShelf, CleanSink, Failed, FileShelf, MemShelf, MemSink, Shelf, Sink, StdSink, send,
    send_all,
};
use std::fs;
use std::process::Abort;
use std::test::Fail;

/// Two inputs, the first of which stands twice.
const INPUTS: [(&str, &[u8]); 3] = [("a", b"stream"), ("b", b"frames"), ("a", b"second")];

/// The next read gives these bytes, and leaves what stands behind them in the piece.
fn gives<S: Shelf>(rt: &impl Abort, shelf: &mut S, wanted: &[u8]) {
    let mut piece = [0; 8];
    assert_eq!(rt; shelf.read(&mut piece), Ok(wanted.len()));
    for (k, byte) in piece.iter().enumerate() {
        assert_eq!(rt; *byte, wanted.get(k).copied().unwrap_or(0));
    }
}

fn fails<S: Shelf>(rt: &impl Abort, shelf: &mut S) {
    let mut piece = [0; 8];
    assert_eq!(rt; shelf.read(&mut piece), Err(Failed));
}

fn selects<S: Shelf>(rt: &impl Abort, shelf: &mut S, name: &str, answer: Result<(), Failed>) {
    assert_eq!(rt; shelf.select(name), answer);
}

#[test]
fn a_shelf_fails_at_the_calls_that_it_is_told(rt: HostRuntime) -> Result<(), Fail> {
    let alloc = rt.alloc();
    let mut shelf = MemShelf::new(alloc, inputs(alloc, &INPUTS)?, vec![in alloc; 0, 2, 3]?, 4)?;
    // nothing is selected, so this call has nothing to fail at
    gives(&rt, &mut shelf, b"");
    selects(&rt, &mut shelf, "a", Ok(()));
    fails(&rt, &mut shelf);
    selects(&rt, &mut shelf, "a", Err(Failed));
    gives(&rt, &mut shelf, b"");
    selects(&rt, &mut shelf, "c", Err(Failed));
    selects(&rt, &mut shelf, "b", Ok(()));
    gives(&rt, &mut shelf, b"fram");
    gives(&rt, &mut shelf, b"es");
    Ok(())
}

#[test]
fn of_two_inputs_of_one_name_the_first_is_read(rt: HostRuntime) -> Result<(), Fail> {
    let alloc = rt.alloc();
    let mut told = MemShelf::new(alloc, inputs(alloc, &INPUTS)?, Vec::new(alloc), 1)?;
    selects(&rt, &mut told, "a", Ok(()));
    for byte in b"stream" {
        gives(&rt, &mut told, &[*byte]);
    }
    gives(&rt, &mut told, b"");
    let mut clean = CleanShelf::new(inputs(alloc, &INPUTS)?);
    selects(&rt, &mut clean, "a", Ok(()));
    gives(&rt, &mut clean, b"stream");
    selects(&rt, &mut clean, "c", Ok(()));
    gives(&rt, &mut clean, b"");
    Ok(())
}

const LINE: &[u8] = b"unit 4: BadSlice\n";

fn send_line<O: Sink>(out: &mut O) -> Result<(), Failed> {
    send_all(out, &[b"unit ", b"4", b"", b": BadSlice\n"])
}

/// The line is sent whole or not, and then so many of its bytes arrived.
fn sends(rt: &impl Abort, sink: &mut MemSink, arrives: usize, whole: bool) {
    let sent = send_line(sink);
    assert_eq!(rt; sent, if whole { Ok(()) } else { Err(Failed) });
    assert!(rt; arrives <= LINE.len());
    assert_eq!(rt; sink.bytes(), &LINE[..arrives]);
}

/// The room, the calls that fail, the most bytes of a call, how many bytes arrive, and whether that is all.
#[rattlefmt::skip]
const SENT: [(usize, &[u64], usize, usize, bool); 7] = [
    (17, &[], usize::MAX, 17, true),
    (17, &[], 1, 17, true),
    (16, &[], usize::MAX, 16, false),
    (5, &[], 3, 5, false),
    (17, &[0], 9, 0, false),
    (17, &[2], 9, 6, false),
    (17, &[2, 3], 3, 5, false),
];

#[test]
fn sends_all_or_a_front(rt: HostRuntime) -> Result<(), Fail> {
    let alloc = rt.alloc();
    for (room, fails, most, arrives, whole) in SENT {
        assert!(rt; 0 < most);
        let mut sink = MemSink::failing(alloc, room, fails.to_vec(alloc)?, most)?;
        sends(&rt, &mut sink, arrives, whole);
    }
    let mut sink = MemSink::with_room(alloc, 17)?;
    sends(&rt, &mut sink, 17, true);
    Ok(())
}

/// Sending the line again is answered so, and these bytes were taken in all.
fn takes(rt: &impl Abort, sink: &mut CleanSink, answer: Result<(), Failed>, bytes: &[u8]) {
    assert_eq!(rt; send_line(sink), answer);
    assert_eq!(rt; sink.bytes(), bytes);
}

#[test]
fn a_clean_sink_fails_when_it_is_full(rt: HostRuntime) -> Result<(), Fail> {
    let mut sink = CleanSink::with_room(rt.alloc(), 20)?;
    takes(&rt, &mut sink, Ok(()), LINE);
    takes(&rt, &mut sink, Err(Failed), b"unit 4: BadSlice\nuni");
    Ok(())
}

/// The next four reads of three bytes give these bytes.
fn gives_in_four<S: Shelf>(rt: &impl Abort, shelf: &mut S, wanted: &[u8]) {
    let mut at = 0usize;
    for _ in 0..4 {
        let mut piece = [0; 3];
        let count = shelf.read(&mut piece);
        let rest = wanted.get(at..).unwrap_or(&[]);
        assert_eq!(rt; count, Ok(rest.len().min(3)));
        for (k, byte) in rest.iter().take(3).enumerate() {
            assert_eq!(rt; piece.get(k), Some(byte));
        }
        at = at.saturating_add(3);
    }
}

#[test]
fn reads_a_file_whole_in_pieces_and_fails_where_there_is_none(rt: HostRuntime) -> Result<(), Fail> {
    let bytes = [0x00, 0x00, 0x01, 0xB3, 0x06, 0x00, 0x40, 0xFF];
    fs::write(&rt, "stream.m2v", bytes)?;
    let mut shelf = FileShelf::new(&rt);
    gives(&rt, &mut shelf, b"");
    selects(&rt, &mut shelf, "stream.m2v", Ok(()));
    gives_in_four(&rt, &mut shelf, &bytes);
    fs::remove_file(&rt, "stream.m2v")?;
    selects(&rt, &mut shelf, "stream.m2v", Err(Failed));
    gives(&rt, &mut shelf, b"");
    selects(&rt, &mut shelf, ".", Ok(()));
    fails(&rt, &mut shelf);
    Ok(())
}

#[test]
fn writes_a_file_and_fails_where_nothing_is_taken(rt: HostRuntime) -> Result<(), Fail> {
    let mut sink = StdSink::new(fs::create(&rt, "frames.y4m")?);
    send(&mut sink, b"FRAME\n")?;
    send(&mut sink, b"samples")?;
    let written = fs::read(&rt, "frames.y4m")?;
    same_bytes(&rt, &written, b"FRAME\nsamples");
    fs::remove_file(&rt, "frames.y4m")?;

    // a slice that is full takes none of a piece
    let mut room = [0; 2];
    let mut sink = StdSink::new(room.as_mut_slice());
    assert_eq!(rt; send(&mut sink, b"abc"), Err(Failed));
    assert_eq!(rt; room, *b"ab");
    Ok(())
}
