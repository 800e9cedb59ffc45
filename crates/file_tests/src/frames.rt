//! `y4m_frames`: header lines and frames as they are written, frame files as other tools write them, files that are none,
//! and shelves that give little at a time or fail.
use crate::comparison::same;
use crate::fixtures::{HEADER, inputs, push_frame};
use mv_ends::{CleanShelf, CleanSink, MemShelf, Shelf};
use mv_terms::{FrameFault, FrameHeader};
use std::alloc::{AllocError, Global};
use std::process::Abort;
use std::test::Fail;
use y4m_frames::{FrameReader, Halt, write_frame, write_header};

/// A header, whether it is progressive, whether the bottom field is first, and the line that is written of it.
#[rattlefmt::skip]
const WRITTEN: [(bool, bool, &[u8]); 3] = [
    (true, false, b"YUV4MPEG2 W720 H576 F30000:1001 Ip A0:0 C420p10\n"),
    (false, false, b"YUV4MPEG2 W720 H576 F30000:1001 It A0:0 C420p10\n"),
    (false, true, b"YUV4MPEG2 W720 H576 F30000:1001 Ib A0:0 C420p10\n"),
];

fn writes(rt: &impl Abort, out: &mut CleanSink, header: &FrameHeader, line: &[u8]) {
    assert!(rt; write_header(header, out).is_ok());
    assert_eq!(rt; out.bytes(), line);
}

#[test]
fn the_header_line_names_size_rate_and_scan(rt: HostRuntime) -> Result<(), Fail> {
    for (progressive, bottom_first, line) in WRITTEN {
        let mut out = CleanSink::with_room(rt.alloc(), 100)?;
        let header = FrameHeader {
            wide: 720,
            high: 576,
            progressive,
            bottom_first,
            rate_num: 30000,
            rate_den: 1001,
        };
        writes(&rt, &mut out, &header, line);
    }
    Ok(())
}

#[test]
fn a_full_sink_keeps_the_front_of_a_frame(rt: HostRuntime) -> Result<(), Fail> {
    let mut out = CleanSink::with_room(rt.alloc(), 9)?;
    let (whole, cut) = (
        write_frame(&[1, 2], &mut out),
        write_frame(&[3, 0], &mut out),
    );
    is_cut(&rt, whole.is_ok(), cut.is_err(), out.bytes());
    Ok(())
}

fn is_cut(rt: &impl Abort, first_is_whole: bool, second_fails: bool, bytes: &[u8]) {
    assert!(rt; first_is_whole);
    assert!(rt; second_fails);
    assert_eq!(rt; bytes, b"FRAME\n\x01\x02F".as_slice());
}

fn header_of(alloc: Global, line: &[u8]) -> Result<Result<FrameHeader, Halt>, Fail> {
    let mut shelf = CleanShelf::new(inputs(alloc, &[("a", line)])?);
    shelf.select("a")?;
    match FrameReader::start(alloc, &mut shelf) {
        Ok(reader) => Ok(Ok(*reader.header())),
        Err(halt) => Ok(Err(halt)),
    }
}

const fn header(
    (wide, high): (u16, u16),
    progressive: bool,
    bottom_first: bool,
    (rate_num, rate_den): (u32, u32),
) -> FrameHeader {
    FrameHeader {
        wide,
        high,
        progressive,
        bottom_first,
        rate_num,
        rate_den,
    }
}

#[test]
fn header_lines_of_other_tools_are_read(rt: HostRuntime) -> Result<(), Fail> {
    #[rattlefmt::skip]
    let lines: [(&[u8], FrameHeader); 4] = [
        (
            b"YUV4MPEG2 W720 H576 F25:1 It A16:11 C420p10 XYSCSS=420P10\n",
            header((720, 576), false, false, (25, 1)),
        ),
        (b"YUV4MPEG2 C420p10 H16 W0016\n", header((16, 16), true, false, (0, 0))),
        (b"YUV4MPEG2  W16 H32 Ib F0:1 C420p10 \n", header((16, 32), false, true, (0, 0))),
        (
            b"YUV4MPEG2 W1920 H1152 F30000:1001 I? C420p10\n",
            header((1920, 1152), true, false, (30000, 1001)),
        ),
    ];
    for (line, header) in lines {
        assert_eq!(rt; header_of(rt.alloc(), line)?, Ok(header));
    }
    Ok(())
}

#[rattlefmt::skip]
const NO_HEADER: [(&[u8], FrameFault); 13] = [
    (b"", FrameFault::BadHeader),
    (b"YUV4MPEG2 W16 H16 C420p10", FrameFault::BadHeader),
    (b"YUV4MPEG W16 H16 C420p10\n", FrameFault::BadHeader),
    (b"YUV4MPEG2 W16 H16 C420jpeg\n", FrameFault::BadHeader),
    (b"YUV4MPEG2 W16 C420p10\n", FrameFault::BadHeader),
    (b"YUV4MPEG2 W16 H16 C420p10 F25:1 F25:1\n", FrameFault::BadHeader),
    (b"YUV4MPEG2 W16 H16 C420p10 F25\n", FrameFault::BadHeader),
    (b"YUV4MPEG2 W0000000016 H16 C420p10\n", FrameFault::BadHeader),
    // of two faults this one comes first
    (b"YUV4MPEG2 W100 H16 C420p10 Ix\n", FrameFault::BadHeader),
    (b"YUV4MPEG2 W100 H16 C420p10\n", FrameFault::BadSize),
    (b"YUV4MPEG2 W16 H16 It C420p10\n", FrameFault::BadSize),
    (b"YUV4MPEG2 W1936 H16 C420p10\n", FrameFault::BadSize),
    (b"YUV4MPEG2 W16 H0 C420p10\n", FrameFault::BadSize),
];

#[test]
fn other_header_lines_are_refused(rt: HostRuntime) -> Result<(), Fail> {
    for (line, fault) in NO_HEADER {
        assert_eq!(rt; header_of(rt.alloc(), line)?, Err(Halt::Fault(fault)));
    }
    Ok(())
}

/// The next frame, of 16x16 like all that these tests read.
fn next(reader: &mut FrameReader, shelf: &mut MemShelf, frame: &mut [u8]) -> Result<bool, Halt> {
    let header = *reader.header();
    if header.wide != 16 || header.high != 16 || frame.len() != 768 {
        return Err(Halt::NoMemory);
    }
    reader.next(shelf, frame)
}

/// So many frames come, in the order of their numbers, and then twice this answer.
fn reads(
    rt: &impl Abort,
    reader: &mut FrameReader,
    shelf: &mut MemShelf,
    frames: u8,
    end: Result<bool, Halt>,
) {
    let mut frame = [0u8; 768];
    for high in 0..frames {
        assert_eq!(rt; next(reader, shelf, &mut frame), Ok(true));
        assert_eq!(rt; [frame[0], frame[767]], [0, high]);
    }
    for _ in 0..2 {
        assert_eq!(rt; next(reader, shelf, &mut frame), end);
    }
}

/// A shelf at this file, whose calls of these numbers fail, and whose others move at most so many bytes.
fn shelf_of(
    rt: &impl Abort,
    alloc: Global,
    file: &[u8],
    fails: &[u64],
    most: usize,
) -> Result<MemShelf, Fail> {
    assert!(rt; most > 0);
    let mut shelf = MemShelf::new(
        alloc,
        inputs(alloc, &[("a", file)])?,
        fails.to_vec(alloc)?,
        most,
    )?;
    shelf.select("a")?;
    Ok(shelf)
}

/// A file gives so many frames and then this answer, however many bytes a read moves.
fn gives(
    rt: &impl Abort,
    alloc: Global,
    file: &[u8],
    frames: u8,
    end: Result<bool, Halt>,
) -> Result<(), Fail> {
    for most in [1, 7, 100_000] {
        let mut shelf = shelf_of(rt, alloc, file, &[], most)?;
        let mut reader = FrameReader::start(alloc, &mut shelf)?;
        same(rt, &reader.line(), &HEADER);
        reads(rt, &mut reader, &mut shelf, frames, end);
    }
    Ok(())
}

const TWO: [(&[u8], u8); 2] = [(b"FRAME\n", 0), (b"FRAME Ip\n", 1)];

/// A third frame behind those, by its line and the number of its samples; whether its last byte is missing; how many
/// frames come, and the answer behind them.
#[rattlefmt::skip]
const THIRD: [(&[u8], u8, bool, u8, Result<bool, Halt>); 4] = [
    (b"FRAMES\n", 2, false, 2, Err(Halt::Fault(FrameFault::BadFrame(2)))),
    (b"FRAME\n", 2, false, 3, Ok(false)),
    (b"FRAME\n", 2, true, 2, Err(Halt::Fault(FrameFault::BadFrame(2)))),
    (b"FRAME\n", 4, false, 2, Err(Halt::Fault(FrameFault::BadSample(2)))),
];

fn two_frames(alloc: Global) -> Result<Vec<u8>, AllocError> {
    let mut file = HEADER.to_vec(alloc)?;
    for (line, high) in TWO {
        push_frame(&mut file, line, high)?;
    }
    Ok(file)
}

#[test]
fn frames_come_up_to_the_end_or_to_the_first_fault(rt: HostRuntime) -> Result<(), Fail> {
    let alloc = rt.alloc();
    gives(
        &rt,
        alloc,
        HEADER,
        0,
        Err(Halt::Fault(FrameFault::NoFrames)),
    )?;
    gives(&rt, alloc, &two_frames(alloc)?, 2, Ok(false))?;
    for (line, high, cut, frames, end) in THIRD {
        let mut file = two_frames(alloc)?;
        push_frame(&mut file, line, high)?;
        if cut {
            let _last = file.pop();
        }
        gives(&rt, alloc, &file, frames, end)?;
    }
    Ok(())
}

#[test]
fn a_read_that_fails_is_answered_again(rt: HostRuntime) -> Result<(), Fail> {
    let alloc = rt.alloc();
    let mut file = HEADER.to_vec(alloc)?;
    push_frame(&mut file, b"FRAME\n", 0)?;
    push_frame(&mut file, b"FRAME\n", 1)?;
    let mut shelf = shelf_of(&rt, alloc, &file, &[10], 100)?;
    let mut reader = FrameReader::start(alloc, &mut shelf)?;
    reads(&rt, &mut reader, &mut shelf, 1, Err(Halt::Read));
    Ok(())
}
