//! `mv_units`: streams cut wherever they are cut into pieces, and the first byte that offends.
ghost use Rattle.std.specs.Prelude.{◌≡◌, false};

use crate::comparison::same;
use mv_terms::Why;
use mv_units::{Cut, Cutter};
use std::alloc::Global;
use std::test::Fail;

/// Three zero bytes, a sequence header with its extension, a group of pictures, a picture with its extension that
/// ends in a zero byte, two slices and two zero bytes; then a picture, two slices with a zero byte between them, the
/// end code and three zero bytes.
#[rattlefmt::skip]
const TWO_UNITS: [u8; 65] = [
    0, 0, 0, 0, 0, 1, 0xB3, 0x11, 0x22, 0, 0, 1, 0xB5, 0x33, 0, 0, 1, 0xB8, 0x44,
    0, 0, 1, 0, 0x55, 0, 0, 1, 0xB5, 0x66, 0, 0, 0, 1, 1, 0x77, 0, 0, 1, 2, 0x88, 0, 0,
    0, 0, 1, 0, 0x55, 0, 0, 1, 1, 0x77, 0, 0, 0, 1, 0xAF, 0x88, 0, 0, 1, 0xB7, 0, 0, 0,
];

/// The lengths of prefix, head and slices, the number of zero bytes behind these, and one more than that of those
/// behind the end code.
type Entry = [u64; 5];

/// The units that were cut, of which the first few are kept.
#[derive(Clone, Copy, Debug, PartialEq, Eq)]
struct Log {
    count: usize,
    first: [Entry; 3],
}

impl Log {
    const EMPTY: Log = Log {
        count: 0,
        first: [[0; 5]; 3],
    };

    fn push(&mut self, entry: Entry) {
        if let Some(place) = self.first.get_mut(self.count) {
            *place = entry;
        }
        self.count = self.count.wrapping_add(1);
    }
}

fn log_units(cutter: &mut Cutter, log: &mut Log)
    ensures { cutter.new.closed ≡ cutter.old.closed }
{
    'units: while let Cut::Ready = cutter.state() {
        let unit = cutter.unit();
        log.push([
            unit.prefix.len() as u64,
            unit.head.len() as u64,
            unit.slices.len() as u64,
            unit.zeros,
            unit.end.map_or(0, |n| n.saturating_add(1)),
        ]);
        cutter.next();
    }
}

fn feed(cutter: &mut Cutter, piece: &[u8], log: &mut Log)
    requires { cutter.old.closed ≡ false }
    ensures { cutter.new.closed ≡ false }
{
    let mut rest = piece;
    'pieces: while !rest.is_empty() {
        log_units(cutter, log);
        let taken = cutter.feed(rest);
        if taken == 0 {
            break;
        }
        rest = &rest[taken..];
    }
    log_units(cutter, log);
}

/// What a stream that is fed in these pieces is cut into, and the state at its end.
fn cut(alloc: Global, pieces: &[&[u8]]) -> Result<(Log, Cut), Fail> {
    let mut cutter = Cutter::start(alloc)?;
    let mut log = Log::EMPTY;
    'pieces: for piece in pieces {
        feed(&mut cutter, piece, &mut log);
    }
    cutter.close();
    log_units(&mut cutter, &mut log);
    Ok((log, cutter.state()))
}

const TWO_ENTRIES: Log = Log {
    count: 2,
    first: [[19, 11, 10, 2, 0], [0, 5, 11, 0, 4], [0; 5]],
};

#[test]
fn a_stream_is_cut_alike_wherever_it_is_cut_into_two_pieces(rt: HostRuntime) -> Result<(), Fail> {
    for at in 0..TWO_UNITS.len() {
        let (front, back) = TWO_UNITS.split_at(at);
        let left = cut(rt.alloc(), &[front, back])?;
        assert_eq!(rt; left, (TWO_ENTRIES, Cut::Ended), "at {at}");
    }
    Ok(())
}

#[test]
fn a_stream_is_cut_alike_byte_by_byte(rt: HostRuntime) -> Result<(), Fail> {
    let mut bytes: [&[u8]; 65] = [&[]; 65];
    for at in 0..65 {
        bytes[at] = &TWO_UNITS[at..at + 1];
    }
    same(&rt, &cut(rt.alloc(), &bytes)?, &(TWO_ENTRIES, Cut::Ended));
    Ok(())
}

/// Feeds a stream byte by byte: after how many bytes a refusal stands, and the refusal, at the end where none does.
fn first_refusal(alloc: Global, stream: &[u8]) -> Result<(usize, Cut), Fail> {
    let mut cutter = Cutter::start(alloc)?;
    let mut log = Log::EMPTY;
    'bytes: for i in 0..stream.len() {
        feed(&mut cutter, &stream[i..i + 1], &mut log);
        if let Cut::Refused(why) = cutter.state() {
            return Ok((i + 1, Cut::Refused(why)));
        }
    }
    cutter.close();
    log_units(&mut cutter, &mut log);
    Ok((stream.len(), cutter.state()))
}

/// Streams, after how many of their bytes they are refused, and why.
#[rattlefmt::skip]
const REFUSED: &[(&[u8], usize, Why)] = &[
    (&[], 0, Why::NoStart),
    (&[0, 1, 0xB3], 2, Why::NoStart),
    (&[0, 0, 2], 3, Why::NoStart),
    (&[0, 0, 1, 0xB8], 4, Why::BadOrder),
    (&[0, 0, 1, 0xB3, 7, 0, 0, 1, 1], 9, Why::BadOrder),
    (&[0, 0, 1, 0xB3, 7, 0, 0, 1, 0, 7, 0, 0, 1], 13, Why::BadOrder),
    (&[0, 0, 1, 0xB3, 0, 0, 1, 0, 0, 0, 1, 1, 0, 0, 1, 0xB5], 16, Why::BadOrder),
    (&[0, 0, 1, 0xB3, 0, 0, 1, 0, 0, 0, 1, 1, 0, 0, 1, 0xB7, 0, 0, 1], 19, Why::AfterEnd),
    (&[0, 0, 1, 0xB3, 0, 0, 1, 0, 0, 0, 1, 1, 0, 0, 1], 15, Why::BadOrder),
];

#[test]
fn a_refusal_comes_with_the_first_byte_that_offends(rt: HostRuntime) -> Result<(), Fail> {
    for (stream, len, why) in REFUSED {
        let refusal = first_refusal(rt.alloc(), stream)?;
        same(&rt, &refusal, &(*len, Cut::Refused(*why)));
    }
    Ok(())
}

/// The states behind these first bytes and then so many of a value, and behind one more of them.
fn states_at_most(alloc: Global, begin: &[u8], value: u8, count: usize) -> Result<[Cut; 2], Fail> {
    let others = vec![in alloc; value; count]?;
    let mut cutter = Cutter::start(alloc)?;
    let mut log = Log::EMPTY;
    feed(&mut cutter, begin, &mut log);
    feed(&mut cutter, &others, &mut log);
    let most = cutter.state();
    feed(&mut cutter, &[value], &mut log);
    Ok([most, cutter.state()])
}

const TOO_LONG: [Cut; 2] = [Cut::More, Cut::Refused(Why::UnitTooLong)];

#[test]
fn zero_bytes_in_front_count_to_the_prefix_as_they_come(rt: HostRuntime) -> Result<(), Fail> {
    same(
        &rt,
        &states_at_most(rt.alloc(), &[], 0, 16_777_216)?,
        &TOO_LONG,
    );
    Ok(())
}

#[test]
fn a_head_and_slices_have_at_most_16777216_bytes(rt: HostRuntime) -> Result<(), Fail> {
    let begins: [&[u8]; 2] = [
        &[0, 0, 1, 0xB3, 0, 0, 1, 0],
        &[0, 0, 1, 0xB3, 0, 0, 1, 0, 0, 0, 1, 1],
    ];
    for begin in begins {
        same(
            &rt,
            &states_at_most(rt.alloc(), begin, 7, 16_777_212)?,
            &TOO_LONG,
        );
    }
    Ok(())
}

#[test]
fn nothing_is_taken_where_a_unit_stands_ready(rt: HostRuntime) -> Result<(), Fail> {
    let mut cutter = Cutter::start(rt.alloc())?;
    same(&rt, &cutter.feed(&TWO_UNITS), &65);
    same(&rt, &cutter.state(), &Cut::Ready);
    same(&rt, &cutter.feed(&[0]), &0);
    Ok(())
}
