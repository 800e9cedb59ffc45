//! One line of a cut list.
ghost use Rattle.std.specs.Prelude.{◌≡◌, ◌≢◌, ◌*◌, ◌≤◌, ℕ, List, [], ◌++◌, length, Ok, None, Some, IfOk, OnOk, OnErr, IsErrOf, IsTrue};
ghost use Rattle.std.specs.Option.{ForSome};
ghost use Rattle.mv_ends.specs.Causes.{FailedWrite, Rose};
ghost use Rattle.mv_ends.specs.Kept.{KeepsShelf, KeepsSink};
ghost use Rattle.mv_ends.specs.Moves.{input_of};
ghost use Rattle.y4m_frames.specs.Frames.{file_of, frame_len};
ghost use Rattle.cut_list.specs.declared.line.Halted.TheVariants as endings;
ghost use Rattle.cut_list.specs.Cut.{same_kind, line_given, first_header};
ghost use Rattle.cut_list.specs.Steps.{Grows, LineEnds, kind_of, differs, opening_of, not_started, halted_of};

use crate::copy::{Stop, copy_frames};
use mv_ends::{Shelf, Sink};
use mv_terms::{FrameHeader, LineFault};
use std::alloc::{AllocError, Global};
use y4m_frames::{FrameReader, Halt};

/// Why a line was not written whole.
pub(crate) enum Halted {
    Fault(LineFault),
    Open,
    Read,
    Write,
    NoMemory,
}

impl From<Halt> for Halted {
    ghost from_gives = { λ halt halted. halted ≡ not_started halt };

    fn from(halt: Halt) -> Halted {
        match halt {
            Halt::Fault(fault) => Halted::Fault(LineFault::Frames(fault)),
            Halt::Read => Halted::Read,
            Halt::NoMemory => Halted::NoMemory,
        }
    }
}

impl From<Stop> for Halted {
    ghost from_gives = { λ stop halted. halted ≡ halted_of stop };

    fn from(stop: Stop) -> Halted {
        match stop {
            Stop::Fault(fault) => Halted::Fault(fault),
            Stop::Read => Halted::Read,
            Stop::Write => Halted::Write,
        }
    }
}

impl From<AllocError> for Halted {
    ghost from_gives = { λ _ halted. halted ≡ endings.NoMemory };

    fn from(_none: AllocError) -> Halted {
        Halted::NoMemory
    }
}

/// Writes the frames that a line lists, of an input whose frames are of the kind of the first
/// line's, if it isn't the first itself. It answers the header of the first line's input.
#[tactic(auto, using(crate::proofs::CopyExits::grows_not, std::proofs::lemmas::Grind::common_steps))]
pub(crate) fn cut_line<S: Shelf, O: Sink>(
    alloc: Global,
    name: &str,
    from: u32,
    to: u32,
    first: Option<FrameHeader>,
    shelf: &mut S,
    out: &mut O,
) -> Result<FrameHeader, Halted>
    ensures ends { ForSome (S.told shelf.old).named (λ inputs.
        LineEnds (line_given first from to (file_of (input_of inputs name.now)))
        (first_header first (file_of (input_of inputs name.now)))
        (O.told out.old).written (O.told out.new).written result) }
    ensures grown { Grows (O.told out.old).written (O.told out.new).written }
    ensures open { IsErrOf result Halted.Open
        → Rose ((S.told shelf.old).open_faults name.now) ((S.told shelf.new).open_faults name.now) }
    ensures read { IsErrOf result Halted.Read
        → Rose ((S.told shelf.old).read_faults name.now) ((S.told shelf.new).read_faults name.now) }
    ensures write { IsErrOf result Halted.Write → FailedWrite (O.told out.old) (O.told out.new) }
    ensures keeps_sink { KeepsSink (O.told out.old) (O.told out.new) }
    ensures keeps { KeepsShelf (S.told shelf.old) (S.told shelf.new) }
{
    match shelf.select(name) {
        Ok(()) => {}
        Err(_) => return Err(Halted::Open),
    }
    let mut reader = FrameReader::start(alloc, shelf)?;
    let header = *reader.header();
    if differs(first, &header) {
        return Err(Halted::Fault(LineFault::Differs));
    }
    let mut frame = frame_of(alloc, &header)?;
    let line = Vec::from_slice(alloc, reader.line())?;
    let opening = opening_of(first, &line);
    copy_frames(&mut reader, shelf, from, to, opening, &mut frame, out)?;
    Ok(kind_of(first, header))
}

fn same_kind(one: &FrameHeader, other: &FrameHeader) -> bool
    ensures { result ≡ same_kind one.now other.now }
{
    one.wide == other.wide && one.high == other.high && one.progressive == other.progressive
}

// Whether this header is of another kind than that of the first line, if it isn't the first itself.
fn differs(first: Option<FrameHeader>, header: &FrameHeader) -> bool
    ensures { result ≡ differs first header.now }
{
    match first {
        None => false,
        Some(first) => !same_kind(&first, header),
    }
}

// What stands before the first frame.
fn opening_of(first: Option<FrameHeader>, line: &[u8]) -> &[u8]
    ensures { result.now ≡ opening_of first line.now }
{
    match first {
        None => line,
        Some(_) => &line[..0],
    }
}

// The header of line 1's input.
fn kind_of(first: Option<FrameHeader>, header: FrameHeader) -> FrameHeader
    ensures { result ≡ kind_of first header }
{
    match first {
        None => header,
        Some(first) => first,
    }
}

fn frame_of(alloc: Global, header: &FrameHeader) -> Result<Vec<u8>, AllocError>
    ensures { IfOk result (λ v. length v.items ≡ frame_len header.now) }
{
    let len = 3 * header.wide as usize * header.high as usize;
    vec![in alloc; 0; len]
}
