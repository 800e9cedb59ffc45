//! Copies the listed frames of an input.
ghost use Rattle.std.specs.Prelude.{◌≡◌, ◌≢◌, ◌+◌, ◌<◌, ◌≤◌, ℕ, List, [], ◌++◌, length, Ok, None, Some, OnOk, OnErr, IsErrOf};
ghost use Rattle.std.specs.Option.{ForSome};
ghost use Rattle.std.specs.Io.KnownBytes.{Appends};
ghost use Rattle.mv_ends.specs.Causes.{FailedRead, FailedWrite};
ghost use Rattle.mv_ends.specs.Sends.{Sends};
ghost use Rattle.mv_ends.specs.Kept.{KeepsShelf, KeepsSink};
ghost use Rattle.mv_ends.specs.Moves.{AppendsFront};
ghost use Rattle.y4m_frames.specs.Frames.{File, file_of, frame_len};
ghost use Rattle.y4m_frames.specs.Reading.{left_of, StandsFor};
ghost use Rattle.cut_list.specs.declared.copy.Stop.TheVariants as stops;
ghost use Rattle.cut_list.specs.Cut.{listed, line_fault};
ghost use Rattle.cut_list.specs.Steps.{Grows, piece, listed_piece, Copies, stop_of};

use mv_ends::{Failed, Shelf, Sink, send_all};
use mv_terms::{FrameFault, LineFault};
use y4m_frames::{FrameReader, Halt, write_frame};

/// Why a line was not copied whole.
pub(crate) enum Stop {
    Fault(LineFault),
    Read,
    Write,
}

impl From<Halt> for Stop {
    ghost from_gives = { λ halt stop. stop ≡ stop_of halt };

    fn from(halt: Halt) -> Stop {
        match halt {
            Halt::Fault(fault) => Stop::Fault(line_fault(fault)),
            Halt::Read | Halt::NoMemory => Stop::Read,
        }
    }
}

impl From<Failed> for Stop {
    ghost from_gives = { λ _ stop. stop ≡ stops.Write };

    fn from(_failed: Failed) -> Stop {
        Stop::Write
    }
}

/// Copies the frames `from` to `to` of an input that a reader has just begun, behind an opening.
pub(crate) fn copy_frames<S: Shelf, O: Sink>(
    reader: &mut FrameReader,
    shelf: &mut S,
    from: u32,
    to: u32,
    opening: &[u8],
    frame: &mut [u8],
    out: &mut O,
) -> Result<(), Stop>
    requires runs { reader.old.failed ≡ None }
    requires frame { length frame.old ≡ frame_len reader.old.header }
    ensures copies { (past : List ℕ) (file : File) → StandsFor reader.old past []
        → ForSome (left_of reader.old (S.told shelf.old).rest) (λ left.
        file_of (past ++ left) ≡ Ok file
        → Copies opening.now (listed from to file.frames)
        (O.told out.old).written (O.told out.new).written result) }
    ensures grown { Grows (O.told out.old).written (O.told out.new).written }
    ensures read { IsErrOf result Stop.Read → FailedRead (S.told shelf.old) (S.told shelf.new) }
    ensures write { IsErrOf result Stop.Write → FailedWrite (O.told out.old) (O.told out.new) }
    ensures keeps_sink { KeepsSink (O.told out.old) (O.told out.new) }
    ensures chosen { (S.told shelf.new).selected ≡ (S.told shelf.old).selected }
    ensures keeps { KeepsShelf (S.told shelf.old) (S.told shelf.new) }
{
    let mut count: u64 = 0;
    'frames: while count <= to as u64 {
        let some = reader.next(shelf, frame)?;
        if !some {
            return Err(Stop::Fault(LineFault::ShortInput));
        }
        write_listed(from as u64, count, opening, frame, out)?;
        count += 1;
    }
    Ok(())
}

// Writes a frame, behind the opening where it is the first.
fn write_piece<O: Sink>(
    first: bool,
    opening: &[u8],
    samples: &[u8],
    out: &mut O,
) -> Result<(), Failed>
    ensures { Sends (O.told out.old) (O.told out.new)
        (piece first opening.now samples.now) result }
{
    if first {
        send_all(out, &[opening, "FRAME\n".as_bytes(), samples])
    } else {
        write_frame(samples, out)
    }
}

// Writes frame `count`, where it is listed.
fn write_listed<O: Sink>(
    from: u64,
    count: u64,
    opening: &[u8],
    samples: &[u8],
    out: &mut O,
) -> Result<(), Failed>
    ensures { Sends (O.told out.old) (O.told out.new)
        (listed_piece from count opening.now samples.now) result }
{
    if from <= count {
        write_piece(count == from, opening, samples, out)
    } else {
        Ok(())
    }
}

fn line_fault(fault: FrameFault) -> LineFault
    ensures { result ≡ line_fault (Some fault) }
{
    match fault {
        FrameFault::NoFrames => LineFault::ShortInput,
        _ => LineFault::Frames(fault),
    }
}
