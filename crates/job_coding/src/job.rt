//! The job.
ghost use Rattle.std.specs.Prelude.{◌≡◌};
ghost use Rattle.std.specs.Option.{ForSome};
ghost use Rattle.std.specs.Io.KnownBytes.{IsAtEnd, Keeps};
ghost use Rattle.mv_ends.specs.Causes.{Rose, FailedWrite};
ghost use Rattle.mv_ends.specs.Commands.{Runs};
ghost use Rattle.mv_ends.specs.Ends.{Ends};
ghost use Rattle.mv_ends.specs.Moves.{input_of};
ghost use Rattle.mv_ends.specs.Kept.{KeepsShelf, KeepsSink};
ghost use Rattle.mv_ends.specs.Endings.{ending_of};
ghost use Rattle.mv_terms.specs.Ranges.{IsScaleCode};
ghost use Rattle.job_coding.specs.Command.{coding_command};
ghost use Rattle.job_coding.specs.Outcome.{AppendsTaken, IsCodingStatus, TakesNear, outcome_of};

use crate::coder::Coder;
use crate::frames::code_frames;
use crate::slots::Slots;
use mv_ends::{Shelf, Sink};
use mv_terms::Status;
use plan_window::Window;
use std::alloc::Global;
use y4m_frames::{FrameReader, Halt};

/// Has a coder code the frames of the frame file of this name, up to its first fault, in the order of their plan. The
/// quantiser scale code (H.262, 7.4.2.2) is handed to the coder.
///
/// The file may be of any length up to 2^44 bytes. It is read in pieces of at most 65,536 bytes, each frame when it is
/// needed, and each step is coded as soon as the frames read so far show it: 17 frames at most wait for their steps. All
/// memory is taken before the first byte is written.
pub fn coding_job<S: Shelf, O: Sink, C: Coder>(
    alloc: Global,
    name: &str,
    scale: u8,
    shelf: &mut S,
    out: &mut O,
) -> Status
    requires { IsScaleCode scale }
    ensures runs { Runs (coding_command (C.coding_of scale) name.now) (S.told shelf.old) (S.told shelf.new)
        (O.told out.old) (O.told out.new) result }
    ensures keeps_sink { KeepsSink (O.told out.old) (O.told out.new) }
    ensures kept { KeepsShelf (S.told shelf.old) (S.told shelf.new) }
{
    code_named::<S, O, C>(alloc, name, scale, shelf, out)
}

/// Does what `coding_job` says, fact by fact.
fn code_named<S: Shelf, O: Sink, C: Coder>(
    alloc: Global,
    name: &str,
    scale: u8,
    shelf: &mut S,
    out: &mut O,
) -> Status
    requires { IsScaleCode scale }
    // Where the inputs are told, it ends as it is defined, but for want of memory and for the faults below.
    ensures ends { ForSome (S.told shelf.old).named (λ inputs.
        Ends (outcome_of (C.coding_of scale) (input_of inputs name.now)) (ending_of result)
        (O.told out.old).written (O.told out.new).written) }

    // Where it is done, the input was read to its end. Also where the inputs aren't told, no other statuses come, and
    // nothing is written where the input isn't opened or memory is wanting.
    ensures done { result ≡ Status.Done → IsAtEnd (S.told shelf.new).rest }
    ensures kind { IsCodingStatus result }
    ensures unopened { result ≡ Status.OpenFault
        → Keeps (O.told out.old).written (O.told out.new).written }
    ensures no_memory { result ≡ Status.NoMemory
        → Keeps (O.told out.old).written (O.told out.new).written }

    // After a read fault what stands on the output begins what is written for the frames that were wholly read, whatever
    // would have followed them.
    ensures settled { result ≡ Status.ReadFault
        → AppendsTaken (C.coding_of scale) name.now (S.told shelf.old).named (S.told shelf.new).rest
        (O.told out.old).written (O.told out.new).written }

    // Where a write fails, the input was taken less than a piece behind what the next 17 frames need.
    ensures reads_ahead { result ≡ Status.WriteFault
        → TakesNear (C.coding_of scale) name.now (S.told shelf.old).named (S.told shelf.new).rest
        (O.told out.old).written (O.told out.new).written }

    // A fault of an endpoint is answered only where it was counted in this call, for this very name.
    ensures open_fault { result ≡ Status.OpenFault
        → Rose ((S.told shelf.old).open_faults name.now) ((S.told shelf.new).open_faults name.now) }
    ensures read_fault { result ≡ Status.ReadFault
        → Rose ((S.told shelf.old).read_faults name.now) ((S.told shelf.new).read_faults name.now) }
    ensures write_fault { result ≡ Status.WriteFault
        → FailedWrite (O.told out.old) (O.told out.new) }

    ensures keeps_sink { KeepsSink (O.told out.old) (O.told out.new) }
    ensures kept { KeepsShelf (S.told shelf.old) (S.told shelf.new) }
{
    match shelf.select(name) {
        Ok(()) => {}
        Err(_) => return Status::OpenFault,
    }
    let mut reader = match FrameReader::start(alloc, shelf) {
        Ok(reader) => reader,
        Err(Halt::Fault(fault)) => return Status::Frames(fault),
        Err(Halt::Read) => return Status::ReadFault,
        Err(Halt::NoMemory) => return Status::NoMemory,
    };
    let header = *reader.header();
    let Ok(mut window) = Window::start(alloc) else {
        return Status::NoMemory;
    };
    let Ok(mut slots) = Slots::start(alloc, &header) else {
        return Status::NoMemory;
    };
    let Ok(mut coder) = C::start(alloc, scale, &header) else {
        return Status::NoMemory;
    };
    code_frames(&mut reader, &mut window, &mut slots, &mut coder, shelf, out)
}
