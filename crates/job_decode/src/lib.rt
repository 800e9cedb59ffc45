//! The job of `decode`: from the bytes of a stream, as they come, to the frame file that it decodes to.
//!
//! Its promise: `decode_job` runs `decode_command` of `specs/Command.antt`. It ends as `IsOutcome` in `specs/Stream.antt` defines for the bytes of the named input, in
//! status and output, but for want of memory and counted faults of its endpoints; `outcome_law` says that each stream
//! has one outcome. It writes each frame as soon as display order allows, and reads a piece more only where the bytes so
//! far decide nothing: so the input is taken little further than what is written. The frame of an anchor is made, and its
//! seal is known to later frames, when it is decoded, and is held until it is shown. `specs/Steps.antt` only carries
//! proofs.
#![tactic(auto)]

mod frames;
mod links;
mod piece;
mod sequence;
mod stream;
mod work;

ghost use Rattle.std.specs.Prelude.{◌≡◌};
ghost use Rattle.std.specs.Option.{ForSome};
ghost use Rattle.std.specs.Io.KnownBytes.{IsAtEnd, Keeps};
ghost use Rattle.mv_ends.specs.Causes.{Rose, FailedWrite};
ghost use Rattle.mv_ends.specs.Commands.{Runs};
ghost use Rattle.mv_ends.specs.Ends.{Ends, Outcome};
ghost use Rattle.mv_ends.specs.Moves.{input_of};
ghost use Rattle.mv_ends.specs.Kept.{KeepsShelf, KeepsSink};
ghost use Rattle.mv_ends.specs.Endings.{ending_of};
ghost use Rattle.job_decode.specs.Command.{decode_command};
ghost use Rattle.job_decode.specs.Profile.{DoneIsInProfile, UnitIsRefused};
ghost use Rattle.job_decode.specs.Stream.{AppendsTaken, EachHasOneOutcome, IsDecodeStatus, IsOutcome, TakesNear};

use crate::stream::decode_stream;
use mv_ends::{Shelf, Sink};
use mv_terms::Status;
use std::alloc::Global;

/// Writes the frame file that the stream of this name decodes to: the frames of its pictures, each with its record where
/// it has one, in the order in which they are shown (H.262, 6.1.1.11), up to the first unit that is refused.
///
/// The input may be of any length up to 2^44 bytes. It is read in pieces of at most 65,536 bytes, each when it is
/// needed, and each frame is written as soon as it is shown. All memory is taken before the first byte is written.
pub fn decode_job<S: Shelf, O: Sink>(
    alloc: Global,
    name: &str,
    shelf: &mut S,
    out: &mut O,
) -> Status
    ensures runs { Runs (decode_command name.now) (S.told shelf.old) (S.told shelf.new)
        (O.told out.old) (O.told out.new) result }
    ensures keeps_sink { KeepsSink (O.told out.old) (O.told out.new) }
    ensures kept { KeepsShelf (S.told shelf.old) (S.told shelf.new) }
{
    decode_named(alloc, name, shelf, out)
}

/// Does what `decode_job` says, fact by fact.
fn decode_named<S: Shelf, O: Sink>(alloc: Global, name: &str, shelf: &mut S, out: &mut O) -> Status
    // Where the inputs are told, it ends as it is defined, but for want of memory and for the faults below.
    ensures ends { ForSome (S.told shelf.old).named (λ inputs.
        (outcome : Outcome Status) × IsOutcome (input_of inputs name.now) outcome
        × Ends outcome (ending_of result) (O.told out.old).written (O.told out.new).written) }
    ensures done { result ≡ Status.Done → IsAtEnd (S.told shelf.new).rest }

    // Also where they aren't told, no other statuses come, and nothing is written where the input isn't opened or memory
    // is wanting.
    ensures kind { IsDecodeStatus result }
    ensures unopened { result ≡ Status.OpenFault
        → Keeps (O.told out.old).written (O.told out.new).written }
    ensures no_memory { result ≡ Status.NoMemory
        → Keeps (O.told out.old).written (O.told out.new).written }

    // After a read fault exactly that stands on the output which is due to the bytes that were taken.
    ensures read_part { result ≡ Status.ReadFault
        → AppendsTaken name.now (S.told shelf.old).named (S.told shelf.new).rest
        (O.told out.old).written (O.told out.new).written }

    // Where a write fails, the input was taken less than a piece behind what the next two frames need.
    ensures reads_near { result ≡ Status.WriteFault
        → TakesNear name.now (S.told shelf.old).named (S.told shelf.new).rest
        (O.told out.old).written (O.told out.new).written }

    // A fault of an endpoint is answered only where it was counted in this call, for this very name.
    ensures open_fault { result ≡ Status.OpenFault
        → Rose ((S.told shelf.old).open_faults name.now) ((S.told shelf.new).open_faults name.now) }
    ensures read_fault { result ≡ Status.ReadFault
        → Rose ((S.told shelf.old).read_faults name.now) ((S.told shelf.new).read_faults name.now) }
    ensures write_fault { result ≡ Status.WriteFault
        → FailedWrite (O.told out.old) (O.told out.new) }

    ensures keeps_sink { KeepsSink (O.told out.old) (O.told out.new) }
    ensures kept { KeepsShelf (S.told shelf.old) (S.told shelf.new) }
{
    match shelf.select(name) {
        Ok(()) => decode_stream(alloc, name, shelf, out),
        Err(_) => Status::OpenFault,
    }
}

/// Each stream has one outcome.
pub fn outcome_law()
    ensures { EachHasOneOutcome }
{}

/// What the answers say of a stream: it is in the profile, or this unit is the first one that is refused.
pub fn profile_law()
    ensures done { DoneIsInProfile }
    ensures refused { UnitIsRefused }
{}
