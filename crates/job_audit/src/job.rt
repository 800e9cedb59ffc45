//! The job.
ghost use Rattle.mv_ends.specs.Commands.{Runs};
ghost use Rattle.mv_ends.specs.Kept.{KeepsShelf, KeepsSink};
ghost use Rattle.job_audit.specs.Command.{audit_command};

use crate::coder::AuditCoder;
use crate::laws::audited_file_law;
use job_coding::coding_job;
use mv_ends::{Shelf, Sink};
use mv_terms::Status;
use std::alloc::Global;

/// Nothing is coded, so this quantiser scale code makes no difference.
const SCALE: u8 = 1;

/// Writes the audit of the frame file of this name, up to its first fault: a line for each frame, in the order of the
/// frames.
///
/// The file may be of any length up to 2^44 bytes. It is read as `coding_job` reads it, each step of the plan gives
/// its line as soon as the frames read so far show it, and all memory is taken before the first byte is written.
pub fn audit_job<S: Shelf, O: Sink>(alloc: Global, name: &str, shelf: &mut S, out: &mut O) -> Status
    ensures runs { Runs (audit_command name.now) (S.told shelf.old) (S.told shelf.new)
        (O.told out.old) (O.told out.new) result }
    ensures keeps_sink { KeepsSink (O.told out.old) (O.told out.new) }
    ensures kept { KeepsShelf (S.told shelf.old) (S.told shelf.new) }
{
    // for the proof: what is written for a file
    audited_file_law();
    coding_job::<S, O, AuditCoder>(alloc, name, SCALE, shelf, out)
}
