//! The loop over the frames of a file and the steps of their plan.
ghost use Rattle.std.specs.Prelude.{◌≡◌, ◌≢◌, ℕ, ◌≤◌, ◌^◌, [], List, false, None, length, All};
ghost use Rattle.std.specs.Io.KnownBytes.{IsAtEnd};
ghost use Rattle.mv_ends.specs.Causes.{FailedRead, FailedWrite};
ghost use Rattle.mv_ends.specs.Kept.{KeepsShelf, KeepsSink};
ghost use Rattle.plan_window.specs.Plan.{ahead};
ghost use Rattle.plan_window.specs.Stands.{StandsFor};
ghost use Rattle.y4m_frames.specs.Behind.{IsBehind};
ghost use Rattle.y4m_frames.specs.Frames.{frame_len};
ghost use Rattle.job_coding.specs.Outcome.{HeaderCoding, IsCodingStatus, status_of};
ghost use Rattle.job_coding.specs.Steps.{EndsFile};

use crate::coder::Coder;
use crate::slots::Slots;
use mv_ends::{Shelf, Sink};
use mv_terms::{FrameFault, Status};
use plan_window::{Window, numbers_law, plan_law};
use y4m_frames::{FrameReader, Halt};

fn status_of(fault: Option<FrameFault>) -> Status
    ensures { result ≡ status_of fault }
{
    match fault {
        None => Status::Done,
        Some(fault) => Status::Frames(fault),
    }
}

/// Codes the frames of a file in the order of their plan, as they are read: a frame more is read only where those read so
/// far show no further step.
pub(crate) fn code_frames<S: Shelf, O: Sink, C: Coder>(
    reader: &mut FrameReader,
    window: &mut Window,
    slots: &mut Slots,
    coder: &mut C,
    shelf: &mut S,
    out: &mut O,
) -> Status
    requires window { StandsFor ahead window.old [] [] }
    requires not_closed { window.old.closed ≡ false }
    requires coder { C.stands coder.old [] [] [] }
    requires header { (C.coding coder.old).header ≡ reader.old.header }
    requires count { length slots.old ≡ 17 }
    requires sizes { All (λ frame. length frame ≡ frame_len reader.old.header) slots.old }
    requires room { reader.old.room ≤ 2 ^ 44 }
    requires runs { reader.old.failed ≡ None }
    ensures ends { (coding : HeaderCoding) (file : List ℕ)
        → coding reader.old.header ≡ C.coding coder.old
        → IsBehind reader.old (S.told shelf.old).rest file []
        → EndsFile coding file (S.told shelf.new).rest (O.told out.old).written
        (O.told out.new).written result }
    ensures done { result ≡ Status.Done → IsAtEnd (S.told shelf.new).rest }
    ensures kind { IsCodingStatus result }
    ensures no_open { result ≢ Status.OpenFault }
    ensures no_memory { result ≢ Status.NoMemory }
    ensures read_fault { result ≡ Status.ReadFault
        → FailedRead (S.told shelf.old) (S.told shelf.new) }
    ensures write_fault { result ≡ Status.WriteFault
        → FailedWrite (O.told out.old) (O.told out.new) }
    ensures keeps_sink { KeepsSink (O.told out.old) (O.told out.new) }
    ensures kept { KeepsShelf (S.told shelf.old) (S.told shelf.new) }
{
    plan_law();
    numbers_law();
    let mut count: u64 = 0;
    let mut ending: Option<Option<FrameFault>> = None;
    'turns: loop {
        match window.plan_next() {
            Some(step) => match coder.code(step, slots.frame(step.frame), out) {
                Ok(()) => {}
                Err(_) => return Status::WriteFault,
            },
            None => match ending {
                Some(fault) => match coder.finish(out) {
                    Ok(()) => return status_of(fault),
                    Err(_) => return Status::WriteFault,
                },
                None => match slots.read(count, reader, shelf) {
                    Ok(true) => {
                        let summary = coder.look(slots.frame(count));
                        window.push(summary);
                        count += 1;
                    }
                    Ok(false) => {
                        window.close();
                        ending = Some(None);
                    }
                    Err(Halt::Fault(fault)) => {
                        window.close();
                        ending = Some(Some(fault));
                    }
                    Err(Halt::Read) => return Status::ReadFault,
                    Err(Halt::NoMemory) => return Status::NoMemory,
                },
            },
        }
    }
}
