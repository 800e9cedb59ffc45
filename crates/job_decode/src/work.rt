//! What a unit of a stream comes to: its frame, and what is shown when it comes.
ghost use Rattle.std.specs.Prelude.{◌≡◌, ◌≢◌, ◌++◌, ⊤, List, [], None, Some, IfOk, IfErr, IfSome, IsErrOf, option_copied};
ghost use Rattle.std.specs.Io.KnownBytes.{Appends};
ghost use Rattle.mv_ends.specs.Kept.{KeepsSink};
ghost use Rattle.mv_ends.specs.Causes.{FailedWrite};
ghost use Rattle.mv_ends.specs.Moves.{AppendsFront};
ghost use Rattle.mv_ends.specs.Sends.{Sends};
ghost use Rattle.mv_terms.specs.Ranges.{IsContext};
ghost use Rattle.mv_terms.specs.UnitLists.{lent_unit};
ghost use Rattle.mv_slices.specs.UnitSlices.{IsUnitSlices};
ghost use Rattle.mv_units.specs.Profile.{CodedUnit, Refuses};
ghost use Rattle.cert_picture.specs.FrameFileOf.{held_frame};
ghost use Rattle.job_decode.specs.Steps.{DecodesUnit, Finishes, IsStarted, IsWork, MayTake, StepsTo, WorkStands, heading, held_bytes, is_empty, kept, shown_frame};

use crate::frames::FrameMaker;
use mv_decode::{Decoder, first_context};
use mv_ends::{Failed, Sink};
use mv_store::Shown;
use mv_terms::{Context, FrameHeader, NoMemory, Status, UnitParts, Why};
use std::alloc::Global;
use std::mem;
use y4m_frames::{write_frame, write_header};

/// Why decoding ends at a unit.
#[derive(Clone, Copy, Debug, PartialEq, Eq)]
pub(crate) enum Stop {
    Refused(Why),
    NoMemory,
    WriteFault,
}

/// What the units so far leave: the decoder, what makes their frames, and the sample bytes of the frame that is held and
/// of the one that was made last.
#[derive(Drop)]
pub(crate) struct Work {
    pub(crate) decoder: Decoder,
    pub(crate) frames: FrameMaker,
    pub(crate) held: Vec<u8>,
    pub(crate) next: Vec<u8>,
    /// A frame is held: an anchor came.
    pub(crate) holds: bool,
}

/// Decodes the next unit, and writes what it lets be shown. There is no work before the first unit; all memory is taken
/// then.
pub(crate) fn take_unit<O: Sink>(
    alloc: Global,
    unit: &UnitParts<'_>,
    work: &mut Option<Work>,
    out: &mut O,
) -> Result<(), Stop>
    requires slices { IsUnitSlices unit.now.slices.now }
    requires stands { (before : List CodedUnit) × WorkStands work.old before }
    ensures steps { (before : List CodedUnit) → WorkStands work.old before
        → StepsTo (λ units. WorkStands work.new units) before (lent_unit unit.now)
        (O.told out.old).written (O.told out.new).written result }
    ensures keeps_sink { KeepsSink (O.told out.old) (O.told out.new) }
    ensures failed { IsErrOf result Stop.WriteFault
        → FailedWrite (O.told out.old) (O.told out.new) }
{
    match work {
        Some(work) => step(false, unit, work, out),
        None => {
            let mut first = start_work(alloc, unit)?;
            step(true, unit, &mut first, out)?;
            *work = Some(first);
            Ok(())
        }
    }
}

/// The work for a stream with this first unit.
fn start_work(alloc: Global, unit: &UnitParts<'_>) -> Result<Work, Stop>
    ensures started { IfOk result (λ work. MayTake work [] (lent_unit unit.now)) }
    ensures refused { (why : Why) → IsErrOf result (Stop.Refused why)
        → Refuses None (lent_unit unit.now) why }
    ensures written { IfErr result (λ stop. stop ≢ Stop.WriteFault) }
{
    let context = first_context(unit).map_err(|why| Stop::Refused(why))?;
    Work::start(alloc, &context).map_err(|_| Stop::NoMemory)
}

impl Work {
    /// The work for a stream whose pictures have the size of this context.
    fn start(alloc: Global, context: &Context) -> Result<Work, NoMemory>
        ensures { IfOk result (λ work. IsStarted context.now.mb_wide context.now.mb_high work) }
    {
        let count = 768 * (usize::from(context.mb_wide) * usize::from(context.mb_high));
        Ok(Work {
            decoder: Decoder::start(alloc, context)?,
            frames: FrameMaker::start(alloc, context.mb_wide, context.mb_high)?,
            held: vec![in alloc; 0; count].map_err(|_| NoMemory)?,
            next: vec![in alloc; 0; count].map_err(|_| NoMemory)?,
            holds: false,
        })
    }
}

/// Decodes a unit, which is the first one or isn't, and writes what it lets be shown.
fn step<O: Sink>(
    first: bool,
    unit: &UnitParts<'_>,
    work: &mut Work,
    out: &mut O,
) -> Result<(), Stop>
    requires slices { IsUnitSlices unit.now.slices.now }
    requires stands { (before : List CodedUnit) × MayTake work.old before (lent_unit unit.now)
        × (first ≡ is_empty before) }
    ensures steps { (before : List CodedUnit) → MayTake work.old before (lent_unit unit.now)
        → first ≡ is_empty before
        → StepsTo (λ units. IsWork work.new units) before (lent_unit unit.now)
        (O.told out.old).written (O.told out.new).written result }
    ensures keeps_sink { KeepsSink (O.told out.old) (O.told out.new) }
    ensures failed { IsErrOf result Stop.WriteFault
        → FailedWrite (O.told out.old) (O.told out.new) }
{
    let shown = match decode_unit(unit, work) {
        Ok(shown) => shown,
        Err(why) => return Err(Stop::Refused(why)),
    };
    match write_due(first, work.decoder.context(), shown, work, out) {
        Ok(()) => {}
        Err(_) => return Err(Stop::WriteFault),
    }
    keep(shown, work);
    Ok(())
}

/// Decodes a unit and makes its frame.
fn decode_unit(unit: &UnitParts<'_>, work: &mut Work) -> Result<Shown, Why>
    requires slices { IsUnitSlices unit.now.slices.now }
    requires stands { (before : List CodedUnit) × MayTake work.old before (lent_unit unit.now) }
    ensures { (before : List CodedUnit) → MayTake work.old before (lent_unit unit.now)
        → DecodesUnit work.old work.new before (lent_unit unit.now) result }
{
    let shown = work.decoder.unit(unit)?;
    let coded = work.decoder.coded();
    work.frames.make(&coded, unit, &mut work.next);
    Ok(shown)
}

/// Writes what is due as soon as a unit came: the header line of its sequence where it is the first, and the frame that
/// is shown now. `context` is that of the unit.
fn write_due<O: Sink>(
    first: bool,
    context: Option<&Context>,
    shown: Shown,
    work: &Work,
    out: &mut O,
) -> Result<(), Failed>
    requires { IfSome context (λ context. IsContext context.now) }
    ensures { Sends (O.told out.old) (O.told out.new)
        (heading first (option_copied context.entry)
        ++ shown_frame shown work.now.held.items work.now.next.items) result }
{
    write_heading(first, context, out)?;
    write_shown(shown, &work.held, &work.next, out)
}

/// Writes the header line for this sequence, where its unit is the first one.
fn write_heading<O: Sink>(first: bool, context: Option<&Context>, out: &mut O) -> Result<(), Failed>
    requires { IfSome context (λ context. IsContext context.now) }
    ensures { Sends (O.told out.old) (O.told out.new)
        (heading first (option_copied context.entry)) result }
{
    match context {
        Some(context) if first => write_header(&FrameHeader::of(context), out),
        _ => Ok(()),
    }
}

/// Writes the frame that is shown now.
fn write_shown<O: Sink>(shown: Shown, held: &[u8], next: &[u8], out: &mut O) -> Result<(), Failed>
    ensures { Sends (O.told out.old) (O.told out.new)
        (shown_frame shown held.now next.now) result }
{
    match shown {
        Shown::Nothing => Ok(()),
        Shown::Previous => write_frame(held, out),
        Shown::Current => write_frame(next, out),
    }
}

/// Holds the frame of an anchor from now on.
fn keep(shown: Shown, work: &mut Work)
    ensures { work.new ≡ kept shown work.old }
{
    if shown != Shown::Current {
        mem::swap(&mut work.held, &mut work.next);
        work.holds = true;
    }
}

/// Writes the frame that is held, where one is, and answers the status, or that writing failed.
pub(crate) fn finish<O: Sink>(work: &Option<Work>, status: Status, out: &mut O) -> Status
    requires { status ≢ Status.WriteFault }
    ensures ends { Finishes work.now status result (O.told out.old).written
        (O.told out.new).written }
    ensures keeps_sink { KeepsSink (O.told out.old) (O.told out.new) }
    ensures failed { result ≡ Status.WriteFault
        → FailedWrite (O.told out.old) (O.told out.new) }
{
    match write_held(work, out) {
        Ok(()) => status,
        Err(_) => Status::WriteFault,
    }
}

/// Writes the frame that is held, where one is.
fn write_held<O: Sink>(work: &Option<Work>, out: &mut O) -> Result<(), Failed>
    ensures { Sends (O.told out.old) (O.told out.new) (held_bytes work.now) result }
{
    match work {
        Some(work) if work.holds => write_frame(&work.held, out),
        _ => Ok(()),
    }
}
