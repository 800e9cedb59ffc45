//! The records of the frames of a file, and what the plan has to know of each frame.
ghost use Rattle.std.specs.Prelude.{◌≡◌, ℕ, ◌<◌, ◌^◌, List, [], ◌∷◌, ◌++◌, length, option_map, IfOk, true, is_some};
ghost use Rattle.std.specs.Borrow.{sem};
ghost use Rattle.mv_terms.specs.declared.frame_header.FrameHeader.{FrameHeader};
ghost use Rattle.mv_terms.specs.Ranges.{IsFrameHeader};
ghost use Rattle.rec_legal.specs.Conditions.{file_size};
ghost use Rattle.rec_legal.specs.Found.{found};
ghost use Rattle.rec_reader.specs.Lent.{lent_found};
ghost use Rattle.plan_window.specs.Numbers.{AreNumbered};
ghost use Rattle.plan_window.specs.Plan.{ahead};
ghost use Rattle.plan_window.specs.declared.summary.Summary.{Summary};
ghost use Rattle.job_coding.specs.Codings.{IsFrameOf};
ghost use Rattle.job_coding.specs.Stands.{StandsFor, StaysSame, known_of};

use mv_terms::{FrameHeader, NoMemory};
use plan_numbers::{ContextNumbers, numbered_law};
use plan_window::{Mode, Summary};
use rec_reader::{Found, RecordReader, no_summary, right_law};
use std::alloc::Global;

/// Looks for the record of each frame of a file, and gives numbers to the contexts.
#[derive(Drop)]
pub struct Records {
    reader: RecordReader,
    numbers: ContextNumbers,
}

impl Records {
    /// Takes the room for the frames of a file with this header. No other call takes memory.
    pub fn start(alloc: Global, header: &FrameHeader) -> Result<Records, NoMemory>
        requires { IsFrameHeader header.now }
        ensures { IfOk result (λ records. StandsFor records header.now [] []) }
    {
        Ok(Records {
            reader: RecordReader::start(alloc, header)?,
            numbers: ContextNumbers::start(alloc)?,
        })
    }

    /// The summary of the next frame. Its context is a number: frames that are at most 16 apart have the same number
    /// exactly where they have the same context.
    pub fn look(&mut self, frame: &[u8]) -> Summary
        requires { (header : FrameHeader) × (frames : List (List ℕ)) × (numbered : List Summary)
            × StandsFor self.old header frames numbered × IsFrameOf header frame.now
            × (length frames < 2 ^ 44) }
        ensures stands { (header : FrameHeader) (frames : List (List ℕ))
            (numbered : List Summary) → StandsFor self.old header frames numbered
            → length frames < 2 ^ 44
            → StandsFor self.new header (frames ++ frame.now ∷ []) (numbered ++ result ∷ []) }
        ensures numbers { (header : FrameHeader) (frames : List (List ℕ))
            (numbered : List Summary) → StandsFor self.new header frames numbered
            → AreNumbered ahead (known_of header frames) numbered }
    {
        // for the proof: numbers serve as contexts, and the context of a record is short enough
        numbered_law();
        right_law();
        match self.reader.read(frame) {
            Some(found) => Summary {
                context: self.numbers.number(found.record.sheet.context),
                ..found.summary()
            },
            None => Summary {
                context: self.numbers.number(&[]),
                ..no_summary()
            },
        }
    }

    /// Lends the record of the frame of a step, or answers that it has none. Where the step is coded by its record, it is
    /// known to have one, whose seal isn't looked at again.
    pub fn found(&mut self, mode: Mode, frame: &[u8]) -> Option<Found<'_>>
        requires { (header : FrameHeader) × (frames : List (List ℕ)) × (numbered : List Summary)
            × StandsFor self.old header frames numbered × IsFrameOf header frame.now
            × (mode ≡ Mode.Guided → is_some (found (file_size header) frame.now) ≡ true) }
        ensures* same { sem 𝓛 (StaysSame self.entry) }
        ensures found { (header : FrameHeader) (frames : List (List ℕ))
            (numbered : List Summary) → StandsFor self.old header frames numbered
            → option_map lent_found result ≡ found (file_size header) frame.now }
    {
        match mode {
            Mode::Guided => self.reader.read_again(frame),
            Mode::Fresh => self.reader.read(frame),
        }
    }
}
