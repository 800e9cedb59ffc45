//! The frames of a file, coded step by step of a plan.
ghost use Rattle.std.specs.Prelude.{◌≡◌, List, [], ◌∷◌, ℕ, IfOk, Option};
ghost use Rattle.mv_terms.specs.Ranges.{IsFrameHeader, IsScaleCode};
ghost use Rattle.mv_ends.specs.Sends.{Sends};
ghost use Rattle.rec_legal.specs.FoundRecord.{FoundRecord};
ghost use Rattle.enc_guided.specs.Recoded.{Recoding, FrameStep, coded_step, coded_steps, ending_of};
ghost use Rattle.enc_guided.specs.Stands.{IsFreshStep, IsGuidedStep, StandsFor, frame_step};

use crate::coder::PictureCoder;
use crate::part::own_part;
use crate::picture::make_source;
use enc_fresh::default_context;
use mv_ends::{Failed, Sink};
use mv_planes::Picture;
use mv_terms::{FrameHeader, NoMemory};
use plan_window::Step;
use rec_legal::coded_law;
use rec_reader::Found;
use std::alloc::Global;

/// Codes the frames of a file, step by step of a plan.
#[derive(Drop)]
pub struct Recoder {
    pub(crate) coder: PictureCoder,
    /// The picture that a frame is a source of.
    pub(crate) source: Picture,
}

impl Recoder {
    /// A recoder that has coded no step of a file with this header. Fresh pictures have this quantiser scale code. It
    /// takes all memory that it needs.
    pub fn start(alloc: Global, header: &FrameHeader, scale: u8) -> Result<Recoder, NoMemory>
        requires header { IsFrameHeader header.now }
        requires scale { IsScaleCode scale }
        ensures { IfOk result (λ recoder. (find : List ℕ → Option FoundRecord)
            → StandsFor recoder (record { header = header.now; scale = scale; find = find }) []) }
    {
        let size = default_context(header);
        let coder = PictureCoder::start(alloc, header, scale)?;
        let source = Picture::grey(alloc, size.mb_wide, size.mb_high)?;
        Ok(Recoder { coder, source })
    }

    /// Codes a frame by the record that was found in it, and writes what the step has in the stream. It stands for the step
    /// even where writing failed.
    pub fn guided<O: Sink>(
        &mut self,
        step: &Step,
        frame: &[u8],
        found: &Found<'_>,
        out: &mut O,
    ) -> Result<(), Failed>
        requires { (r : Recoding) × (before : List FrameStep) × StandsFor self.old r before
            × IsGuidedStep r before (frame_step step.now frame.now) found.now }
        ensures stands { (r : Recoding) (before : List FrameStep) → StandsFor self.old r before
            → IsGuidedStep r before (frame_step step.now frame.now) found.now
            → StandsFor self.new r (frame_step step.now frame.now ∷ before) }
        ensures sends { (r : Recoding) (before : List FrameStep) → StandsFor self.old r before
            → IsGuidedStep r before (frame_step step.now frame.now) found.now
            → Sends (O.told out.old) (O.told out.new)
            (coded_step r (frame_step step.now frame.now) (coded_steps r before)).bytes result }
    {
        // for the proof: the headers of a record that is found are legal
        coded_law();
        make_source(frame, &mut self.source);
        self.coder.guided(step.frame, found, &self.source, out)
    }

    /// Codes a frame anew, under the sequence part of its own record where it has an anchor record, and writes what the step
    /// has in the stream. It stands for the step even where writing failed.
    pub fn fresh<O: Sink>(
        &mut self,
        step: &Step,
        frame: &[u8],
        found: Option<Found<'_>>,
        out: &mut O,
    ) -> Result<(), Failed>
        requires { (r : Recoding) × (before : List FrameStep) × StandsFor self.old r before
            × IsFreshStep r before (frame_step step.now frame.now) found }
        ensures stands { (r : Recoding) (before : List FrameStep) → StandsFor self.old r before
            → IsFreshStep r before (frame_step step.now frame.now) found.entry
            → StandsFor self.new r (frame_step step.now frame.now ∷ before) }
        ensures sends { (r : Recoding) (before : List FrameStep) → StandsFor self.old r before
            → IsFreshStep r before (frame_step step.now frame.now) found.entry
            → Sends (O.told out.old) (O.told out.new)
            (coded_step r (frame_step step.now frame.now) (coded_steps r before)).bytes result }
    {
        // for the proof: the headers of a record that is found are legal
        coded_law();
        make_source(frame, &mut self.source);
        let own = own_part(&found);
        self.coder
            .fresh(step.frame, step.anchor, own, &self.source, out)
    }

    /// Writes what stands behind the last step: its end code with the zero bytes behind it, where its record has one.
    pub fn finish<O: Sink>(&self, out: &mut O) -> Result<(), Failed>
        requires { (r : Recoding) × (steps : List FrameStep) × StandsFor self.now r steps }
        ensures { (r : Recoding) (steps : List FrameStep) → StandsFor self.now r steps
            → Sends (O.told out.old) (O.told out.new)
            (ending_of (coded_steps r steps)) result }
    {
        self.coder.finish(out)
    }

    /// The decoded picture of the last step.
    pub fn picture(&self) -> &Picture
        ensures { (r : Recoding) (s : FrameStep) (before : List FrameStep)
            → StandsFor self.now r (s ∷ before)
            → result.now ≡ (coded_step r s (coded_steps r before)).decoded.picture }
    {
        self.coder.picture()
    }
}
