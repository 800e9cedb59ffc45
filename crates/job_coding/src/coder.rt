//! What codes the steps of a plan.
ghost use Rattle.std.specs.Prelude.{◌≡◌, ℕ, ◌<◌, ◌^◌, List, [], ◌∷◌, ◌++◌, length, IfOk, OnOk};
ghost use Rattle.mv_ends.specs.Sends.{Sends};
ghost use Rattle.plan_window.specs.Numbers.{AreNumbered};
ghost use Rattle.plan_window.specs.Plan.{ahead};
ghost use Rattle.plan_window.specs.declared.summary.Summary.{Summary};
ghost use Rattle.mv_terms.specs.Ranges.{IsFrameHeader, IsScaleCode};
ghost use Rattle.enc_guided.specs.Recoded.{FrameStep};
ghost use Rattle.job_coding.specs.Outcome.{HeaderCoding};
ghost use Rattle.job_coding.specs.Codings.{Coding, IsFrameOf, IsNextStep, summaries};

use mv_ends::{Failed, Sink};
use mv_terms::{FrameHeader, NoMemory};
use plan_window::{Step, Summary};
use std::alloc::Global;

/// Codes the steps of a plan. It looks at each frame of a file in turn, and codes each step behind those before it.
pub trait Coder: Sized + Drop {
    /// How frames are coded, by the quantiser scale code of fresh pictures.
    ghost coding_of: { ℕ → HeaderCoding };

    /// How this coder codes.
    ghost coding: { Self → Coding };

    /// It stands behind these frames that it looked at, with these summaries, and behind these steps that it coded, the
    /// last one first.
    ghost stands: { Self → List (List ℕ) → List Summary → List FrameStep → Type 0 };

    /// A coder for the frames of a file with this header. No later call takes memory.
    fn start(alloc: Global, scale: u8, header: &FrameHeader) -> Result<Self, NoMemory>
        requires scale { IsScaleCode scale }
        requires header { IsFrameHeader header.now }
        ensures coding { IfOk result (λ coder. coding coder ≡ coding_of scale header.now) }
        ensures header { IfOk result (λ coder. (coding coder).header ≡ header.now) }
        ensures stands { IfOk result (λ coder. stands coder [] [] []) };

    /// The summary of the next frame. Its context is a number: frames that are at most 16 apart have the same number
    /// exactly where they have the same context.
    fn look(&mut self, frame: &[u8]) -> Summary
        requires frame { IsFrameOf (coding self.old).header frame.now }
        requires stands { (frames : List (List ℕ)) × (numbered : List Summary)
            × (steps : List FrameStep) × stands self.old frames numbered steps
            × (length frames < 2 ^ 44) }
        ensures stands { (frames : List (List ℕ)) (numbered : List Summary)
            (steps : List FrameStep) → stands self.old frames numbered steps
            → length frames < 2 ^ 44
            → stands self.new (frames ++ frame.now ∷ []) (numbered ++ result ∷ []) steps }
        ensures numbers { (frames : List (List ℕ)) (numbered : List Summary)
            (steps : List FrameStep) → stands self.new frames numbered steps
            → AreNumbered ahead (summaries (coding self.new) frames) numbered }
        ensures coding { coding self.new ≡ coding self.old };

    /// Codes a step behind those before it, and writes its bytes. After a failure it is of no more use.
    fn code<O: Sink>(&mut self, step: Step, frame: &[u8], out: &mut O) -> Result<(), Failed>
        requires { (frames : List (List ℕ)) × (numbered : List Summary)
            × (before : List FrameStep) × stands self.old frames numbered before
            × IsNextStep (coding self.old) before (record { step = step; frame = frame.now }) }
        ensures stands { OnOk result ((frames : List (List ℕ)) (numbered : List Summary)
            (before : List FrameStep) → stands self.old frames numbered before
            → IsNextStep (coding self.old) before (record { step = step; frame = frame.now })
            → stands self.new frames numbered
            (record { step = step; frame = frame.now } ∷ before)) }
        ensures sends { (frames : List (List ℕ)) (numbered : List Summary)
            (before : List FrameStep) → stands self.old frames numbered before
            → IsNextStep (coding self.old) before (record { step = step; frame = frame.now })
            → Sends (O.told out.old) (O.told out.new)
            ((coding self.old).bytes before (record { step = step; frame = frame.now })) result }
        ensures coding { coding self.new ≡ coding self.old };

    /// Writes what ends the output behind these steps.
    fn finish<O: Sink>(&mut self, out: &mut O) -> Result<(), Failed>
        requires { (frames : List (List ℕ)) × (numbered : List Summary)
            × (steps : List FrameStep) × stands self.old frames numbered steps }
        ensures { (frames : List (List ℕ)) (numbered : List Summary) (steps : List FrameStep)
            → stands self.old frames numbered steps
            → Sends (O.told out.old) (O.told out.new)
            ((coding self.old).ending steps) result };
}
