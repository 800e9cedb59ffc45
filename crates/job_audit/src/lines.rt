//! The lines that steps give, and what they leave to the next one.
ghost use Rattle.std.specs.Prelude.{◌≡◌, [], ◌∷◌, List};
ghost use Rattle.std.specs.Option.{option_map_or};
ghost use Rattle.enc_guided.specs.Recoded.{FrameStep, Recoding};
ghost use Rattle.job_audit.specs.Audit.{line_text};
ghost use Rattle.job_audit.specs.StepLines.{chain_by, lines_of, said_in, step_text};
ghost use Rattle.job_audit.specs.Steps.{behind_anchor, has_chain_behind, line_behind};

use crate::line::{Line, Said};
use plan_window::{Mode, Step};

/// What the steps so far leave to the next one.
#[derive(Clone, Copy, Debug)]
pub(crate) struct Lines {
    /// The line of the last anchor. It waits for those of the frames in its group.
    pub waiting: Option<Line>,
    /// Whether the last anchor has a chain, or there is none.
    pub last_chain: bool,
    /// Whether the anchor before it has one, or there is none.
    pub chain_before: bool,
}

impl Lines {
    /// Before the first step.
    pub(crate) fn start() -> Lines
        ensures { (r : Recoding) → result ≡ lines_of r [] }
    {
        Lines {
            waiting: None,
            last_chain: true,
            chain_before: true,
        }
    }

    /// Takes a step, with what the record says that is found in its frame. It answers the line that is due: the step's own,
    /// or where the step is an anchor, that of the anchor before it.
    pub(crate) fn take(&mut self, step: &Step, found: Option<Said>) -> Option<Line>
        ensures stands { (r : Recoding) (before : List FrameStep) (s : FrameStep)
            → self.old ≡ lines_of r before → step.now ≡ s.step → found ≡ said_in r s
            → self.new ≡ lines_of r (s ∷ before) }
        ensures due { (r : Recoding) (before : List FrameStep) (s : FrameStep)
            → self.old ≡ lines_of r before → step.now ≡ s.step → found ≡ said_in r s
            → option_map_or line_text result [] ≡ step_text r before s }
    {
        let line = self.line(step, found);
        if step.anchor {
            self.wait(line)
        } else {
            Some(line)
        }
    }

    /// The line of a step.
    fn line(&self, step: &Step, found: Option<Said>) -> Line
        ensures { result ≡ line_behind self.now step.now found }
    {
        Line {
            frame: step.frame,
            found,
            mode: step.mode,
            has_chain: self.has_chain(step, &found),
        }
    }

    /// Whether a step has a chain. The forward side of an anchor is the last one; the last one is the anchor of a B's group,
    /// and the one before it is the B's forward side.
    fn has_chain(&self, step: &Step, found: &Option<Said>) -> bool
        ensures { result ≡ has_chain_behind self.now step.now found.now }
    {
        if step.anchor {
            chain_by(step.mode, found, self.last_chain)
        } else {
            chain_by(step.mode, found, self.chain_before) && self.last_chain
        }
    }

    /// The line of an anchor waits, and that of the anchor before it is due.
    fn wait(&mut self, line: Line) -> Option<Line>
        ensures due { result ≡ self.old.waiting }
        ensures left { self.new ≡ behind_anchor self.old line }
    {
        self.chain_before = self.last_chain;
        self.last_chain = line.has_chain;
        self.waiting.replace(line)
    }
}

/// Whether there is a chain through a frame, where that of its forward side is given.
fn chain_by(mode: Mode, found: &Option<Said>, behind: bool) -> bool
    ensures { result ≡ chain_by mode found.now behind }
{
    match (mode, found) {
        (Mode::Guided, Some(said)) => said.certified && (!said.uses_forward || behind),
        (Mode::Guided, None) | (Mode::Fresh, _) => false,
    }
}
