//! The summaries of 17 frames at most, and the steps of the plan as soon as these show them.
ghost use Rattle.std.specs.Prelude.{◌≡◌, ⊤, ℕ, ◌⊎◌, ◌↔◌, ◌+◌, ◌-◌, ◌<◌, ◌≤◌, ◌^◌, [], ◌∷◌, ◌++◌, List, true, false, length, slice_get, IsTrue, IfOk, MatchOption};
ghost use Rattle.plan_window.specs.Plan.{ahead, is_plan_anchor, group_before};
ghost use Rattle.plan_window.specs.Steps.{next_distance};
ghost use Rattle.plan_window.specs.State.{count_pushed, steps_left, without_front};
ghost use Rattle.plan_window.specs.Stands.{MayFollow, StandsFor, StandsAt};

use crate::summary::{Step, Summary};
use circular_buffer::HeapCircularBuffer;
use mv_terms::NoMemory;
use std::alloc::Global;
use std::marker::Model;

/// How many frames behind a frame the plan looks at.
pub const AHEAD: usize = 16;

/// The summaries from the first frame on that has no step yet.
#[derive(Drop)]
pub struct Window {
    held: HeapCircularBuffer<Summary>,
    /// The number of the first frame that is held.
    first: u64,
    /// The nearest anchor before it.
    nearest: Option<Summary>,
    /// How far behind it the anchor stands that has its step, while its group is given.
    group: Option<usize>,
    closed: bool,
}

impl Model for Window {
    ghost use Rattle.plan_window.specs.State.{WindowState};

    ghost Value = { WindowState };

    ghost use Rattle.plan_window.specs.Fields.{state_of, IsWindow};

    ghost view = { state_of };

    ghost invariant = { IsWindow };
}

impl Window {
    /// A window into which nothing was pushed. No later call takes memory.
    pub fn start(alloc: Global) -> Result<Window, NoMemory>
        ensures stands { IfOk result (λ window. StandsFor ahead window [] []) }
        ensures held { IfOk result (λ window. window.held ≡ []) }
        ensures count { IfOk result (λ window. count_pushed window ≡ 0) }
        ensures open { IfOk result (λ window. window.closed ≡ false) }
    {
        let held = HeapCircularBuffer::with_capacity(alloc, AHEAD + 1).map_err(|_| NoMemory)?;
        Ok(Window {
            held,
            first: 0,
            nearest: None,
            group: None,
            closed: false,
        })
    }

    /// The number of summaries held. One is held until its own step and those of all frames before it were given.
    pub fn len(&self) -> usize
        ensures { result ≡ length self.now.held }
    {
        self.held.len()
    }

    /// Takes the summary of the next frame.
    pub fn push(&mut self, summary: Summary)
        requires room { length self.old.held ≤ AHEAD }
        requires count { count_pushed self.old < 2 ^ 64 - 1 }
        requires open { self.old.closed ≡ false }
        ensures stands { (pushed : List Summary) (given : List Step)
            → StandsFor ahead self.old pushed given
            → StandsFor ahead self.new (pushed ++ summary ∷ []) given }
        ensures len { length self.new.held ≡ length self.old.held + 1 }
        ensures count { count_pushed self.new ≡ count_pushed self.old + 1 }
        ensures open { self.new.closed ≡ false }
    {
        self.held.push_back(summary);
    }

    /// No more frames come.
    pub fn close(&mut self)
        ensures stands { (pushed : List Summary) (given : List Step)
            → StandsFor ahead self.old pushed given → StandsFor ahead self.new pushed given }
        ensures held { self.new.held ≡ self.old.held }
        ensures count { count_pushed self.new ≡ count_pushed self.old }
        ensures closed { self.new.closed ≡ true }
    {
        self.closed = true;
    }

    /// The next step of the plan: None where fewer than 17 summaries are held and the window isn't closed, or where
    /// none is left. The frame is one of those held; where it is an anchor, its group are all frames before it that are
    /// held. What was let go isn't held again.
    pub fn plan_next(&mut self) -> Option<Step>
        ensures none { result ≡ None
            ↔ (((length self.old.held ≤ AHEAD) × (self.old.closed ≡ false))
            ⊎ (self.old.held ≡ [])) }
        ensures same { result ≡ None → self.new ≡ self.old }
        ensures stands { (pushed : List Summary) (given : List Step)
            → StandsFor ahead self.old pushed given
            → MatchOption result (StandsFor ahead self.new pushed given)
            (λ step. StandsFor ahead self.new pushed (step ∷ given)) }
        ensures frame { MatchOption result ⊤
            (λ step. (self.old.first ≤ step.frame) × (step.frame < count_pushed self.old)) }
        ensures first { self.old.first ≤ self.new.first }
        ensures group { (pushed : List Summary) (given : List Step)
            → StandsFor ahead self.old pushed given
            → MatchOption result ⊤ (λ step. step.anchor ≡ true
            → (more : List Summary) → MayFollow self.old.closed more
            → self.old.first
            + length (group_before (is_plan_anchor ahead (pushed ++ more)) step.frame)
            ≡ step.frame) }
        ensures left { MatchOption result (steps_left self.new ≡ steps_left self.old)
            (λ _. steps_left self.new + 1 ≡ steps_left self.old) }
        ensures count { count_pushed self.new ≡ count_pushed self.old }
        ensures closed { self.new.closed ≡ self.old.closed }
    {
        if !self.is_ready() {
            return None;
        }
        match self.group {
            None => {
                let distance = self.next_distance();
                let anchor = self.held_at(distance)?;
                let mode = anchor.mode(&self.nearest, &None);
                let frame = self.first + distance as u64;
                self.go_on(distance, anchor);
                Some(Step {
                    frame,
                    anchor: true,
                    mode,
                })
            }
            Some(distance) => {
                let front = self.held_at(0)?;
                let anchor = self.held_at(distance)?;
                let mode = front.mode(&self.nearest, &Some(anchor));
                let frame = self.first;
                self.drop_front();
                self.go_on(distance - 1, anchor);
                Some(Step {
                    frame,
                    anchor: false,
                    mode,
                })
            }
        }
    }

    /// Whether the summaries held show the next step, if there is one.
    fn is_ready(&self) -> bool
        ensures { IsTrue result ↔ ((self.now.closed ≡ true) ⊎ (AHEAD < length self.now.held)) }
    {
        self.closed || self.held.len() > AHEAD
    }

    /// How far behind the first frame held the next anchor stands, if all of the next 16 frames are held.
    fn next_distance(&self) -> usize
        ensures { result ≡ next_distance self.now.held }
    {
        for distance in 0..self.held.len() {
            if let Some(summary) = self.held.get(distance) {
                if summary.is_anchor() {
                    return if summary.low_delay { 0 } else { distance };
                }
            }
        }
        0
    }

    /// The summary that is held at this distance from the first one.
    fn held_at(&self, distance: usize) -> Option<Summary>
        ensures { result ≡ slice_get self.now.held distance }
    {
        self.held.get(distance).copied()
    }

    /// Lets go of the first summary.
    fn drop_front(&mut self)
        requires { 0 < length self.old.held }
        ensures { self.new ≡ without_front self.old }
    {
        self.held.pop_front();
        self.first += 1;
        self.group = None;
    }

    /// Goes on where the anchor at this distance has its step, and so has its group before the first summary held: with
    /// the rest of its group, or behind it.
    fn go_on(&mut self, distance: usize, anchor: Summary)
        requires { slice_get self.old.held distance ≡ Some anchor }
        ensures stands { (pushed : List Summary) (given : List Step)
            → StandsAt ahead self.old distance pushed given
            → StandsFor ahead self.new pushed given }
        ensures left { steps_left self.new + 1 ≡ length self.old.held }
        ensures first { self.old.first ≤ self.new.first }
        ensures count { count_pushed self.new ≡ count_pushed self.old }
        ensures closed { self.new.closed ≡ self.old.closed }
    {
        if distance == 0 {
            self.drop_front();
            self.nearest = Some(anchor);
        } else {
            self.group = Some(distance);
        }
    }
}
