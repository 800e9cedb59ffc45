//! Endpoints in memory of which calls can be told to fail.
ghost use Rattle.std.specs.Prelude.{◌≡◌, ◌+◌, ◌-◌, ◌≤◌, ◌<◌, ◌↔◌, ◌⊎◌, List, ℕ, [], Some, IfOk, IsTrue, IsErr, length, min, take, vec_len, vec_capacity};
ghost use Rattle.std.specs.Option.{ForSome};
ghost use Rattle.mv_ends.specs.Places.{inputs_of, IsFirst};

use crate::inputs::{copy_front, index_of, input_at};
use crate::{Failed, Shelf, Sink};
use std::alloc::{AllocError, Global};

/// A sink that keeps what it takes, and tells it. Writes that are told to fail do, and those that come when it is full.
#[derive(Drop)]
pub struct MemSink {
    taken: Vec<u8>,
    room: usize,
    plan: Plan,
    faults: u64,
    ghost has_room: { room ≤ vec_capacity taken },
    ghost within: { vec_len taken ≤ room },
}

impl MemSink {
    ghost use Rattle.mv_ends.specs.MemSink.{IsNew, taken_by};

    /// A sink with room for n bytes.
    pub fn with_room(alloc: Global, n: usize) -> Result<Self, AllocError>
        ensures { IfOk result (λ sink. IsNew sink n [] usize.MAX) }
    {
        Self::failing(alloc, n, Vec::new(alloc), usize::MAX)
    }

    /// A sink with room for n bytes, whose calls of these numbers fail, counted from 0, and whose others take at most
    /// `most` bytes.
    pub fn failing(
        alloc: Global,
        n: usize,
        fails: Vec<u64>,
        most: usize,
    ) -> Result<Self, AllocError>
        requires { 0 < most }
        ensures { IfOk result (λ sink. IsNew sink n fails.items most) }
    {
        Ok(MemSink {
            taken: Vec::with_capacity(alloc, n)?,
            room: n,
            plan: Plan::new(fails, most),
            faults: 0,
        })
    }

    /// The bytes that it took.
    pub fn bytes(&self) -> &[u8]
        ensures { result.now ≡ taken_by self.now }
    {
        &self.taken
    }
}

impl Sink for MemSink {
    ghost use Rattle.std.specs.Prelude.{OnOk, OnErr};
    ghost use Rattle.std.specs.Io.KnownBytes.{WriteAppends};
    ghost use Rattle.mv_ends.specs.Causes.{FailedWrite};
    ghost use Rattle.mv_ends.specs.Kept.{KeepsSink};
    ghost use Rattle.mv_ends.specs.Moves.{WritesSome};
    ghost use Rattle.mv_ends.specs.MemSink.{taken_by, room_of, faults_of, plan_of, told_by};
    ghost use Rattle.mv_ends.specs.Plan.{FailsNext, IsPast};

    ghost told = { told_by };

    fn write(&mut self, buf: &[u8]) -> Result<usize, Failed>
        requires { 0 < length buf.now }
        ensures bound { WritesSome result buf.now }
        ensures bytes { WriteAppends (Some (taken_by self.old)) (Some (taken_by self.new))
            result buf.now }
        ensures failed { OnErr result (FailedWrite (told_by self.old) (told_by self.new)) }
        ensures keeps { KeepsSink (told_by self.old) (told_by self.new) }

        // It fails exactly where the plan says so or it is full.
        ensures fails { IsErr result
            ↔ (FailsNext (plan_of self.old) ⊎ (room_of self.old ≤ length (taken_by self.old))) }
        ensures most { IfOk result (λ n. n ≤ (plan_of self.old).most) }
        ensures plan { IsPast (plan_of self.old) (plan_of self.new) }
        ensures same { room_of self.new ≡ room_of self.old }
        ensures quiet { OnOk result (faults_of self.new ≡ faults_of self.old) }
    {
        let fails = self.plan.fails_now();
        let free = self.room - self.taken.len();
        if fails || free == 0 {
            self.faults = self.faults.saturating_add(1);
            return Err(Failed);
        }
        let count = buf.len().min(self.plan.most).min(free);
        self.taken.extend_from_slice(&buf[..count]).unwrap();
        Ok(count)
    }
}

/// Inputs by name, all told. Calls that are told to fail do. A name that isn't there can't be opened.
#[derive(Drop)]
pub struct MemShelf {
    inputs: Vec<(String, Vec<u8>)>,
    // the faults of each input, and then those of all unknown names
    opens: Vec<u64>,
    reads: Vec<u64>,
    selected: Option<usize>,
    at: usize,
    plan: Plan,
    ghost opens_each: { vec_len opens ≡ vec_len inputs + 1 },
    ghost reads_each: { vec_len reads ≡ vec_len inputs + 1 },
    ghost there: { ForSome selected (λ place. place < vec_len inputs) },
    ghost first: { ForSome selected (λ place. IsFirst inputs.items place) },
}

impl MemShelf {
    ghost use Rattle.mv_ends.specs.MemShelf.{IsNew};

    /// A shelf of these inputs, whose calls of these numbers fail, counted from 0, and whose reads move at most
    /// `most` bytes. Of two inputs of one name the first counts.
    pub fn new(
        alloc: Global,
        inputs: Vec<(String, Vec<u8>)>,
        fails: Vec<u64>,
        most: usize,
    ) -> Result<Self, AllocError>
        requires { 0 < most }
        ensures { IfOk result (λ shelf. IsNew shelf (inputs_of inputs.items) fails.items most) }
    {
        let opens = vec![in alloc; 0; inputs.len() + 1]?;
        let reads = vec![in alloc; 0; inputs.len() + 1]?;
        Ok(MemShelf {
            inputs,
            opens,
            reads,
            selected: None,
            at: 0,
            plan: Plan::new(fails, most),
        })
    }
}

impl Shelf for MemShelf {
    ghost use Rattle.std.specs.Prelude.{Ok, OnOk, OnErr, IsOk, IsSome, IsNone};
    ghost use Rattle.std.specs.FinMap.{get};
    ghost use Rattle.std.specs.Io.{ReadsAtMost};
    ghost use Rattle.std.specs.Io.KnownBytes.{IsAtEnd, ReadConsumes};
    ghost use Rattle.mv_ends.specs.Causes.{Rose, FailedRead};
    ghost use Rattle.mv_ends.specs.Moves.{Opens};
    ghost use Rattle.mv_ends.specs.Kept.{KeepsShelf};
    ghost use Rattle.mv_ends.specs.MemShelf.{told_by, inputs_in, left_in, selected_in, open_faults_in, read_faults_in, plan_of};
    ghost use Rattle.mv_ends.specs.Plan.{FailsNext, IsPast};

    ghost told = { told_by };

    fn select(&mut self, name: &str) -> Result<(), Failed>
        ensures opened { OnOk result
            (Opens (Some (inputs_in self.old)) name.now (Some (left_in self.new))) }
        ensures chosen { OnOk result (IsTrue (selected_in self.new name.now)) }
        ensures failed { OnErr result
            (Rose (open_faults_in self.old name.now) (open_faults_in self.new name.now)) }
        ensures nothing { OnErr result (IsAtEnd (Some (left_in self.new))) }
        ensures keeps { KeepsShelf (told_by self.old) (told_by self.new) }

        // It fails exactly where the plan says so or no input has this name.
        ensures fails { IsErr result
            ↔ (FailsNext (plan_of self.old) ⊎ IsNone (get (inputs_in self.old) name.now)) }
        ensures plan { IsPast (plan_of self.old) (plan_of self.new) }

        // No other name counts as selected, and no faults move but those of this name, where it failed.
        ensures quiet { OnOk result (open_faults_in self.new ≡ open_faults_in self.old) }
        ensures only { (other : List ℕ) → IsTrue (selected_in self.new other)
            → IsOk result × (other ≡ name.now) }
        ensures others { (other : List ℕ) → IsSome (get (inputs_in self.old) other)
            → ¬ (other ≡ name.now) → open_faults_in self.new other ≡ open_faults_in self.old other }
    {
        let fails = self.plan.fails_now();
        let place = index_of(&self.inputs, name);
        self.at = 0;
        if fails || place == self.inputs.len() {
            self.selected = None;
            self.opens[place] = self.opens[place].saturating_add(1);
            return Err(Failed);
        }
        self.selected = Some(place);
        Ok(())
    }

    fn read(&mut self, buf: &mut [u8]) -> Result<usize, Failed>
        requires { 0 < length buf.old }
        ensures bound { ReadsAtMost result buf.new }
        ensures bytes { ReadConsumes (Some (left_in self.old)) (Some (left_in self.new))
            result buf.new }
        ensures unselected { ((name : List ℕ) → IsTrue (selected_in self.old name) → ⊥)
            → result ≡ Ok 0 }
        ensures failed { OnErr result (FailedRead (told_by self.old) (told_by self.new)) }
        ensures chosen { selected_in self.new ≡ selected_in self.old }
        ensures keeps { KeepsShelf (told_by self.old) (told_by self.new) }

        // It fails exactly where the plan says so and a name counts as selected.
        ensures planned { OnErr result (FailsNext (plan_of self.old)) }
        ensures fails { FailsNext (plan_of self.old)
            → (name : List ℕ) → IsTrue (selected_in self.old name) → IsErr result }
        ensures plan { IsPast (plan_of self.old) (plan_of self.new) }
        ensures most { IfOk result (λ n. n ≤ (plan_of self.old).most) }

        // No faults move but those of the selected names, where it failed.
        ensures quiet { OnOk result (read_faults_in self.new ≡ read_faults_in self.old) }
        ensures others { (other : List ℕ) → ¬ IsTrue (selected_in self.old other)
            → read_faults_in self.new other ≡ read_faults_in self.old other }
    {
        let fails = self.plan.fails_now();
        let Some(place) = self.selected else {
            return Ok(0);
        };
        if fails {
            self.reads[place] = self.reads[place].saturating_add(1);
            return Err(Failed);
        }
        let count = copy_front(input_at(&self.inputs, place), self.at, self.plan.most, buf);
        self.at += count;
        Ok(count)
    }
}

/// Which calls are to fail, counted from 0, and the most bytes that one moves.
#[derive(Drop)]
struct Plan {
    call: u64,
    fails: Vec<u64>,
    most: usize,
    ghost moves: { 0 < most },
}

impl Plan {
    ghost use Rattle.mv_ends.specs.Plan.{FailsNext, IsPast};

    fn new(fails: Vec<u64>, most: usize) -> Self
        requires { 0 < most }
        ensures call { result.call ≡ 0 }
        ensures fails { result.fails.items ≡ fails.items }
        ensures most { result.most ≡ most }
    {
        Plan {
            call: 0,
            fails,
            most,
        }
    }

    // Whether this call is to fail.
    fn fails_now(&mut self) -> bool
        ensures planned { IsTrue result ↔ FailsNext self.old }
        ensures past { IsPast self.old self.new }
    {
        let call = self.call;
        self.call = self.call.saturating_add(1);
        self.fails.contains(&call)
    }
}
