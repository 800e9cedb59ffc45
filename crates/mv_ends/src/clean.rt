//! Endpoints in memory that don't fail, as long as there is room.
ghost use Rattle.std.specs.Prelude.{◌≡◌, ◌≤◌, [], Some, IfOk, false, List, ℕ, vec_len, vec_capacity};
ghost use Rattle.std.specs.Option.{ForSome};
ghost use Rattle.mv_ends.specs.Places.{inputs_of, IsFirst};

use crate::inputs::{copy_front, index_of, input_at};
use crate::{Failed, Shelf, Sink};
use std::alloc::{AllocError, Global};

/// Inputs by name, all told. No call fails: a name that isn't there has an empty input.
#[derive(Drop)]
pub struct CleanShelf {
    inputs: Vec<(String, Vec<u8>)>,
    selected: Option<usize>,
    at: usize,
    ghost first: { ForSome selected (λ place. IsFirst inputs.items place) },
}

impl CleanShelf {
    ghost use Rattle.mv_ends.specs.Clean.{inputs_in, selected_in};

    /// A shelf of these inputs. Of two of one name the first counts.
    pub fn new(inputs: Vec<(String, Vec<u8>)>) -> Self
        ensures inputs { inputs_in result ≡ inputs_of inputs.items }
        ensures selected { (name : List ℕ) → selected_in result name ≡ false }
    {
        CleanShelf {
            inputs,
            selected: None,
            at: 0,
        }
    }
}

impl Shelf for CleanShelf {
    ghost use Rattle.mv_ends.specs.Clean.{shelf_told};

    ghost told = { shelf_told };

    fn select(&mut self, name: &str) -> Result<(), Failed> {
        self.selected = Some(index_of(&self.inputs, name));
        self.at = 0;
        Ok(())
    }

    fn read(&mut self, buf: &mut [u8]) -> Result<usize, Failed> {
        let Some(place) = self.selected else {
            return Ok(0);
        };
        let count = copy_front(input_at(&self.inputs, place), self.at, usize::MAX, buf);
        self.at += count;
        Ok(count)
    }
}

/// A sink that keeps what it takes, and tells it. Only a write that comes when it is full fails.
#[derive(Drop)]
pub struct CleanSink {
    taken: Vec<u8>,
    room: usize,
    faults: u64,
    ghost has_room: { room ≤ vec_capacity taken },
    ghost within: { vec_len taken ≤ room },
}

impl CleanSink {
    ghost use Rattle.mv_ends.specs.Clean.{taken_by, room_of, faults_of};

    /// A sink with room for n bytes.
    pub fn with_room(alloc: Global, n: usize) -> Result<Self, AllocError>
        ensures room { IfOk result (λ sink. room_of sink ≡ n) }
        ensures taken { IfOk result (λ sink. taken_by sink ≡ []) }
        ensures faults { IfOk result (λ sink. faults_of sink ≡ 0) }
    {
        Ok(CleanSink {
            taken: Vec::with_capacity(alloc, n)?,
            room: n,
            faults: 0,
        })
    }

    /// The bytes that it took.
    pub fn bytes(&self) -> &[u8]
        ensures { result.now ≡ taken_by self.now }
    {
        &self.taken
    }
}

impl Sink for CleanSink {
    ghost use Rattle.mv_ends.specs.Clean.{sink_told};

    ghost told = { sink_told };

    fn write(&mut self, buf: &[u8]) -> Result<usize, Failed> {
        let free = self.room - self.taken.len();
        if free == 0 {
            self.faults = self.faults.saturating_add(1);
            return Err(Failed);
        }
        let count = buf.len().min(free);
        self.taken.extend_from_slice(&buf[..count]).unwrap();
        Ok(count)
    }
}
