//! The contexts of the last frames, and their numbers.
ghost use Rattle.std.specs.Prelude.{◌≡◌, ◌↔◌, ◌+◌, ◌%◌, ◌<◌, ◌≤◌, ◌^◌, ℕ, List, [], ◌∷◌, ◌++◌, length, slice_set, slice_index, IfOk, IsTrue, MatchOption};
ghost use Rattle.plan_numbers.specs.Stands.{HasRooms, IsAt, StandsFor, context_limit, kept_contexts};

use crate::bytes::{keep, number_bytes};
use mv_bits::Room;
use mv_terms::NoMemory;
use std::alloc::Global;

/// How many frames are kept: no two that the plan compares are farther apart.
const KEPT: usize = 16;

/// No context is longer.
pub const CONTEXT_LIMIT: usize = 65_536;

/// The contexts of the last 16 frames, and the number of each. Frame i stands in place i % 16.
#[derive(Drop)]
pub struct ContextNumbers {
    /// How many frames were numbered.
    count: u64,
    contexts: Vec<Room>,
    numbers: [u64; 16],
}

impl ContextNumbers {
    /// No frame was numbered yet. No other call takes memory.
    pub fn start(alloc: Global) -> Result<ContextNumbers, NoMemory>
        ensures { IfOk result (λ n. StandsFor n [] []) }
    {
        let mut contexts = Vec::new(alloc);
        'rooms: for _i in 0..KEPT {
            let room = Room::take(alloc, CONTEXT_LIMIT).map_err(|_| NoMemory)?;
            contexts.push(room).map_err(|_| NoMemory)?;
        }
        Ok(ContextNumbers {
            count: 0,
            contexts,
            numbers: [0; 16],
        })
    }

    /// The number of the next frame, by its context: that of one of the 16 frames before it with the same context, else the
    /// frame's own, counted from 0.
    pub fn number(&mut self, context: &[u8]) -> [u8; 32]
        requires short { length context.now ≤ context_limit }
        requires few { (contexts : List (List ℕ)) × (numbers : List (List ℕ))
            × StandsFor self.old contexts numbers × (length contexts < 2 ^ 44) }
        ensures { (contexts numbers : List (List ℕ)) → StandsFor self.old contexts numbers
            → StandsFor self.new (contexts ++ context.now ∷ []) (numbers ++ result ∷ []) }
    {
        let number = match self.find(context) {
            Some(number) => number,
            None => self.count,
        };
        self.add(context, number);
        number_bytes(number)
    }

    /// The number of a frame that is kept and has this context, if there is one.
    fn find(&self, context: &[u8]) -> Option<u64>
        requires { HasRooms self.now }
        ensures { MatchOption result ((k : ℕ) → IsAt self.now context.now k → ⊥)
            (λ number. (k : ℕ) × IsAt self.now context.now k
            × (slice_index self.now.numbers k ≡ number)) }
    {
        'places: for k in 0..KEPT {
            if self.is_at(context, k) {
                return Some(self.numbers[k]);
            }
        }
        None
    }

    /// Whether place k is that of a frame with this context.
    fn is_at(&self, context: &[u8], k: usize) -> bool
        requires rooms { HasRooms self.now }
        requires inside { k < 16 }
        ensures { IsTrue result ↔ IsAt self.now context.now k }
    {
        (k as u64) < self.count && self.contexts[k].bytes() == context
    }

    /// Keeps one more frame, in place of the one that was 16 frames before it.
    fn add(&mut self, context: &[u8], number: u64)
        requires short { length context.now ≤ context_limit }
        requires rooms { HasRooms self.old }
        requires few { self.old.count < 2 ^ 44 }
        ensures rooms { HasRooms self.new }
        ensures count { self.new.count ≡ self.old.count + 1 }
        ensures contexts { kept_contexts self.new
            ≡ slice_set (kept_contexts self.old) (self.old.count % 16) context.now }
        ensures numbers { self.new.numbers
            ≡ slice_set self.old.numbers (self.old.count % 16) number }
    {
        let place = (self.count % 16) as usize;
        keep(&mut self.contexts[place], context);
        self.numbers[place] = number;
        self.count += 1;
    }
}
