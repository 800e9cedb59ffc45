//! A receiver that keeps bytes.
ghost use Rattle.std.specs.Prelude.{[], IfOk};
ghost use Rattle.mv_bits.specs.Receivers.{KeepsFirst};

use crate::put::Put;
use std::alloc::{AllocError, Global};
use std::marker::Model;

/// Keeps the first bytes that are put, as many as it has room for.
#[derive(Drop)]
pub struct Room {
    bytes: Vec<u8>,
    kept: usize,
}

impl Model for Room {
    ghost use Rattle.std.specs.Prelude.{◌≤◌, length, take};
    ghost use Rattle.mv_bits.specs.Receivers.{Kept};

    ghost Value = { Kept };

    ghost view = { λ r. record { room = length r.bytes.items; bytes = take r.kept r.bytes.items } };

    ghost invariant = { λ r. r.kept ≤ length r.bytes.items };
}

impl Room {
    ghost use Rattle.std.specs.Prelude.{◌≡◌, List, ℕ, [], IfOk};
    ghost use Rattle.mv_bits.specs.Receivers.{KeepsFirst};

    /// Room for so many bytes, into which nothing was put yet. No other call takes memory.
    pub fn take(alloc: Global, room: usize) -> Result<Room, AllocError>
        ensures { IfOk result (λ r. KeepsFirst r room []) }
    {
        let bytes = vec![in alloc; 0; room]?;
        Ok(Room { bytes, kept: 0 })
    }

    /// The bytes that are kept.
    pub fn bytes(&self) -> &[u8]
        ensures { result.now ≡ self.now.bytes }
    {
        &self.bytes[..self.kept]
    }

    /// As if nothing was put yet.
    pub fn clear(&mut self)
        ensures { (room : ℕ) (put : List ℕ) → KeepsFirst self.old room put
            → KeepsFirst self.new room [] }
    {
        self.kept = 0;
    }
}

impl Put for Room {
    ghost use Rattle.std.specs.Prelude.{ℕ};
    ghost use Rattle.mv_bits.specs.Receivers.{KeepsFirst};

    ghost Kind = { ℕ };

    ghost stands = { KeepsFirst };

    fn put_byte(&mut self, byte: u8) {
        let at = self.kept;
        if at < self.bytes.len() {
            self.bytes[at] = byte;
            self.kept = at + 1;
        }
    }

    /// It is full.
    fn is_settled(&self) -> bool {
        self.kept == self.bytes.len()
    }
}
