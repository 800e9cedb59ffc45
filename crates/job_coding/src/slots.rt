//! The frames that wait for their steps.
ghost use Rattle.std.specs.Prelude.{◌≡◌, ◌≢◌, ℕ, ◌%◌, ◌<◌, ◌≤◌, List, Ok, Err, Some, None, true, false, length, map, slice_get, IfOk, OnOk, IsErrOf, All};
ghost use Rattle.std.specs.Io.KnownBytes.{IsAtEnd};
ghost use Rattle.mv_ends.specs.Causes.{FailedRead};
ghost use Rattle.mv_ends.specs.Kept.{KeepsShelf};
ghost use Rattle.y4m_frames.specs.Frames.{frame_len};
ghost use Rattle.job_coding.specs.Steps.{FillsSlot};

use mv_ends::Shelf;
use mv_terms::{FrameHeader, NoMemory};
use std::alloc::{AllocError, Global};
use std::marker::Model;
use y4m_frames::{FrameReader, Halt};

/// How many frames are held.
const COUNT: u64 = 17;

/// The last 17 frames that were read, frame i in slot i mod 17.
#[derive(Drop)]
pub(crate) struct Slots {
    frames: Vec<Vec<u8>>,
}

impl Model for Slots {
    ghost Value = { List (List ℕ) };

    ghost view = { λ s. map (λ v. v.items) s.frames.items };
}

impl Slots {
    /// Slots for frames of a file with this header.
    pub(crate) fn start(alloc: Global, header: &FrameHeader) -> Result<Slots, NoMemory>
        ensures count { IfOk result (λ s. length s ≡ 17) }
        ensures sizes { IfOk result (λ s. All (λ frame. length frame ≡ frame_len header.now) s) }
    {
        let size = 3 * header.wide as usize * header.high as usize;
        empty_slots(alloc, size).map_err(|_| NoMemory)
    }

    /// The frame of this number.
    pub(crate) fn frame(&self, number: u64) -> &[u8]
        requires { length self.now ≡ 17 }
        ensures { slice_get self.now (number % 17) ≡ Some result.now }
    {
        &self.frames[(number % COUNT) as usize]
    }

    /// Reads the next frame, which has this number, into its slot.
    pub(crate) fn read<S: Shelf>(
        &mut self,
        number: u64,
        reader: &mut FrameReader,
        shelf: &mut S,
    ) -> Result<bool, Halt>
        requires count { length self.old ≡ 17 }
        requires sizes { All (λ frame. length frame ≡ frame_len reader.old.header) self.old }
        ensures fills { FillsSlot self.old self.new number reader.old reader.new
            (S.told shelf.old).rest (S.told shelf.new).rest result }
        ensures count { length self.new ≡ 17 }
        ensures sizes { All (λ frame. length frame ≡ frame_len reader.new.header) self.new }
        ensures header { (reader.new.header ≡ reader.old.header)
            × (reader.new.line ≡ reader.old.line) }
        ensures room { reader.new.room ≤ reader.old.room }
        ensures falls { IfOk result (λ some. some ≡ true → reader.new.room < reader.old.room) }
        ensures at_end { IfOk result (λ some. some ≡ false → IsAtEnd (S.told shelf.new).rest) }
        ensures runs { OnOk result (reader.new.failed ≡ None) }
        ensures memory { result ≢ Err Halt.NoMemory }
        ensures failed { IsErrOf result Halt.Read → reader.old.failed ≡ None
            → FailedRead (S.told shelf.old) (S.told shelf.new) }
        ensures chosen { (S.told shelf.new).selected ≡ (S.told shelf.old).selected }
        ensures keeps { KeepsShelf (S.told shelf.old) (S.told shelf.new) }
    {
        reader.next(shelf, &mut self.frames[(number % COUNT) as usize])
    }
}

fn empty_slots(alloc: Global, size: usize) -> Result<Slots, AllocError>
    ensures count { IfOk result (λ s. length s ≡ 17) }
    ensures sizes { IfOk result (λ s. All (λ frame. length frame ≡ size) s) }
{
    let mut frames = Vec::with_capacity(alloc, COUNT as usize)?;
    for _ in 0..COUNT {
        frames.push(vec![in alloc; 0u8; size]?)?;
    }
    Ok(Slots { frames })
}
