//! Endpoints: the named inputs that a call reads, and the sinks that it writes to.
//!
//! Bytes that are read are the front of what is left, bytes that are written are the front of the piece, and a
//! failure is answered only where the endpoint counted it. `specs/Told` has what an endpoint tells contracts, one record
//! for each kind. `specs/Causes` says when a count rose, `specs/Kept` what every call keeps, `specs/Moves` what becomes of
//! the bytes, `specs/Sends` what a call does that writes bytes whole, and `specs/Ends` how a call ends whose output its
//! input defines; by `specs/Complete` it ends so wherever no fault is counted. What defines a command
//! of the program, and that a call runs it, stands in `specs/Commands`. There are endpoints in memory, which tell
//! everything, and those of the system, which tell no content.
#![tactic(auto)]

ghost use Rattle.std.specs.Prelude.{◌≡◌, ℕ, ◌<◌, List, Ok, IsTrue, OnOk, OnErr, length};
ghost use Rattle.std.specs.Io.{ReadsAtMost};
ghost use Rattle.std.specs.Io.KnownBytes.{IsAtEnd, ReadConsumes, WriteAppends};
ghost use Rattle.mv_ends.specs.Causes.{Rose, FailedRead, FailedWrite};
ghost use Rattle.mv_ends.specs.Kept.{KeepsShelf, KeepsSink};
ghost use Rattle.mv_ends.specs.Moves.{Opens, WritesSome, joined};
ghost use Rattle.mv_ends.specs.Sends.{Sends};
ghost use Rattle.mv_ends.specs.Told.{ShelfTold, SinkTold};
ghost use Rattle.mv_ends.specs.Complete.{NoFaultIsComplete};

mod clean;
mod failing;
mod inputs;
mod system;

pub use clean::{CleanShelf, CleanSink};
pub use failing::{MemShelf, MemSink};
pub use system::{FileShelf, StdSink};

/// An endpoint failed, and has counted it.
#[derive(Clone, Copy, Debug, PartialEq, Eq)]
pub struct Failed;

/// Inputs by name, one of which is read at a time.
///
/// No call changes the inputs, and no count of faults ever falls. A count that stands at its last value, 2^64 - 1,
/// passes for one that rose.
pub trait Shelf {
    /// What it tells: its inputs, what is left of the selected one, which names count as selected, and how often it
    /// failed to open the input of a name and to read it.
    ghost told: { Self → ShelfTold };

    /// Turns to the input of this name, from its start. After a failure nothing is left to read.
    fn select(&mut self, name: &str) -> Result<(), Failed>
        // From here on the whole input of the name is the rest, until another is selected.
        ensures opened { OnOk result (Opens (told self.old).named name.now (told self.new).rest) }
        ensures chosen { OnOk result (IsTrue ((told self.new).selected name.now)) }

        // It fails only where the faults of this very name rose.
        ensures failed { OnErr result (Rose ((told self.old).open_faults name.now)
            ((told self.new).open_faults name.now)) }
        ensures nothing { OnErr result (IsAtEnd (told self.new).rest) }

        ensures keeps { KeepsShelf (told self.old) (told self.new) };

    /// Moves the front of the rest into the buffer, and answers how many bytes; 0 says that none was left.
    fn read(&mut self, buf: &mut [u8]) -> Result<usize, Failed>
        requires { 0 < length buf.old }
        ensures bound { ReadsAtMost result buf.new }
        ensures bytes { ReadConsumes (told self.old).rest (told self.new).rest result buf.new }
        ensures unselected { ((name : List ℕ) → IsTrue ((told self.old).selected name) → ⊥)
            → result ≡ Ok 0 }

        // It fails only where a name counts as selected and the faults of each such name rose.
        ensures failed { OnErr result (FailedRead (told self.old) (told self.new)) }

        ensures chosen { (told self.new).selected ≡ (told self.old).selected }
        ensures keeps { KeepsShelf (told self.old) (told self.new) };
}

/// Takes bytes, in pieces.
///
/// Its count of faults never falls, and one that stands at its last value, 2^64 - 1, passes for one that rose.
pub trait Sink {
    /// What it tells: the bytes that it took so far, how often writing failed, and how many bytes it surely takes, with
    /// those that it took already. Before them no write fails; they are 0 where any write may fail.
    ghost told: { Self → SinkTold };

    /// Takes the front of a piece, at least one byte, and answers how many. A failure takes nothing.
    fn write(&mut self, buf: &[u8]) -> Result<usize, Failed>
        requires { 0 < length buf.now }
        ensures bound { WritesSome result buf.now }
        ensures bytes { WriteAppends (told self.old).written (told self.new).written
            result buf.now }
        ensures failed { OnErr result (FailedWrite (told self.old) (told self.new)) }
        ensures keeps { KeepsSink (told self.old) (told self.new) };
}

/// Writes all the bytes, in turns. After a failure some of them are not written, and those before them are.
pub fn send<O: Sink>(out: &mut O, bytes: &[u8]) -> Result<(), Failed>
    ensures { Sends (O.told out.old) (O.told out.new) bytes.now result }
{
    let mut sent = 0;
    while sent < bytes.len() {
        sent += out.write(&bytes[sent..])?;
    }
    Ok(())
}

/// Writes all the pieces, one after another. After a failure some bytes are not written, and those before them are.
pub fn send_all<O: Sink>(out: &mut O, pieces: &[&[u8]]) -> Result<(), Failed>
    ensures { Sends (O.told out.old) (O.told out.new) (joined pieces.now) result }
{
    for piece in pieces {
        send(out, piece)?;
    }
    Ok(())
}

/// A call ends as it is defined, or for want of memory, where no count of its endpoints' faults rose.
pub fn completeness_law()
    ensures { NoFaultIsComplete }
{}
