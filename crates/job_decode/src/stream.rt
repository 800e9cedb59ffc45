//! The loop over the units of a stream.
ghost use Rattle.std.specs.Prelude.{◌≡◌, List, ℕ, [], None, IsTrue};
ghost use Rattle.std.specs.Option.{ForSome};
ghost use Rattle.mv_ends.specs.Causes.{FailedWrite, Rose};
ghost use Rattle.mv_ends.specs.Moves.{Opens};
ghost use Rattle.mv_ends.specs.Kept.{KeepsShelf, KeepsSink};
ghost use Rattle.job_decode.specs.Steps.{EndsStream};

use crate::piece::{Piece, advance};
use crate::work::{Stop, finish, take_unit};
use mv_ends::{Shelf, Sink};
use mv_terms::Status;
use mv_units::{Cut, Cutter};
use std::alloc::Global;

/// Decodes the input that was selected, the one of this name, and writes each frame as soon as it is shown.
pub(crate) fn decode_stream<S: Shelf, O: Sink>(
    alloc: Global,
    name: &str,
    shelf: &mut S,
    out: &mut O,
) -> Status
    requires opened { Opens (S.told shelf.old).named name.now (S.told shelf.old).rest }
    requires chosen { IsTrue ((S.told shelf.old).selected name.now) }
    ensures ends { EndsStream (S.told shelf.old).named name.now (S.told shelf.new).rest
        (O.told out.old).written (O.told out.new).written result }
    ensures read_fault { result ≡ Status.ReadFault
        → Rose ((S.told shelf.old).read_faults name.now) ((S.told shelf.new).read_faults name.now) }
    ensures write_fault { result ≡ Status.WriteFault
        → FailedWrite (O.told out.old) (O.told out.new) }
    ensures keeps_sink { KeepsSink (O.told out.old) (O.told out.new) }
    ensures kept { KeepsShelf (S.told shelf.old) (S.told shelf.new) }
{
    let Ok(mut piece) = Piece::start(alloc) else {
        return Status::NoMemory;
    };
    let Ok(mut cutter) = Cutter::start(alloc) else {
        return Status::NoMemory;
    };
    let mut work = None;
    let mut count: u64 = 0;
    'units: loop {
        match cutter.state() {
            Cut::More => match advance(shelf, &mut piece, &mut cutter) {
                Ok(()) => {}
                Err(_) => return Status::ReadFault,
            },
            Cut::Ready => {
                let unit = cutter.unit();
                match take_unit(alloc, &unit, &mut work, out) {
                    Ok(()) => {}
                    Err(Stop::Refused(why)) => {
                        return finish(&work, Status::Unit(count, why), out);
                    }
                    Err(Stop::NoMemory) => return Status::NoMemory,
                    Err(Stop::WriteFault) => return Status::WriteFault,
                }
                cutter.next();
                count += 1;
            }
            Cut::Refused(why) => return finish(&work, Status::Unit(count, why), out),
            Cut::Ended => return finish(&work, Status::Done, out),
        }
    }
}
