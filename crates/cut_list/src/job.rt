//! The job of `cut`.
ghost use Rattle.std.specs.Prelude.{◌≡◌, ◌≤◌, ◌+◌, ◌*◌, length, Ok, IfOk, IfErr, IsErrOf, None, Some};
ghost use Rattle.std.specs.Option.{ForSome};
ghost use Rattle.mv_ends.specs.Causes.{FailedWrite, Rose};
ghost use Rattle.mv_ends.specs.Commands.{Runs};
ghost use Rattle.mv_ends.specs.Endings.{ending_of};
ghost use Rattle.mv_ends.specs.Ends.{Ends};
ghost use Rattle.mv_ends.specs.Moves.{input_of};
ghost use Rattle.mv_ends.specs.Kept.{KeepsShelf, KeepsSink};
ghost use Rattle.cut_list.specs.Command.{cut_command};
ghost use Rattle.cut_list.specs.Cut.{AreListed, FailsToOpenCut, FailsToOpenLine, FailsToReadCut, FailsToReadLine, IsCutStatus, cut_outcome, outcome_by};
ghost use Rattle.cut_list.specs.Steps.{IsUnlisted, halted_status};

use crate::entry::Entry;
use crate::line::{Halted, cut_line};
use crate::list::{LIST_LIMIT, ListFault, read_list};
use mv_ends::{Shelf, Sink};
use mv_terms::{LineFault, Status};
use std::alloc::{AllocError, Global};
use y4m_frames::read_all;

/// Writes the frames that a list names, as one frame file: the header line of the input of line 1,
/// and for each line the frames that it lists. The list is the input of the name `list`; it is read
/// whole before anything is written.
pub fn cut_job<S: Shelf, O: Sink>(alloc: Global, list: &str, shelf: &mut S, out: &mut O) -> Status
    ensures runs { Runs (cut_command list.now) (S.told shelf.old) (S.told shelf.new)
        (O.told out.old) (O.told out.new) result }
    ensures keeps_sink { KeepsSink (O.told out.old) (O.told out.new) }
    ensures kept { KeepsShelf (S.told shelf.old) (S.told shelf.new) }
{
    cut_named(alloc, list, shelf, out)
}

// Does what `cut_job` says, fact by fact.
fn cut_named<S: Shelf, O: Sink>(alloc: Global, list: &str, shelf: &mut S, out: &mut O) -> Status
    // Where the inputs are told, it ends as it is defined, but for want of memory and for the
    // faults below.
    ensures ends { ForSome (S.told shelf.old).named
        (λ inputs. Ends (cut_outcome inputs list.now) (ending_of result) (O.told out.old).written
        (O.told out.new).written) }

    // Also where they aren't told, no other statuses come.
    ensures kind { IsCutStatus result }

    // A fault of an endpoint is answered only where it was counted in this call, for the list or
    // for the input of one of its lines, with the output of the lines before it.
    ensures open_fault { result ≡ Status.OpenFault
        → FailsToOpenCut list.now (S.told shelf.old) (S.told shelf.new) (O.told out.old)
        (O.told out.new) }
    ensures read_fault { result ≡ Status.ReadFault
        → FailsToReadCut list.now (S.told shelf.old) (S.told shelf.new) (O.told out.old)
        (O.told out.new) }
    ensures write_fault { result ≡ Status.WriteFault
        → FailedWrite (O.told out.old) (O.told out.new) }

    ensures keeps_sink { KeepsSink (O.told out.old) (O.told out.new) }
    ensures kept { KeepsShelf (S.told shelf.old) (S.told shelf.new) }
{
    match read_entries(alloc, list, shelf) {
        Ok(entries) => cut_entries(alloc, &entries, shelf, out),
        Err(status) => status,
    }
}

// The entries of the list of this name, or the status of what kept it from being read.
fn read_entries<S: Shelf>(alloc: Global, list: &str, shelf: &mut S) -> Result<Vec<Entry>, Status>
    ensures listed { IfOk result (λ entries.
        AreListed (S.told shelf.old).named list.now entries.items) }
    ensures few { IfOk result (λ entries. length entries.items ≤ 4096) }
    ensures refused { IfErr result (λ status. IsUnlisted (S.told shelf.old).named list.now status) }
    ensures open_fault { IsErrOf result Status.OpenFault
        → Rose ((S.told shelf.old).open_faults list.now) ((S.told shelf.new).open_faults list.now) }
    ensures read_fault { IsErrOf result Status.ReadFault
        → Rose ((S.told shelf.old).read_faults list.now) ((S.told shelf.new).read_faults list.now) }
    ensures kept { KeepsShelf (S.told shelf.old) (S.told shelf.new) }
{
    match shelf.select(list) {
        Ok(()) => {}
        Err(_) => return Err(Status::OpenFault),
    }
    let mut store = match list_store(alloc) {
        Ok(store) => store,
        Err(_) => return Err(Status::NoMemory),
    };
    let count = match read_all(shelf, &mut store, 0) {
        Ok(count) => count,
        Err(_) => return Err(Status::ReadFault),
    };
    match read_list(alloc, &store[..count]) {
        Ok(entries) => Ok(entries),
        Err(ListFault::BadLine(line)) => Err(Status::Line(line, LineFault::BadLine)),
        Err(ListFault::NoMemory) => Err(Status::NoMemory),
    }
}

// Room for a list, and for one byte more, which shows that it is too long.
fn list_store(alloc: Global) -> Result<Vec<u8>, AllocError>
    ensures { IfOk result (λ store. length store.items ≡ 1048577) }
{
    vec![in alloc; 0; LIST_LIMIT + 1]
}

// Writes the frames that the entries list.
fn cut_entries<S: Shelf, O: Sink>(
    alloc: Global,
    entries: &[Entry],
    shelf: &mut S,
    out: &mut O,
) -> Status
    requires { length entries.now ≤ 4096 }
    ensures ends { ForSome (S.told shelf.old).named
        (λ inputs. Ends (outcome_by (input_of inputs) (Ok entries.now)) (ending_of result)
        (O.told out.old).written (O.told out.new).written) }
    ensures kind { IsCutStatus result }
    ensures open_fault { result ≡ Status.OpenFault
        → FailsToOpenLine entries.now (S.told shelf.old) (S.told shelf.new) (O.told out.old)
        (O.told out.new) }
    ensures read_fault { result ≡ Status.ReadFault
        → FailsToReadLine entries.now (S.told shelf.old) (S.told shelf.new) (O.told out.old)
        (O.told out.new) }
    ensures write_fault { result ≡ Status.WriteFault
        → FailedWrite (O.told out.old) (O.told out.new) }
    ensures keeps_sink { KeepsSink (O.told out.old) (O.told out.new) }
    ensures kept { KeepsShelf (S.told shelf.old) (S.told shelf.new) }
{
    let mut first = None;
    let mut line: usize = 0;
    'lines: while line < entries.len() {
        let entry = &entries[line];
        match cut_line(
            alloc,
            entry.name.text(),
            entry.from,
            entry.to,
            first,
            shelf,
            out,
        ) {
            Ok(header) => first = Some(header),
            Err(halted) => return halted_status(line as u32 + 1, halted),
        }
        line += 1;
    }
    Status::Done
}

// The status of a line that was not written whole.
fn halted_status(line: u32, halted: Halted) -> Status
    ensures { result ≡ halted_status line halted }
{
    match halted {
        Halted::Fault(fault) => Status::Line(line, fault),
        Halted::Open => Status::OpenFault,
        Halted::Read => Status::ReadFault,
        Halted::Write => Status::WriteFault,
        Halted::NoMemory => Status::NoMemory,
    }
}
