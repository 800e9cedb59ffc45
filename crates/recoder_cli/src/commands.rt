//! What each command does.
ghost use Rattle.std.specs.Prelude.{◌≢◌};
ghost use Rattle.mv_ends.specs.Commands.{Runs};
ghost use Rattle.mv_ends.specs.Kept.{KeepsShelf, KeepsSink};
ghost use Rattle.recoder_cli.specs.Commands.{form_given};
ghost use Rattle.recoder_cli.specs.Words.{IsLegal};
ghost use Rattle.recoder_cli.specs.Outcomes.{command_of};

use crate::words::Command;
use cut_list::cut_job;
use job_audit::audit_job;
use job_decode::decode_job;
use job_recode::recode_job;
use mv_ends::{Shelf, Sink};
use mv_terms::Status;
use std::alloc::Global;

/// Does what a command asks for.
pub fn perform<S: Shelf, O: Sink>(
    alloc: Global,
    command: &Command<'_>,
    shelf: &mut S,
    out: &mut O,
) -> Status
    requires { IsLegal (form_given command.now) }
    ensures runs { Runs (command_of (form_given command.now)) (S.told shelf.old) (S.told shelf.new)
        (O.told out.old) (O.told out.new) result }
    ensures form { result ≢ Status.Words }
    ensures keeps_sink { KeepsSink (O.told out.old) (O.told out.new) }
    ensures kept { KeepsShelf (S.told shelf.old) (S.told shelf.new) }
{
    match command {
        Command::Decode(name) => decode_job(alloc, name, shelf, out),
        Command::Cut(list) => cut_job(alloc, list, shelf, out),
        Command::Recode(name, scale) => recode_job(alloc, name, *scale, shelf, out),
        Command::Audit(name) => audit_job(alloc, name, shelf, out),
    }
}
