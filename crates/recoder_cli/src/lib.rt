//! The program's top call: from words to a command over named inputs, its output and the line of its status.
//!
//! Its promise: `run` runs the command of the form of the words, `command_of` in `specs/Outcomes.antt`. What that is, the
//! crate of each job defines, and `Runs` of `mv_ends` says what is known of a call that runs a command. Which words have a
//! form stands in `specs/Words.antt`, and what is said of a status in `specs/Said.antt`.
#![tactic(auto)]

mod clean;
mod commands;
mod say;
mod words;

ghost use Rattle.std.specs.Prelude.{◌≡◌, ◌↔◌, None};
ghost use Rattle.std.specs.Option.{ForSome};
ghost use Rattle.std.specs.Io.KnownBytes.{Keeps};
ghost use Rattle.mv_ends.specs.Commands.{Runs};
ghost use Rattle.mv_ends.specs.Kept.{KeepsShelf, KeepsSink};
ghost use Rattle.mv_terms.specs.Texts.{line_of};
ghost use Rattle.recoder_cli.specs.Words.{form_of, texts};
ghost use Rattle.recoder_cli.specs.Outcomes.{command_of};
ghost use Rattle.recoder_cli.specs.Said.{IsSaid};

pub use clean::run_clean;
pub use commands::perform;
use mv_ends::{Shelf, Sink};
use mv_terms::Status;
pub use say::tell;
use std::alloc::Global;
pub use words::{Command, parse};

/// Runs the command that the words behind the program's name give over the named inputs, writes its output to `out`
/// and the line of its status to `say`. A fault of `say` changes no status.
pub fn run<S: Shelf, O: Sink, M: Sink>(
    alloc: Global,
    words: &[String],
    shelf: &mut S,
    out: &mut O,
    say: &mut M,
) -> Status
    // The words alone decide whether they are of no form, and then nothing is written. Otherwise the command of their
    // form is run.
    ensures words { (result ≡ Status.Words) ↔ (form_of (texts words.now) ≡ None) }
    ensures nothing { result ≡ Status.Words
        → Keeps (O.told out.old).written (O.told out.new).written }
    ensures runs { ForSome (form_of (texts words.now)) (λ form. Runs (command_of form)
        (S.told shelf.old) (S.told shelf.new) (O.told out.old) (O.told out.new) result) }

    // The line of the status is said, as far as no write to `say` fails.
    ensures said { IsSaid (M.told say.old) (M.told say.new) (line_of result) }

    ensures keeps_sink { KeepsSink (O.told out.old) (O.told out.new) }
    ensures kept { KeepsShelf (S.told shelf.old) (S.told shelf.new) }
{
    let status = match parse(words) {
        None => Status::Words,
        Some(command) => perform(alloc, &command, shelf, out),
    };
    tell(say, &status);
    status
}
