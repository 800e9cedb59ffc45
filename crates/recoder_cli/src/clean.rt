//! Runs over endpoints that don't fail.
ghost use Rattle.std.specs.Prelude.{◌≡◌, ◌+◌, ◌≤◌, ◌↔◌, length, Some, None};
ghost use Rattle.std.specs.Option.{ForSome};
ghost use Rattle.std.specs.Io.KnownBytes.{Appends};
ghost use Rattle.mv_ends.specs.Ends.{Outcome};
ghost use Rattle.mv_ends.specs.Complete.{IsComplete};
ghost use Rattle.mv_ends.specs.Clean.{taken_by, room_of, inputs_in};
ghost use Rattle.mv_terms.specs.Texts.{line_of};
ghost use Rattle.recoder_cli.specs.Words.{form_of, texts};
ghost use Rattle.recoder_cli.specs.Outcomes.{command_of};

use crate::run;
use mv_ends::{CleanShelf, CleanSink};
use mv_terms::Status;
use std::alloc::Global;

/// Over endpoints that don't fail, with room for the output, a command ends with the status that is defined for it, or
/// for want of memory. The line of the status is said whole where there is room for it.
pub fn run_clean(
    alloc: Global,
    words: &[String],
    shelf: &mut CleanShelf,
    out: &mut CleanSink,
    say: &mut CleanSink,
) -> Status
    requires { ForSome (form_of (texts words.now)) (λ form. (outcome : Outcome Status)
        → (command_of form).is_outcome (inputs_in shelf.old) outcome
        → length (taken_by out.old) + length outcome.output ≤ room_of out.old) }
    ensures ends { ForSome (form_of (texts words.now)) (λ form. (outcome : Outcome Status)
        × (command_of form).is_outcome (inputs_in shelf.old) outcome
        × IsComplete outcome result (Some (taken_by out.old)) (Some (taken_by out.new))) }
    ensures words { (result ≡ Status.Words) ↔ (form_of (texts words.now) ≡ None) }
    ensures said { length (taken_by say.old) + length (line_of result) ≤ room_of say.old
        → Appends (Some (taken_by say.old)) (Some (taken_by say.new)) (line_of result) }
{
    run(alloc, words, shelf, out, say)
}
