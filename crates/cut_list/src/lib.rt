//! Cut lists, and the cut: the frames that a list names, joined to one frame file.
//!
//! Its promise: `cut_job` runs `cut_command` of `specs/Command.antt`. It ends as `cut_outcome` in
//! `specs/Cut.antt` defines for the list and the inputs that it names, in status and output, but
//! for want of memory and counted faults of its endpoints. What a list says stands in `specs/List.antt`.
#![tactic(auto)]

mod copy;
mod entry;
mod job;
mod line;
mod list;

pub use entry::{Entry, Name};
pub use job::cut_job;
pub use list::{ListFault, read_list};
