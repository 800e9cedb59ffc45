//! The record of a frame, as the plan and the recoder need it.
//!
//! Its promise: [`RecordReader::read`] lends the record that `specs/Found.antt` of `rec_legal` defines for the frame, and
//! none exactly where that has none. `specs/Summaries.antt` says what the plan has to know of it.
#![tactic(auto)]

mod laws;
mod parts;
mod reader;
mod room;
mod summary;

pub use laws::right_law;
pub use reader::{Found, RecordReader};
pub use summary::no_summary;
