//! The plan of a recoder: in which order the frames of a file are coded, which of them are anchors, and which are coded
//! by the records that they carry.
//!
//! Its promise: the steps that a `Window` gives are those of `specs/Plan.antt` over all summaries that are pushed into
//! it, each once, though it never holds more than 17. Whether a frame is coded by its record is `specs/Links.antt`,
//! what a window stands for `specs/Stands.antt`, and what a coder may rely on at each step `specs/Fits.antt`.
#![tactic(auto)]

mod laws;
mod summary;
mod window;

pub use laws::{numbers_law, plan_law, steps_law};
pub use summary::{Mode, Step, Summary};
pub use window::{AHEAD, Window};
