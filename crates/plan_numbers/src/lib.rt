//! Numbers for the contexts of frames, given as the frames come: the plan has to know of contexts only which of them are
//! the same.
//!
//! Its promise: of two frames at most 16 apart the numbers are equal exactly where the contexts are (`specs/Numbered.antt`),
//! though no more than 16 contexts are kept; so the plan is the same as over the contexts.
#![tactic(auto)]

mod bytes;
mod laws;
mod numbers;

pub use laws::numbered_law;
pub use numbers::{CONTEXT_LIMIT, ContextNumbers};
