//! The sample bytes of frames, and the recoding data that is buried in them: of each macroblock the bytes that say its
//! decision and its share of the picture's sheet, in the two low bits of its chroma samples.
//!
//! Its promise: the bytes of a frame are those of `specs/Buried.antt`, or those of `specs/FrameBytes.antt` without
//! recoding data; what was buried comes back (`specs/Exhumed.antt`); the seal of a frame is that of `specs/Seals.antt`.
#![tactic(auto)]

mod bytes;
mod chroma;
mod frames;
mod laws;
mod seals;
mod slots;
mod sources;

pub use frames::{bury, write_unrecorded};
pub use laws::bury_law;
pub use seals::{seal, seal_holds};
pub use slots::exhume;
pub use sources::source;
