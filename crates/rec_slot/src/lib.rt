//! The slots of macroblocks: what was decided for a macroblock, in the 20 bytes that a frame file carries with it.
//!
//! Its promise: a slot is the bytes of `specs/Slot.antt`; exactly these are read, and as the decision that was written.
#![tactic(auto)]

mod directions;
mod laws;
mod read;
mod write;

pub use directions::uses_forward;
pub use laws::slot_law;
pub use read::read_slot;
pub use write::slot_bytes;
