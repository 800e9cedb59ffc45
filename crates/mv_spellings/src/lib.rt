//! The canonical slices of a picture are the only list of bytes that is coded by its settled decisions and its levels
//! and meets four demands. This crate has no code: its functions are laws.
//!
//! More than one list of bytes is coded by the same decisions and levels (`specs/Slices.antt` of `mv_slices`): a run and
//! a level may stand behind an escape where the table has a code for them, deltas that differ by 32f lead to the same
//! component, and a slice may have extra information in its header, and zero bits and zero bytes behind its last
//! macroblock. The demands leave one of them:
//!
//! - an escape stands only for a run and a level without a code (`specs/Blocks.antt`);
//! - a delta lies in -16f to 16f - 1 (`specs/Vectors.antt`);
//! - a slice has no extra information (`specs/Slices.antt`);
//! - fewer than eight zero bits stand behind the last macroblock of a slice, and so no zero byte in front of the next
//!   start code; the zero bytes that end the last slice are dropped (`specs/Slices.antt`).
//!
//! A plain reading is the reading of the syntax with these demands ([`reading_law`]). The bits that are read plainly as
//! a vector, a block or a macroblock are its canonical bits ([`vector_law`], [`block_law`], [`macroblock_law`]), and the
//! bytes that are read plainly as a picture are its canonical slices ([`only_law`]).
#![tactic(auto)]

mod laws;

pub use laws::{block_law, macroblock_law, only_law, reading_law, vector_law};
