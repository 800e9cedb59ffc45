//! The blocks of a macroblock: from their bits to their 64 levels.
//!
//! A block is read from its first bit to its end. The promise of `read_block`: it answers Ok exactly where the bits are
//! those of a block, with the levels of this block and no others, and else it answers the first refusal in the bits.
//! What that says stands in `specs/Blocks.antt`, as relations between bits and levels.
//! The canonical bits of a block stand in `specs/Written.antt`: `write_block` writes them, and `written_law` says that
//! they read back as its levels.
#![tactic(auto)]

mod block;
mod write;
mod write_laws;

pub use block::{BlockCode, Pair, pairs, read_block};
pub use write::{has_level, write_block};
pub use write_laws::written_law;
