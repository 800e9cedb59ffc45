//! How near the picture of a coded frame is to the frame.
//!
//! Its promise: each sample of a frame that is coded anew, and each of one that is coded by its record, lies within a
//! stated bound of its source, and so do the squares of each block of 8 by 8, whatever the references have become: errors
//! don't add up from picture to picture. It is laws alone. The definitions stand in `specs/Blocks.antt` (the bound of a
//! block, by its matrix and scale), `specs/Pictures.antt` and `specs/Frames.antt`.
#![tactic(auto)]

mod laws;

pub use laws::{block_law, fresh_law, guided_law, picture_law};
