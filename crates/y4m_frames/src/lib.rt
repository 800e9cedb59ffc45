//! Frame files: Y4M of 4:2:0 frames with 10 bits a sample (`C420p10`).
//!
//! Two promises. What is written is the header line and the frames of `specs/FrameFile.antt`, or,
//! where the sink fails, some front of them. What is read are the header and the frames of
//! `specs/Frames.antt`, or, where the bytes are no frame file, the frames before its first fault,
//! and this fault (`specs/Reading.antt`).
#![tactic(auto)]

mod ahead;
mod frame;
mod halt;
mod header;
mod reader;
mod words;
mod write;

pub use ahead::read_all;
pub use halt::Halt;
pub use reader::{FrameReader, behind_law, header_law, holds_law, stands_law};
pub use words::{first_word, number};
pub use write::{write_frame, write_header};
