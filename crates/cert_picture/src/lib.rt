//! Decoded pictures as frames of a frame file: each with the record of how it was coded, by which it can be coded
//! again, and with the mark that its slices are certified to come back.
//!
//! Its promise: [`make_frame`] leaves the sample bytes of the frame of a unit and answers its seal, both as
//! `specs/Records.antt` defines them. The frame file that the units of a stream decode to is `frame_file_of` in
//! `specs/FrameFileOf.antt`, and what of it may be written as its units come is `due` there; the laws say how the two
//! are joined, and what the record of a frame tells (`specs/RecordLaws.antt`). What is lent for a frame stands in
//! `specs/Lent.antt`; `Steps` only carries proofs.
#![tactic(auto)]

mod certifying;
mod close;
mod frame;
mod laws;
mod nearest;
mod record;
mod recorded;
mod stay;
mod sure;

pub use certifying::{certify, certify_decoded};
pub use frame::{FrameRoom, StreamParts, make_frame};
pub use laws::{certified_law, due_law, file_law, pictures_law, record_law};
