//! Cuts a stream into its units: a picture with all that stands before it since the picture before.
//!
//! A [`Cutter`] is fed a stream in pieces, and takes all its memory at the start. Its promise: it hands out the units
//! of the bytes fed, and the refusal that ends them, however they were cut into pieces; and the units are all of the
//! stream, in the shape of units. The definitions stand in `specs/`: `Shape` (the elements of a unit's parts),
//! `Written` (the bytes of units, and the laws of cutting), `Table` (which element may stand where), `Walk` (the unit
//! in front of bytes), `Units` (the units of a whole stream, and what a cutter stands for), `Profile` (what is accepted
//! of a stream, and its refusal).
#![tactic(auto)]

mod cutter;
mod gap;
mod laws;
mod next;
mod parts;
mod place;
mod stored;
mod walk;

pub use cutter::{Cut, Cutter};
pub use laws::{
    cut_whole_law, judged_once_law, more_room_law, open_stream_law, shape_law, units_within_law,
    written_law,
};
pub use next::Before;
pub use parts::PartLengths;
pub use place::Place;
pub use walk::{Found, Next};
