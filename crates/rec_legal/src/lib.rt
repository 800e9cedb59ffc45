//! Found records: whether a picture can be coded by what the slots and the sheet of a frame say.
//!
//! Its promise: [`legal`] answers the record that meets the conditions of `specs/Conditions.antt`, and None where there is
//! none; so, where the seal of the frame holds, it answers the record of `specs/Found.antt`. A record that another program
//! made, or forged, is asked no less than one of this codec.
#![tactic(auto)]

mod decisions;
mod flags;
mod headers;
mod laws;
mod macroblock;
mod parts;
mod record;
mod vectors;

pub use laws::{coded_law, found_law};
pub use record::{Record, legal};
