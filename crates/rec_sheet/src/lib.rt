//! The sheets of pictures: how a picture was coded, in the bytes that its frame carries for all macroblocks together.
//!
//! Its promise: a sheet is the bytes of `specs/Sheets.antt`, and exactly these are read, whatever their seal is.
#![tactic(auto)]

mod laws;
mod read;
mod sheet;
mod write;

pub use laws::sheet_law;
pub use read::read_sheet;
pub use sheet::{Sheet, fits};
pub use write::write_sheet;
