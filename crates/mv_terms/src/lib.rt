//! The types that the layers of the codec speak of, each with its legal range.
//!
//! Its promise: a range that another crate requires or ensures is one of the predicates in `specs/Ranges.antt`, an exit
//! code and a status line are those of `specs/Texts.antt`, and the tables of the code are those of the standard
//! (`specs/Scans.antt`, `Matrices.antt`, `Rates.antt`). What several crates speak of is said here once: the unit of a
//! stream (`UnitLists`), a picture as it is coded (`CodedPicture`, `Decisions`), fields and the frames that pictures make
//! (`Structures`, `Frames`), display order and the choice of references (`Order`), sums by index and blocks of 64 values
//! (`Sums`, `Block`).
#![tactic(auto)]

mod frame_header;
mod head;
mod macroblock;
mod scans;
mod status;
pub mod unsupported;

pub use frame_header::{FRAME_RATES, FrameHeader};
pub use head::{
    Context, Head, Matrices, PicType, Structure, UnitParts, default_matrices_law,
    macroblock_columns, macroblock_rows,
};
pub use macroblock::{Decision, MacroLevels, Motion, Vector, none_law};
pub use scans::{ALTERNATE, ZIGZAG, raster_place, scans_law};
pub use status::{FrameFault, LineFault, NoMemory, Status, Why};
