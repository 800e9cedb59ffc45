//! The codes of variable length of the syntax, one reader and one writer for each table.
//!
//! Each table is a list of codes and meanings in `specs/`, row by row as annex B of H.262 prints it, and a constant
//! here apart from it. The promise of a reader: it answers a value exactly where a code of that value begins the bits,
//! and moves past that code alone; it answers None exactly where no code begins them, and the window stays. What this
//! says stands in `specs/Tables.antt`. A reader finds its code in the tables of `look_up`, which name rows of the list;
//! `look_up_law` says that they name the right ones (`specs/LookUp.antt`).
//!
//! A writer puts the code that the table has for a value (`specs/Spelled.antt`), which it finds at the value's place in
//! lists of its own, and `write_coefficient` an escape where the table has none; `written_law` says that each value of a
//! row has a code, and that it reads back.
#![tactic(auto)]

mod code;
mod coefficient;
mod dc_size;
mod increment;
mod laws;
pub mod look_up;
mod macroblock_type;
mod motion;
mod pattern;
mod put_coefficient;
mod write;
mod write_laws;

pub use code::Code;
pub use coefficient::{Coef, read_coef};
pub use dc_size::read_dc_size;
pub use increment::{Increment, read_increment};
pub use laws::look_up_law;
pub use macroblock_type::{TypeBits, read_type};
pub use motion::read_motion;
pub use pattern::read_pattern;
pub use put_coefficient::{write_coefficient, write_end};
pub use write::{write_dc_size, write_increment, write_motion, write_pattern, write_type};
pub use write_laws::written_law;
