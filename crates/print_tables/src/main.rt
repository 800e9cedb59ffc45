//! Prints the tables of the codec, a line for each code or list of numbers: name, code and meaning, with tabs between.
//!
//! Each table is read through the calls that the codec reads it by, with every code of up to 17 bits, so that the lines
//! can be compared with tables that someone else wrote: a proof doesn't see a row that definition and constant both have
//! wrong. Its promise: the bytes that a code is tried by are that code's bits (`code_bytes`), as `mv_bits` defines them.
#![tactic(auto)]

mod codes;
mod lists;
mod table;

use std::io;

fn main(rt: HostRuntime) -> io::Result<()> {
    codes::print_codes(&rt)?;
    lists::print_lists(&rt)
}
