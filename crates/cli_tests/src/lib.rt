//! Tests of the program's top call, `run` of `recoder_cli`, over endpoints in memory that fail, move few bytes at a time,
//! or show how far was read.
//!
//! They stand apart from `recoder_cli`, which isn't proved again where a test changes. What the built program gives of
//! words and files is stored in `runs/`, one file for each subject, and `bin/check-runs` compares it.
#![tactic(auto)]

#[cfg(test)]
mod tests;
