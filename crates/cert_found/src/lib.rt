//! The record law: the frame of a picture has exactly the record that was buried in it.
//!
//! Its promise ([`record_law`], `specs/RecordLaw.antt`): of the sample bytes that `cert_picture` defines for a unit of any
//! accepted stream, `found` of `rec_legal` answers the record of its picture, with its headers and decisions; and None
//! where the picture has no record. So what `decode` writes can be coded by what it carries.
#![tactic(auto)]

mod laws;

pub use laws::record_law;
