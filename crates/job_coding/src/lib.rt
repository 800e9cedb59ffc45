//! The job that codes the frames of a file, over any way of coding: from the bytes of the file, as they come, to what the
//! steps of its plan write.
//!
//! Its promise: `coding_job` runs `coding_command` of `specs/Command.antt`. It ends as `outcome_of` in `specs/Outcome.antt` defines for the bytes of the named input, in
//! status and output, but for want of memory and counted faults of its endpoints. What is written for frames is defined in
//! `specs/Codings.antt`, over any way of coding: a `Coder` codes the steps of the plan in turn. At most 17 frames are held,
//! each step is coded as soon as the frames read so far show it, and a frame more is read only where they show none.
//! `Records` finds the record of each frame, for coders, and says what the plan has to know of it (`specs/Stands.antt`).
//! `specs/Steps.antt` only carries proofs.
#![tactic(auto)]

mod coder;
mod frames;
mod job;
mod records;
mod slots;

pub use coder::Coder;
pub use job::coding_job;
pub use records::Records;
