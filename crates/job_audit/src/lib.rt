//! The audit of a frame file: for each frame a line that says what record is found in it, how it would be coded, and
//! whether it still comes back with the original bytes of its picture, as far as the records tell.
//!
//! Its promise: `audit_job` runs `audit_command` of `specs/Command.antt`. It ends as `outcome_of` of `job_coding` defines for the bytes of the named input, where each step
//! of the plan gives lines (`specs/StepLines.antt`), but for want of memory and counted faults of its endpoints; and what it
//! writes for a file, up to its end or its first fault, are the lines of `specs/Audit.antt`, in the order of the frames, in
//! which each intact frame has its chain (`specs/AuditedFile.antt`). `specs/Steps.antt` only carries proofs.
#![tactic(auto)]

mod coder;
mod job;
mod laws;
mod line;
mod lines;

pub use job::audit_job;
pub use laws::{audit_law, audited_file_law, chain_law};
