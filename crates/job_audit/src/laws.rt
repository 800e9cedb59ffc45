//! Laws of the audit, for crates above.
ghost use Rattle.job_audit.specs.Laws.{AuditIsInOrder, ChainIsSaid, FilesAreAudited};

use cert_chains::intact_law;
use y4m_frames::{header_law, holds_law};

/// The lines that the steps of the plan give are those of the frames in their order.
pub fn audit_law()
    ensures { AuditIsInOrder }
{}

/// A frame with a chain has the word `chain` in its line.
pub fn chain_law()
    ensures { ChainIsSaid }
{}

/// What is written for a file are the lines of its frames, in which each intact frame has its chain.
pub fn audited_file_law()
    ensures { FilesAreAudited }
{
    // for the proof: what is written are the lines of the frames; intact frames have a chain, and its word; and the header
    // of what is read is legal
    audit_law();
    intact_law();
    chain_law();
    holds_law();
    header_law();
}
