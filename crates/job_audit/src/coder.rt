//! The coder that writes the audit.
ghost use Rattle.std.specs.Prelude.{◌≡◌, ◌<◌, []};
ghost use Rattle.std.specs.Option.{option_map_or};
ghost use Rattle.mv_ends.specs.Sends.{Sends};
ghost use Rattle.rec_legal.specs.Conditions.{has_flag};
ghost use Rattle.rec_reader.specs.Lent.{lent_found};
ghost use Rattle.enc_guided.specs.FileSteps.{recoding_by_records};
ghost use Rattle.job_coding.specs.Stands.{StandsFor};
ghost use Rattle.job_audit.specs.Audit.{line_text, said_by};
ghost use Rattle.job_audit.specs.StepLines.{audit_coding, lines_of};

use crate::line::{Line, Said, write_line};
use crate::lines::Lines;
use job_coding::{Coder, Records};
use mv_ends::{Failed, Sink};
use mv_terms::{FrameHeader, NoMemory};
use plan_window::{Step, Summary};
use rec_reader::Found;
use std::alloc::Global;

/// Writes the lines of the audit, step by step of the plan.
#[derive(Drop)]
pub(crate) struct AuditCoder {
    header: FrameHeader,
    records: Records,
    lines: Lines,
}

impl Coder for AuditCoder {
    ghost coding_of = { λ scale. audit_coding };

    ghost coding = { λ coder. audit_coding coder.header };

    ghost stands = { λ coder frames numbered steps.
        StandsFor coder.records coder.header frames numbered
        × (coder.lines ≡ lines_of (recoding_by_records 1 coder.header) steps) };

    fn start(alloc: Global, _scale: u8, header: &FrameHeader) -> Result<AuditCoder, NoMemory> {
        Ok(AuditCoder {
            header: *header,
            records: Records::start(alloc, header)?,
            lines: Lines::start(),
        })
    }

    fn look(&mut self, frame: &[u8]) -> Summary {
        self.records.look(frame)
    }

    fn code<O: Sink>(&mut self, step: Step, frame: &[u8], out: &mut O) -> Result<(), Failed> {
        let found = self
            .records
            .found(step.mode, frame)
            .map(|found| said_by(&found));
        let due = self.lines.take(&step, found);
        write_due(&due, out)
    }

    fn finish<O: Sink>(&mut self, out: &mut O) -> Result<(), Failed> {
        write_due(&self.lines.waiting, out)
    }
}

/// Writes the line that is due, if one is.
fn write_due<O: Sink>(line: &Option<Line>, out: &mut O) -> Result<(), Failed>
    ensures { Sends (O.told out.old) (O.told out.new)
        (option_map_or line_text line.now []) result }
{
    match line {
        None => Ok(()),
        Some(line) => write_line(line, out),
    }
}

/// The flag of a picture that is certified, and that of one that uses its forward reference.
const CERTIFIED: u8 = 1;

const USES_FORWARD: u8 = 2;

/// What a record says of its picture.
fn said_by(found: &Found<'_>) -> Said
    ensures { result ≡ said_by (lent_found found.now) }
{
    Said {
        pic: found.record.sheet.pic,
        certified: has_flag(found, CERTIFIED),
        uses_forward: has_flag(found, USES_FORWARD),
    }
}

/// Whether the flag of this worth is set.
fn has_flag(found: &Found<'_>, worth: u8) -> bool
    requires { 0 < worth }
    ensures { result ≡ has_flag (lent_found found.now).sheet worth }
{
    found.record.sheet.flags / worth % 2 == 1
}
