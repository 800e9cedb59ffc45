//! A line of the audit, and how it is written.
ghost use Rattle.std.specs.Prelude.{◌≡◌};
ghost use Rattle.mv_ends.specs.Sends.{Sends};
ghost use Rattle.job_audit.specs.Audit.{chain_word, found_flag, found_type, line_text, mode_word};

use itoa::Buffer;
use mv_ends::{Failed, Sink, send_all};
use mv_terms::PicType;
use plan_window::Mode;

/// What a record says of its picture.
#[derive(Clone, Copy, Debug)]
pub(crate) struct Said {
    pub pic: PicType,
    pub certified: bool,
    pub uses_forward: bool,
}

/// What a line of the audit says of a frame.
#[derive(Clone, Copy, Debug)]
pub(crate) struct Line {
    /// The number of the frame, from 0.
    pub frame: u64,
    /// What the record says that is found in it, if one is.
    pub found: Option<Said>,
    /// How it is coded.
    pub mode: Mode,
    /// Whether it is coded by a certified record, and all that it depends on too.
    pub has_chain: bool,
}

/// Writes a line.
pub(crate) fn write_line<O: Sink>(line: &Line, out: &mut O) -> Result<(), Failed>
    ensures { Sends (O.told out.old) (O.told out.new) (line_text line.now) result }
{
    let mut number = Buffer::new();
    send_all(
        out,
        &[
            number.format(line.frame).as_bytes(),
            " ".as_bytes(),
            found_type(&line.found).as_bytes(),
            " ".as_bytes(),
            mode_word(line.mode).as_bytes(),
            " ".as_bytes(),
            found_flag(&line.found).as_bytes(),
            " ".as_bytes(),
            chain_word(line.has_chain).as_bytes(),
            "\n".as_bytes(),
        ],
    )
}

/// The type of the record, if one is found.
fn found_type(found: &Option<Said>) -> &'static str
    ensures { result.now ≡ found_type found.now }
{
    match found {
        None => "-",
        Some(said) => match said.pic {
            PicType::I => "I",
            PicType::P => "P",
            PicType::B => "B",
        },
    }
}

fn mode_word(mode: Mode) -> &'static str
    ensures { result.now ≡ mode_word mode }
{
    match mode {
        Mode::Guided => "guided",
        Mode::Fresh => "fresh",
    }
}

/// Whether the record says that its picture is certified, if one is found.
fn found_flag(found: &Option<Said>) -> &'static str
    ensures { result.now ≡ found_flag found.now }
{
    match found {
        None => "-",
        Some(said) => { if said.certified { "certified" } else { "plain" } }
    }
}

fn chain_word(has_chain: bool) -> &'static str
    ensures { result.now ≡ chain_word has_chain }
{
    if has_chain { "chain" } else { "-" }
}
