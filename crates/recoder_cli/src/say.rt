//! Says the line of a status, without taking memory.
ghost use Rattle.std.specs.Prelude.{◌≡◌, ◌++◌};
ghost use Rattle.mv_ends.specs.Moves.{joined};
ghost use Rattle.mv_terms.specs.Texts.{line_of, frame_fault_text, line_fault_text};
ghost use Rattle.recoder_cli.specs.Said.{IsSaid};

use itoa::Buffer;
use mv_ends::{Sink, send_all};
use mv_terms::{FrameFault, LineFault, Status, Why};

/// Says the line of a status, as far as no write fails.
pub fn tell<M: Sink>(say: &mut M, status: &Status)
    ensures { IsSaid (M.told say.old) (M.told say.new) (line_of status.now) }
{
    match status {
        Status::Done => say_all(say, &[]),
        Status::Words => say_all(say, &["words\n".as_bytes()]),
        Status::Unit(unit, why) => say_unit(say, *unit, why),
        Status::Frames(fault) => say_frames(say, fault),
        Status::Line(n, fault) => say_line(say, *n, fault),
        Status::OpenFault => say_all(say, &["open\n".as_bytes()]),
        Status::ReadFault => say_all(say, &["read\n".as_bytes()]),
        Status::WriteFault => say_all(say, &["write\n".as_bytes()]),
        Status::NoMemory => say_all(say, &["memory\n".as_bytes()]),
    }
}

/// Says the pieces, as far as no write fails.
fn say_all<M: Sink>(say: &mut M, pieces: &[&[u8]])
    ensures { IsSaid (M.told say.old) (M.told say.new) (joined pieces.now) }
{
    let _ = send_all(say, pieces);
}

/// The text of a frame file's fault, in three pieces, of which the second is its number.
fn frame_pieces<'a>(fault: &FrameFault, digits: &'a mut Buffer) -> (&'a str, &'a str, &'a str)
    ensures { result.0.now ++ (result.1.now ++ result.2.now) ≡ frame_fault_text fault.now }
{
    match fault {
        FrameFault::BadHeader => ("BadHeader", "", ""),
        FrameFault::BadSize => ("BadSize", "", ""),
        FrameFault::NoFrames => ("NoFrames", "", ""),
        FrameFault::BadFrame(n) => ("frame ", digits.format(*n), ": BadFrame"),
        FrameFault::BadSample(n) => ("frame ", digits.format(*n), ": BadSample"),
        FrameFault::TooLong(n) => ("frame ", digits.format(*n), ": TooLong"),
    }
}

/// The text of a line's fault, in three pieces.
fn line_pieces<'a>(fault: &LineFault, digits: &'a mut Buffer) -> (&'a str, &'a str, &'a str)
    ensures { result.0.now ++ (result.1.now ++ result.2.now) ≡ line_fault_text fault.now }
{
    match fault {
        LineFault::BadLine => ("BadLine", "", ""),
        LineFault::Differs => ("Differs", "", ""),
        LineFault::ShortInput => ("ShortInput", "", ""),
        LineFault::Frames(fault) => frame_pieces(fault, digits),
    }
}

/// Says a frame file's fault.
fn say_frames<M: Sink>(say: &mut M, fault: &FrameFault)
    ensures { IsSaid (M.told say.old) (M.told say.new)
        (line_of (Status.Frames fault.now)) }
{
    let mut digits = Buffer::new();
    let (before, number, after) = frame_pieces(fault, &mut digits);
    say_all(
        say,
        &[
            before.as_bytes(),
            number.as_bytes(),
            after.as_bytes(),
            "\n".as_bytes(),
        ],
    );
}

/// Says a reason, behind the number of its unit.
fn say_unit<M: Sink>(say: &mut M, unit: u64, why: &Why)
    ensures { IsSaid (M.told say.old) (M.told say.new)
        (line_of (Status.Unit unit why.now)) }
{
    let mut digits = Buffer::new();
    let number = digits.format(unit);
    let mut more = Buffer::new();
    let kind = match why {
        Why::Unsupported(kind) => more.format(*kind),
        _ => "",
    };
    say_all(
        say,
        &[
            "unit ".as_bytes(),
            number.as_bytes(),
            ": ".as_bytes(),
            why.name().as_bytes(),
            kind.as_bytes(),
            "\n".as_bytes(),
        ],
    );
}

/// Says a line's fault, behind the number of the line.
fn say_line<M: Sink>(say: &mut M, line: u32, fault: &LineFault)
    ensures { IsSaid (M.told say.old) (M.told say.new)
        (line_of (Status.Line line fault.now)) }
{
    let mut digits = Buffer::new();
    let mut more = Buffer::new();
    let (before, number, after) = line_pieces(fault, &mut more);
    say_all(
        say,
        &[
            "line ".as_bytes(),
            digits.format(line).as_bytes(),
            ": ".as_bytes(),
            before.as_bytes(),
            number.as_bytes(),
            after.as_bytes(),
            "\n".as_bytes(),
        ],
    );
}
