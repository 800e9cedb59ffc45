//! Reads a frame of what is left of a frame file.
ghost use Rattle.std.specs.Prelude.{◌≡◌, ◌≢◌, Err, ◌+◌, ◌-◌, ◌*◌, ◌<◌, ◌≤◌, ◌^◌, ℕ, List, [], ◌++◌, length, take, drop, min, IfOk, IfNone, IfSome, OnOk, OnErr, IsErrOf};
ghost use Rattle.std.specs.Option.{ForSome};
ghost use Rattle.std.specs.Io.KnownBytes.{Consumes, IsAtEnd, prepend_known};
ghost use Rattle.mv_ends.specs.Causes.{FailedRead};
ghost use Rattle.mv_ends.specs.Kept.{KeepsShelf};
ghost use Rattle.y4m_frames.specs.Frames.{is_frame_line, are_samples};
ghost use Rattle.y4m_frames.specs.Reading.{TakesFewer};
ghost use Rattle.y4m_frames.specs.Steps.{TakesLine, LineTells, StopsInLine, TakesSamples, SamplesTell, TakesFrame, FrameTells, StopsShort};

use crate::ahead::Ahead;
use crate::halt::Halt;
use mv_ends::Shelf;
use mv_terms::FrameFault;

/// Takes a frame, where so many bytes may belong to the file, and says how many bytes it has, with
/// its line; None at the end.
#[tactic(auto, using(mv_ends::proofs::Known::keeps_shelf_trans))]
pub(crate) fn take_frame<S: Shelf>(
    ahead: &mut Ahead,
    shelf: &mut S,
    count: u64,
    room: u64,
    samples: &mut [u8],
) -> Result<Option<u64>, Halt>
    ensures frame { IfOk result (λ found. IfSome found
        (λ taken. TakesFrame taken (length samples.old) room
        (prepend_known ahead.old (S.told shelf.old).rest)
        (prepend_known ahead.new (S.told shelf.new).rest) samples.new)) }
    ensures ends { IfOk result (λ found. IfNone found
        (Consumes (prepend_known ahead.old (S.told shelf.old).rest)
        (prepend_known ahead.new (S.told shelf.new).rest) [])) }
    ensures at_end { IfOk result (λ found. IfNone found (IsAtEnd (S.told shelf.new).rest)) }
    ensures told { ForSome (prepend_known ahead.old (S.told shelf.old).rest) (λ s.
        FrameTells (length samples.old) count room s result) }
    ensures part { IsErrOf result Halt.Read → StopsShort (length samples.old) count room
        (prepend_known ahead.old (S.told shelf.old).rest) (S.told shelf.new).rest }
    ensures most { length ahead.new ≤ 65536 }
    ensures less { IfOk result (λ found. IfSome found (λ _. length ahead.new < 65536)) }
    ensures memory { result ≢ Err Halt.NoMemory }
    ensures failed { IsErrOf result Halt.Read → FailedRead (S.told shelf.old) (S.told shelf.new) }
    ensures chosen { (S.told shelf.new).selected ≡ (S.told shelf.old).selected }
    ensures keeps { KeepsShelf (S.told shelf.old) (S.told shelf.new) }
{
    let Some(line) = take_line(ahead, shelf, count, room)? else {
        return Ok(None);
    };
    take_samples(ahead, shelf, count, room - line, samples)?;
    Ok(Some(line + samples.len() as u64))
}

// Whether a line, without its line feed, is that of a frame.
fn is_frame_line(text: &[u8]) -> bool
    ensures { result ≡ is_frame_line text.now }
{
    text == b"FRAME".as_slice() || &text[..text.len().min(6)] == b"FRAME ".as_slice()
}

// Whether no sample is above 1023. Whole samples, and not their high bytes alone, are what is
// loaded side by side.
fn are_samples(bytes: &[u8]) -> bool
    ensures { result ≡ are_samples bytes.now }
{
    let mut greatest = 0;
    for i in 0..bytes.len() / 2 {
        greatest = sample(bytes[2 * i], bytes[2 * i + 1]).max(greatest);
    }
    greatest <= 1023
}

fn sample(low: u8, high: u8) -> u16
    ensures { result ≡ low + 256 * high }
{
    u16::from(low) + 256 * u16::from(high)
}

const LINE_LIMIT: usize = 256;

// Takes the line of a frame, and says how many bytes it has; None at the end.
fn take_line<S: Shelf>(
    ahead: &mut Ahead,
    shelf: &mut S,
    count: u64,
    room: u64,
) -> Result<Option<u64>, Halt>
    ensures line { IfOk result (λ found. IfSome found
        (λ line. TakesLine line room (prepend_known ahead.old (S.told shelf.old).rest)
        (prepend_known ahead.new (S.told shelf.new).rest))) }
    ensures part { IsErrOf result Halt.Read → StopsInLine
        (prepend_known ahead.old (S.told shelf.old).rest) (S.told shelf.new).rest }
    ensures ends { IfOk result (λ found. IfNone found
        (Consumes (prepend_known ahead.old (S.told shelf.old).rest)
        (prepend_known ahead.new (S.told shelf.new).rest) [])) }
    ensures at_end { IfOk result (λ found. IfNone found (IsAtEnd (S.told shelf.new).rest)) }
    ensures told { ForSome (prepend_known ahead.old (S.told shelf.old).rest)
        (λ s. LineTells count room s result) }
    ensures most { length ahead.new ≤ 65536 }
    ensures less { IfOk result (λ found. IfSome found (λ _. length ahead.new < 65536)) }
    ensures memory { result ≢ Err Halt.NoMemory }
    ensures failed { IsErrOf result Halt.Read → FailedRead (S.told shelf.old) (S.told shelf.new) }
    ensures chosen { (S.told shelf.new).selected ≡ (S.told shelf.old).selected }
    ensures keeps { KeepsShelf (S.told shelf.old) (S.told shelf.new) }
{
    let found = ahead.line(shelf, LINE_LIMIT)?;
    let held = ahead.bytes();
    if held.is_empty() {
        if count == 0 {
            return Err(Halt::Fault(FrameFault::NoFrames));
        }
        return Ok(None);
    }
    let Some(text) = found else {
        if room < LINE_LIMIT as u64 && room < held.len() as u64 {
            return Err(Halt::Fault(FrameFault::TooLong(count)));
        }
        return Err(Halt::Fault(FrameFault::BadFrame(count)));
    };
    if room <= text as u64 {
        return Err(Halt::Fault(FrameFault::TooLong(count)));
    }
    if !is_frame_line(&held[..text]) {
        return Err(Halt::Fault(FrameFault::BadFrame(count)));
    }
    ahead.skip(text + 1);
    Ok(Some(text as u64 + 1))
}

// How many bytes of samples to ask for: one more than may belong to the file shows that more
// follow.
fn wanted(len: usize, left: u64) -> usize
    ensures { result ≡ min len (left + 1) }
{
    if left < len as u64 {
        left as usize + 1
    } else {
        len
    }
}

// Takes the samples of a frame, where so many bytes more may belong to the file.
fn take_samples<S: Shelf>(
    ahead: &mut Ahead,
    shelf: &mut S,
    count: u64,
    left: u64,
    samples: &mut [u8],
) -> Result<(), Halt>
    ensures samples { OnOk result (TakesSamples left
        (prepend_known ahead.old (S.told shelf.old).rest)
        (prepend_known ahead.new (S.told shelf.new).rest) samples.new) }
    ensures part { IsErrOf result Halt.Read → TakesFewer (min (length samples.old) (left + 1))
        (prepend_known ahead.old (S.told shelf.old).rest) (S.told shelf.new).rest }
    ensures told { ForSome (prepend_known ahead.old (S.told shelf.old).rest) (λ s.
        SamplesTell (length samples.old) count left s result) }
    ensures less { length ahead.new ≤ length ahead.old }
    ensures memory { result ≢ Err Halt.NoMemory }
    ensures failed { IsErrOf result Halt.Read → FailedRead (S.told shelf.old) (S.told shelf.new) }
    ensures chosen { (S.told shelf.new).selected ≡ (S.told shelf.old).selected }
    ensures keeps { KeepsShelf (S.told shelf.old) (S.told shelf.new) }
{
    let want = wanted(samples.len(), left);
    let got = ahead.fill(shelf, &mut samples[..want])?;
    if got < want {
        return Err(Halt::Fault(FrameFault::BadFrame(count)));
    }
    if left < want as u64 {
        return Err(Halt::Fault(FrameFault::TooLong(count)));
    }
    if !are_samples(samples) {
        return Err(Halt::Fault(FrameFault::BadSample(count)));
    }
    Ok(())
}
