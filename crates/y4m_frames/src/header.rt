//! The header line of a frame file.
ghost use Rattle.std.specs.Prelude.{◌≡◌, ◌≢◌, ◌<◌, ◌≤◌, ◌+◌, ◌∷◌, ◌↔◌, length, IfSome, IfOk, Some, option_map, option_copied, Option, drop, true, false};
ghost use Rattle.y4m_frames.specs.Lines.{words, words_left, to_read};
ghost use Rattle.y4m_frames.specs.Header.{begins_with, token, rate, known_rate, is_colon, fields, kind, needed, optional, said, is_right_size, header, header_of, is_first_word};
ghost use Rattle.std.specs.List.{before_first, after_first};
ghost use Rattle.y4m_frames.specs.Steps.{token_of, now_of};

use crate::words::{first_word, number};
use memchr::memchr;
use mv_terms::{FrameFault, FrameHeader};

/// What a header line means, without its line feed.
#[tactic(auto, unfolding(crate::specs::Header::header_of))]
pub(crate) fn header_of(line: &[u8]) -> Result<FrameHeader, FrameFault>
    ensures { result ≡ header_of line.now }
{
    if !is_first_word(line) {
        return Err(FrameFault::BadHeader);
    }
    let Some(says) = said(line) else {
        return Err(FrameFault::BadHeader);
    };
    if !says.is_right_size() {
        return Err(FrameFault::BadSize);
    }
    Ok(FrameHeader {
        wide: says.wide as u16,
        high: says.high as u16,
        progressive: says.progressive,
        bottom_first: says.bottom_first,
        rate_num: says.rate_num,
        rate_den: says.rate_den,
    })
}

/// What a header line says, whatever the size is.
#[derive(Clone, Copy)]
pub(crate) struct Says {
    pub(crate) wide: u32,
    pub(crate) high: u32,
    pub(crate) progressive: bool,
    pub(crate) bottom_first: bool,
    pub(crate) rate_num: u32,
    pub(crate) rate_den: u32,
}

// The tokens of a letter: none, one, which is told without its letter, or more.
#[derive(Clone, Copy)]
enum Found<'a> {
    Absent,
    Once(&'a [u8]),
    Often,
}

fn begins_with(word: &[u8], letter: u8) -> bool
    ensures { result ≡ begins_with letter word.now }
{
    match word {
        [] => false,
        [first, ..] => *first == letter,
    }
}

fn find_token(line: &[u8], letter: u8) -> Found<'_>
    ensures { token_of result ≡ token letter line.now }
{
    let mut found = Found::Absent;
    let mut rest = Some(line);
    'words: while let Some(text) = rest {
        let (word, more) = first_word(text);
        if begins_with(word, letter) {
            if let Found::Once(_) = found {
                return Found::Often;
            }
            found = Found::Once(&word[1..]);
        }
        rest = more;
    }
    found
}

#[tactic(auto, unfolding(crate::specs::Header::kind))]
fn kind(text: &[u8]) -> Option<()>
    ensures { result ≡ kind text.now }
{
    if text == b"420p10".as_slice() {
        Some(())
    } else {
        None
    }
}

#[tactic(auto, unfolding(crate::specs::Header::fields))]
fn fields(text: &[u8]) -> Option<(bool, bool)>
    ensures { result ≡ fields text.now }
{
    if text == b"p".as_slice() || text == b"?".as_slice() {
        Some((true, false))
    } else if text == b"t".as_slice() || text == b"m".as_slice() {
        Some((false, false))
    } else if text == b"b".as_slice() {
        Some((false, true))
    } else {
        None
    }
}

#[tactic(auto, unfolding(crate::specs::Header::rate))]
fn rate(text: &[u8]) -> Option<(u32, u32)>
    ensures { result ≡ rate text.now }
{
    let (frames, seconds) = at_colon(text);
    let frames = number(frames)?;
    let seconds = number(seconds)?;
    Some(known_rate(frames, seconds))
}

fn known_rate(frames: u32, seconds: u32) -> (u32, u32)
    ensures { result ≡ known_rate frames seconds }
{
    if frames == 0 || seconds == 0 {
        (0, 0)
    } else {
        (frames, seconds)
    }
}

// What stands before the first colon, and behind it.
fn at_colon(text: &[u8]) -> (&[u8], &[u8])
    ensures before { result.0.now ≡ before_first is_colon text.now }
    ensures after { result.1.now ≡ after_first is_colon text.now }
{
    match memchr(b':', text) {
        Some(at) => (&text[..at], &text[at + 1..]),
        None => (text, &text[text.len()..]),
    }
}

fn needed(found: Found<'_>) -> Option<&[u8]>
    ensures { now_of result ≡ needed (token_of found.entry) }
{
    match found {
        Found::Once(text) => Some(text),
        _ => None,
    }
}

fn rate_of(found: Found<'_>) -> Option<(u32, u32)>
    ensures { result ≡ optional (0, 0) rate (token_of found.entry) }
{
    match found {
        Found::Absent => Some((0, 0)),
        Found::Once(text) => rate(text),
        Found::Often => None,
    }
}

fn fields_of(found: Found<'_>) -> Option<(bool, bool)>
    ensures { result ≡ optional (true, false) fields (token_of found.entry) }
{
    match found {
        Found::Absent => Some((true, false)),
        Found::Once(text) => fields(text),
        Found::Often => None,
    }
}

#[tactic(auto, unfolding(crate::specs::Header::said))]
fn said(line: &[u8]) -> Option<Says>
    ensures { result ≡ said line.now }
{
    let wide = number(needed(find_token(line, b'W'))?)?;
    let high = number(needed(find_token(line, b'H'))?)?;
    kind(needed(find_token(line, b'C'))?)?;
    let (rate_num, rate_den) = rate_of(find_token(line, b'F'))?;
    let (progressive, bottom_first) = fields_of(find_token(line, b'I'))?;
    Some(Says {
        wide,
        high,
        progressive,
        bottom_first,
        rate_num,
        rate_den,
    })
}

impl Says {
    fn is_right_size(&self) -> bool
        ensures { result ≡ is_right_size self.now }
    {
        let rows = if self.progressive { 16 } else { 32 };
        1 <= self.wide
            && self.wide <= 1920
            && 1 <= self.high
            && self.high <= 1152
            && self.wide % 16 == 0
            && self.high % rows == 0
    }
}

fn is_first_word(line: &[u8]) -> bool
    ensures { result ≡ is_first_word (words line.now) }
{
    let (word, _) = first_word(line);
    word == b"YUV4MPEG2".as_slice()
}
