//! Cut lists are read.
ghost use Rattle.std.specs.Prelude.{◌≡◌, ◌∷◌, ◌+◌, ◌<◌, ◌≤◌, ℕ, List, length, IfOk, string_bytes};
ghost use Rattle.y4m_frames.specs.Lines.{words, to_read};
ghost use Rattle.cut_list.specs.List.{entry_of, in_order, three_words, frame_number, name_of, lines_of, is_past};
ghost use Rattle.cut_list.specs.Steps.{ReadsList, words_now, name_now, entry_now, lines_left, end_of, len_of};

use crate::entry::{Entry, Name};
use memchr::memchr;
use mv_terms::NoMemory;
use std::alloc::Global;
use y4m_frames::{first_word, number};

/// A list has at most so many bytes.
pub(crate) const LIST_LIMIT: usize = 1_048_576;

/// A list has at most so many lines.
const LINES_LIMIT: u32 = 4_096;

/// Why a list is refused: a line, counted from 1, or there was no memory.
#[derive(Clone, Copy, Debug, PartialEq, Eq)]
pub enum ListFault {
    BadLine(u32),
    NoMemory,
}

/// The entries of a list, or the first line that is refused.
pub fn read_list(alloc: Global, bytes: &[u8]) -> Result<Vec<Entry>, ListFault>
    ensures entries { ReadsList bytes.now result }
    ensures few { IfOk result (λ entries. length entries.items ≤ 4096) }
{
    if bytes.is_empty() {
        return Err(ListFault::BadLine(1));
    }
    let mut entries = Vec::new(alloc);
    let mut rest = Some(bytes);
    let mut number = 1;
    let mut room = LIST_LIMIT;
    'lines: while let Some(text) = rest {
        let (line, more) = first_line(text);
        if ends_list(line, more) {
            return Ok(entries);
        }
        let taken = line_len(line, more);
        if is_past(number, room, taken) {
            return Err(ListFault::BadLine(number));
        }
        match read_entry(alloc, line) {
            Err(NoMemory) => return Err(ListFault::NoMemory),
            Ok(None) => return Err(ListFault::BadLine(number)),
            Ok(Some(entry)) => {
                if entries.push(entry).is_err() {
                    return Err(ListFault::NoMemory);
                }
            }
        }
        number += 1;
        room -= taken;
        rest = more;
    }
    Ok(entries)
}

// The first line of a text, and what stands behind the line feed that ends it.
fn first_line(text: &[u8]) -> (&[u8], Option<&[u8]>)
    ensures parts { lines_of text.now ≡ result.0.now ∷ lines_left result.1 }
    ensures less { to_read result.1 < length text.now + 1 }
{
    match memchr(b'\n', text) {
        Some(end) => (&text[..end], Some(&text[end + 1..])),
        None => (text, None),
    }
}

// Whether nothing stands behind the last line feed.
#[tactic(auto, using(crate::proofs::ListLemmas::not_end))]
fn ends_list(line: &[u8], more: Option<&[u8]>) -> bool
    ensures { result ≡ end_of line.now more.entry }
{
    match more {
        None => line.is_empty(),
        Some(_) => false,
    }
}

#[tactic(auto, using(crate::proofs::ListLemmas::len_more))]
fn line_len(line: &[u8], more: Option<&[u8]>) -> usize
    ensures { result ≡ len_of line.now more.entry }
{
    match more {
        None => line.len(),
        Some(_) => line.len() + 1,
    }
}

// Whether a line with this number, or of so many bytes, passes a limit of the list.
fn is_past(number: u32, room: usize, taken: usize) -> bool
    ensures { result ≡ is_past number room taken }
{
    LINES_LIMIT < number || room < taken
}

// The entry of a line, or None where it is refused.
fn read_entry(alloc: Global, line: &[u8]) -> Result<Option<Entry>, NoMemory>
    ensures { IfOk result (λ found. found ≡ entry_of line.now) }
{
    match entry_of(line) {
        None => Ok(None),
        Some((name, from, to)) => match String::from_str(alloc, name) {
            Ok(text) => Ok(Some(Entry {
                name: Name::of(text),
                from,
                to,
            })),
            Err(_) => Err(NoMemory),
        },
    }
}

// What a line says: a name, and the first and the last frame.
#[tactic(auto, unfolding(crate::specs::List::entry_of))]
fn entry_of(line: &[u8]) -> Option<(&str, u32, u32)>
    ensures { entry_now result ≡ entry_of line.now }
{
    let (name, from, to) = three_words(line)?;
    let from = frame_number(from)?;
    let to = frame_number(to)?;
    in_order(name_of(name)?, from, to)
}

#[tactic(auto, unfolding(crate::specs::List::in_order))]
fn in_order(name: &str, from: u32, to: u32) -> Option<(&str, u32, u32)>
    ensures { entry_now result ≡ in_order name.now from to }
{
    if from <= to {
        Some((name, from, to))
    } else {
        None
    }
}

#[tactic(auto, using(crate::proofs::ListLemmas::four_words))]
fn three_words(line: &[u8]) -> Option<(&[u8], &[u8], &[u8])>
    ensures { words_now result ≡ three_words (words line.now) }
{
    let (name, more) = first_word(line);
    let (from, more) = first_word(more?);
    let (to, more) = first_word(more?);
    match more {
        None => Some((name, from, to)),
        Some(_) => None,
    }
}

// The number of a frame, without a leading zero.
#[tactic(auto, unfolding(crate::specs::List::frame_number))]
fn frame_number(digits: &[u8]) -> Option<u32>
    ensures { result ≡ frame_number digits.now }
{
    if digits.len() > 1 && digits[0] == b'0' {
        None
    } else {
        number(digits)
    }
}

// A name of 1 to 255 bytes of UTF-8.
#[tactic(auto, unfolding(crate::specs::List::name_of), using(crate::proofs::NameLemmas::utf8, crate::proofs::NameLemmas::no_utf8))]
fn name_of(bytes: &[u8]) -> Option<&str>
    ensures { name_now result ≡ name_of bytes.now }
{
    if bytes.is_empty() || bytes.len() > 255 {
        return None;
    }
    match std::str::from_utf8(bytes) {
        Ok(name) => Some(name),
        Err(_) => None,
    }
}
