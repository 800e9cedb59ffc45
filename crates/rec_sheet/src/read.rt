//! What the bytes of a sheet say.
ghost use Rattle.std.specs.Prelude.{◌≡◌, ◌+◌, ◌*◌, ◌<◌, ◌≤◌, length, slice_index, replicate, MatchOption, IsTrue, ◌↔◌};
ghost use Rattle.mv_terms.specs.declared.head.PicType.{PicType as PictureType};
ghost use Rattle.mv_terms.specs.PicTypes.{picture_coding_type};
ghost use Rattle.rec_sheet.specs.Sheets.{SheetLists, IsSheet, IsNamed, lent_sheet, bytes_at, four_bytes};

use crate::Sheet;
use mv_terms::PicType;

/// What these bytes say, where they are a sheet with some seal; None exactly where they aren't.
pub fn read_sheet(bytes: &[u8]) -> Option<Sheet<'_>>
    ensures { MatchOption result ((s : SheetLists) → IsSheet s bytes.now → ⊥)
        (λ s. IsSheet (lent_sheet s) bytes.now) }
{
    if bytes.len() < 118 || !is_named(bytes) {
        return None;
    }
    let Some(pic) = type_of(bytes[5]) else {
        return None;
    };
    let context = two_at(bytes, 80);
    let prefix = two_at(bytes, 82);
    let head = two_at(bytes, 84);
    let end = 86 + context + prefix + head;
    if end + 32 > bytes.len() || !are_zeros(part(bytes, end, bytes.len() - 32 - end)) {
        return None;
    }
    Some(Sheet {
        pic,
        flags: bytes[6],
        forward: link_at(bytes, 8),
        backward: link_at(bytes, 40),
        n1: four_at(bytes, 72),
        n2: four_at(bytes, 76),
        context: part(bytes, 86, context),
        prefix: part(bytes, 86 + context, prefix),
        head: part(bytes, 86 + context + prefix, head),
    })
}

/// Whether the bytes in front that all sheets have are there.
fn is_named(bytes: &[u8]) -> bool
    requires { 8 ≤ length bytes.now }
    ensures { IsTrue result ↔ IsNamed bytes.now }
{
    bytes[0] == b'M'
        && bytes[1] == b'R'
        && bytes[2] == b'E'
        && bytes[3] == b'C'
        && bytes[4] == 1
        && bytes[7] == 0
}

/// The type of a picture by its code.
fn type_of(code: u8) -> Option<PicType>
    ensures { MatchOption result ((pic : PictureType) → picture_coding_type pic ≡ code → ⊥)
        (λ pic. picture_coding_type pic ≡ code) }
{
    match code {
        1 => Some(PicType::I),
        2 => Some(PicType::P),
        3 => Some(PicType::B),
        _ => None,
    }
}

fn two_at(bytes: &[u8], at: usize) -> usize
    requires { at + 2 ≤ length bytes.now }
    ensures value { result ≡ 256 * slice_index bytes.now at + slice_index bytes.now (at + 1) }
    ensures small { result < 65536 }
{
    256 * usize::from(bytes[at]) + usize::from(bytes[at + 1])
}

fn four_at(bytes: &[u8], at: usize) -> u32
    requires { at + 4 ≤ length bytes.now }
    ensures { bytes_at bytes.now at 4 ≡ four_bytes result }
{
    16_777_216 * u32::from(bytes[at])
        + 65_536 * u32::from(bytes[at + 1])
        + 256 * u32::from(bytes[at + 2])
        + u32::from(bytes[at + 3])
}

fn link_at(bytes: &[u8], at: usize) -> [u8; 32]
    requires { at + 32 ≤ length bytes.now }
    ensures { result ≡ bytes_at bytes.now at 32 }
{
    let mut link = [0; 32];
    'bytes: for i in 0..32 {
        link[i] = bytes[at + i];
    }
    link
}

/// So many bytes from a place on.
fn part(bytes: &[u8], at: usize, n: usize) -> &[u8]
    requires { at + n ≤ length bytes.now }
    ensures value { result.now ≡ bytes_at bytes.now at n }
    ensures size { length result.now ≡ n }
{
    &bytes[at..at + n]
}

fn are_zeros(bytes: &[u8]) -> bool
    ensures { IsTrue result ↔ (bytes.now ≡ replicate (length bytes.now) 0) }
{
    'bytes: for i in 0..bytes.len() {
        if bytes[i] != 0 {
            return false;
        }
    }
    true
}
