//! Which pictures have a record, and what its sheet says.
ghost use Rattle.std.specs.Prelude.{◌≡◌, ◌+◌, ◌*◌, ◌<◌, ◌≤◌, nat_le, true, unwrap_or, if◌then◌else◌};
ghost use Rattle.mv_terms.specs.CodedPicture.{frame_macroblocks};
ghost use Rattle.mv_terms.specs.Structures.{frame_rows};
ghost use Rattle.mv_terms.specs.UnitLists.{lent_unit};
ghost use Rattle.rec_sheet.specs.Sheets.{lent_sheet};
ghost use Rattle.cert_picture.specs.Lent.{lent_parts};
ghost use Rattle.cert_picture.specs.Records.{flag, flags_of, is_recordable, no_seal, returns_slices, sheet_lists, zeros_behind_end};

use crate::frame::StreamParts;
use mv_planes::Coded;
use mv_terms::{Head, Structure, UnitParts};
use rec_sheet::{Sheet, fits};
use rec_slot::uses_forward;

/// The greatest length of a part in a sheet.
const LONGEST_PART: usize = 65_535;

/// The greatest number of zero bytes behind the slices and behind an end code.
const MOST_ZEROS: u64 = 16_777_215;

/// Whether the picture has a record: no quant matrix extension is in force, and what the record says fits the sheet.
pub(crate) fn is_recordable(coded: &Coded<'_>, stream: &StreamParts<'_>) -> bool
    ensures { result ≡ is_recordable (lent_parts coded.now stream.now) }
{
    let unit = &stream.unit;
    !coded.extended
        && stream.context.len() <= LONGEST_PART
        && unit.prefix.len() <= LONGEST_PART
        && unit.head.len() <= LONGEST_PART
        && unit.zeros <= MOST_ZEROS
        && zeros_behind_end(unit) <= MOST_ZEROS
        && has_room(
            frame_macroblocks(coded.head),
            stream.context.len(),
            unit.prefix.len(),
            unit.head.len(),
        )
}

/// What the sheet of a picture that has a record says. It is certified where its slices come back.
pub(crate) fn sheet_for<'a>(
    coded: &Coded<'_>,
    stream: &StreamParts<'a>,
    certified: bool,
) -> Sheet<'a>
    requires recordable { is_recordable (lent_parts coded.now stream.now) ≡ true }
    requires returned { certified ≡ returns_slices (lent_parts coded.now stream.now) }
    ensures { lent_sheet result ≡ sheet_lists (lent_parts coded.now stream.now) }
{
    Sheet {
        pic: coded.head.pic,
        flags: flags(coded, stream, certified),
        forward: link_or_zeros(stream.forward),
        backward: link_or_zeros(stream.backward),
        n1: stream.unit.zeros as u32,
        n2: zeros_behind_end(&stream.unit) as u32,
        context: stream.context,
        prefix: stream.unit.prefix,
        head: stream.unit.head,
    }
}

fn flags(coded: &Coded<'_>, stream: &StreamParts<'_>, certified: bool) -> u8
    requires recordable { is_recordable (lent_parts coded.now stream.now) ≡ true }
    requires returned { certified ≡ returns_slices (lent_parts coded.now stream.now) }
    ensures { result ≡ flags_of (lent_parts coded.now stream.now) }
{
    flag(certified, 1)
        + flag(uses_forward(coded.head.pic, coded.decisions), 2)
        + flag(stream.forward.is_some(), 4)
        + flag(stream.backward.is_some(), 8)
        + flag(stream.unit.end.is_some(), 16)
}

/// A bit of the flags.
fn flag(set: bool, value: u8) -> u8
    ensures value { result ≡ flag set value }
    ensures size { result ≤ value }
{
    if set { value } else { 0 }
}

/// How many macroblocks the frame of the picture has.
fn frame_macroblocks(head: &Head) -> usize
    ensures { result ≡ frame_macroblocks head.now }
{
    usize::from(head.mb_wide) * frame_rows(head)
}

/// How many rows of macroblocks the frame has: a field has half of them.
fn frame_rows(head: &Head) -> usize
    ensures value { result ≡ frame_rows head.now }
    ensures bound { result < 131072 }
{
    match head.structure {
        Structure::Frame => usize::from(head.mb_high),
        _ => 2 * usize::from(head.mb_high),
    }
}

/// The zero bytes behind the end code, none where there is no end code.
fn zeros_behind_end(unit: &UnitParts<'_>) -> u64
    ensures { result ≡ zeros_behind_end (lent_unit unit.now) }
{
    unit.end.unwrap_or(0)
}

/// Whether the sheet of so many macroblocks has room for parts of these lengths.
fn has_room(macroblocks: usize, context: usize, prefix: usize, head: usize) -> bool
    ensures { result ≡ nat_le (118 + context + prefix + head) (12 * macroblocks) }
{
    fits(macroblocks, context, prefix, head)
}

/// The bytes of a link: zeros where there is none.
fn link_or_zeros(link: Option<[u8; 32]>) -> [u8; 32]
    ensures { result ≡ unwrap_or link no_seal }
{
    link.unwrap_or([0; 32])
}
