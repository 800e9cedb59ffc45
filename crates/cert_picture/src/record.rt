//! The record of a picture: its slots and its sheet, in room that is lent for them.
ghost use Rattle.std.specs.Prelude.{◌≡◌, ◌+◌, ◌*◌, ◌≤◌, ◌++◌, true, length, take};
ghost use Rattle.mv_terms.specs.CodedPicture.{frame_macroblocks};
ghost use Rattle.cert_picture.specs.Lent.{lent_parts};
ghost use Rattle.cert_picture.specs.Records.{is_recordable, no_seal, returns_slices, sheet_with, slots_of};

use crate::frame::StreamParts;
use crate::recorded::sheet_for;
use mv_planes::Coded;
use mv_terms::Decision;
use rec_sheet::write_sheet;
use rec_slot::slot_bytes;

/// Writes the slots of a picture that has a record, and its sheet with zeros in place of the seal. It is certified
/// where its slices come back.
pub(crate) fn write_record(
    coded: &Coded<'_>,
    stream: &StreamParts<'_>,
    certified: bool,
    slots: &mut Vec<u8>,
    sheet: &mut Vec<u8>,
)
    requires recordable { is_recordable (lent_parts coded.now stream.now) ≡ true }
    requires returned { certified ≡ returns_slices (lent_parts coded.now stream.now) }
    requires decisions { length coded.now.decisions.now
        ≡ frame_macroblocks coded.now.head.now }
    requires slots { length slots.old.items ≡ 20 * frame_macroblocks coded.now.head.now }
    requires sheet { length sheet.old.items ≡ 12 * frame_macroblocks coded.now.head.now }
    ensures slots { slots.new.items ≡ slots_of coded.now.decisions.now }
    ensures sheet { sheet.new.items ≡ sheet_with (lent_parts coded.now stream.now) no_seal }
    ensures slots_size { length slots.new.items ≡ 20 * frame_macroblocks coded.now.head.now }
    ensures sheet_size { length sheet.new.items ≡ 12 * frame_macroblocks coded.now.head.now }
{
    write_slots(coded.decisions, slots);
    write_sheet(&sheet_for(coded, stream, certified), sheet);
}

/// Writes the slots of all macroblocks, one behind the other.
fn write_slots(decisions: &[Decision], to: &mut [u8])
    requires { length to.old ≡ 20 * length decisions.now }
    ensures { to.new ≡ slots_of decisions.now }
{
    'macroblocks: for k in 0..decisions.len() {
        put(to, 20 * k, &slot_bytes(&decisions[k]));
    }
}

/// Copies a piece to a place.
pub(crate) fn put(to: &mut [u8], at: usize, piece: &[u8])
    requires { at + length piece.now ≤ length to.old }
    ensures { take (at + length piece.now) to.new ≡ take at to.old ++ piece.now }
{
    'bytes: for i in 0..piece.len() {
        to[at + i] = piece[i];
    }
}
