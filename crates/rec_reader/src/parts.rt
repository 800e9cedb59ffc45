//! What is found in a frame, taken out part by part.
ghost use Rattle.std.specs.Prelude.{◌≡◌, ◌↔◌, ◌≤◌, ◌*◌, true, length, is_some, IfSome, IsTrue, MatchOption};
ghost use Rattle.mv_terms.specs.Ranges.{IsContext, IsHead};
ghost use Rattle.rec_bury.specs.Seals.{SealHolds};
ghost use Rattle.rec_legal.specs.Conditions.{file_size};
ghost use Rattle.rec_legal.specs.Found.{found};
ghost use Rattle.rec_reader.specs.Room.{file_macroblocks};
ghost use Rattle.rec_reader.specs.Steps.{AreFound};

use mv_terms::{Context, Decision, FrameHeader, Head};
use rec_bury::{exhume, seal_holds};
use rec_legal::{found_law, legal};

/// What is found beside the sheet and the decisions.
#[derive(Clone, Copy)]
pub(crate) struct Parts {
    pub(crate) context: Context,
    pub(crate) head: Head,
    pub(crate) seal: [u8; 32],
}

/// Takes out the slots and the sheet of a frame, and reads the decisions, where they are a record whose seal holds. The
/// seal is looked at last, since most frames without a record are told by the first bytes of their sheet; and not at all
/// where a record is known to be there.
pub(crate) fn find_parts(
    file: &FrameHeader,
    frame: &[u8],
    slots: &mut [u8],
    sheet: &mut [u8],
    decisions: &mut [Decision],
    is_known: bool,
) -> Option<Parts>
    requires frame { length frame.now ≡ 768 * file_macroblocks file.now }
    requires slots { length slots.old ≡ 20 * file_macroblocks file.now }
    requires sheet { length sheet.old ≡ 12 * file_macroblocks file.now }
    requires decisions { length decisions.old ≡ file_macroblocks file.now }
    requires known { is_known ≡ true → is_some (found (file_size file.now) frame.now) ≡ true }
    ensures found { MatchOption result (found (file_size file.now) frame.now ≡ None)
        (λ parts. AreFound file.now frame.now sheet.new decisions.new parts) }
    ensures legal { IfSome result (λ parts. IsContext parts.context × IsHead parts.head) }
{
    found_law();
    let wide = file.wide / 16;
    let high = file.high / 16;
    exhume(frame, wide, high, slots, sheet);
    let record = legal(slots, sheet, file, decisions)?;
    if !holds(frame, wide, high, is_known) {
        return None;
    }
    Some(Parts {
        context: record.context,
        head: record.head,
        seal: record.seal,
    })
}

/// Whether the seal of a frame holds, which isn't looked at where that is known.
fn holds(frame: &[u8], wide: u16, high: u16, is_known: bool) -> bool
    requires size { length frame.now ≡ 768 * (wide * high) }
    requires sheet { 32 ≤ 12 * (wide * high) }
    requires known { is_known ≡ true → SealHolds wide high frame.now }
    ensures { IsTrue result ↔ SealHolds wide high frame.now }
{
    is_known || seal_holds(frame, wide, high)
}
