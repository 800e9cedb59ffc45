//! The record that a frame has.
ghost use Rattle.std.specs.Prelude.{◌≡◌, ◌*◌, ◌/◌, length, option_map, IfSome, MatchOption};
ghost use Rattle.mv_terms.specs.Ranges.{IsContext, IsHead};
ghost use Rattle.rec_sheet.specs.Sheets.{lent_sheet};
ghost use Rattle.rec_legal.specs.FoundRecord.{FoundRecord};
ghost use Rattle.rec_legal.specs.Conditions.{IsSaid, file_size};
ghost use Rattle.rec_legal.specs.Tests.{are_legal, has_legal_flags, has_legal_prefix};
ghost use Rattle.rec_legal.specs.Said.{can_be_coded, said};
ghost use Rattle.rec_legal.specs.Lent.{lent_record};

use crate::decisions::are_legal;
use crate::flags::has_legal_flags;
use crate::headers::{has_legal_prefix, read_context_of, read_head_of};
use crate::parts::{last_seal, read_decisions, read_sheet_of};
use mv_terms::{Context, Decision, FrameHeader, Head};
use rec_sheet::Sheet;
use rec_slot::slot_law;

/// The record of a frame, but for its decisions.
#[derive(Clone, Copy)]
pub struct Record<'a> {
    pub sheet: Sheet<'a>,
    /// What the context in the sheet says.
    pub context: Context,
    /// What the head in the sheet says under this context.
    pub head: Head,
    /// The seal of the frame.
    pub seal: [u8; 32],
}

/// The record that the slots and the sheet of a frame say, in a file with this header, and its decisions, where a picture
/// can be coded by them; else None, and then the decisions hold anything.
///
/// Whether the seal holds isn't looked at: where it does, this is the record of the frame.
pub fn legal<'a>(
    slots: &[u8],
    sheet: &'a [u8],
    file: &FrameHeader,
    decisions: &mut [Decision],
) -> Option<Record<'a>>
    requires slots { length slots.now ≡ 20 * length decisions.old }
    requires size { length decisions.old ≡ file.now.wide / 16 * (file.now.high / 16) }
    ensures said { option_map (λ r. lent_record r decisions.new) result
        ≡ said (file_size file.now) slots.now sheet.now }
    ensures meaning { MatchOption result
        ((r : FoundRecord) → IsSaid (file_size file.now) slots.now sheet.now r → ⊥)
        (λ r. IsSaid (file_size file.now) slots.now sheet.now (lent_record r decisions.new)) }
    ensures legal { IfSome result (λ r. IsContext r.context × IsHead r.head) }
    ensures size { length decisions.new ≡ length decisions.old }
{
    slot_law();
    read_record(slots, sheet, file, decisions)
}

/// Reads the record part by part, up to the first one that isn't legal.
#[tactic(auto, unfolding(crate::specs::Said::said))]
fn read_record<'a>(
    slots: &[u8],
    bytes: &'a [u8],
    file: &FrameHeader,
    decisions: &mut [Decision],
) -> Option<Record<'a>>
    requires slots { length slots.now ≡ 20 * length decisions.old }
    requires size { length decisions.old ≡ file.now.wide / 16 * (file.now.high / 16) }
    ensures said { option_map (λ r. lent_record r decisions.new) result
        ≡ said (file_size file.now) slots.now bytes.now }
    ensures legal { IfSome result (λ r. IsContext r.context × IsHead r.head) }
    ensures size { length decisions.new ≡ length decisions.old }
{
    let sheet = read_sheet_of(bytes)?;
    let context = read_context_of(&sheet, file)?;
    let head = read_head_of(&sheet, &context)?;
    read_decisions(slots, decisions)?;
    if !can_be_coded(&sheet, &head, decisions) {
        return None;
    }
    Some(Record {
        sheet,
        context,
        head,
        seal: last_seal(bytes),
    })
}

/// Whether the prefix, the flags and the decisions are legal.
fn can_be_coded(sheet: &Sheet<'_>, head: &Head, decisions: &[Decision]) -> bool
    requires head { IsHead head.now }
    requires size { length decisions.now ≡ head.now.mb_wide * head.now.mb_high }
    ensures { result ≡ can_be_coded (lent_sheet sheet.now) head.now decisions.now }
{
    has_legal_prefix(sheet) && has_legal_flags(sheet, decisions) && are_legal(head, decisions)
}
