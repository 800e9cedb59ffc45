//! The sheet, its seal and the decisions in the bytes of a frame.
ghost use Rattle.std.specs.Prelude.{◌≡◌, ◌-◌, ◌*◌, ◌≤◌, length, drop, option_map, IfSome};
ghost use Rattle.rec_slot.specs.Slot.{IsHeld};
ghost use Rattle.rec_sheet.specs.Sheets.{lent_sheet};
ghost use Rattle.rec_legal.specs.Said.{decision_said, decisions_said, sheet_said};
ghost use Rattle.rec_legal.specs.Steps.{AreTwoSelects, AreTwoVectors, HasSmallComponents};

use mv_terms::{Decision, Vector};
use rec_sheet::{Sheet, read_sheet};
use rec_slot::{read_slot, slot_law};

/// What these bytes say, where they are a sheet.
pub(crate) fn read_sheet_of(bytes: &[u8]) -> Option<Sheet<'_>>
    ensures said { option_map (λ s. lent_sheet s) result ≡ sheet_said bytes.now }
    ensures room { IfSome result (λ _. 118 ≤ length bytes.now) }
{
    read_sheet(bytes)
}

/// The seal at the end of a sheet.
pub(crate) fn last_seal(sheet: &[u8]) -> [u8; 32]
    requires { 32 ≤ length sheet.now }
    ensures { result ≡ drop (length sheet.now - 32) sheet.now }
{
    let mut seal = [0; 32];
    seal.copy_from_slice(&sheet[sheet.len() - 32..]);
    seal
}

/// Reads the decisions that these are the slots of. Where there are none, the decisions hold anything.
pub(crate) fn read_decisions(slots: &[u8], decisions: &mut [Decision]) -> Option<()>
    requires { length slots.now ≡ 20 * length decisions.old }
    ensures value { option_map (λ _. decisions.new) result
        ≡ decisions_said (length decisions.old) slots.now }
    ensures size { length decisions.new ≡ length decisions.old }
{
    let mut rest = slots;
    'slots: for i in 0..decisions.len() {
        let (slot, later) = rest.split_at(20);
        let Some(decision) = read_decision(slot) else {
            return None;
        };
        decisions[i] = decision;
        rest = later;
    }
    Some(())
}

/// The decision that these bytes are the slot of.
fn read_decision(slot: &[u8]) -> Option<Decision>
    requires { length slot.now ≡ 20 }
    ensures { result ≡ decision_said slot.now }
{
    slot_law();
    let mut bytes = [0; 20];
    bytes.copy_from_slice(slot);
    match read_slot(&bytes) {
        Some(decision) => {
            is_held(&decision);
            Some(decision)
        }
        None => None,
    }
}

/// A decision in memory has two selects and two vectors in each direction, with components of 16 bits, and one dmvector.
fn is_held(decision: &Decision)
    ensures { IsHeld decision.now }
{
    are_two_selects(&decision.selects[0]);
    are_two_selects(&decision.selects[1]);
    are_two_vectors(&decision.vectors[0]);
    are_two_vectors(&decision.vectors[1]);
}

fn are_two_selects(selects: &[bool; 2])
    ensures { AreTwoSelects selects.now }
{}

fn are_two_vectors(vectors: &[Vector; 2])
    ensures { AreTwoVectors vectors.now }
{
    has_small_components(vectors[0]);
    has_small_components(vectors[1]);
}

fn has_small_components(v: Vector)
    ensures { HasSmallComponents v }
{}
