//! Laws of the definitions, for the proofs of crates above.
ghost use Rattle.rec_slot.specs.Slot.{WrittenIsASlot, OneDecision};

/// What is written is a slot, of that decision and no other: so it is read back.
pub fn slot_law()
    ensures written { WrittenIsASlot }
    ensures one { OneDecision }
{}
