//! Laws of the definitions, for the proofs of crates above.
ghost use Rattle.rec_bury.specs.Laws.{BuriedComesBack, SealIsOfZeros, ZerosAreUnrecorded};

/// What is buried comes back; the seal of a frame is that of the frame with zeros in its place; with zeros buried, a
/// frame is one without recoding data.
pub fn bury_law()
    ensures back { BuriedComesBack }
    ensures seal { SealIsOfZeros }
    ensures plain { ZerosAreUnrecorded }
{}
