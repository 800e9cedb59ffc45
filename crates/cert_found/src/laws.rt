//! What is proved of the frames of accepted units.
ghost use Rattle.cert_found.specs.RecordLaw.{OthersHaveNone, RecordIsFound};

use mv_slices::legal_law;
use rec_bury::bury_law;
use rec_legal::found_law;

/// In the frame of an accepted unit its record is found, and none where it has none.
pub fn record_law()
    ensures found { RecordIsFound }
    ensures none { OthersHaveNone }
{
    // for the proof: what is read is legal, a frame carries its record and its seal, and what meets all conditions is
    // found
    legal_law();
    bury_law();
    cert_picture::record_law();
    found_law();
}
