//! What is proved of the definitions of this crate.
ghost use Rattle.cert_picture.specs.FrameFileOf.{DueGrows, FileIsDueAndHeld, FramesHavePictures};
ghost use Rattle.cert_picture.specs.RecordLaws.{CertifiedComesFromSamples, FlagTellsCertified, OnlyRecordIsFound, PictureComesBack, RecordComesBack};

use cert_requant::requantised_law;
use mv_slices::read_back_law;
use rec_bury::bury_law;
use rec_sheet::sheet_law;

/// The frame file of units is what is due as soon as they came, and then the frame that is held.
pub fn file_law()
    ensures { FileIsDueAndHeld }
{}

/// What is due to units stays at the front of what is due to more.
pub fn due_law()
    ensures { DueGrows }
{}

/// The pictures of frames are those that the units' coded pictures decode to.
pub fn pictures_law()
    ensures { FramesHavePictures }
{}

/// A frame is a source of its picture, and carries its record and no other: the slots, the sheet and a seal that holds,
/// with the first flag set exactly where the picture is certified.
pub fn record_law()
    ensures picture { PictureComesBack }
    ensures recorded { RecordComesBack }
    ensures only { OnlyRecordIsFound }
    ensures flag { FlagTellsCertified }
{
    // for the proof: what is buried comes back, and a sheet is read as what was written
    bury_law();
    sheet_law();
}

/// The levels of a picture whose slices come back are those nearest to what it decodes to, and its decisions are
/// settled.
pub fn certified_law()
    ensures { CertifiedComesFromSamples }
{
    // for the proof: the levels of any source can be coded, and canonical slices tell what they code
    requantised_law();
    read_back_law();
}
