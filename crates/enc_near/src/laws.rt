//! What is proved of the definitions of this crate.

ghost use Rattle.enc_near.specs.Blocks.{NearestBlockIsNear, ErrorIsWithinSimple};
ghost use Rattle.enc_near.specs.Pictures.{IntraPartIsNear, PartIsNear, UniformIsNear};
ghost use Rattle.enc_near.specs.Frames.{DefaultIsFine, FreshStepIsNear, FreshFramesAreNear, GuidedFramesAreNear, GuidedStepIsNear};

use enc_fresh::decisions_law;
use mv_settled::settling_law;
use rec_legal::coded_law;
use rec_reader::right_law;

/// A block of nearest levels decodes to samples near those of its source, and a simpler bound for an intra block is no
/// sharper.
pub fn block_law()
    ensures block { NearestBlockIsNear }
    ensures simple { ErrorIsWithinSimple }
{}

/// So do all blocks of a picture, whatever it is predicted from.
pub fn picture_law()
    ensures intra { IntraPartIsNear }
    ensures part { PartIsNear }
    ensures uniform { UniformIsNear }
{}

/// What a frame that is coded anew decodes to is near the frame.
pub fn fresh_law()
    ensures step { FreshStepIsNear }
    ensures frames { FreshFramesAreNear }
    ensures default { DefaultIsFine }
{
    // for the proof: fresh decisions are settled
    decisions_law();
}

/// What a frame that is coded by its record decodes to is near the frame, whatever its references have become.
pub fn guided_law()
    ensures step { GuidedStepIsNear }
    ensures frames { GuidedFramesAreNear }
{
    // for the proof: settled decisions decode to the same picture, and records that are found are legal
    settling_law();
    right_law();
    coded_law();
}
