//! Laws of what is written for steps, for crates above.
ghost use Rattle.enc_stream.specs.Stream.{FramesAreShown, FramesAreStream, NoStepsAreNothing, StepsAreShown, StepsAreStream, StepsHaveTheirPictures, StreamsAreInProfile};

use enc_fresh::{decisions_law, headers_law};
use enc_glue::{joined_law, parts_law};
use plan_window::steps_law;
use rec_legal::coded_law;
use rec_reader::right_law;

/// What is written for the frames of a file, whatever their records say, is a stream in the profile, and it decodes to the
/// pictures of the steps, which are shown in the order of the frames.
pub fn stream_law()
    ensures stream { StepsAreStream }
    ensures nothing { NoStepsAreNothing }
    ensures pictures { StepsHaveTheirPictures }
    ensures shown { StepsAreShown }
    ensures frames { FramesAreStream }
    ensures frames_shown { FramesAreShown }
    ensures profile { StreamsAreInProfile }
{
    // for the proof: of fresh headers and decisions, of units that are written one behind the other, of steps of a plan, of
    // records that are found, and of pictures that are coded by them
    headers_law();
    decisions_law();
    parts_law();
    joined_law();
    steps_law();
    right_law();
    coded_law();
}
