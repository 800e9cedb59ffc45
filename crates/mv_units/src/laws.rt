//! Laws of what the specs define, for crates above.
ghost use Rattle.mv_units.specs.Profile.{EachStreamIsJudgedOnce, MoreRoomIsFree};
ghost use Rattle.mv_units.specs.Units.{OpenStreamsShowMore, UnitsWithinNeverFall};
ghost use Rattle.mv_units.specs.Written.{StreamsAreCutWhole, UnitsHaveShape, WrittenUnitsAreCut};

use mv_slices::slices_law;

/// The bytes of its units are the stream, up to the first refused one.
pub fn cut_whole_law()
    ensures { StreamsAreCutWhole }
{}

/// The units of a stream have the shape of units.
pub fn shape_law()
    ensures { UnitsHaveShape }
{}

/// The bytes of units of that shape are cut into these units.
pub fn written_law()
    ensures { WrittenUnitsAreCut }
{}

/// The units that the bytes of a stream show so far are the first ones of it, whatever comes.
pub fn open_stream_law()
    ensures { OpenStreamsShowMore }
{}

/// The more bytes of a stream, the more of its units are whole within them.
pub fn units_within_law()
    ensures { UnitsWithinNeverFall }
{}

/// Each stream is judged in one way.
pub fn judged_once_law()
    ensures { EachStreamIsJudgedOnce }
{
    // for the proof: slices are coded in one way, or refused for one reason
    slices_law();
}

/// A stream no unit of which is refused is judged alike in any room that it fits.
pub fn more_room_law()
    ensures { MoreRoomIsFree }
{}
