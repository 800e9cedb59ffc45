//! A law of found records, for crates above.
ghost use Rattle.rec_reader.specs.Right.{FoundIsRight};

use rec_legal::found_law;

/// A picture can be coded by each record that is found.
pub fn right_law()
    ensures { FoundIsRight }
{
    // for the proof: what is found meets all conditions
    found_law();
}
