//! What is proved of plain readings (`specs/Laws.antt`).
ghost use Rattle.mv_slices.specs.CanonicalLaws.{OfLegalPictures};
ghost use Rattle.mv_spellings.specs.Laws.{AreCanonicalSlicesPlain, BlocksAreCanonical, ComponentsAreCanonical, DirectionsAreCanonical, MacroblocksAreCanonical, NoOthersArePlain, PlainBlocksAreRead, PlainComponentsAreRead, PlainMacroblocksAreRead};

/// Plain readings are readings with demands: what is read plainly is read.
pub fn reading_law()
    ensures components { PlainComponentsAreRead }
    ensures blocks { PlainBlocksAreRead }
    ensures macroblocks { PlainMacroblocksAreRead }
{}

/// The bits that are read plainly as a component of a vector, or as the selects and vectors of a direction, are their
/// canonical bits.
pub fn vector_law()
    ensures components { ComponentsAreCanonical }
    ensures directions { DirectionsAreCanonical }
{}

/// The bits that are read plainly as a block are the canonical bits of its levels.
pub fn block_law()
    ensures { BlocksAreCanonical }
{}

/// The bits that are read plainly as a macroblock behind its increment are its canonical bits.
pub fn macroblock_law()
    ensures { MacroblocksAreCanonical }
{}

/// The canonical slices of a legal picture meet the demands and are coded by its settled decisions and its levels, and
/// they are the only list of bytes of which this holds.
pub fn only_law()
    ensures plain { OfLegalPictures AreCanonicalSlicesPlain }
    ensures only { OfLegalPictures NoOthersArePlain }
{}
