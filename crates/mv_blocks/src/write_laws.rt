//! Laws of the blocks that are written.
ghost use Rattle.mv_blocks.specs.Written.{BlockIsBounded, BlockReadsBack, PairsGiveLevels, ReadLevelsAreLegal};

/// The runs and levels of a block are its levels, what is written of a block reads back and has no 23 zero bits in a
/// row, and levels that are read can be written.
pub fn written_law()
    ensures pairs { PairsGiveLevels }
    ensures blocks { BlockReadsBack }
    ensures bounded { BlockIsBounded }
    ensures legal { ReadLevelsAreLegal }
{}
