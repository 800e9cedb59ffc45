//! `cert_requant`: a macroblock whose levels were computed from the formulas outside, by trying all of them.
ghost use Rattle.std.specs.Prelude.{true, false, ◌≡◌, ◌≤◌, ◌∷◌, [], IfOk};
ghost use Rattle.mv_terms.specs.Ranges.{HasLegalScales};
ghost use Rattle.mv_vectors.specs.Predictable.{AllCanBeReconstructed};

use crate::fixtures::I_HEAD;
use cert_requant::requantise;
use mv_planes::{Picture, RefPair};
use mv_terms::{Decision, Head, MacroLevels, NoMemory, PicType};
use std::alloc::Global;
use std::process::Abort;
use std::test::Fail;

/// A head of one macroblock: precision 0, linear scales, and matrices of 16.
const HEAD: Head = Head {
    pic: PicType::P,
    frame_only: false,
    mb_wide: 1,
    mb_high: 1,
    ..I_HEAD
};

/// Intra, by field lines.
const INTRA: Decision = Decision {
    intra: true,
    field_dct: true,
    scale: 8,
    head_scale: 8,
    ..Decision::NONE
};

/// Of a P picture, without a vector, by frame lines.
const STILL: Decision = Decision {
    scale: 8,
    head_scale: 8,
    ..Decision::NONE
};

/// Luma samples rise by 4 from column to column and by 8 from line to line.
fn rising(alloc: Global) -> Result<Picture, NoMemory>
    ensures { IfOk result (λ p. (p.mb_wide ≡ 1) × (p.mb_high ≡ 1)) }
{
    let mut pic = Picture::grey(alloc, 1, 1)?;
    let mut place = 0u64;
    for sample in pic.samples_mut() {
        *sample = (place / 16 % 16 * 8 + place % 16 * 4) as u8;
        place = place.wrapping_add(1);
    }
    Ok(pic)
}

/// The levels of this macroblock, with a grey picture for its references.
fn levels_by(alloc: Global, decision: Decision) -> Result<MacroLevels, NoMemory>
    requires { AllCanBeReconstructed HEAD (decision ∷ []) }
{
    let source = rising(alloc)?;
    let grey = Picture::grey(alloc, 1, 1)?;
    let refs = RefPair {
        forward: &grey,
        backward: &grey,
    };
    let mut levels = [MacroLevels {
        blocks: [[7; 64]; 6],
    }];
    requantise(&HEAD, &[decision], &source, &refs, &mut levels);
    Ok(levels[0])
}

// A block of these levels and zeros, at the places 0, 1, 8, 24 and 40.
fn block_of(levels: [i16; 5]) -> [i16; 64] {
    let mut block = [0; 64];
    block[0] = levels[0];
    block[1] = levels[1];
    block[8] = levels[2];
    block[24] = levels[3];
    block[40] = levels[4];
    block
}

/// The first and the last block of luma have these levels.
fn has_blocks(rt: &impl Abort, levels: &MacroLevels, first: [i16; 5], last: [i16; 5]) {
    assert_eq!(rt; levels.blocks[0], block_of(first));
    assert_eq!(rt; levels.blocks[3], block_of(last));
}

#[test]
fn an_intra_macroblock_by_field_lines(rt: HostRuntime) -> Result<(), Fail> {
    let levels = levels_by(rt.alloc(), INTRA)?;
    has_blocks(&rt, &levels, [70, -5, -18, -2, -1], [110, -5, -18, -2, -1]);
    Ok(())
}

#[test]
fn a_macroblock_without_a_vector(rt: HostRuntime) -> Result<(), Fail> {
    let levels = levels_by(rt.alloc(), STILL)?;
    has_blocks(&rt, &levels, [-42, -4, -9, -1, 0], [4, -4, -9, -1, 0]);
    Ok(())
}
