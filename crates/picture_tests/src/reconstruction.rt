//! `mv_recon`: pictures whose samples were added up outside, in whole numbers.
ghost use Rattle.std.specs.Prelude.{true, false, ◌≡◌, ◌+◌, ◌*◌, ◌≤◌, IfOk};
ghost use Rattle.mv_planes.specs.Planes.{IsInside};
ghost use Rattle.mv_terms.specs.Ranges.{HasLegalScales};
ghost use Rattle.mv_vectors.specs.Predictable.{AllCanBeReconstructed};

use crate::comparison::same;
use crate::fixtures::{I_HEAD, samples_but};
use mv_planes::{Picture, Plane, RefPair};
use mv_recon::reconstruct;
use mv_terms::{Decision, Head, MacroLevels, Matrices, NoMemory, PicType};
use std::alloc::Global;
use std::process::Abort;
use std::test::Fail;

fn decision(field_dct: bool) -> Decision
    ensures intra { result.intra ≡ true }
    ensures scales { HasLegalScales result }
{
    Decision {
        intra: true,
        field_dct,
        scale: 6,
        head_scale: 6,
        ..Decision::NONE
    }
}

/// The decision of a macroblock of a P picture that is coded without a vector.
fn still() -> Decision
    ensures intra { result.intra ≡ false }
    ensures directions { (result.forward ≡ false) × (result.backward ≡ false) }
    ensures motion { result.field_motion ≡ false }
    ensures scales { HasLegalScales result }
{
    Decision {
        scale: 8,
        head_scale: 8,
        ..Decision::NONE
    }
}

/// The head of two macroblocks beside each other: precision 1, linear scales, and an intra matrix of 16 with one 40.
fn head(pic: PicType) -> Head
    ensures pic { result.pic ≡ pic }
    ensures size { (result.mb_wide ≡ 2) × (result.mb_high ≡ 1) }
    ensures precision { result.dc_precision ≤ 3 }
{
    let mut matrix = [16; 64];
    matrix[10] = 40;
    Head {
        pic,
        dc_precision: 1,
        frame_only: false,
        mb_wide: 2,
        mb_high: 1,
        matrices: Matrices {
            intra: matrix,
            non_intra: [16; 64],
        },
        ..I_HEAD
    }
}

/// A picture whose samples fall by 28 from column to column and rise by 6 from line to line, by eight of each in luma.
fn sloping(alloc: Global) -> Result<Picture, NoMemory>
    ensures { IfOk result (λ p. (p.mb_wide ≡ 2) × (p.mb_high ≡ 1)) }
{
    let mut pic = Picture::grey(alloc, 2, 1)?;
    let mut place = 0u64;
    for sample in pic.samples_mut() {
        *sample = (200 + place / 32 % 8 * 6 - place % 8 * 28) as u8;
        place = place.wrapping_add(1);
    }
    Ok(pic)
}

/// The picture of these macroblocks, with a sloping picture for its references.
fn reconstructed(
    alloc: Global,
    head: &Head,
    decisions: &[Decision; 2],
    levels: &[MacroLevels; 2],
) -> Result<Picture, NoMemory>
    requires size { (head.now.mb_wide ≡ 2) × (head.now.mb_high ≡ 1) }
    requires precision { head.now.dc_precision ≤ 3 }
    requires decisions { AllCanBeReconstructed head.now decisions.now }
    ensures { IfOk result (λ p. (p.mb_wide ≡ 2) × (p.mb_high ≡ 1)) }
{
    let reference = sloping(alloc)?;
    let refs = RefPair {
        forward: &reference,
        backward: &reference,
    };
    let mut to = Picture::grey(alloc, 2, 1)?;
    reconstruct(head, decisions, levels, &refs, &mut to);
    Ok(to)
}

/// The picture of two intra macroblocks.
fn intra(alloc: Global, field_dct: bool, levels: &[MacroLevels; 2]) -> Result<Picture, NoMemory>
    ensures { IfOk result (λ p. (p.mb_wide ≡ 2) × (p.mb_high ≡ 1)) }
{
    let decisions = [decision(field_dct), decision(field_dct)];
    reconstructed(alloc, &head(PicType::I), &decisions, levels)
}

/// Compares an 8x8 part of the picture with its samples in raster order.
fn check_part(
    rt: &impl Abort,
    pic: &Picture,
    plane: Plane,
    x: usize,
    y: usize,
    step: usize,
    expected: &[u8; 64],
)
    requires step { step ≤ 2 }
    requires x { x ≤ 64 }
    requires y { y ≤ 64 }
    requires inside { IsInside pic.now plane (x + 7) (y + 7 * step) }
{
    let part = pic.block8(plane, x, y, step);
    for row in 0..8 {
        for col in 0..8 {
            assert_eq!(rt; part.get(row, col), expected[8 * row + col]);
        }
    }
}

#[test]
fn a_first_level_alone_gives_a_flat_block_in_its_own_plane(rt: HostRuntime) -> Result<(), Fail> {
    let mut levels = [MacroLevels::NONE; 2];
    levels[0].blocks[1][0] = 256;
    levels[1].blocks[4][0] = 100;
    levels[1].blocks[5][0] = 511;
    let pic = intra(rt.alloc(), false, &levels)?;
    check_part(&rt, &pic, Plane::Y, 8, 0, 1, &[128; 64]);
    check_part(&rt, &pic, Plane::Cb, 8, 0, 1, &[50; 64]);
    check_part(&rt, &pic, Plane::Cr, 8, 0, 1, &[255; 64]);
    for plane in [Plane::Y, Plane::Cb, Plane::Cr] {
        same(&rt, &samples_but(&pic, plane, 0), &64);
    }
    Ok(())
}

/// A block of the first level 230 and the level 25 at row 1 and column 2, added up in whole numbers.
#[rattlefmt::skip]
const WAVE: [u8; 64] = [
    255, 185,  45,   0,   0,  45, 185, 255,
    255, 175,  55,   0,   0,  55, 175, 255,
    211, 155,  75,  19,  19,  75, 155, 211,
    149, 129, 101,  81,  81, 101, 129, 149,
     81, 101, 129, 149, 149, 129, 101,  81,
     19,  75, 155, 211, 211, 155,  75,  19,
      0,  55, 175, 255, 255, 175,  55,   0,
      0,  45, 185, 255, 255, 185,  45,   0,
];

fn wave() -> [MacroLevels; 2] {
    let mut levels = [MacroLevels::NONE; 2];
    levels[1].blocks[2][0] = 230;
    levels[1].blocks[2][10] = 25;
    levels
}

#[test]
fn a_block_of_frame_lines_stands_in_eight_lines_in_a_row(rt: HostRuntime) -> Result<(), Fail> {
    let pic = intra(rt.alloc(), false, &wave())?;
    check_part(&rt, &pic, Plane::Y, 16, 8, 1, &WAVE);
    same(&rt, &samples_but(&pic, Plane::Y, 0), &56);
    Ok(())
}

#[test]
fn a_block_of_field_lines_stands_in_every_other_line(rt: HostRuntime) -> Result<(), Fail> {
    let pic = intra(rt.alloc(), true, &wave())?;
    check_part(&rt, &pic, Plane::Y, 16, 1, 2, &WAVE);
    same(&rt, &samples_but(&pic, Plane::Y, 0), &56);
    Ok(())
}

/// The levels 9, 20 and −14 on the slope of the reference: what they add reaches from −90 to 128.
#[rattlefmt::skip]
const SLOPE: [u8; 64] = [
    223, 217, 217, 199, 148,  69,   0,   0,
    237, 227, 220, 197, 146,  71,   0,   0,
    255, 239, 220, 188, 138,  71,   3,   0,
    255, 253, 217, 175, 124,  69,  16,   0,
    255, 255, 215, 160, 109,  66,  31,   1,
    255, 255, 213, 147,  96,  65,  45,  26,
    255, 255, 213, 138,  87,  64,  57,  47,
    255, 255, 215, 136,  85,  67,  67,  61,
];

#[test]
fn prediction_and_residual_together_pass_both_ends(rt: HostRuntime) -> Result<(), Fail> {
    let mut levels = [MacroLevels::NONE; 2];
    levels[0].blocks[0][0] = 9;
    levels[0].blocks[0][1] = 20;
    levels[0].blocks[0][10] = -14;
    let decisions = [still(), decision(false)];
    let pic = reconstructed(rt.alloc(), &head(PicType::P), &decisions, &levels)?;
    check_part(&rt, &pic, Plane::Y, 0, 0, 1, &SLOPE);
    same(&rt, &pic.sample(Plane::Y, 8, 0), &200);
    same(&rt, &pic.sample(Plane::Y, 15, 7), &46);
    same(&rt, &pic.sample(Plane::Cb, 7, 0), &4);
    same(&rt, &pic.sample(Plane::Y, 16, 0), &0);
    Ok(())
}

/// The first level 201, by mismatch control with a last coefficient of 1 beside it.
#[rattlefmt::skip]
const HALF: [u8; 64] = [
    100, 100, 101, 100, 101, 100, 101, 100,
    100, 101, 100, 101, 100, 101, 100, 101,
    101, 100, 101, 100, 101, 100, 101, 100,
    100, 101, 100, 101, 100, 101, 100, 101,
    101, 100, 101, 100, 101, 100, 101, 100,
    100, 101, 100, 101, 100, 101, 100, 101,
    101, 100, 101, 100, 101, 100, 101, 100,
    100, 101, 100, 101, 100, 101, 100, 100,
];

#[test]
fn a_first_level_that_is_no_whole_sample_takes_the_transform(rt: HostRuntime) -> Result<(), Fail> {
    let mut levels = [MacroLevels::NONE; 2];
    levels[0].blocks[0][0] = 201;
    let pic = intra(rt.alloc(), false, &levels)?;
    check_part(&rt, &pic, Plane::Y, 0, 0, 1, &HALF);
    Ok(())
}
