//! Whether the levels of a decoded picture are the nearest ones to its samples.
ghost use Rattle.std.specs.Prelude.{◌≡◌, ◌↔◌, ℕ, ◌+◌, ◌*◌, ◌^◌, ◌<◌, ◌≤◌, All, [], IsTrue, slice_index, slice_index_or};
ghost use Rattle.std.specs.Option.{ForSome};
ghost use Rattle.mv_terms.specs.Block.{entry};
ghost use Rattle.mv_terms.specs.Decisions.{block};
ghost use Rattle.mv_planes.specs.References.{references_lent};
ghost use Rattle.cert_requant.specs.Requantised.{requantised};
ghost use Rattle.cert_picture.specs.Steps.{HasByteReferences, IsDecodedFrom, IsFound, MacroblockStays, StandAlone, StaysFound, WasDecoded, block_samples};

use crate::nearest::{are_nearest, samples_of};
use crate::sure::{is_absent, size_alone, surely_stay};
use mv_planes::{Coded, Picture};
use mv_predict::{MacroSamples, predict};
use mv_quant::{Kind, kind_of};
use mv_terms::MacroLevels;

/// Whether the levels nearest to the samples of a decoded picture, less their prediction, are those that it was decoded
/// from. A macroblock is predicted and transformed only where that isn't clear from its levels and samples.
pub(crate) fn levels_stay(coded: &Coded<'_>) -> bool
    requires { WasDecoded coded.now }
    ensures { IsTrue result
        ↔ (requantised coded.now.head.now coded.now.decisions.now coded.now.picture.now
        (references_lent coded.now.refs) ≡ coded.now.levels.now) }
{
    // for the proof: the samples of the references are bytes
    are_bytes(coded.refs.forward.samples());
    are_bytes(coded.refs.backward.samples());
    'rows: for mb_y in 0..coded.head.mb_high {
        'macroblocks: for mb_x in 0..coded.head.mb_wide {
            if !macroblock_stays(coded, mb_x, mb_y) {
                return false;
            }
        }
    }
    true
}

// Says nothing but what the type says, for proofs.
fn are_bytes(samples: &[u8])
    ensures { (place : ℕ) → slice_index samples.now place ≤ 255 }
{
    let _count = samples.len();
}

fn macroblock_stays(coded: &Coded<'_>, mb_x: u16, mb_y: u16) -> bool
    requires decoded { WasDecoded coded.now }
    requires bytes { HasByteReferences coded.now }
    requires across { mb_x < coded.now.head.now.mb_wide }
    requires down { mb_y < coded.now.head.now.mb_high }
    ensures { IsTrue result
        ↔ MacroblockStays coded.now (mb_y * coded.now.head.now.mb_wide + mb_x) }
{
    let k = usize::from(mb_y) * usize::from(coded.head.mb_wide) + usize::from(mb_x);
    let decision = &coded.decisions[k];
    let levels = &coded.levels[k];
    let kind = kind_of(coded.head, decision);
    let (x, y) = (usize::from(mb_x), usize::from(mb_y));
    if all_surely_stay(coded.picture, decision.field_dct, x, y, levels, &kind) {
        return true;
    }
    let mut predicted = MacroSamples {
        blocks: [[0; 64]; 6],
    };
    predict(
        &coded.refs,
        coded.head,
        decision,
        mb_x,
        mb_y,
        &mut predicted,
    );
    all_are_found(
        coded.picture,
        decision.field_dct,
        x,
        y,
        &predicted,
        levels,
        &kind,
    )
}

// Whether the levels of a macroblock are surely the nearest ones, whatever its prediction was.
fn all_surely_stay(
    picture: &Picture,
    field_dct: bool,
    mb_x: usize,
    mb_y: usize,
    levels: &MacroLevels,
    kind: &Kind,
) -> bool
    requires across { mb_x < picture.now.mb_wide }
    requires down { mb_y < picture.now.mb_high }
    requires small { (mb_x < 2 ^ 16) × (mb_y < 2 ^ 16) }
    requires precision { kind.now.dc_precision ≤ 3 }
    ensures { IsTrue result → (b : ℕ) → b < 6 → StaysFound kind.now (block levels.now b)
        (block_samples picture.now field_dct mb_x mb_y b) }
{
    let size = size_alone(kind);
    'each: for b in 0..6 {
        if !block_stays(
            picture,
            field_dct,
            mb_x,
            mb_y,
            b,
            &levels.blocks[b],
            kind,
            size,
        ) {
            return false;
        }
    }
    true
}

// Whether those of a block surely are, where levels of this size stand alone.
fn block_stays(
    picture: &Picture,
    field_dct: bool,
    mb_x: usize,
    mb_y: usize,
    b: usize,
    levels: &[i16; 64],
    kind: &Kind,
    size: Option<u16>,
) -> bool
    requires b { b < 6 }
    requires across { mb_x < picture.now.mb_wide }
    requires down { mb_y < picture.now.mb_high }
    requires small { (mb_x < 2 ^ 16) × (mb_y < 2 ^ 16) }
    requires precision { kind.now.dc_precision ≤ 3 }
    requires alone { ForSome size (StandAlone kind.now) }
    ensures { IsTrue result → StaysFound kind.now levels.now
        (block_samples picture.now field_dct mb_x mb_y b) }
{
    if is_absent(levels, kind) {
        return true;
    }
    match size {
        None => false,
        Some(size) => surely_stay(
            &samples_of(picture, field_dct, mb_x, mb_y, b),
            levels,
            kind,
            size,
        ),
    }
}

// Whether the levels of a macroblock are the nearest ones by its prediction.
fn all_are_found(
    picture: &Picture,
    field_dct: bool,
    mb_x: usize,
    mb_y: usize,
    predicted: &MacroSamples,
    levels: &MacroLevels,
    kind: &Kind,
) -> bool
    requires across { mb_x < picture.now.mb_wide }
    requires down { mb_y < picture.now.mb_high }
    requires small { (mb_x < 2 ^ 16) × (mb_y < 2 ^ 16) }
    requires scale { (0 < kind.now.scale) × (kind.now.scale ≤ 112) }
    requires precision { kind.now.dc_precision ≤ 3 }
    requires matrix { All (λ w. 0 < w) kind.now.matrix }
    requires decoded { (b : ℕ) → b < 6 → IsDecodedFrom kind.now (block levels.now b)
        (entry (slice_index_or predicted.now.blocks b []))
        (block_samples picture.now field_dct mb_x mb_y b) }
    ensures { IsTrue result ↔ ((b : ℕ) → b < 6 → IsFound kind.now (block levels.now b)
        (entry (slice_index_or predicted.now.blocks b []))
        (block_samples picture.now field_dct mb_x mb_y b)) }
{
    'each: for b in 0..6 {
        let prediction = &predicted.blocks[b];
        if !block_is_found(
            picture,
            field_dct,
            mb_x,
            mb_y,
            b,
            prediction,
            &levels.blocks[b],
            kind,
        ) {
            return false;
        }
    }
    true
}

fn block_is_found(
    picture: &Picture,
    field_dct: bool,
    mb_x: usize,
    mb_y: usize,
    b: usize,
    prediction: &[i16; 64],
    levels: &[i16; 64],
    kind: &Kind,
) -> bool
    requires b { b < 6 }
    requires across { mb_x < picture.now.mb_wide }
    requires down { mb_y < picture.now.mb_high }
    requires small { (mb_x < 2 ^ 16) × (mb_y < 2 ^ 16) }
    requires scale { (0 < kind.now.scale) × (kind.now.scale ≤ 112) }
    requires precision { kind.now.dc_precision ≤ 3 }
    requires matrix { All (λ w. 0 < w) kind.now.matrix }
    requires decoded { IsDecodedFrom kind.now levels.now (entry prediction.now)
        (block_samples picture.now field_dct mb_x mb_y b) }
    ensures { IsTrue result ↔ IsFound kind.now levels.now (entry prediction.now)
        (block_samples picture.now field_dct mb_x mb_y b) }
{
    if is_absent(levels, kind) {
        return true;
    }
    let samples = samples_of(picture, field_dct, mb_x, mb_y, b);
    are_nearest(&samples, prediction, levels, kind)
}
