//! The levels of a picture anew, from its samples.
//! Its promise: `requantise` leaves for each macroblock the levels that come nearest to a source, by its decision and
//! its prediction.
//! The definitions stand in `specs/Requantised.antt`; `specs/Stays.antt` says which levels are found again in what was
//! decoded from them.
#![tactic(auto)]

ghost use Rattle.std.specs.Prelude.{◌≡◌, ◌<◌, ◌≤◌};
ghost use Rattle.mv_terms.specs.CodedPicture.{HasMacroblocks};
ghost use Rattle.mv_terms.specs.Ranges.{HasNoZero};
ghost use Rattle.mv_planes.specs.References.{references_lent};
ghost use Rattle.mv_predict.specs.Blocks.{HasSizeOf};
ghost use Rattle.mv_vectors.specs.Predictable.{CanBeReconstructed, AllCanBeReconstructed};
ghost use Rattle.cert_requant.specs.Requantised.{requantised_macroblock, requantised};

mod block;
mod laws;

pub use block::differences;
use block::{are_bytes, levels_of_block};
pub use laws::{requantised_law, stays_law};
use mv_planes::{Picture, RefPair, part_at};
use mv_predict::{MacroSamples, predict};
use mv_quant::kind_of;
use mv_terms::{Decision, Head, MacroLevels};

/// Writes the levels of a picture that come nearest to a source of its size, by these decisions and references, row
/// after row, as the decisions stand. Nothing that stood in `levels` before has any effect.
pub fn requantise(
    head: &Head,
    decisions: &[Decision],
    source: &Picture,
    refs: &RefPair<'_>,
    levels: &mut [MacroLevels],
)
    requires wide { source.now.mb_wide ≡ head.now.mb_wide }
    requires high { source.now.mb_high ≡ head.now.mb_high }
    requires macroblocks { HasMacroblocks
        (record { head = head.now; decisions = decisions.now; levels = levels.old }) }
    requires precision { head.now.dc_precision ≤ 3 }
    requires matrices { HasNoZero head.now.matrices }
    requires decisions { AllCanBeReconstructed head.now decisions.now }
    requires forward { HasSizeOf head.now refs.now.forward.now }
    requires backward { HasSizeOf head.now refs.now.backward.now }
    ensures { levels.new ≡ requantised head.now decisions.now source.now
        (references_lent refs.now) }
{
    let wide = usize::from(source.mb_wide());
    let high = usize::from(source.mb_high());
    'rows: for mb_y in 0..high {
        'macroblocks: for mb_x in 0..wide {
            let k = mb_y * wide + mb_x;
            let (x, y) = (mb_x as u16, mb_y as u16);
            requantise_macroblock(head, &decisions[k], source, refs, x, y, &mut levels[k]);
        }
    }
}

// The levels of the macroblock at this column and row.
fn requantise_macroblock(
    head: &Head,
    d: &Decision,
    source: &Picture,
    refs: &RefPair<'_>,
    mb_x: u16,
    mb_y: u16,
    to: &mut MacroLevels,
)
    requires wide { source.now.mb_wide ≡ head.now.mb_wide }
    requires high { source.now.mb_high ≡ head.now.mb_high }
    requires across { mb_x < head.now.mb_wide }
    requires down { mb_y < head.now.mb_high }
    requires precision { head.now.dc_precision ≤ 3 }
    requires matrices { HasNoZero head.now.matrices }
    requires decision { CanBeReconstructed head.now mb_x mb_y d.now }
    requires forward { HasSizeOf head.now refs.now.forward.now }
    requires backward { HasSizeOf head.now refs.now.backward.now }
    ensures { to.new ≡ requantised_macroblock head.now d.now source.now
        (references_lent refs.now) mb_x mb_y }
{
    // for the proof: predicted samples are bytes, as those are that they come from
    are_bytes(refs.forward.samples());
    are_bytes(refs.backward.samples());
    let mut predicted = MacroSamples {
        blocks: [[0; 64]; 6],
    };
    predict(refs, head, d, mb_x, mb_y, &mut predicted);
    let kind = kind_of(head, d);
    let (x, y) = (usize::from(mb_x), usize::from(mb_y));
    'each: for b in 0..6 {
        let part = part_at(d.field_dct, x, y, b);
        to.blocks[b] = levels_of_block(&source.block(part), &predicted.blocks[b], &kind);
    }
}
