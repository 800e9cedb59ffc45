//! The reconstruction of a picture from its head, decisions and levels (H.262, 7.4 to 7.6.8).
//! Its promise: `reconstruct` leaves the whole picture of a list of macroblocks as the standard defines it from its
//! references, each sample by its own plane, column and row.
//! The definitions stand in `specs/Pictures.antt` (the sample, and the picture) and `specs/Decoded.antt` (the pictures
//! of a list of coded pictures); what pictures depend on stands in `specs/Locality.antt`.
#![tactic(auto)]

ghost use Rattle.std.specs.Prelude.{◌≡◌, ℕ, ◌<◌, ◌≤◌, [], slice_index_or};
ghost use Rattle.mv_terms.specs.CodedPicture.{HasMacroblocks};
ghost use Rattle.mv_planes.specs.Planes.{SameSize};
ghost use Rattle.mv_planes.specs.declared.picture.Plane.{Plane as PlaneOf};
ghost use Rattle.mv_planes.specs.Layout.{IsBlockOf};
ghost use Rattle.mv_vectors.specs.Predictable.{CanBePredicted, AllCanBeReconstructed};
ghost use Rattle.mv_planes.specs.References.{references_lent};
ghost use Rattle.mv_predict.specs.Blocks.{HasSizeOf, HoldsPrediction};
ghost use Rattle.mv_recon.specs.Pictures.{picture_from};

mod block;
mod laws;

use block::samples_of;
pub use laws::{locality_law, samples_law};
use mv_planes::{Picture, RefPair, part_at};
use mv_predict::{MacroSamples, predict};
use mv_quant::kind_of;
use mv_terms::{Decision, Head, MacroLevels};

/// Writes the picture of these macroblocks (H.262, 7.4 to 7.6.8), predicted from these references, into a picture of its
/// size. Decisions and levels stand row after row, and nothing that stood in `to` before has any effect.
#[inline(never)]
pub fn reconstruct(
    head: &Head,
    decisions: &[Decision],
    levels: &[MacroLevels],
    refs: &RefPair<'_>,
    to: &mut Picture,
)
    requires wide { to.old.mb_wide ≡ head.now.mb_wide }
    requires high { to.old.mb_high ≡ head.now.mb_high }
    requires macroblocks { HasMacroblocks
        (record { head = head.now; decisions = decisions.now; levels = levels.now }) }
    requires precision { head.now.dc_precision ≤ 3 }
    requires decisions { AllCanBeReconstructed head.now decisions.now }
    requires forward { HasSizeOf head.now refs.now.forward.now }
    requires backward { HasSizeOf head.now refs.now.backward.now }
    ensures size { SameSize to.old to.new }
    ensures picture { to.new ≡ picture_from (references_lent refs.now)
        (record { head = head.now; decisions = decisions.now; levels = levels.now }) }
{
    let wide = usize::from(to.mb_wide());
    let high = usize::from(to.mb_high());
    let mut room = NOT_PREDICTED;
    'rows: for mb_y in 0..high {
        'macroblocks: for mb_x in 0..wide {
            let k = mb_y * wide + mb_x;
            let predicted = prediction(
                refs,
                head,
                &decisions[k],
                mb_x as u16,
                mb_y as u16,
                &mut room,
            );
            let field_dct = decisions[k].field_dct;
            let kind = kind_of(head, &decisions[k]);
            let blocks = &levels[k].blocks;
            'each: for b in 0..6 {
                let samples = samples_of(&predicted.blocks[b], &blocks[b], &kind);
                to.put_block(part_at(field_dct, mb_x, mb_y, b), &samples);
            }
        }
    }
}

/// The prediction of a macroblock. That of an intra one is zero and needs no room.
fn prediction<'a>(
    refs: &RefPair<'_>,
    head: &Head,
    decision: &Decision,
    mb_x: u16,
    mb_y: u16,
    room: &'a mut MacroSamples,
) -> &'a MacroSamples
    requires across { mb_x < head.now.mb_wide }
    requires down { mb_y < head.now.mb_high }
    requires decision { CanBePredicted head.now mb_x mb_y decision.now }
    requires forward { HasSizeOf head.now refs.now.forward.now }
    requires backward { HasSizeOf head.now refs.now.backward.now }
    ensures { (p : PlaneOf) (b : ℕ) → IsBlockOf p b → HoldsPrediction
        head.now decision.now (references_lent refs.now) mb_x mb_y p b
        (slice_index_or result.now.blocks b []) }
{
    if decision.intra {
        return &NOT_PREDICTED;
    }
    predict(refs, head, decision, mb_x, mb_y, room);
    room
}

/// The prediction of an intra macroblock.
const NOT_PREDICTED: MacroSamples = MacroSamples {
    blocks: [[0; 64]; 6],
};
