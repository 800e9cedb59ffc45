//! The prediction of macroblocks from reference pictures (H.262, 7.6).
//! Its promise: `predict` leaves in each block of a macroblock the prediction of its places, sample by sample, as the
//! standard defines it from the whole reference pictures.
//! The definitions stand in `specs/Prediction.antt` (a sample's prediction), `specs/Blocks.antt` (those of a block) and
//! `specs/Locality.antt` (what a prediction depends on).
#![tactic(auto)]

ghost use Rattle.std.specs.Prelude.{◌≡◌, ℕ, ◌<◌, [], slice_index_or};
ghost use Rattle.mv_planes.specs.declared.picture.Plane.{Plane};
ghost use Rattle.mv_planes.specs.Layout.{IsBlockOf};
ghost use Rattle.mv_vectors.specs.Predictable.{CanBePredicted};
ghost use Rattle.mv_planes.specs.References.{references_lent};
ghost use Rattle.mv_predict.specs.Blocks.{HasSizeOf, HoldsPrediction};

mod blocks;
mod kernel;
mod laws;
mod lines;
mod source;

use blocks::{clear, goes_backward, goes_forward, predict_blocks};
pub use laws::locality_law;
use mv_planes::RefPair;
use mv_terms::{Decision, Head};

/// The samples of a macroblock, block after block (Y0 to Y3, Cb, Cr), each in raster order.
#[derive(Clone, Copy, Debug, PartialEq, Eq)]
pub struct MacroSamples {
    pub blocks: [[i16; 64]; 6],
}

/// Writes the prediction of a macroblock, 0 where it is intra, in blocks organised by its `dct_type`. The reference
/// pictures have the size of its own, and nothing that stood in `out` before has any effect.
#[tactic(auto, unfolding(crate::specs::Prediction::predicted_at))]
pub fn predict(
    refs: &RefPair<'_>,
    head: &Head,
    d: &Decision,
    mb_x: u16,
    mb_y: u16,
    out: &mut MacroSamples,
)
    requires across { mb_x < head.now.mb_wide }
    requires down { mb_y < head.now.mb_high }
    requires decision { CanBePredicted head.now mb_x mb_y d.now }
    requires forward { HasSizeOf head.now refs.now.forward.now }
    requires backward { HasSizeOf head.now refs.now.backward.now }
    ensures { (p : Plane) (b : ℕ) → IsBlockOf p b → HoldsPrediction
        head.now d.now (references_lent refs.now) mb_x mb_y p b
        (slice_index_or out.new.blocks b []) }
{
    if d.intra {
        clear(&mut out.blocks);
    } else {
        predict_blocks(
            refs,
            goes_forward(head, d),
            goes_backward(head, d),
            d,
            usize::from(mb_x),
            usize::from(mb_y),
            &mut out.blocks,
        );
    }
}
