//! The six blocks of a macroblock.
ghost use Rattle.std.specs.Prelude.{◌≡◌, ℕ, ◌^◌, ◌<◌, [], slice_index_or, pos, true};
ghost use Rattle.mv_terms.specs.Block.{entry};
ghost use Rattle.mv_planes.specs.declared.picture.Plane.{Plane as PlaneOf};
ghost use Rattle.mv_planes.specs.Layout.{IsBlockOf};
ghost use Rattle.mv_predict.specs.Prediction.{predicted_with, goes_forward, goes_backward};
ghost use Rattle.mv_planes.specs.References.{references_lent};
ghost use Rattle.mv_predict.specs.Steps.{BlockHas, MacroblockInside};

use crate::lines::predict_pair;
use mv_planes::{RefPair, part_at};
use mv_terms::{Decision, Head, PicType};

/// Predicts the blocks of a macroblock that isn't intra, by these directions.
pub(crate) fn predict_blocks(
    refs: &RefPair<'_>,
    forward: bool,
    backward: bool,
    d: &Decision,
    mb_x: usize,
    mb_y: usize,
    out: &mut [[i16; 64]; 6],
)
    requires small { (mb_x < 2 ^ 16) × (mb_y < 2 ^ 16) }
    requires forward { forward ≡ true → MacroblockInside refs.now.forward.now d.now 0 mb_x mb_y }
    requires backward { backward ≡ true → MacroblockInside refs.now.backward.now d.now 1 mb_x mb_y }
    ensures { (p : PlaneOf) (b : ℕ) → IsBlockOf p b → BlockHas
        (predicted_with forward backward d.now (references_lent refs.now))
        d.now.field_dct mb_x mb_y p b (slice_index_or out.new b []) }
{
    let upper = part_at(d.field_dct, mb_x, mb_y, 0);
    predict_pair(refs, forward, backward, upper, d, 0, out);
    let lower = part_at(d.field_dct, mb_x, mb_y, 2);
    predict_pair(refs, forward, backward, lower, d, 2, out);
    let chroma = part_at(d.field_dct, mb_x, mb_y, 4);
    predict_pair(refs, forward, backward, chroma, d, 4, out);
}

/// Leaves zeros in all blocks.
pub(crate) fn clear(out: &mut [[i16; 64]; 6])
    ensures { (b row col : ℕ) → b < 6 → row < 8 → col < 8
        → entry (slice_index_or out.new b []) row col ≡ pos 0 }
{
    *out = [[0; 64]; 6];
}

pub(crate) fn goes_forward(head: &Head, d: &Decision) -> bool
    ensures { result ≡ goes_forward head.now d.now }
{
    d.forward || matches!(head.pic, PicType::P)
}

pub(crate) fn goes_backward(head: &Head, d: &Decision) -> bool
    ensures { result ≡ goes_backward head.now d.now }
{
    d.backward && matches!(head.pic, PicType::B)
}
