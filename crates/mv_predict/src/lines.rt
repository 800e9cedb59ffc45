//! Eight lines of samples, of two blocks at once: two beside each other in luma, or the blocks of Cb and Cr. By rows that
//! lie one or two lines of the frame apart, the even ones are of one source and the odd ones of another.
ghost use Rattle.std.specs.Prelude.{◌≡◌, ℕ, ◌+◌, ◌*◌, ◌/◌, ◌^◌, ◌<◌, ◌≤◌, length, [], slice_index, slice_index_or, true};
ghost use Rattle.mv_predict.specs.Prediction.{predicted_by, predicted_with};
ghost use Rattle.mv_planes.specs.References.{references_lent};
ghost use Rattle.mv_predict.specs.Steps.{value_at, IsReadable, LinesHave, SourcesInside, PartHas, beside_part};

use crate::kernel::{Lines, four_lines, means, put_half};
use crate::source::{lines_at, odd_lines, source_of};
use mv_planes::{Part, Picture, RefPair};
use mv_terms::Decision;

/// Predicts two blocks, the first of them b, which stands in this part; the second one stands beside it.
pub(crate) fn predict_pair(
    refs: &RefPair<'_>,
    forward: bool,
    backward: bool,
    part: Part,
    d: &Decision,
    b: usize,
    out: &mut [[i16; 64]; 6],
)
    requires step { part.step ≤ 2 }
    requires small { (part.x < 2 ^ 21) × (part.y < 2 ^ 21) }
    requires b { b < 5 }
    requires forward { forward ≡ true
        → SourcesInside refs.now.forward.now d.now 0 part }
    requires backward { backward ≡ true
        → SourcesInside refs.now.backward.now d.now 1 part }
    ensures first { PartHas (predicted_with forward backward d.now (references_lent refs.now))
        part (slice_index_or out.new b []) }
    ensures second { PartHas (predicted_with forward backward d.now (references_lent refs.now))
        (beside_part part) (slice_index_or out.new (b + 1) []) }
    ensures others { (i : ℕ) → i < 6 → (i ≡ b → ⊥) → (i ≡ b + 1 → ⊥)
        → slice_index_or out.new i [] ≡ slice_index_or out.old i [] }
{
    let mut lines = [[0; 16]; 8];
    predict_both(refs, forward, backward, part, d, &mut lines);
    put_half(&lines, 0, &mut out[b]);
    put_half(&lines, 8, &mut out[b + 1]);
}

// The lines by one direction or both.
fn predict_both(
    refs: &RefPair<'_>,
    forward: bool,
    backward: bool,
    part: Part,
    d: &Decision,
    out: &mut [[u8; 16]; 8],
)
    requires step { part.step ≤ 2 }
    requires small { (part.x < 2 ^ 21) × (part.y < 2 ^ 21) }
    requires forward { forward ≡ true
        → SourcesInside refs.now.forward.now d.now 0 part }
    requires backward { backward ≡ true
        → SourcesInside refs.now.backward.now d.now 1 part }
    ensures { LinesHave (predicted_with forward backward d.now (references_lent refs.now))
        part out.new }
{
    if forward {
        predict_lines(refs.forward, part, d, 0, out);
        if backward {
            let mut other = [[0; 16]; 8];
            predict_lines(refs.backward, part, d, 1, &mut other);
            mean_lines(out, &other);
        }
    } else if backward {
        predict_lines(refs.backward, part, d, 1, out);
    } else {
        *out = [[0; 16]; 8];
    }
}

// The lines by direction s.
fn predict_lines(pic: &Picture, part: Part, d: &Decision, s: usize, out: &mut [[u8; 16]; 8])
    requires step { part.step ≤ 2 }
    requires small { (part.x < 2 ^ 21) × (part.y < 2 ^ 21) }
    requires s { s < 2 }
    requires inside { SourcesInside pic.now d.now s part }
    ensures { LinesHave (predicted_by d.now s pic.now) part out.new }
{
    let even = lines_at(pic, part.plane, part.x, source_of(d, s, part.y), part.step);
    let odd = odd_lines(pic, part, d, s, &even);
    rows(pic.samples(), &even, &odd, out);
}

// Eight lines, the even ones and the odd ones.
fn rows(samples: &[u8], even: &Lines, odd: &Lines, out: &mut [[u8; 16]; 8])
    requires even { IsReadable samples.now even.now }
    requires odd { IsReadable samples.now odd.now }
    requires small { length samples.now < 2 ^ 63 }
    ensures even_first { (k c : ℕ) → k < 4 → c < 8
        → slice_index (slice_index_or out.new (2 * k) []) c
        ≡ value_at samples.now even.now even.now.at k c }
    ensures even_second { (k c : ℕ) → k < 4 → c < 8
        → slice_index (slice_index_or out.new (2 * k) []) (8 + c)
        ≡ value_at samples.now even.now (even.now.at + even.now.apart) k c }
    ensures odd_first { (k c : ℕ) → k < 4 → c < 8
        → slice_index (slice_index_or out.new (2 * k + 1) []) c
        ≡ value_at samples.now odd.now odd.now.at k c }
    ensures odd_second { (k c : ℕ) → k < 4 → c < 8
        → slice_index (slice_index_or out.new (2 * k + 1) []) (8 + c)
        ≡ value_at samples.now odd.now (odd.now.at + odd.now.apart) k c }
{
    four_lines(samples, even, 0, out);
    four_lines(samples, odd, 1, out);
}

// The mean of two directions (H.262, 7.6.7.1).
fn mean_lines(to: &mut [[u8; 16]; 8], other: &[[u8; 16]; 8])
    ensures { (r c : ℕ) → r < 8 → c < 16 → slice_index (slice_index_or to.new r []) c
        ≡ (slice_index (slice_index_or to.old r []) c
        + slice_index (slice_index_or other.now r []) c + 1) / 2 }
{
    for r in 0..8 {
        to[r] = means(&to[r], &other[r]);
    }
}
