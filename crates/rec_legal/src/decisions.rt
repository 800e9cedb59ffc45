//! Whether the decisions of a picture are legal.
ghost use Rattle.std.specs.Prelude.{◌≡◌, ◌*◌, ◌/◌, ◌%◌, ◌<◌, ◌≤◌, ◌==◌, ◌&&◌, ◌||◌, not, length, drop};
ghost use Rattle.mv_terms.specs.Ranges.{IsHead, IsPictureSize};
ghost use Rattle.mv_terms.specs.Decisions.{vector};
ghost use Rattle.mv_vectors.specs.Vectors.{has_vectors, left_by, predictor_behind, resets};
ghost use Rattle.mv_macro.specs.Legal.{ends_slice};
ghost use Rattle.rec_legal.specs.Tests.{are_legal, is_legal, is_legal_at, no_past, past_behind, past_in_slice, seen_by};
ghost use Rattle.rec_legal.specs.Steps.{HasFewBits};

use crate::macroblock::is_legal;
use mv_terms::{Decision, Head, PicType};

/// What the macroblocks of a slice so far say to the next one.
#[derive(Clone, Copy)]
pub(crate) struct Past {
    /// There are none.
    pub first: bool,
    /// The kind of the latest one.
    pub intra: bool,
    pub forward: bool,
    pub backward: bool,
    /// PMV[0][0] and PMV[0][1], which a skipped macroblock takes over.
    pub forward_vector: Predictor,
    pub backward_vector: Predictor,
}

/// A predictor of vectors: that of a field's vector is doubled.
#[derive(Clone, Copy)]
pub(crate) struct Predictor {
    pub x: i32,
    pub y: i32,
}

const STILL: Predictor = Predictor { x: 0, y: 0 };

/// Whether these are legal decisions of a picture, of which there is one for each macroblock.
pub(crate) fn are_legal(head: &Head, decisions: &[Decision]) -> bool
    requires head { IsHead head.now }
    requires size { length decisions.now ≡ head.now.mb_wide * head.now.mb_high }
    ensures { result ≡ are_legal head.now decisions.now }
{
    let mut past = no_past();
    'decisions: for place in 0..decisions.len() {
        let d = &decisions[place];
        let last = ends_slice(decisions, place + 1);
        past = past_in_slice(d, &past);
        if !is_legal_at(head, place, &past, last, d) {
            return false;
        }
        past = past_behind(head, d, &past);
    }
    true
}

/// Whether a slice ends in front of the decision at this place.
fn ends_slice(decisions: &[Decision], place: usize) -> bool
    ensures { result ≡ ends_slice (drop place decisions.now) }
{
    place >= decisions.len() || decisions[place].slice_start
}

/// Whether the decision at this place is legal, and starts a slice at the first macroblock of a row (H.262, 6.1.2).
fn is_legal_at(head: &Head, place: usize, past: &Past, last: bool, d: &Decision) -> bool
    requires codes { HasFewBits head.now }
    requires size { IsPictureSize head.now.mb_wide head.now.mb_high }
    requires inside { place < head.now.mb_wide * head.now.mb_high }
    ensures { result ≡ is_legal_at head.now place past.now last d.now }
{
    let wide = usize::from(head.mb_wide);
    let (mb_x, mb_y) = (place % wide, place / wide);
    (mb_x != 0 || d.slice_start) && is_legal(head, past, mb_x as u16, mb_y as u16, last, d)
}

fn no_past() -> Past
    ensures { result ≡ no_past }
{
    Past {
        first: true,
        intra: false,
        forward: false,
        backward: false,
        forward_vector: STILL,
        backward_vector: STILL,
    }
}

/// What counts in front of a decision: nothing where it starts a slice.
fn past_in_slice(d: &Decision, past: &Past) -> Past
    ensures { result ≡ past_in_slice d.now past.now }
{
    if d.slice_start { no_past() } else { *past }
}

/// Behind one more macroblock.
fn past_behind(head: &Head, d: &Decision, past: &Past) -> Past
    ensures { result ≡ past_behind head.now d.now past.now }
{
    Past {
        first: false,
        intra: d.intra,
        forward: d.forward,
        backward: d.backward,
        forward_vector: predictor_behind(head, d, 0, past.forward_vector),
        backward_vector: predictor_behind(head, d, 1, past.backward_vector),
    }
}

/// The first predictor of direction s behind a macroblock (H.262, 7.6.3.3 and 7.6.3.4).
fn predictor_behind(head: &Head, d: &Decision, s: usize, before: Predictor) -> Predictor
    requires { s < 2 }
    ensures x { result.x ≡ (predictor_behind head.now d.now s 0 (vector before.x before.y)).x }
    ensures y { result.y ≡ (predictor_behind head.now d.now s 0 (vector before.x before.y)).y }
{
    if resets(head, d) {
        STILL
    } else if has_vectors(head, d, s) {
        left_by(d, s)
    } else {
        before
    }
}

fn resets(head: &Head, d: &Decision) -> bool
    ensures { result ≡ resets head.now d.now }
{
    if d.intra {
        !head.concealment
    } else {
        matches!(head.pic, PicType::P) && !d.forward
    }
}

fn has_vectors(head: &Head, d: &Decision, s: usize) -> bool
    ensures { result ≡ has_vectors head.now d.now s }
{
    !d.skipped
        && (if s == 0 {
            d.forward || (d.intra && head.concealment)
        } else {
            d.backward
        })
}

/// What the vectors of direction s leave.
fn left_by(d: &Decision, s: usize) -> Predictor
    requires { s < 2 }
    ensures x { result.x ≡ (left_by d.now s 0).x }
    ensures y { result.y ≡ (left_by d.now s 0).y }
{
    let v = d.vectors[s][0];
    let y = i32::from(v.y);
    Predictor {
        x: i32::from(v.x),
        y: if d.field_motion { 2 * y } else { y },
    }
}
