//! The vectors of a decision, and whether they may stand there.
ghost use Rattle.std.specs.Prelude.{◌≡◌, ◌*◌, ◌<◌, ◌≤◌, ◌&&◌, ◌||◌, not, if◌then◌else◌, pos};
ghost use Rattle.std.specs.Ordering.{int_eq};
ghost use Rattle.mv_terms.specs.Decisions.{still, vector, vector_of};
ghost use Rattle.mv_vectors.specs.Vectors.{f_code, f_of, is_in_range};
ghost use Rattle.mv_vectors.specs.Inside.{are_in_range, are_vectors_in_range};
ghost use Rattle.rec_legal.specs.Tests.{has_first_alone, has_legal_vectors, has_none, is_same_vector, takes_over};
ghost use Rattle.rec_legal.specs.Steps.{HasFewBits};

use crate::decisions::Predictor;
use crate::headers::is_same_flag;
use mv_terms::{Decision, Head, Vector};

/// Whether the vectors of direction s are in their range where they are used, and those that aren't used are zero.
pub(crate) fn has_legal_vectors(used: bool, head: &Head, d: &Decision, s: usize) -> bool
    requires direction { s < 2 }
    requires codes { HasFewBits head.now }
    ensures { result ≡ has_legal_vectors used head.now d.now s }
{
    if used {
        (d.field_motion || has_first_alone(d, s)) && are_vectors_in_range(head, d, s)
    } else {
        has_none(d, s)
    }
}

/// Whether all vectors that a macroblock is predicted with are in their ranges.
pub(crate) fn are_in_range(head: &Head, d: &Decision) -> bool
    requires { HasFewBits head.now }
    ensures { result ≡ are_in_range head.now d.now }
{
    (!d.forward || are_vectors_in_range(head, d, 0))
        && (!d.backward || are_vectors_in_range(head, d, 1))
}

/// Whether nothing is said of direction s.
pub(crate) fn has_none(d: &Decision, s: usize) -> bool
    requires { s < 2 }
    ensures { result ≡ has_none d.now s }
{
    has_first_alone(d, s) && is_still(d.vectors[s][0])
}

/// Whether direction s has its first vector alone.
fn has_first_alone(d: &Decision, s: usize) -> bool
    requires { s < 2 }
    ensures { result ≡ has_first_alone d.now s }
{
    !d.selects[s][0] && !d.selects[s][1] && is_still(d.vectors[s][1])
}

/// Whether direction s is that of a skipped macroblock, which takes this vector over where the direction is used.
pub(crate) fn takes_over(
    used: bool,
    is_used: bool,
    predictor: &Predictor,
    d: &Decision,
    s: usize,
) -> bool
    requires { s < 2 }
    ensures { result ≡ takes_over used is_used
        (vector predictor.now.x predictor.now.y) d.now s }
{
    is_same_flag(is_used, used)
        && has_first_alone(d, s)
        && is_taken(used, predictor, d.vectors[s][0])
}

fn is_taken(used: bool, predictor: &Predictor, v: Vector) -> bool
    ensures { result ≡ is_same_vector v
        (if used then vector predictor.now.x predictor.now.y else still) }
{
    if used {
        is_predicted(predictor, v)
    } else {
        is_still(v)
    }
}

fn is_predicted(predictor: &Predictor, v: Vector) -> bool
    ensures { result ≡ is_same_vector v (vector predictor.now.x predictor.now.y) }
{
    i32::from(v.x) == predictor.x && i32::from(v.y) == predictor.y
}

fn is_still(v: Vector) -> bool
    ensures { result ≡ is_same_vector v still }
{
    v.x == 0 && v.y == 0
}

/// Whether the vectors of direction s are in their range: two of field prediction, else the first alone.
fn are_vectors_in_range(head: &Head, d: &Decision, s: usize) -> bool
    requires direction { s < 2 }
    requires codes { HasFewBits head.now }
    ensures { result ≡ are_vectors_in_range head.now d.now s d.now.field_motion }
{
    if d.field_motion {
        is_vector_in_range(head, s, d.vectors[s][0]) && is_vector_in_range(head, s, d.vectors[s][1])
    } else {
        is_vector_in_range(head, s, d.vectors[s][0])
    }
}

fn is_vector_in_range(head: &Head, s: usize, v: Vector) -> bool
    requires direction { s < 2 }
    requires codes { HasFewBits head.now }
    ensures { result ≡ (is_in_range (f_of (f_code head.now s 0)) v.x
        && is_in_range (f_of (f_code head.now s 1)) v.y) }
{
    is_in_range(head.f_code[s][0], v.x) && is_in_range(head.f_code[s][1], v.y)
}

/// Whether a component is in its range, -16f to 16f - 1.
fn is_in_range(code: u8, v: i16) -> bool
    requires { code ≤ 15 }
    ensures { result ≡ is_in_range (f_of code) v }
{
    let top = 16 * f_of(code) as i32;
    let v = i32::from(v);
    !(v < -top) && v < top
}

/// f of an f_code.
#[tactic(auto, using(crate::proofs::PlaceLemmas::power_small))]
fn f_of(code: u8) -> u32
    requires { code ≤ 15 }
    ensures value { result ≡ f_of code }
    ensures bound { result ≤ 16384 }
{
    1 << u32::from(code.saturating_sub(1))
}
