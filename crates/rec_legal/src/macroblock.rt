//! Whether a decision is legal behind those of its slice so far.
ghost use Rattle.std.specs.Prelude.{◌≡◌, ◌<◌, ◌≤◌, ◌==◌, ◌&&◌, ◌||◌, not, nat_lt, nat_le, if◌then◌else◌};
ghost use Rattle.mv_heads.specs.Headers.{is_same_flag};
ghost use Rattle.mv_terms.specs.PicTypes.{is_b};
ghost use Rattle.mv_vectors.specs.Skipped.{may_skip};
ghost use Rattle.rec_legal.specs.Tests.{can_be_skipped, has_both_legal, has_legal_codes, has_legal_directions, has_legal_motion, has_no_motion, has_plain_or_field_motion, is_head_scale, is_legal, is_legal_inter, is_legal_intra, is_legal_kind, is_legal_skipped, is_scale_code, says_nothing, seen_by, takes_both_over};
ghost use Rattle.rec_legal.specs.Steps.{HasFewBits};

use crate::decisions::Past;
use crate::headers::is_same_flag;
use crate::vectors::{are_in_range, has_legal_vectors, has_none, takes_over};
use mv_terms::{Decision, Head, PicType};
use mv_vectors::inside;

/// Whether a decision is legal in this column and row, as the last of its slice or not.
pub(crate) fn is_legal(
    head: &Head,
    past: &Past,
    mb_x: u16,
    mb_y: u16,
    last: bool,
    d: &Decision,
) -> bool
    requires { HasFewBits head.now }
    ensures { result ≡ is_legal head.now (seen_by past.now mb_x mb_y) last d.now }
{
    is_same_flag(d.slice_start, past.first)
        && has_legal_codes(head, d)
        && has_plain_or_field_motion(d)
        && is_legal_kind(head, past, mb_x, mb_y, last, d)
}

/// Whether the scale codes are in their ranges, and the dct type is one that can be sent.
fn has_legal_codes(head: &Head, d: &Decision) -> bool
    ensures { result ≡ has_legal_codes head.now d.now }
{
    is_head_scale(d.slice_start, d.head_scale)
        && is_scale_code(d.scale)
        && (!head.frame_only || !d.field_dct)
}

/// Whether the motion is neither 16x8 nor dual prime, and there is no dmvector.
fn has_plain_or_field_motion(d: &Decision) -> bool
    ensures { result ≡ has_plain_or_field_motion d.now }
{
    !d.half && !d.dual && (d.dual_delta[0] == 0 && d.dual_delta[1] == 0)
}

fn is_head_scale(start: bool, head_scale: u8) -> bool
    ensures { result ≡ is_head_scale start head_scale }
{
    if start {
        is_scale_code(head_scale)
    } else {
        head_scale == 0
    }
}

fn is_scale_code(code: u8) -> bool
    ensures { result ≡ is_scale_code code }
{
    code > 0 && code <= 31
}

fn is_legal_kind(head: &Head, past: &Past, mb_x: u16, mb_y: u16, last: bool, d: &Decision) -> bool
    requires { HasFewBits head.now }
    ensures { result ≡ is_legal_kind head.now (seen_by past.now mb_x mb_y) last d.now }
{
    if d.skipped {
        is_legal_skipped(head, past, mb_x, mb_y, last, d)
    } else if d.intra {
        is_legal_intra(head, d)
    } else {
        is_legal_inter(head, mb_x, mb_y, d)
    }
}

/// Whether a skipped macroblock may stand there, and says what it takes over (H.262, 6.3.17 and 7.6.6).
fn is_legal_skipped(
    head: &Head,
    past: &Past,
    mb_x: u16,
    mb_y: u16,
    last: bool,
    d: &Decision,
) -> bool
    requires { HasFewBits head.now }
    ensures { result ≡ is_legal_skipped head.now (seen_by past.now mb_x mb_y) last d.now }
{
    can_be_skipped(head, past, last)
        && says_nothing(d)
        && takes_both_over(head, past, d)
        && are_in_range(head, d)
        && inside(head, d, mb_x, mb_y)
}

fn can_be_skipped(head: &Head, past: &Past, last: bool) -> bool
    ensures { result ≡ (not past.now.first && not last && may_skip head.now past.now.intra) }
{
    !past.first && !last && may_skip(head, past.intra)
}

fn may_skip(head: &Head, before_intra: bool) -> bool
    ensures { result ≡ may_skip head.now before_intra }
{
    match head.pic {
        PicType::I => false,
        PicType::P => true,
        PicType::B => !before_intra,
    }
}

fn says_nothing(d: &Decision) -> bool
    ensures { result ≡ says_nothing d.now }
{
    !d.quant && !d.intra && !d.field_dct && !d.field_motion
}

fn takes_both_over(head: &Head, past: &Past, d: &Decision) -> bool
    ensures { result ≡ takes_both_over head.now (seen_by past.now 0 0) d.now }
{
    takes_over(
        is_b_and(head, past.forward),
        d.forward,
        &past.forward_vector,
        d,
        0,
    ) && takes_over(
        is_b_and(head, past.backward),
        d.backward,
        &past.backward_vector,
        d,
        1,
    )
}

fn is_b_and(head: &Head, flag: bool) -> bool
    ensures { result ≡ (is_b head.now.pic && flag) }
{
    matches!(head.pic, PicType::B) && flag
}

/// Whether an intra macroblock says nothing but vectors of concealment (H.262, 7.6.3.9).
fn is_legal_intra(head: &Head, d: &Decision) -> bool
    requires { HasFewBits head.now }
    ensures { result ≡ is_legal_intra head.now d.now }
{
    has_no_motion(d) && has_legal_vectors(head.concealment, head, d, 0) && has_none(d, 1)
}

fn has_no_motion(d: &Decision) -> bool
    ensures { result ≡ has_no_motion d.now }
{
    !d.forward && !d.backward && !d.field_motion
}

/// Whether another macroblock can be predicted.
fn is_legal_inter(head: &Head, mb_x: u16, mb_y: u16, d: &Decision) -> bool
    requires { HasFewBits head.now }
    ensures { result ≡ is_legal_inter head.now mb_x mb_y d.now }
{
    has_legal_directions(head, d)
        && has_legal_motion(head, d)
        && inside(head, d, mb_x, mb_y)
        && has_both_legal(head, d)
}

fn has_both_legal(head: &Head, d: &Decision) -> bool
    requires { HasFewBits head.now }
    ensures { result ≡ has_both_legal head.now d.now }
{
    has_legal_vectors(d.forward, head, d, 0) && has_legal_vectors(d.backward, head, d, 1)
}

fn has_legal_directions(head: &Head, d: &Decision) -> bool
    ensures { result ≡ has_legal_directions head.now.pic d.now }
{
    match head.pic {
        PicType::I => false,
        PicType::P => !d.backward,
        PicType::B => d.forward || d.backward,
    }
}

fn has_legal_motion(head: &Head, d: &Decision) -> bool
    ensures { result ≡ has_legal_motion head.now d.now }
{
    !d.field_motion || (!head.frame_only && (d.forward || d.backward))
}
