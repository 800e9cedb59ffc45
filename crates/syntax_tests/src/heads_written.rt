//! `mv_heads`: headers are written as in the example, as other encoders write them, and as the tables of the standard say.
ghost use Rattle.std.specs.Prelude.{◌≡◌};
ghost use Rattle.mv_terms.specs.Matrices.{default_matrices};

use crate::comparison::same;
use crate::fixtures::{B_BYTES, GROUP, I_BYTES, P_BYTES, PART};
use mv_bits::CompareWith;
use mv_heads::{read_context, read_head, write_context, write_gop, write_head};
use mv_terms::{Context, Matrices, Why};
use std::process::Abort;

// The sequence part of the example.
const EXAMPLE: Context = Context {
    width: 96,
    height: 64,
    mb_wide: 6,
    mb_high: 4,
    progressive: true,
    low_delay: false,
    rate_code: 3,
    rate_n: 0,
    rate_d: 0,
    matrices: Matrices::DEFAULT,
};

// 1920x1080 luma samples, interlaced, two thirds of 30000 frames in 1001 seconds, with a low delay.
const LARGE: Context = Context {
    width: 1920,
    height: 1080,
    mb_wide: 120,
    mb_high: 68,
    progressive: false,
    low_delay: true,
    rate_code: 4,
    rate_n: 1,
    rate_d: 2,
    matrices: Matrices::DEFAULT,
};

const LARGE_PART: &[u8] =
    b"\x00\x00\x01\xB3\x78\x04\x38\x14\xFF\xFF\xE3\x80\x00\x00\x01\xB5\x14\x42\x00\x01\x00\xA2";

fn is_written_as(rt: &impl Abort, context: &Context, bytes: &[u8]) -> bool
    requires { context.now.matrices ≡ default_matrices }
{
    assert!(rt; context.is_legal());
    let mut compare = CompareWith::new(bytes, 0);
    write_context(context, &mut compare);
    compare.equal()
}

#[test]
#[tactic(auto, unfolding(mv_terms::specs::Matrices::default_intra, mv_terms::specs::Matrices::default_non_intra))]
fn sequence_parts_are_written(rt: HostRuntime) {
    assert!(rt; is_written_as(&rt, &EXAMPLE, PART));
    assert!(rt; is_written_as(&rt, &LARGE, LARGE_PART));
}

#[test]
fn the_header_of_an_empty_group_says_that_it_is_closed(rt: HostRuntime) {
    let rows: [(bool, &[u8]); 2] = [(true, GROUP), (false, b"\x00\x00\x01\xB8\x00\x08\x00\x00")];
    for (empty, bytes) in rows {
        let mut compare = CompareWith::new(bytes, 0);
        write_gop(empty, &mut compare);
        assert!(rt; compare.equal());
    }
}

// An interlaced I picture, the top field first, with 10 bits of a DC level, the non-linear scale, table B.15 and the
// alternate scan.
const INTERLACED_BYTES: &[u8] =
    b"\x00\x00\x01\x00\x01\x4F\xFF\xF8\x00\x00\x01\xB5\x8F\xFF\xFB\x9C\x00";

/// Whether a head behind the example's sequence part is written again as it was.
fn is_written_again(head: &[u8], progressive: bool) -> Result<bool, Why> {
    let context = read_context(PART)?;
    let fields = read_head(head, &context)?;
    let mut compare = CompareWith::new(head, 0);
    write_head(&fields, fields.top_first, progressive, &mut compare);
    Ok(compare.equal())
}

#[test]
fn heads_of_each_type_are_written_again(rt: HostRuntime) {
    let rows = [
        (I_BYTES, true),
        (P_BYTES, true),
        (B_BYTES, true),
        (INTERLACED_BYTES, false),
    ];
    for (head, progressive) in rows {
        same(&rt, &is_written_again(head, progressive), &Ok(true));
    }
    same(&rt, &is_written_again(I_BYTES, false), &Ok(false));
}
