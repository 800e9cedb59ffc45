//! The inverse of any block, in three passes of 32 bits over its rows and columns.

ghost use Rattle.std.specs.Prelude.{◌≡◌, ℕ, ◌<◌};
ghost use Rattle.mv_terms.specs.Block.{entry};
ghost use Rattle.mv_transform.specs.Transform.{inverse_at};

use super::parts::{high_parts, low_parts, rounded_parts, saturated_value};
use super::passes::inverse_of_rows;

/// The inverse of a block, whatever its coefficients. It isn't inlined, so that sparse blocks don't pay for its locals.
#[inline(never)]
pub fn inverse_of_dense(c: &[i16; 64]) -> [i16; 64]
    ensures { (y x : ℕ) → y < 8 → x < 8 → entry result y x ≡ inverse_at (entry c.now) y x }
{
    let mut turned = [0; 64];
    let mut high = [0; 64];
    let mut low = [0; 64];
    inverse_of_rows(c, &mut turned);
    inverse_of_rows(&high_parts(&turned), &mut high);
    inverse_of_rows(&low_parts(&turned), &mut low);
    let mut samples = [0; 64];
    for place in 0..64 {
        samples[place] = saturated_value(rounded_parts(high[place], low[place]));
    }
    samples
}
