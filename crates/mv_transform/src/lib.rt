//! The transform pair of the codec: the inverse discrete cosine transform of a block of 8 by 8
//! coefficients (H.262, 7.5 and Annex A) and the forward transform that goes with it.
//! Annex A leaves the arithmetic open within a tolerance. Here each value is one double sum of 64
//! products with fixed integer weights, rounded once at its end: the same answer on every machine.
//! The definitions stand in `specs/Basis.antt`, the weights by their rule, and in
//! `specs/Transform.antt`, both directions over a block as a function of row and column;
//! `specs/Back.antt` says what one direction after the other gives, and `specs/Near.antt` how far samples come to
//! lie from themselves where their coefficients are changed in between.
#![tactic(auto)]

ghost use Rattle.std.specs.Prelude.{◌≡◌, ℕ, ◌<◌};
ghost use Rattle.mv_terms.specs.Block.{entry, IsWithin};
ghost use Rattle.mv_transform.specs.Transform.{inverse_at, forward_at};

mod dense;
mod double_sum;
mod forward_lines;
mod inverse_lines;
mod laws;
mod parts;
mod passes;
mod plain;
mod rounding;
mod signed;
mod sparse;
mod weights;

use dense::inverse_of_dense;
pub use laws::{
    back_law, folded_lines_law, forward_bounded_law, inverse_saturated_law, lines_law,
    mirrored_basis_law, near_law, same_block_law, squares_law, sum_law,
};
use passes::{forward_of_rows, widened};
pub use plain::{plain_forward, plain_inverse};
use rounding::{narrowed, rounded_sum};
use sparse::{inverse_of_sparse, is_sparse, without_first};

/// The inverse transform of a block of coefficients in raster order (H.262, 7.5): samples, or
/// differences of samples, in −256 to 255. A decoder's coefficients lie in −2048 to 2047; any
/// other value of the type is transformed by the same sum.
pub fn inverse(c: &[i16; 64]) -> [i16; 64]
    ensures { (y x : ℕ) → y < 8 → x < 8 → entry result y x ≡ inverse_at (entry c.now) y x }
{
    let others = without_first(c);
    if is_sparse(&others) {
        inverse_of_sparse(c, &others)
    } else {
        inverse_of_dense(c)
    }
}

/// The forward transform of a block of samples, or of differences of samples, in −255 to 255, in
/// raster order: coefficients in −2040 to 2040.
pub fn forward(s: &[i16; 64]) -> [i16; 64]
    requires { IsWithin 255 (entry s.now) }
    ensures { (v u : ℕ) → v < 8 → u < 8 → entry result v u ≡ forward_at (entry s.now) v u }
{
    let mut sums = widened(s);
    let mut turned = [0; 64];
    forward_of_rows(&sums, &mut turned);
    forward_of_rows(&turned, &mut sums);
    let mut coefficients = [0; 64];
    for place in 0..64 {
        coefficients[place] = narrowed(rounded_sum(sums[place]));
    }
    coefficients
}
