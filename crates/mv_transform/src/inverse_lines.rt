//! The inverse of one dimension, which uses that an even frequency is symmetric about the middle of a line and
//! an odd one changes its sign there. A sum of eight products of a weight and a value of 16 bits stays below 2^31.

ghost use Rattle.std.specs.Prelude.{◌≡◌, ℕ, ◌+◌, ◌*◌, ◌<◌, ◌≤◌, ◌^◌, ◌+ℤ◌, ◌-ℤ◌, ◌*ℤ◌, unsigned_abs};
ghost use Rattle.mv_terms.specs.Block.{item};
ghost use Rattle.mv_transform.specs.Basis.{basis};
ghost use Rattle.mv_transform.specs.Lines.{inverse_line, even_part, odd_part};

use super::signed::{minus, plus, product};
use super::weights::weight;

/// The inverse of one dimension.
#[tactic(auto, using(mv_terms::proofs::SumLemmas::sums))]
pub fn inverse_of_line(line: &[i16; 8]) -> [i32; 8]
    ensures { (x : ℕ) → x < 8 → item result x ≡ inverse_line (item line.now) x }
{
    let mut sums = [0; 8];
    for x in 0..4 {
        let even = even_terms(line, x);
        let odd = odd_terms(line, x);
        sums[x] = plus(even, odd);
        sums[7 - x] = minus(even, odd);
    }
    sums
}

#[tactic(auto, using(mv_terms::proofs::SumLemmas::sums))]
fn even_terms(line: &[i16; 8], x: usize) -> i32
    requires { x < 8 }
    ensures value { result ≡ even_part (item line.now) x }
    ensures size { unsigned_abs result ≤ 2 ^ 29 }
{
    plus(
        plus(line_term(line, 0, x), line_term(line, 2, x)),
        plus(line_term(line, 4, x), line_term(line, 6, x)),
    )
}

#[tactic(auto, using(mv_terms::proofs::SumLemmas::sums))]
fn odd_terms(line: &[i16; 8], x: usize) -> i32
    requires { x < 8 }
    ensures value { result ≡ odd_part (item line.now) x }
    ensures size { unsigned_abs result ≤ 2 ^ 29 }
{
    plus(
        plus(line_term(line, 1, x), line_term(line, 3, x)),
        plus(line_term(line, 5, x), line_term(line, 7, x)),
    )
}

// The term of frequency u at place x.
#[tactic(auto, using(mv_terms::proofs::SumLemmas::sums))]
fn line_term(line: &[i16; 8], u: usize, x: usize) -> i32
    requires u_in { u < 8 }
    requires x_in { x < 8 }
    ensures value { result ≡ basis u x *ℤ item line.now u }
    ensures size { unsigned_abs result ≤ 2 ^ 27 }
{
    product(weight(u, x), value_at(line, u))
}

fn value_at(line: &[i16; 8], u: usize) -> i32
    requires { u < 8 }
    ensures value { result ≡ item line.now u }
    ensures size { unsigned_abs result ≤ 2 ^ 15 }
{
    i32::from(line[u])
}
