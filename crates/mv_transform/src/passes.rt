//! Both dimensions: each pass transforms the rows of a block and turns the block, so that the second pass
//! transforms what were its columns and turns it back.

ghost use Rattle.std.specs.Prelude.{◌≡◌, ℕ, ◌+◌, ◌*◌, ◌<◌, ◌≤◌, ◌^◌, unsigned_abs};
ghost use Rattle.mv_terms.specs.Block.{item, entry, IsWithin, IsSameBlock};
ghost use Rattle.mv_transform.specs.Lines.{inverse_line, forward_line};

use super::forward_lines::forward_of_line;
use super::inverse_lines::inverse_of_line;

/// Puts the inverse of each row into a column. Inlined, its rows become vectors, since LLVM then sees that the two
/// arrays lie apart.
#[inline(always)]
pub fn inverse_of_rows(block: &[i16; 64], turned: &mut [i32; 64])
    ensures small { IsWithin (2 ^ 15) (entry block.now) }
    ensures value { (x v : ℕ) → x < 8 → v < 8
        → entry turned.new x v ≡ inverse_line (entry block.now v) x }
{
    for row in 0..8 {
        let line = inverse_of_line(&row_of(block, row));
        for k in 0..8 {
            turned[8 * k + row] = line[k];
        }
    }
}

/// Puts the forward transform of each row into a column.
pub fn forward_of_rows(block: &[i64; 64], turned: &mut [i64; 64])
    requires { IsWithin (2 ^ 30) (entry block.now) }
    ensures { (u y : ℕ) → u < 8 → y < 8
        → entry turned.new u y ≡ forward_line (entry block.now y) u }
{
    for row in 0..8 {
        let line = forward_of_line(&wide_row_of(block, row));
        for k in 0..8 {
            turned[8 * k + row] = line[k];
        }
    }
}

/// The block with room for sums.
pub fn widened(block: &[i16; 64]) -> [i64; 64]
    ensures same { IsSameBlock (entry result) (entry block.now) }
    ensures small { IsWithin (2 ^ 15) (entry result) }
{
    let mut wide = [0; 64];
    for k in 0..64 {
        wide[k] = i64::from(item_at(block, k));
    }
    wide
}

pub fn row_of(block: &[i16; 64], row: usize) -> [i16; 8]
    requires { row < 8 }
    ensures same { (k : ℕ) → k < 8 → item result k ≡ entry block.now row k }
    ensures small { (k : ℕ) → k < 8 → unsigned_abs (entry block.now row k) ≤ 2 ^ 15 }
{
    let mut line = [0; 8];
    for k in 0..8 {
        line[k] = item_at(block, 8 * row + k);
    }
    line
}

fn wide_row_of(block: &[i64; 64], row: usize) -> [i64; 8]
    requires { row < 8 }
    ensures { (k : ℕ) → k < 8 → item result k ≡ entry block.now row k }
{
    let mut line = [0; 8];
    for k in 0..8 {
        line[k] = block[8 * row + k];
    }
    line
}

fn item_at(block: &[i16; 64], k: usize) -> i16
    requires { k < 64 }
    ensures value { result ≡ item block.now k }
    ensures size { unsigned_abs result ≤ 2 ^ 15 }
{
    block[k]
}
