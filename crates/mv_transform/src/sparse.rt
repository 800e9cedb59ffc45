//! The inverse of a block whose coefficients but the first are few and small: rows of zeros are passed over, and all
//! sums but that of the first coefficient fit 32 bits. Even and odd rows are summed apart, and above the middle
//! alone: both sums give the place and the place that mirrors it. A lone last coefficient of 1, which mismatch
//! control leaves in many blocks (H.262, 7.4.4), begins the odd sums by a table.

ghost use Rattle.std.specs.Prelude.{◌≡◌, ℕ, ◌+◌, ◌-◌, ◌*◌, ◌/◌, ◌%◌, ◌^◌, ◌<◌, ◌≤◌, ◌==◌, pos, ◌+ℤ◌, ◌-ℤ◌, ◌*ℤ◌, ◌≤ℤ◌, IsTrue, unsigned_abs};
ghost use Rattle.std.specs.Int.{int_shr};
ghost use Rattle.std.specs.List.{list_all};
ghost use Rattle.mv_terms.specs.Block.{item, entry};
ghost use Rattle.mv_transform.specs.Basis.{basis};
ghost use Rattle.mv_transform.specs.Lines.{inverse_line, even_part, odd_part};
ghost use Rattle.mv_transform.specs.Steps.{without_first, total_size, line_size, even_size, odd_size, largest_total, largest_sum, first_weight, IsLoneLast};
ghost use Rattle.mv_transform.specs.Transform.{inverse_sum, saturated, rounded};

use super::inverse_lines::inverse_of_line;
use super::parts::saturated_value;
use super::passes::row_of;
use super::signed::{minus, plus, product};
use super::weights::weight;

/// The inverse of a block whose coefficients but the first, which stand apart in `others`, are few and small.
pub fn inverse_of_sparse(c: &[i16; 64], others: &[i16; 64]) -> [i16; 64]
    requires { total_size (entry others.now) ≤ largest_total }
    ensures { (k : ℕ) → k < 64 → item result k ≡ saturated (rounded
        (pos first_weight *ℤ item c.now 0 +ℤ inverse_sum (entry others.now) (k / 8) (k % 8))) }
{
    let sums = sums_of_rows(others);
    let whole = first_sum(first_of(c));
    let high = high_of(whole);
    let low = low_of(whole, high);
    let mut samples = [0; 64];
    'places: for place in 0..64 {
        samples[place] = saturated_value(finished(high, low, sum_at(&sums, place)));
    }
    samples
}

/// Whether the coefficients that `others` has beside the first are few and small.
pub fn is_sparse(others: &[i16; 64]) -> bool
    ensures { IsTrue result → total_size (entry others.now) ≤ largest_total }
{
    total_size(others) <= 124
}

/// The block with 0 for its first coefficient.
pub fn without_first(c: &[i16; 64]) -> [i16; 64]
    ensures { (k : ℕ) → k < 64 → item result k ≡ without_first (item c.now) k }
{
    let mut others = *c;
    others[0] = 0;
    others
}

// The sum of all absolute values.
#[tactic(auto, using(crate::proofs::TotalLemmas::totals))]
fn total_size(block: &[i16; 64]) -> u32
    ensures { result ≡ total_size (entry block.now) }
{
    let mut total = 0;
    'places: for k in 0..64 {
        total += size_at(block, k);
    }
    total
}

fn size_at(block: &[i16; 64], k: usize) -> u32
    requires { k < 64 }
    ensures value { result ≡ unsigned_abs (item block.now k) }
    ensures size { result ≤ 2 ^ 15 }
{
    u32::from(block[k].unsigned_abs())
}

// The sums of a small block.
fn sums_of_rows(block: &[i16; 64]) -> [i32; 64]
    requires { total_size (entry block.now) ≤ largest_total }
    ensures value { (k : ℕ) → k < 64 →
        item result k ≡ inverse_sum (entry block.now) (k / 8) (k % 8) }
    ensures size { (k : ℕ) → k < 64 → unsigned_abs (item result k) ≤ largest_sum }
{
    unfolded(&sums_of_even_rows(block), &sums_of_odd_rows(block))
}

// What the even rows give above the middle.
fn sums_of_even_rows(block: &[i16; 64]) -> [i32; 32]
    requires { total_size (entry block.now) ≤ largest_total }
    ensures value { (y x : ℕ) → y < 4 → x < 8 →
        entry result y x ≡ even_part (λ v. inverse_line (entry block.now v) x) y }
    ensures size { (y x : ℕ) → y < 4 → x < 8 →
        unsigned_abs (entry result y x) ≤ 2 ^ 24 * even_size (entry block.now) }
{
    let mut sums = [0; 32];
    'rows: for k in 0..4 {
        add_line(&mut sums, 2 * k, &row_of(block, 2 * k));
    }
    sums
}

// What the odd rows give above the middle, the last row first.
fn sums_of_odd_rows(block: &[i16; 64]) -> [i32; 32]
    requires { total_size (entry block.now) ≤ largest_total }
    ensures value { (y x : ℕ) → y < 4 → x < 8 →
        entry result y x ≡ odd_part (λ v. inverse_line (entry block.now v) x) y }
    ensures size { (y x : ℕ) → y < 4 → x < 8 →
        unsigned_abs (entry result y x) ≤ 2 ^ 24 * odd_size (entry block.now) }
{
    let mut sums = sums_of_last_row(&row_of(block, 7));
    'rows: for k in 0..3 {
        add_line(&mut sums, 2 * k + 1, &row_of(block, 2 * k + 1));
    }
    sums
}

// The sums at all places by those above the middle: an odd row changes its sign there.
fn unfolded(even: &[i32; 32], odd: &[i32; 32]) -> [i32; 64]
    requires { (y x : ℕ) → y < 4 → x < 8 →
        unsigned_abs (entry even.now y x) + unsigned_abs (entry odd.now y x) ≤ largest_sum }
    ensures above { (y x : ℕ) → y < 4 → x < 8 →
        entry result y x ≡ entry even.now y x +ℤ entry odd.now y x }
    ensures below { (y x : ℕ) → y < 4 → x < 8 →
        entry result (7 - y) x ≡ entry even.now y x -ℤ entry odd.now y x }
{
    let mut sums = [0; 64];
    'rows: for y in 0..4 {
        'places: for x in 0..8 {
            let even_sum = half_sum_at(even, 8 * y + x);
            let odd_sum = half_sum_at(odd, 8 * y + x);
            sums[8 * y + x] = plus(even_sum, odd_sum);
            sums[8 * (7 - y) + x] = minus(even_sum, odd_sum);
        }
    }
    sums
}

// What a block of which only the last row isn't zero gives above the middle.
fn sums_of_last_row(line: &[i16; 8]) -> [i32; 32]
    requires { line_size (item line.now) ≤ largest_total }
    ensures { (k : ℕ) → k < 32 →
        item result k ≡ basis 7 (k / 8) *ℤ inverse_line (item line.now) (k % 8) }
{
    if is_lone_last(line) {
        return LAST_IMAGE;
    }
    let mut sums = [0; 32];
    add_line(&mut sums, 7, line);
    sums
}

// Adds the inverse of row v of a block above the middle, each sum times the weight of v at its place in a column.
// Inlined, its test reads a row that never leaves a vector.
#[inline(always)]
fn add_line(sums: &mut [i32; 32], v: usize, line: &[i16; 8])
    requires row { v < 8 }
    requires fits { (k : ℕ) → k < 32 → unsigned_abs (item sums.old k)
        + 4096 * unsigned_abs (inverse_line (item line.now) (k % 8)) ≤ largest_sum }
    ensures { (k : ℕ) → k < 32 → item sums.new k ≡
        item sums.old k +ℤ basis v (k / 8) *ℤ inverse_line (item line.now) (k % 8) }
{
    if is_zero(line) {
        return;
    }
    add_row(sums, v, &inverse_of_line(line));
}

// Adds the sums of row v above the middle, each times the weight of v at its place in a column. It works on a copy of
// the row, since LLVM then sees that no sum lies in it.
#[inline(never)]
fn add_row(sums: &mut [i32; 32], v: usize, line: &[i32; 8])
    requires row { v < 8 }
    requires fits { (k : ℕ) → k < 32 → unsigned_abs (item sums.old k)
        + 4096 * unsigned_abs (item line.now (k % 8)) ≤ largest_sum }
    ensures { (k : ℕ) → k < 32 → item sums.new k ≡
        item sums.old k +ℤ basis v (k / 8) *ℤ item line.now (k % 8) }
{
    let values = *line;
    'rows: for y in 0..4 {
        let weight = weight(v, y);
        'places: for x in 0..8 {
            let k = 8 * y + x;
            sums[k] = plus_term(half_sum_at(sums, k), weight, line_at(&values, x));
        }
    }
}

fn is_zero(line: &[i16; 8]) -> bool
    ensures { result ≡ list_all (λ value. unsigned_abs value == 0) line.now }
{
    line.iter().all(|value| value.unsigned_abs() == 0)
}

fn plus_term(sum: i32, weight: i32, value: i32) -> i32
    requires weight { unsigned_abs weight ≤ 2 ^ 12 }
    requires fits { unsigned_abs sum + 4096 * unsigned_abs value ≤ largest_sum }
    ensures { result ≡ sum +ℤ weight *ℤ value }
{
    plus(sum, product(weight, value))
}

fn line_at(line: &[i32; 8], x: usize) -> i32
    requires { x < 8 }
    ensures { result ≡ item line.now x }
{
    line[x]
}

fn sum_at(sums: &[i32; 64], k: usize) -> i32
    requires { k < 64 }
    ensures { result ≡ item sums.now k }
{
    sums[k]
}

fn half_sum_at(sums: &[i32; 32], k: usize) -> i32
    requires { k < 32 }
    ensures { result ≡ item sums.now k }
{
    sums[k]
}

fn first_of(c: &[i16; 64]) -> i16
    ensures { result ≡ item c.now 0 }
{
    c[0]
}

// What the first coefficient adds to every sum, with the rounding, in units of 2^-26.
fn first_sum(first: i16) -> i64
    ensures value { result ≡ pos first_weight *ℤ first +ℤ pos (2 ^ 25) }
    ensures size { unsigned_abs result ≤ 2 ^ 38 + 2 ^ 25 }
{
    8_386_816 * i64::from(first) + 0x200_0000
}

fn high_of(sum: i64) -> i32
    requires { unsigned_abs sum ≤ 2 ^ 38 + 2 ^ 25 }
    ensures value { result ≡ int_shr sum 26 }
    ensures size { unsigned_abs result ≤ 2 ^ 13 }
{
    (sum >> 26) as i32
}

fn low_of(sum: i64, high: i32) -> i32
    requires high { high ≡ int_shr sum 26 }
    requires size { unsigned_abs sum ≤ 2 ^ 38 + 2 ^ 25 }
    ensures value { result ≡ sum -ℤ pos (2 ^ 26) *ℤ high }
    ensures low { pos 0 ≤ℤ result }
    ensures small { unsigned_abs result < 2 ^ 26 }
{
    (sum - 0x400_0000 * i64::from(high)) as i32
}

fn finished(high: i32, low: i32, sum: i32) -> i32
    requires high { unsigned_abs high ≤ 2 ^ 13 }
    requires low { unsigned_abs low < 2 ^ 26 }
    requires sum { unsigned_abs sum ≤ largest_sum }
    ensures { result ≡ high +ℤ int_shr (low +ℤ sum) 26 }
{
    plus(high, plus(low, sum) >> 26)
}

// Whether the last value is 1 and all others are 0.
fn is_lone_last(line: &[i16; 8]) -> bool
    ensures { IsTrue result → IsLoneLast (item line.now) }
{
    if !is_one(last_of(line)) {
        return false;
    }
    size_of_line(line) == 1
}

fn is_one(value: i16) -> bool
    ensures { IsTrue result → value ≡ pos 1 }
{
    value == 1
}

fn last_of(line: &[i16; 8]) -> i16
    ensures { result ≡ item line.now 7 }
{
    line[7]
}

#[tactic(auto, using(crate::proofs::TotalLemmas::totals))]
fn size_of_line(line: &[i16; 8]) -> u32
    ensures { result ≡ line_size (item line.now) }
{
    let mut total = 0;
    'places: for u in 0..8 {
        total += size_in_line(line, u);
    }
    total
}

fn size_in_line(line: &[i16; 8], u: usize) -> u32
    requires { u < 8 }
    ensures value { result ≡ unsigned_abs (item line.now u) }
    ensures size { result ≤ 2 ^ 15 }
{
    u32::from(line[u].unsigned_abs())
}

// What a last coefficient of 1 gives above the middle: the weights of frequency 7 at the row and at the column.
#[rattlefmt::skip]
const LAST_IMAGE: [i32; 32] = [
       638401,  -1818524,   2721394,  -3209583,   3209583,  -2721394,   1818524,   -638401,
     -1818524,   5180176,  -7752056,   9142692,  -9142692,   7752056,  -5180176,   1818524,
      2721394,  -7752056,  11600836, -13681902,  13681902, -11600836,   7752056,  -2721394,
     -3209583,   9142692, -13681902,  16136289, -16136289,  13681902,  -9142692,   3209583,
];
