//! The writer of the codes of coefficients.
ghost use Rattle.std.specs.Prelude.{◌≡◌, ◌+◌, ◌*◌, ◌<◌, false, int_lt, pos, unsigned_abs, get_or, IsTrue};
ghost use Rattle.mv_bits.specs.Bits.{digits, worth};
ghost use Rattle.mv_bits.specs.Writing.{Writes};
ghost use Rattle.mv_codes.specs.Coefficients.{coef_codes};
ghost use Rattle.mv_codes.specs.Spelled.{code_of, coefficient_bits, has_code, same_coef, twos_12};
ghost use Rattle.mv_codes.specs.declared.coefficient.Coef.TheVariants.{End, Pair};
ghost use Rattle.mv_codes.specs.Steps.{HoldsCode, coded_levels, escape_digits, has_one_bit, is_coded, level_place};

use mv_bits::{BitWriter, Put};

/// Writes a run of 0 to 63 and a level of -2047 to 2047: their code in Table B.15, or in Table B.14 for the first
/// coefficient of a non-intra block or not, and an escape where the table has none (H.262, 7.2.2).
#[inline(always)]
pub fn write_coefficient<P: Put>(
    run: u8,
    level: &i16,
    table_15: bool,
    first: bool,
    out: &mut BitWriter,
    to: &mut P,
)
    requires run { run < 64 }
    requires level { unsigned_abs level.now < 2048 }
    ensures { Writes P.stands to.old to.new out.old out.new
        (coefficient_bits (coef_codes table_15 first) run level.now) }
{
    if has_level(run, magnitude(level)) {
        write_level(run, level, table_15, first, out, to);
    } else {
        write_escape(run, level, out, to);
    }
}

/// Writes the end of a block, behind its first coefficient.
#[inline(always)]
pub fn write_end<P: Put>(table_15: bool, out: &mut BitWriter, to: &mut P)
    ensures { Writes P.stands to.old to.new out.old out.new
        (code_of (same_coef End) (coef_codes table_15 false)) }
{
    if table_15 {
        out.put(0b0110, 4, to);
    } else {
        out.put(0b10, 2, to);
    }
}

/// Writes an escape, and a run and a level behind it (H.262, 7.2.2.3).
fn write_escape<P: Put>(run: u8, level: &i16, out: &mut BitWriter, to: &mut P)
    requires run { run < 64 }
    requires level { unsigned_abs level.now < 2048 }
    ensures { Writes P.stands to.old to.new out.old out.new (escape_digits run level.now) }
{
    let escape_and_run = 64 + run as u32;
    out.put(escape_and_run * 4096 + twos_12(level), 24, to);
}

/// A level as a number of 12 bits in two's complement.
fn twos_12(level: &i16) -> u32
    requires { unsigned_abs level.now < 2048 }
    ensures value { result ≡ twos_12 level.now }
    ensures fits { result < 4096 }
{
    if *level < 0 {
        4096 - u32::from(level.unsigned_abs())
    } else {
        u32::from(level.unsigned_abs())
    }
}

/// Writes a run and a level that have a code.
#[inline(always)]
fn write_level<P: Put>(
    run: u8,
    level: &i16,
    table_15: bool,
    first: bool,
    out: &mut BitWriter,
    to: &mut P,
)
    requires { IsTrue (has_code (same_coef (Pair run level.now)) (coef_codes table_15 first)) }
    ensures { Writes P.stands to.old to.new out.old out.new
        (code_of (same_coef (Pair run level.now)) (coef_codes table_15 first)) }
{
    let magnitude = magnitude(level);
    let sign = sign_bit(level);
    if has_one_bit(run, magnitude, table_15, first) {
        out.put(2 + sign, 2, to);
        return;
    }
    let at = level_place(run, magnitude);
    if table_15 {
        put_level(&LEVEL_VALUES_15, &LEVEL_SIZES_15, at, sign, out, to);
    } else {
        put_level(&LEVEL_VALUES_14, &LEVEL_SIZES_14, at, sign, out, to);
    }
}

/// Puts the code at a place of these lists and the sign bit behind it.
#[inline(always)]
fn put_level<P: Put>(
    values: &[u16],
    sizes: &[u8],
    at: usize,
    sign: u32,
    out: &mut BitWriter,
    to: &mut P,
)
    requires there { HoldsCode values.now sizes.now at }
    requires sign { sign < 2 }
    ensures { Writes P.stands to.old to.new out.old out.new
        (digits (get_or sizes.now at 0 + 1) (2 * get_or values.now at 0 + sign)) }
{
    let value = 2 * values[at] as u32 + sign;
    let size = sizes[at] as u32 + 1;
    out.put(value, size, to);
}

/// The first coefficient of a non-intra block has a code of one bit for level 1 behind no zeros (note 2 of Table B.14).
fn has_one_bit(run: u8, magnitude: u16, table_15: bool, first: bool) -> bool
    ensures { result ≡ has_one_bit run magnitude table_15 first }
{
    !table_15 && (first && (run == 0 && magnitude == 1))
}

/// How many levels have a code behind so many zeros.
fn levels_of(run: u8) -> u16
    ensures { result ≡ get_or coded_levels run 0 }
{
    let run = run as usize;
    if run < 32 { LEVELS[run] as u16 } else { 0 }
}

fn has_level(run: u8, magnitude: u16) -> bool
    ensures { result ≡ is_coded run magnitude }
{
    0 < magnitude && magnitude <= levels_of(run)
}

/// The place of a run and a magnitude among the codes by run and level.
fn level_place(run: u8, magnitude: u16) -> usize
    requires { IsTrue (is_coded run magnitude) }
    ensures { result ≡ level_place run magnitude }
{
    BEFORE[run as usize] as usize + magnitude as usize - 1
}

fn magnitude(level: &i16) -> u16
    ensures { result ≡ unsigned_abs level.now }
{
    level.unsigned_abs()
}

fn sign_bit(level: &i16) -> u32
    ensures value { result ≡ worth (int_lt level.now (pos 0)) }
    ensures bound { result < 2 }
{
    if *level < 0 { 1 } else { 0 }
}

/// How many levels have a code behind so many zeros.
#[rattlefmt::skip]
const LEVELS: [u8; 32] = [
    40, 18, 5, 4, 3, 3, 3, 2, 2, 2, 2, 2, 2, 2, 2, 2,
    2, 1, 1, 1, 1, 1, 1, 1, 1, 1, 1, 1, 1, 1, 1, 1,
];

/// How many codes stand before those behind so many zeros.
#[rattlefmt::skip]
const BEFORE: [u8; 32] = [
    0, 40, 58, 63, 67, 70, 73, 76, 78, 80, 82, 84, 86, 88, 90, 92,
    94, 96, 97, 98, 99, 100, 101, 102, 103, 104, 105, 106, 107, 108, 109, 110,
];

/// Table B.14 without sign bits, by run and level.
#[rattlefmt::skip]
const LEVEL_VALUES_14: [u16; 111] = [
    3, 4, 5, 6, 38, 33, 10, 29, 24, 19, 16, 26, 25, 24, 23, 31, 30, 29, 28, 27,
    26, 25, 24, 23, 22, 21, 20, 19, 18, 17, 16, 24, 23, 22, 21, 20, 19, 18, 17, 16,
    3, 6, 37, 12, 27, 22, 21, 31, 30, 29, 28, 27, 26, 25, 19, 18, 17, 16, 5, 4,
    11, 20, 20, 7, 36, 28, 19, 6, 15, 18, 7, 9, 18, 5, 30, 20, 4, 21, 7, 17,
    5, 17, 39, 16, 35, 26, 34, 25, 32, 24, 14, 23, 13, 22, 8, 21, 31, 26, 25, 23,
    22, 31, 30, 29, 28, 27, 31, 30, 29, 28, 27,
];

#[rattlefmt::skip]
const LEVEL_SIZES_14: [u8; 111] = [
    2, 4, 5, 7, 8, 8, 10, 12, 12, 12, 12, 13, 13, 13, 13, 14, 14, 14, 14, 14,
    14, 14, 14, 14, 14, 14, 14, 14, 14, 14, 14, 15, 15, 15, 15, 15, 15, 15, 15, 15,
    3, 6, 8, 10, 12, 13, 13, 15, 15, 15, 15, 15, 15, 15, 16, 16, 16, 16, 4, 7,
    10, 12, 13, 5, 8, 12, 13, 5, 10, 12, 6, 10, 13, 6, 12, 16, 6, 12, 7, 12,
    7, 13, 8, 13, 8, 16, 8, 16, 8, 16, 10, 16, 10, 16, 10, 16, 12, 12, 12, 12,
    12, 13, 13, 13, 13, 13, 16, 16, 16, 16, 16,
];

/// Table B.15 without sign bits, by run and level.
#[rattlefmt::skip]
const LEVEL_VALUES_15: [u16; 111] = [
    2, 6, 7, 28, 29, 5, 4, 123, 124, 35, 34, 250, 251, 254, 255, 31, 30, 29, 28, 27,
    26, 25, 24, 23, 22, 21, 20, 19, 18, 17, 16, 24, 23, 22, 21, 20, 19, 18, 17, 16,
    2, 6, 121, 39, 32, 22, 21, 31, 30, 29, 28, 27, 26, 25, 19, 18, 17, 16, 5, 7,
    252, 12, 20, 7, 38, 28, 19, 6, 253, 18, 7, 4, 18, 6, 30, 20, 4, 21, 5, 17,
    120, 17, 122, 16, 33, 26, 37, 25, 36, 24, 5, 23, 7, 22, 13, 21, 31, 26, 25, 23,
    22, 31, 30, 29, 28, 27, 31, 30, 29, 28, 27,
];

#[rattlefmt::skip]
const LEVEL_SIZES_15: [u8; 111] = [
    2, 3, 4, 5, 5, 6, 6, 7, 7, 8, 8, 8, 8, 8, 8, 14, 14, 14, 14, 14,
    14, 14, 14, 14, 14, 14, 14, 14, 14, 14, 14, 15, 15, 15, 15, 15, 15, 15, 15, 15,
    3, 5, 7, 8, 8, 13, 13, 15, 15, 15, 15, 15, 15, 15, 16, 16, 16, 16, 5, 7,
    8, 10, 13, 5, 8, 12, 13, 6, 8, 12, 6, 9, 13, 7, 12, 16, 7, 12, 7, 12,
    7, 13, 7, 13, 8, 16, 8, 16, 8, 16, 9, 16, 9, 16, 10, 16, 12, 12, 12, 12,
    12, 13, 13, 13, 13, 13, 16, 16, 16, 16, 16,
];
