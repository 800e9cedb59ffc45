//! Writers of the codes but those of coefficients.
ghost use Rattle.std.specs.Prelude.{◌≡◌, ◌<◌, ◌≤◌, ◌≤ℤ◌, ◌+ℤ◌, pos, neg_ℤ, get_or, IsTrue};
ghost use Rattle.mv_bits.specs.Bits.{digits, worth};
ghost use Rattle.mv_bits.specs.Writing.{Writes};
ghost use Rattle.mv_codes.specs.Spelled.{code_of, has_code, same_increment, same_integer, same_number, same_type};
ghost use Rattle.mv_codes.specs.Steps.{HoldsCode, flags_place, increment_place};
ghost use Rattle.mv_codes.specs.Increments.{increment_codes};
ghost use Rattle.mv_codes.specs.Motions.{motion_codes};
ghost use Rattle.mv_codes.specs.Patterns.{pattern_codes};
ghost use Rattle.mv_codes.specs.Sizes.{dc_size_codes};
ghost use Rattle.mv_codes.specs.Types.{type_codes};

use crate::increment::Increment;
use crate::macroblock_type::TypeBits;
use mv_bits::{BitWriter, Put};
use mv_terms::PicType;

/// Writes a step of an address increment, 1 to 33 or the escape (H.262, 6.2.5 and Table B.1).
pub fn write_increment<P: Put>(v: Increment, out: &mut BitWriter, to: &mut P)
    requires { IsTrue (has_code (same_increment v) increment_codes) }
    ensures { Writes P.stands to.old to.new out.old out.new
        (code_of (same_increment v) increment_codes) }
{
    let at = increment_place(v);
    put_code(&INCREMENT_VALUES, &INCREMENT_SIZES, at, out, to);
}

/// Writes the type of a macroblock, one that pictures of this type have (H.262, Tables B.2 to B.4).
pub fn write_type<P: Put>(v: TypeBits, pic: PicType, out: &mut BitWriter, to: &mut P)
    requires { IsTrue (has_code (same_type v) (type_codes pic)) }
    ensures { Writes P.stands to.old to.new out.old out.new
        (code_of (same_type v) (type_codes pic)) }
{
    let at = flags_place(v);
    match pic {
        PicType::I => put_code(&TYPE_I_VALUES, &TYPE_I_SIZES, at, out, to),
        PicType::P => put_code(&TYPE_P_VALUES, &TYPE_P_SIZES, at, out, to),
        PicType::B => put_code(&TYPE_B_VALUES, &TYPE_B_SIZES, at, out, to),
    }
}

/// Writes the pattern of the blocks that are coded, below 64: bit 5, worth 32, is Y0, and then come Y1, Y2, Y3, Cb and
/// Cr (H.262, Table B.9).
pub fn write_pattern<P: Put>(v: u8, out: &mut BitWriter, to: &mut P)
    requires { IsTrue (has_code (same_number v) pattern_codes) }
    ensures { Writes P.stands to.old to.new out.old out.new
        (code_of (same_number v) pattern_codes) }
{
    put_code(&PATTERN_VALUES, &PATTERN_SIZES, v as usize, out, to);
}

/// Writes a motion code, -16 to 16 (H.262, Table B.10).
pub fn write_motion<P: Put>(v: i8, out: &mut BitWriter, to: &mut P)
    requires { IsTrue (has_code (same_integer v) motion_codes) }
    ensures { Writes P.stands to.old to.new out.old out.new
        (code_of (same_integer v) motion_codes) }
{
    let at = motion_place(v);
    put_code(&MOTION_VALUES, &MOTION_SIZES, at, out, to);
}

/// Writes the size of a DC difference in bits, 0 to 11 (H.262, Tables B.12 and B.13).
pub fn write_dc_size<P: Put>(v: u8, luma: bool, out: &mut BitWriter, to: &mut P)
    requires { IsTrue (has_code (same_number v) (dc_size_codes luma)) }
    ensures { Writes P.stands to.old to.new out.old out.new
        (code_of (same_number v) (dc_size_codes luma)) }
{
    if luma {
        put_code(&LUMA_SIZE_VALUES, &LUMA_SIZE_SIZES, v as usize, out, to);
    } else {
        put_code(&CHROMA_SIZE_VALUES, &CHROMA_SIZE_SIZES, v as usize, out, to);
    }
}

/// Puts the code at a place of these lists.
#[inline(always)]
fn put_code<P: Put>(values: &[u16], sizes: &[u8], at: usize, out: &mut BitWriter, to: &mut P)
    requires { HoldsCode values.now sizes.now at }
    ensures { Writes P.stands to.old to.new out.old out.new
        (digits (get_or sizes.now at 0) (get_or values.now at 0)) }
{
    out.put(values[at] as u32, sizes[at] as u32, to);
}

fn increment_place(v: Increment) -> usize
    ensures { result ≡ increment_place v }
{
    match v {
        Increment::Step(n) => n as usize,
        Increment::Escape => 0,
    }
}

fn motion_place(v: i8) -> usize
    requires { (neg_ℤ (pos 16) ≤ℤ v) × (v ≤ℤ pos 16) }
    ensures { pos result ≡ v +ℤ pos 16 }
{
    (v as i32 + 16) as usize
}

fn flag_place(flag: bool) -> usize
    ensures value { result ≡ worth flag }
    ensures bound { result ≤ 1 }
{
    if flag { 1 } else { 0 }
}

fn flags_place(v: TypeBits) -> usize
    ensures { result ≡ flags_place v }
{
    flag_place(v.quant)
        + 2 * flag_place(v.forward)
        + 4 * flag_place(v.backward)
        + 8 * flag_place(v.pattern)
        + 16 * flag_place(v.intra)
}

/// Table B.1 by the step, the escape at place 0.
#[rattlefmt::skip]
const INCREMENT_VALUES: [u16; 34] = [
    8, 1, 3, 2, 3, 2, 3, 2, 7, 6, 11, 10, 9, 8, 7, 6, 23,
    22, 21, 20, 19, 18, 35, 34, 33, 32, 31, 30, 29, 28, 27, 26, 25, 24,
];

#[rattlefmt::skip]
const INCREMENT_SIZES: [u8; 34] = [
    11, 1, 3, 3, 4, 4, 5, 5, 7, 7, 8, 8, 8, 8, 8, 8, 10,
    10, 10, 10, 10, 10, 11, 11, 11, 11, 11, 11, 11, 11, 11, 11, 11, 11,
];

/// Table B.9 by the pattern.
#[rattlefmt::skip]
const PATTERN_VALUES: [u16; 64] = [
    1, 11, 9, 13, 13, 23, 19, 31, 12, 22, 18, 30, 19, 27, 23, 19,
    11, 21, 17, 29, 17, 25, 21, 17, 15, 15, 13, 3, 15, 11, 7, 7,
    10, 20, 16, 28, 14, 14, 12, 2, 16, 24, 20, 16, 14, 10, 6, 6,
    18, 26, 22, 18, 13, 9, 5, 5, 12, 8, 4, 4, 7, 10, 8, 12,
];

#[rattlefmt::skip]
const PATTERN_SIZES: [u8; 64] = [
    9, 5, 5, 6, 4, 7, 7, 8, 4, 7, 7, 8, 5, 8, 8, 8,
    4, 7, 7, 8, 5, 8, 8, 8, 6, 8, 8, 9, 5, 8, 8, 9,
    4, 7, 7, 8, 6, 8, 8, 9, 5, 8, 8, 8, 5, 8, 8, 9,
    5, 8, 8, 8, 5, 8, 8, 9, 5, 8, 8, 9, 3, 5, 5, 6,
];

/// Table B.10 by the code plus 16.
#[rattlefmt::skip]
const MOTION_VALUES: [u16; 33] = [
    25, 27, 29, 31, 33, 35, 19, 21, 23, 7, 9,
    11, 7, 3, 3, 3, 1, 2, 2, 2, 6, 10,
    8, 6, 22, 20, 18, 34, 32, 30, 28, 26, 24,
];

#[rattlefmt::skip]
const MOTION_SIZES: [u8; 33] = [
    11, 11, 11, 11, 11, 11, 10, 10, 10, 8, 8,
    8, 7, 5, 4, 3, 1, 3, 4, 5, 7, 8,
    8, 8, 10, 10, 10, 11, 11, 11, 11, 11, 11,
];

/// Table B.12 by the size.
#[rattlefmt::skip]
const LUMA_SIZE_VALUES: [u16; 12] = [
    4, 0, 1, 5, 6, 14, 30, 62, 126, 254, 510, 511,
];

#[rattlefmt::skip]
const LUMA_SIZE_SIZES: [u8; 12] = [
    3, 2, 2, 3, 3, 4, 5, 6, 7, 8, 9, 9,
];

/// Table B.13 by the size.
#[rattlefmt::skip]
const CHROMA_SIZE_VALUES: [u16; 12] = [
    0, 1, 2, 6, 14, 30, 62, 126, 254, 510, 1022, 1023,
];

#[rattlefmt::skip]
const CHROMA_SIZE_SIZES: [u8; 12] = [
    2, 2, 2, 3, 4, 5, 6, 7, 8, 9, 10, 10,
];

/// Table B.2 by the flags, of which quant is worth 1 and intra 16. No code has size 0.
#[rattlefmt::skip]
const TYPE_I_VALUES: [u16; 32] = [
    0, 0, 0, 0, 0, 0, 0, 0, 0, 0, 0, 0, 0, 0, 0, 0,
    1, 1, 0, 0, 0, 0, 0, 0, 0, 0, 0, 0, 0, 0, 0, 0,
];

#[rattlefmt::skip]
const TYPE_I_SIZES: [u8; 32] = [
    0, 0, 0, 0, 0, 0, 0, 0, 0, 0, 0, 0, 0, 0, 0, 0,
    1, 2, 0, 0, 0, 0, 0, 0, 0, 0, 0, 0, 0, 0, 0, 0,
];

/// Table B.3 by the flags.
#[rattlefmt::skip]
const TYPE_P_VALUES: [u16; 32] = [
    0, 0, 1, 0, 0, 0, 0, 0, 1, 1, 1, 2, 0, 0, 0, 0,
    3, 1, 0, 0, 0, 0, 0, 0, 0, 0, 0, 0, 0, 0, 0, 0,
];

#[rattlefmt::skip]
const TYPE_P_SIZES: [u8; 32] = [
    0, 0, 3, 0, 0, 0, 0, 0, 2, 5, 1, 5, 0, 0, 0, 0,
    5, 6, 0, 0, 0, 0, 0, 0, 0, 0, 0, 0, 0, 0, 0, 0,
];

/// Table B.4 by the flags.
#[rattlefmt::skip]
const TYPE_B_VALUES: [u16; 32] = [
    0, 0, 2, 0, 2, 0, 2, 0, 0, 0, 3, 3, 3, 2, 3, 2,
    3, 1, 0, 0, 0, 0, 0, 0, 0, 0, 0, 0, 0, 0, 0, 0,
];

#[rattlefmt::skip]
const TYPE_B_SIZES: [u8; 32] = [
    0, 0, 4, 0, 3, 0, 2, 0, 0, 0, 4, 6, 3, 6, 2, 5,
    5, 6, 0, 0, 0, 0, 0, 0, 0, 0, 0, 0, 0, 0, 0, 0,
];
