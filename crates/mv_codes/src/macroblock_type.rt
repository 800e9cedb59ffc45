//! The types of macroblocks.
ghost use Rattle.mv_codes.specs.Tables.{Reads, ReadsWhatever};
ghost use Rattle.mv_codes.specs.Types.{type_codes};

use crate::code::{Code, read};
use crate::look_up::{NO_LONG, SHORT_TYPES_B, SHORT_TYPES_I, SHORT_TYPES_P};
use mv_bits::BitWindow;
use mv_terms::PicType;

/// The flags of `macroblock_type` (H.262, 6.3.17.1).
#[derive(Clone, Copy, Debug, PartialEq, Eq)]
pub struct TypeBits {
    pub quant: bool,
    pub forward: bool,
    pub backward: bool,
    pub pattern: bool,
    pub intra: bool,
}

/// Reads the type of a macroblock of a picture of this type (H.262, Tables B.2 to B.4).
pub fn read_type(w: &mut BitWindow<'_>, pic: PicType) -> Option<TypeBits>
    ensures reads { Reads (type_codes pic) w.old w.new result }
    ensures whatever { ReadsWhatever (type_codes pic) w.old w.new result }
{
    match pic {
        PicType::I => read(&TYPES_I, &SHORT_TYPES_I, NO_LONG, w),
        PicType::P => read(&TYPES_P, &SHORT_TYPES_P, NO_LONG, w),
        PicType::B => read(&TYPES_B, &SHORT_TYPES_B, NO_LONG, w),
    }
}

/// Rows of a table of types: the value and the size of a code, and the flags in the order of `TypeBits`.
macro_rules! types {
    ($(($value:literal, $size:literal) => $quant:literal $forward:literal $backward:literal $pattern:literal $intra:literal),* $(,)?) => {
        [$(Code {
            value: $value,
            size: $size,
            meaning: TypeBits { quant: $quant, forward: $forward, backward: $backward, pattern: $pattern, intra: $intra },
        }),*]
    };
}

const TYPES_I: [Code<TypeBits>; 2] = types![
    (0b1, 1) => false false false false true,
    (0b01, 2) => true false false false true,
];

const TYPES_P: [Code<TypeBits>; 7] = types![
    (0b1, 1) => false true false true false,
    (0b01, 2) => false false false true false,
    (0b001, 3) => false true false false false,
    (0b0001_1, 5) => false false false false true,
    (0b0001_0, 5) => true true false true false,
    (0b0000_1, 5) => true false false true false,
    (0b0000_01, 6) => true false false false true,
];

const TYPES_B: [Code<TypeBits>; 11] = types![
    (0b10, 2) => false true true false false,
    (0b11, 2) => false true true true false,
    (0b010, 3) => false false true false false,
    (0b011, 3) => false false true true false,
    (0b0010, 4) => false true false false false,
    (0b0011, 4) => false true false true false,
    (0b0001_1, 5) => false false false false true,
    (0b0001_0, 5) => true true true true false,
    (0b0000_11, 6) => true true false true false,
    (0b0000_10, 6) => true false true true false,
    (0b0000_01, 6) => true false false false true,
];
