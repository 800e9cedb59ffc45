//! `mv_quant`: blocks whose values were computed from the standard's formulas with exact integers, outside.
ghost use Rattle.std.specs.Prelude.{◌≤◌};

use crate::comparison::same;
use mv_quant::{Kind, dequantise, nearest, scale_value};

#[rattlefmt::skip]
const LEVELS: [i16; 64] = [
    -300, -1, 2047, 2, 0, 2047, -2, 2047,
    -2047, 7, -17, 0, -2, 5, 0, 1,
    -2047, 0, 7, 0, 0, 2, 5, -2,
    1, -3, -17, 0, 40, 1, 0, 2047,
    1, -3, -1, 0, 7, -2, 0, -3,
    0, 0, 0, 0, 0, 40, 40, 5,
    0, 0, 0, -2, 0, 1, 0, 1,
    0, -2, 0, -1, 2, 1, -17, -5,
];

#[rattlefmt::skip]
const MATRIX: [u8; 64] = [
    8, 16, 19, 22, 26, 27, 29, 34,
    16, 16, 22, 24, 27, 29, 34, 37,
    19, 22, 26, 27, 29, 34, 34, 38,
    22, 22, 26, 27, 29, 34, 37, 40,
    22, 26, 27, 29, 32, 35, 40, 48,
    26, 27, 29, 32, 35, 40, 48, 58,
    26, 27, 29, 34, 38, 46, 56, 69,
    27, 29, 35, 38, 46, 56, 69, 83,
];

// Scale 14, intra, precision 2: the first level times 2. The sum of the values is even.
#[rattlefmt::skip]
const INTRA: [i16; 64] = [
    -600, -14, 2047, 38, 0, 2047, -50, 2047,
    -2048, 98, -327, 0, -47, 126, 0, 32,
    -2048, 0, 159, 0, 0, 59, 148, -66,
    19, -57, -386, 0, 1015, 29, 0, 2047,
    19, -68, -23, 0, 196, -61, 0, -126,
    0, 0, 0, 0, 0, 1400, 1680, 253,
    0, 0, 0, -59, 0, 40, 0, 60,
    0, -50, 0, -33, 80, 49, -1026, -364,
];

// The same levels, scale and matrix in a non-intra block. The sum of the values is odd.
#[rattlefmt::skip]
const NON_INTRA: [i16; 64] = [
    -2048, -21, 2047, 48, 0, 2047, -63, 2047,
    -2048, 105, -336, 0, -59, 139, 0, 48,
    -2048, 0, 170, 0, 0, 74, 163, -83,
    28, -67, -398, 0, 1027, 44, 0, 2047,
    28, -79, -35, 0, 210, -76, 0, -147,
    0, 0, 0, 0, 0, 1417, 1701, 279,
    0, 0, 0, -74, 0, 60, 0, 90,
    0, -63, 0, -49, 100, 73, -1056, -399,
];

const FLAT: Kind = Kind {
    intra: true,
    scale: 16,
    dc_precision: 0,
    matrix: [16; 64],
};

const WEIGHTED: Kind = Kind {
    intra: true,
    scale: 14,
    dc_precision: 2,
    matrix: MATRIX,
};

#[test]
fn levels_of_an_intra_block(rt: HostRuntime) {
    same(&rt, &dequantise(&LEVELS, &WEIGHTED), &INTRA);
}

#[test]
fn levels_of_a_non_intra_block(rt: HostRuntime) {
    let kind = Kind {
        intra: false,
        ..WEIGHTED
    };
    same(&rt, &dequantise(&LEVELS, &kind), &NON_INTRA);
}

#[test]
fn small_levels_of_the_finest_scale_vanish(rt: HostRuntime) {
    let kind = Kind {
        intra: false,
        scale: 2,
        dc_precision: 0,
        matrix: [1; 64],
    };
    for level in 0..9 {
        let mut levels = [0; 64];
        levels[9] = level;
        same(&rt, &dequantise(&levels, &kind)[9], &(level / 8));
    }
}

#[test]
fn grey_at_each_precision(rt: HostRuntime) {
    let mut grey = [0; 64];
    grey[0] = 1024;
    grey[63] = 1;
    for dc_precision in 0..4 {
        let mut levels = [0; 64];
        levels[0] = 128 << dc_precision;
        let kind = Kind {
            scale: 2,
            dc_precision,
            ..FLAT
        };
        same(&rt, &dequantise(&levels, &kind), &grey);
    }
}

#[test]
fn scales_of_codes(rt: HostRuntime) {
    same(&rt, &scale_value(8, false), &16);
    same(&rt, &scale_value(8, true), &8);
    same(&rt, &scale_value(9, true), &10);
    same(&rt, &scale_value(24, true), &56);
    same(&rt, &scale_value(31, true), &112);
    same(&rt, &scale_value(31, false), &62);
}

// A block of these values and zeros.
fn block_of(first: [i16; 8], last: i16) -> [i16; 64] {
    let mut block = [0; 64];
    block[..8].copy_from_slice(&first);
    block[63] = last;
    block
}

// Levels from the formulas by trying all of them, outside: ties go to the smaller one, and values are saturated.
#[test]
fn nearest_levels_of_an_intra_block(rt: HostRuntime) {
    let coefficients = block_of([1023, 9, 8, -9, -8, 24, 2047, -2048], 9);
    let levels = block_of([128, 1, 0, -1, 0, 1, 128, -128], 1);
    let found = nearest(&coefficients, &FLAT);
    same(&rt, &found, &levels);
}

#[test]
fn nearest_levels_of_a_non_intra_block(rt: HostRuntime) {
    let coefficients = block_of([4, 1, 2, -4, 3, 32767, 2047, -2048], 2);
    let levels = block_of([1, 0, 1, -1, 1, 1023, 1023, -1024], 1);
    let kind = Kind {
        intra: false,
        scale: 2,
        ..FLAT
    };
    let found = nearest(&coefficients, &kind);
    same(&rt, &found, &levels);
}

// Many levels have one value here.
#[test]
fn nearest_levels_of_the_finest_scale(rt: HostRuntime) {
    let coefficients = block_of([8, 1, 2, -3, 127, 128, 2047, -2048], 0);
    let levels = block_of([1, 16, 32, -48, 2032, 2032, 2032, -2032], 0);
    let kind = Kind {
        scale: 1,
        matrix: [1; 64],
        ..FLAT
    };
    let found = nearest(&coefficients, &kind);
    same(&rt, &found, &levels);
}

/// The first of the levels nearest to a first coefficient, all others of which are 0.
fn nearest_first_level(coefficient: i16, dc_precision: u8) -> i16
    requires { dc_precision ≤ 3 }
{
    let coefficients = block_of([coefficient, 0, 0, 0, 0, 0, 0, 0], 0);
    let kind = Kind {
        dc_precision,
        ..FLAT
    };
    nearest(&coefficients, &kind)[0]
}

#[test]
fn nearest_first_levels_at_each_precision(rt: HostRuntime) {
    let in_range = [128, 256, 511, 1023];
    let greatest = [255, 511, 1023, 2047];
    for dc_precision in 0..4u8 {
        let at = usize::from(dc_precision);
        for (coefficient, level) in [(1023, in_range[at]), (32767, greatest[at]), (-5, 0)] {
            same(&rt, &nearest_first_level(coefficient, dc_precision), &level);
        }
    }
}
