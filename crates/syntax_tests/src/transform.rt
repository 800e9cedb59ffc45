//! `mv_transform`: blocks whose values were computed from the rule of the weights with exact integers, outside, and drawn
//! blocks on which the fast and the plain calls must agree.

ghost use Rattle.std.specs.Prelude.{◌<◌, ◌≤◌, unsigned_abs};
ghost use Rattle.mv_terms.specs.Block.{entry, IsWithin};

use crate::comparison::same;
use mv_transform::{forward, inverse, plain_forward, plain_inverse};
use std::process::Abort;

#[rattlefmt::skip]
const SPARSE: [i16; 64] = [
    -381, 214, -33, 0, 0, 0, 0, 0,
    -96, 57, 0, 0, 0, 0, 0, 0,
    0, 18, 0, 0, 0, 0, 0, 0,
    0, 0, 0, 0, 0, 0, 0, 0,
    0, 0, 0, 0, 0, 0, 0, 0,
    0, 0, 0, 0, 0, 0, 0, 0,
    0, 0, 0, 0, 0, 0, 0, 0,
    0, 0, 0, 0, 0, 0, 0, 1,
];

#[rattlefmt::skip]
const SPARSE_INVERSE: [i16; 64] = [
    -15, -20, -31, -48, -70, -93, -113, -125,
    -17, -21, -31, -46, -66, -88, -107, -117,
    -19, -23, -30, -43, -60, -79, -96, -106,
    -21, -23, -29, -38, -53, -69, -84, -92,
    -19, -21, -25, -33, -45, -59, -72, -80,
    -16, -17, -20, -27, -38, -51, -64, -71,
    -12, -13, -16, -23, -33, -47, -59, -66,
    -9, -10, -13, -20, -31, -44, -57, -64,
];

#[rattlefmt::skip]
const FULL: [i16; 64] = [
    0, -2048, 45, -700, -8, -8, 45, -700,
    45, 45, -700, 45, -700, 0, 0, 2047,
    -700, 2047, -700, -700, 0, 311, -8, 0,
    -8, 45, 0, -700, 0, 45, 0, 311,
    -700, 0, 2047, -8, -8, -2048, 2047, -2048,
    -2048, -2048, -8, 2047, -700, -2048, 0, 0,
    2047, 2047, 2047, -700, -8, -700, 0, 311,
    311, 45, -2048, 0, 45, -8, 0, -700,
];

#[rattlefmt::skip]
const FULL_INVERSE: [i16; 64] = [
    -256, 255, 255, -256, -220, 69, -256, 255,
    -256, -256, 255, 255, 255, -256, 255, -256,
    -107, 255, 255, 255, 255, 179, 255, -62,
    -256, -256, -256, -256, -256, 255, 39, 255,
    -256, -256, -20, 255, -256, 255, -230, 255,
    255, 255, 255, 255, -215, -256, 255, 255,
    -256, -256, -256, 255, 255, 255, 213, -256,
    255, 255, -13, 255, -256, 44, -256, 255,
];

#[rattlefmt::skip]
const DIFFERENCES: [i16; 64] = [
    175, -217, 26, -195, -41, -91, -7, 67,
    216, -53, -21, 244, 49, 53, -40, -185,
    -84, -253, -119, -182, -112, 223, -52, 92,
    93, -103, -27, 185, -183, 61, -61, 4,
    -52, -164, -254, 110, -174, 78, -10, -53,
    129, 115, -72, -161, -108, -20, -220, -176,
    -141, -72, -238, -132, -14, 47, -123, 36,
    -243, -140, 24, 38, -152, -53, 5, -13,
];

#[rattlefmt::skip]
const DIFFERENCES_FORWARD: [i16; 64] = [
    -343, -74, 45, 167, 102, 158, 212, -207,
    195, 67, 59, 121, 129, 165, 136, 120,
    -1, -21, -1, -98, -3, -51, -14, 259,
    -47, 234, 143, 120, 54, -93, -70, 92,
    1, -96, 20, -195, 23, 214, -9, 8,
    -59, -121, 163, -14, 14, -151, 109, 76,
    -120, -28, 155, -28, -140, -108, 145, 133,
    -161, -391, 44, 63, -11, -71, 39, -2,
];

// The inverse of 2040, 64 and a last 1 reaches 266 in its first column before it is saturated.
#[rattlefmt::skip]
const BRIGHT: [i16; 64] = [
    255, 255, 255, 255, 253, 249, 246, 244,
    255, 255, 255, 255, 253, 249, 245, 244,
    255, 255, 255, 255, 253, 248, 246, 244,
    255, 255, 255, 255, 252, 249, 245, 244,
    255, 255, 255, 255, 253, 248, 246, 244,
    255, 255, 255, 255, 253, 249, 245, 244,
    255, 255, 255, 255, 253, 249, 246, 244,
    255, 255, 255, 255, 253, 249, 246, 244,
];

#[test]
fn inverse_of_few_coefficients(rt: HostRuntime) {
    same(&rt, &inverse(&SPARSE), &SPARSE_INVERSE);
}

#[test]
fn inverse_saturates_at_both_ends(rt: HostRuntime) {
    same(&rt, &inverse(&FULL), &FULL_INVERSE);
}

#[test]
fn forward_of_differences(rt: HostRuntime) {
    same(&rt, &forward(&DIFFERENCES), &DIFFERENCES_FORWARD);
}

#[test]
fn what_saturation_cuts_off_is_lost(rt: HostRuntime) {
    let mut coefficients = [0; 64];
    coefficients[0] = 2040;
    coefficients[1] = 64;
    coefficients[63] = 1;
    same(&rt, &inverse(&coefficients), &BRIGHT);
    let back = forward(&BRIGHT);
    same(&rt, &back[0], &2011);
    same(&rt, &back[1], &32);
}

#[test]
fn grey_with_its_last_coefficient_changed(rt: HostRuntime) {
    let mut coefficients = [0; 64];
    coefficients[0] = 1024;
    coefficients[63] = 1;
    same(&rt, &inverse(&coefficients), &[128; 64]);
}

// A linear congruential generator.
#[derive(Drop)]
struct Draws {
    state: u64,
}

impl Draws {
    // A number below n.
    fn draw(&mut self, n: u32) -> u32
        requires { 0 < n }
        ensures { result < n }
    {
        self.state = self
            .state
            .wrapping_mul(6_364_136_223_846_793_005)
            .wrapping_add(1_442_695_040_888_963_407);
        (self.state >> 33) as u32 % n
    }
}

// Coefficients of which one in `spacing` isn't zero, on the average, with absolute values of at most 2048.
fn coefficients(draws: &mut Draws, spacing: u32, limit: u32) -> [i16; 64]
    requires spacing { 0 < spacing }
    requires limit { limit ≤ 2048 }
{
    let mut block = [0; 64];
    for k in 0..64 {
        if draws.draw(spacing) == 0 {
            block[k] = draws.draw(2 * limit + 1) as i16 - limit as i16;
        }
    }
    block
}

// A difference of samples.
fn difference(draws: &mut Draws) -> i16
    ensures { unsigned_abs result ≤ 255 }
{
    draws.draw(511) as i16 - 255
}

fn differences(draws: &mut Draws) -> [i16; 64]
    ensures { IsWithin 255 (entry result) }
{
    let mut block = [0; 64];
    for k in 0..64 {
        block[k] = difference(draws);
    }
    block
}

// Whether a block's coefficients but the first are few and small, so that its inverse passes over rows of zeros: their
// absolute values sum to at most 124.
fn is_sparse(block: &[i16; 64]) -> bool {
    let mut total = 0u32;
    for value in block.iter().skip(1) {
        total = total.saturating_add(u32::from(value.unsigned_abs()));
    }
    total <= 124
}

// From a first coefficient and a few small others to full blocks; how many were transformed as sparse ones.
fn compared(rt: &impl Abort, blocks: u32) -> u32 {
    let mut draws = Draws { state: 13_818 };
    let mut sparse = 0u32;
    for _ in 0..blocks {
        let spacing = 1 + draws.draw(32);
        let limit = 2048 >> draws.draw(12);
        let mut block = coefficients(&mut draws, spacing, limit);
        block[0] = draws.draw(4096) as i16 - 2048;
        block[63] = draws.draw(2) as i16;
        if is_sparse(&block) {
            sparse = sparse.wrapping_add(1);
        }
        same(rt, &inverse(&block), &plain_inverse(&block));
        let samples = differences(&mut draws);
        same(rt, &forward(&samples), &plain_forward(&samples));
    }
    sparse
}

#[test]
fn drawn_blocks_have_their_plain_sums(rt: HostRuntime) {
    let sparse = compared(&rt, 2000);
    assert!(rt; 500 < sparse && sparse < 1500);
}
