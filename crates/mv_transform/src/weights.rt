//! The weights of the transform, as tables: frequency by place and place by frequency.

ghost use Rattle.std.specs.Prelude.{◌≡◌, ℕ, ◌<◌, ◌≤◌, ◌^◌, unsigned_abs};
ghost use Rattle.mv_transform.specs.Basis.{basis};
ghost use Rattle.mv_transform.specs.Steps.{IsWeights};

/// The weights of frequency `u` at the eight places.
pub fn frequency_weights(u: usize) -> &'static [i16; 8]
    requires { u < 8 }
    ensures { IsWeights (basis u) result.now }
{
    &BY_FREQUENCY[u]
}

/// The weights of the eight frequencies at place `x`.
pub fn place_weights(x: usize) -> &'static [i16; 8]
    requires { x < 8 }
    ensures { IsWeights (λ u. basis u x) result.now }
{
    &BY_PLACE[x]
}

/// The weight of frequency `u` at place `x`.
pub fn weight(u: usize, x: usize) -> i32
    requires row { u < 8 }
    requires column { x < 8 }
    ensures value { result ≡ basis u x }
    ensures size { unsigned_abs result ≤ 2 ^ 12 }
{
    i32::from(frequency_weights(u)[x])
}

/// The same weight, with room for large products.
pub fn wide_weight(u: usize, x: usize) -> i64
    requires row { u < 8 }
    requires column { x < 8 }
    ensures value { result ≡ basis u x }
    ensures size { unsigned_abs result ≤ 2 ^ 15 }
{
    i64::from(frequency_weights(u)[x])
}

// A row for each frequency, over the eight places.
#[rattlefmt::skip]
static BY_FREQUENCY: [[i16; 8]; 8] = [
    [2896,  2896,  2896,  2896,  2896,  2896,  2896,  2896],
    [4017,  3406,  2276,   799,  -799, -2276, -3406, -4017],
    [3784,  1567, -1567, -3784, -3784, -1567,  1567,  3784],
    [3406,  -799, -4017, -2276,  2276,  4017,   799, -3406],
    [2896, -2896, -2896,  2896,  2896, -2896, -2896,  2896],
    [2276, -4017,   799,  3406, -3406,  -799,  4017, -2276],
    [1567, -3784,  3784, -1567, -1567,  3784, -3784,  1567],
    [ 799, -2276,  3406, -4017,  4017, -3406,  2276,  -799],
];

// The same weights, a row for each place, over the eight frequencies.
#[rattlefmt::skip]
static BY_PLACE: [[i16; 8]; 8] = [
    [2896,  4017,  3784,  3406,  2896,  2276,  1567,   799],
    [2896,  3406,  1567,  -799, -2896, -4017, -3784, -2276],
    [2896,  2276, -1567, -4017, -2896,   799,  3784,  3406],
    [2896,   799, -3784, -2276,  2896,  3406, -1567, -4017],
    [2896,  -799, -3784,  2276,  2896, -3406, -1567,  4017],
    [2896, -2276, -1567,  4017, -2896,  -799,  3784, -3406],
    [2896, -3406,  1567,   799, -2896,  4017, -3784,  2276],
    [2896, -4017,  3784, -3406,  2896, -2276,  1567,  -799],
];
