//! A sum of weighted values becomes a sample or a coefficient.

ghost use Rattle.std.specs.Prelude.{◌≡◌, ◌<◌, ◌≤◌, ◌^◌, unsigned_abs};
ghost use Rattle.mv_transform.specs.Transform.{rounded, saturated};

/// A sum of weighted values in units of 2^-26, rounded.
pub fn rounded_sum(sum: i64) -> i64
    requires { unsigned_abs sum ≤ 2 ^ 51 }
    ensures { result ≡ rounded sum }
{
    (sum + 0x200_0000) >> 26
}

/// A value of the inverse, saturated to −256 to 255.
pub fn saturated_sample(value: i64) -> i16
    ensures { result ≡ saturated value }
{
    value.min(255).max(-256) as i16
}

/// A value that fits the entry of a block.
pub fn narrowed(value: i64) -> i16
    requires { unsigned_abs value < 2 ^ 15 }
    ensures { result ≡ value }
{
    value as i16
}
