//! The samples of a block of a picture, and whether levels are the nearest ones to what they have beyond a prediction.
ghost use Rattle.std.specs.Prelude.{◌≡◌, ◌↔◌, ℕ, ◌^◌, ◌<◌, ◌≤◌, All, IsTrue, true};
ghost use Rattle.mv_terms.specs.Block.{item, entry};
ghost use Rattle.mv_terms.specs.Ranges.{IsLevel, IsDcLevel};
ghost use Rattle.cert_requant.specs.Steps.{HoldsSamples};
ghost use Rattle.cert_picture.specs.Steps.{IsFound, block_samples, sample_at};

use crate::close::are_close;
use cert_requant::differences;
use mv_planes::{Picture, part_at};
use mv_quant::{Kind, nearest};
use mv_transform::forward;

/// The samples of block `b` of the macroblock at this column and row, by its `dct_type`, in raster order.
pub(crate) fn samples_of(
    picture: &Picture,
    field_dct: bool,
    mb_x: usize,
    mb_y: usize,
    b: usize,
) -> [u8; 64]
    requires b { b < 6 }
    requires across { mb_x < picture.now.mb_wide }
    requires down { mb_y < picture.now.mb_high }
    requires small { (mb_x < 2 ^ 16) × (mb_y < 2 ^ 16) }
    ensures { (y x : ℕ) → y < 8 → x < 8
        → sample_at result y x ≡ block_samples picture.now field_dct mb_x mb_y b y x }
{
    picture.block(part_at(field_dct, mb_x, mb_y, b))
}

/// Whether these levels are the nearest ones to what the samples of a block have beyond their prediction.
pub(crate) fn are_nearest(
    samples: &[u8; 64],
    prediction: &[i16; 64],
    levels: &[i16; 64],
    kind: &Kind,
) -> bool
    requires scale { (0 < kind.now.scale) × (kind.now.scale ≤ 112) }
    requires precision { kind.now.dc_precision ≤ 3 }
    requires matrix { All (λ w. 0 < w) kind.now.matrix }
    requires prediction { HoldsSamples prediction.now }
    requires legal { (k : ℕ) → k < 64 → IsLevel (item levels.now k) }
    requires dc { kind.now.intra ≡ true → IsDcLevel kind.now.dc_precision (item levels.now 0) }
    ensures { IsTrue result
        ↔ IsFound kind.now levels.now (entry prediction.now) (sample_at samples.now) }
{
    let coefs = forward(&differences(samples, prediction));
    if are_close(&coefs, levels, kind) {
        return true;
    }
    nearest(&coefs, kind) == *levels
}
