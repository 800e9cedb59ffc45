//! Frames as bytes.
ghost use Rattle.std.specs.Prelude.{◌≡◌, ℕ, ◌+◌, ◌*◌, ◌/◌, ◌%◌, ◌<◌, ◌≤◌, length, slice_index, slice_set};
ghost use Rattle.rec_bury.specs.FrameBytes.{unrecorded};
ghost use Rattle.rec_bury.specs.Buried.{frame_of};
ghost use Rattle.rec_bury.specs.Steps.{AreWritten};
ghost use Rattle.y4m_frames.specs.FrameFile.{sample_bytes};

use crate::bytes::put_sample;
use crate::chroma::put_plane;
use mv_planes::Picture;

/// Writes the sample bytes of a frame with recoding data: `slots` has 20 bytes for each macroblock, and `sheet` 12,
/// both in the order of the macroblocks. A frame is sealed by burying its sheet with zeros in its last 32 bytes, and
/// then again with the seal of that frame there.
pub fn bury(picture: &Picture, slots: &[u8], sheet: &[u8], to: &mut [u8])
    requires slots { length slots.now ≡ 20 * (picture.now.mb_wide * picture.now.mb_high) }
    requires sheet { length sheet.now ≡ 12 * (picture.now.mb_wide * picture.now.mb_high) }
    requires room { length to.old ≡ 2 * length picture.now.samples }
    ensures { to.new ≡ frame_of picture.now slots.now sheet.now }
{
    let wide = picture.mb_wide();
    let high = picture.mb_high();
    let samples = picture.samples();
    let count = usize::from(wide) * usize::from(high);
    put_luma(samples, 256 * count, to);
    put_plane(samples, 256 * count, slots, sheet, wide, high, 0, to);
    put_plane(samples, 320 * count, slots, sheet, wide, high, 8, to);
}

/// Writes the first n samples, in which nothing is buried.
fn put_luma(samples: &[u8], n: usize, to: &mut [u8])
    requires from { n ≤ length samples.now }
    requires room { 2 * n ≤ length to.old }
    ensures { (v : ℕ → ℕ) → ((k : ℕ) → k < n → v k ≡ 4 * slice_index samples.now k)
        → AreWritten v to.new n }
{
    'samples: for k in 0..n {
        put_sample(to, k, 4 * u16::from(samples[k]));
    }
}

/// Writes the sample bytes of a frame without recoding data: two for each sample of the picture.
// Its loop is vectorised only as long as this is a function of its own, and not a part of its caller.
#[inline(never)]
pub fn write_unrecorded(picture: &Picture, to: &mut [u8])
    requires { length to.old ≡ 2 * length picture.now.samples }
    ensures { to.new ≡ unrecorded picture.now }
{
    let samples = picture.samples();
    'samples: for k in 0..samples.len() {
        put_8_bits(to, 2 * k, samples[k]);
    }
}

/// Puts the 10-bit sample of one of 8 bits, the low byte first, to this place.
fn put_8_bits(to: &mut [u8], at: usize, v: u8)
    requires { at + 1 < length to.old }
    ensures { to.new ≡ slice_set (slice_set to.old at (4 * v % 256)) (at + 1) (4 * v / 256) }
{
    let sample = 4 * u16::from(v);
    to[at] = (sample % 256) as u8;
    to[at + 1] = (sample / 256) as u8;
}
