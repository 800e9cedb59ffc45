//! Frames as sources of pictures.
ghost use Rattle.std.specs.Prelude.{◌≡◌, ◌*◌, ◌/◌, ◌<◌, ℕ, length, slice_index};
ghost use Rattle.rec_bury.specs.Exhumed.{source_of, value_at, HasTenBits};

use mv_planes::Picture;

/// Makes the picture that a frame is a source of, from the high 8 bits of each of its 10-bit samples.
pub fn source(frame: &[u8], to: &mut Picture)
    requires size { length frame.now ≡ 2 * length to.old.samples }
    requires values { HasTenBits frame.now }
    ensures { to.new ≡ source_of to.old.mb_wide to.old.mb_high frame.now }
{
    // for the proof: the picture is whole
    let _wide = to.mb_wide();
    shift(frame, to.samples_mut());
}

fn shift(frame: &[u8], samples: &mut [u8])
    requires size { length frame.now ≡ 2 * length samples.old }
    requires values { HasTenBits frame.now }
    ensures { (k : ℕ) → k < length samples.new
        → slice_index samples.new k ≡ value_at frame.now k / 4 }
{
    let _bytes = frame.len();
    'samples: for k in 0..samples.len() {
        let v = u16::from(frame[2 * k]) + 256 * u16::from(frame[2 * k + 1]);
        prove!(v < 1024);
        samples[k] = (v / 4) as u8;
    }
}
