//! Parts of a picture, read and written as blocks of 64 samples, row after row.
ghost use Rattle.std.specs.Prelude.{◌≡◌, ℕ, ◌+◌, ◌*◌, ◌^◌, ◌<◌, ◌≤◌, length, slice_index};
ghost use Rattle.mv_planes.specs.Parts.{PartInside, HasBlock, WritesBlock};
ghost use Rattle.mv_planes.specs.Steps.{HasRows};

use crate::part::Part;
use crate::picture::Picture;

impl Picture {
    /// The samples of a part inside its plane.
    #[inline(always)]
    pub fn block(&self, part: Part) -> [u8; 64]
        requires { PartInside self.now part }
        ensures { HasBlock self.now part result }
    {
        let (at, stride) = self.part_places(part);
        rows_at(self.samples(), at, stride)
    }

    /// Writes the samples of a part inside its plane, whose rows are rows of their own, and no other sample.
    #[inline(always)]
    pub fn put_block(&mut self, part: Part, block: &[u8; 64])
        requires inside { PartInside self.old part }
        requires apart { 1 ≤ part.step }
        ensures { WritesBlock self.old self.new part block.now }
    {
        let (at, stride) = self.part_places(part);
        put_rows(self.samples_mut(), at, stride, block);
    }
}

/// The rows of a block in a list of samples, the first at this place and each so far behind the one before.
fn rows_at(samples: &[u8], at: usize, stride: usize) -> [u8; 64]
    requires inside { at + 7 * stride + 7 < length samples.now }
    requires short { length samples.now < 2 ^ 64 }
    ensures { (row col : ℕ) → row < 8 → col < 8
        → slice_index result (8 * row + col) ≡ slice_index samples.now (at + row * stride + col) }
{
    let mut block = [0; 64];
    'rows: for row in 0..8 {
        'columns: for col in 0..8 {
            block[8 * row + col] = samples[at + row * stride + col];
        }
    }
    block
}

/// Writes the rows of a block into a list of samples.
#[inline(never)]
fn put_rows(samples: &mut [u8], at: usize, stride: usize, block: &[u8; 64])
    requires inside { at + 7 * stride + 7 < length samples.old }
    requires short { length samples.old < 2 ^ 64 }
    requires apart { 8 ≤ stride }
    ensures { HasRows samples.old samples.new at stride block.now 64 }
{
    // No store changes a copy, so that each row is stored at once.
    let values = copied(block);
    'rows: for row in 0..8 {
        'columns: for col in 0..8 {
            samples[at + row * stride + col] = values[8 * row + col];
        }
    }
}

#[inline(always)]
fn copied(block: &[u8; 64]) -> [u8; 64]
    ensures { result ≡ block.now }
{
    *block
}
