//! The seals of frames.
ghost use Rattle.std.specs.Prelude.{◌≡◌, ◌+◌, ◌*◌, ◌^◌, ◌<◌, ◌≤◌, ◌&&◌, length, take, nat_le, IsTrue, ◌↔◌};
ghost use Rattle.sha2.specs.Hashers.{Holds256};
ghost use Rattle.rec_bury.specs.Seals.{without_pair, seal_of, unsealed, SealHolds};
ghost use Rattle.rec_bury.specs.Steps.{IsPiece};

use crate::slots::sheet_byte;
use sha2::{Digest, Sha256};

/// The seal of a frame of this size in macroblocks: the SHA-256 digest of its bytes, the bits of the seal itself taken
/// as zero.
pub fn seal(frame: &[u8], wide: u16, high: u16) -> [u8; 32]
    requires size { length frame.now ≡ 768 * (wide * high) }
    requires sheet { 32 ≤ 12 * (wide * high) }
    ensures { result ≡ seal_of wide high frame.now }
{
    let wide = usize::from(wide);
    let high = usize::from(high);
    let mut hasher = Sha256::new();
    hasher.update(&frame[..640 * (wide * high)]);
    'lines: for y in 0..8 * high {
        hash_line(&mut hasher, frame, wide, high, y);
    }
    hasher.finalize()
}

/// Whether the last 32 bytes of the sheet of a frame are its seal.
pub fn seal_holds(frame: &[u8], wide: u16, high: u16) -> bool
    requires size { length frame.now ≡ 768 * (wide * high) }
    requires sheet { 32 ≤ 12 * (wide * high) }
    ensures { IsTrue result ↔ SealHolds wide high frame.now }
{
    let digest = seal(frame, wide, high);
    let wide = usize::from(wide);
    let high = usize::from(high);
    let first = 12 * (wide * high) - 32;
    'bytes: for i in 0..32 {
        if sheet_byte(frame, wide, high, first + i) != digest[i] {
            return false;
        }
    }
    true
}

/// Goes on with line y of Cr. No line above those of the last three macroblocks has a bit of the seal.
#[tactic(auto, using(crate::proofs::ChromaLemmas::row_inside))]
fn hash_line(hasher: &mut Sha256, frame: &[u8], wide: usize, high: usize, y: usize)
    requires size { length frame.now ≡ 768 * (wide * high) }
    requires narrow { wide < 65536 }
    requires low { high < 65536 }
    requires line { y < 8 * high }
    ensures { Holds256 hasher.old (take (640 * (wide * high) + 16 * (y * wide))
        (unsealed wide high frame.now))
        → Holds256 hasher.new (take (640 * (wide * high) + 16 * ((y + 1) * wide))
        (unsealed wide high frame.now)) }
{
    let count = wide * high;
    let first = y / 8 * wide;
    let start = 640 * count + 16 * (y * wide);
    if first + wide + 3 <= count {
        hasher.update(&frame[start..start + 16 * wide]);
        return;
    }
    'macroblocks: for x in 0..wide {
        let clear = has_seal(count, first + x, y % 8);
        let piece = eight_at(frame, start + 16 * x, clear);
        hasher.update(&piece);
    }
}

/// Whether a line of Cr in macroblock m carries bits of the seal: all its samples do, or none.
fn has_seal(count: usize, m: usize, line: usize) -> bool
    requires count { count < 2 ^ 32 }
    requires inside { m < count }
    requires line { line < 8 }
    ensures { result ≡ (nat_le 2 line && nat_le (12 * count) (12 * m + 2 * line + 28)) }
{
    2 <= line && 12 * count <= 12 * m + 2 * line + 28
}

/// Eight samples, their low pairs taken as zero where asked.
fn eight_at(frame: &[u8], start: usize, clear: bool) -> [u8; 16]
    requires { start + 16 ≤ length frame.now }
    ensures { IsPiece result frame.now start clear 16 }
{
    let mut piece = [0; 16];
    'bytes: for j in 0..16 {
        piece[j] = without_pair(frame[start + j], clear && j % 2 == 0);
    }
    piece
}

fn without_pair(byte: u8, clear: bool) -> u8
    ensures { result ≡ without_pair clear byte }
{
    if clear { 4 * (byte / 4) } else { byte }
}
