//! What joins the units of a stream that is written picture by picture: the sequence part in front of an anchor, where
//! it isn't in force, and zero bytes.
//!
//! Its promise: `glue` is that of `specs/Glue.antt`, and `send_zeros` sends its zero bytes. `specs/Joined.antt` says
//! what is written with them: what stands in front of units and behind them leaves them in their shape, and what was
//! written unit by unit is cut into these units.
#![tactic(auto)]

ghost use Rattle.std.specs.Prelude.{◌≡◌};
ghost use Rattle.mv_bits.specs.Zeros.{zero_bytes};
ghost use Rattle.mv_ends.specs.Sends.{Sends};
ghost use Rattle.enc_glue.specs.Glue.{glue};
ghost use Rattle.enc_glue.specs.Joined.{GlueIsInFront, GluedIsPrefix, HeadIsHead, UnitWithZeros, WrittenIsCut, ZerosAreInFront};

use mv_ends::{Failed, Sink, send};

/// The bytes that are sent in front of an anchor, before its prefix: the sequence part `target` that it is to be read
/// under, or nothing where that one is in force already or the prefix has a sequence part of its own (`own_part`).
/// `in_force` is empty before the first picture.
pub fn glue<'a>(in_force: &[u8], target: &'a [u8], own_part: bool) -> &'a [u8]
    ensures { result.now ≡ glue in_force.now target.now own_part }
{
    if own_part || in_force == target {
        &[]
    } else {
        target
    }
}

const BLOCK: usize = 4096;

const ZEROS: [u8; BLOCK] = [0; BLOCK];

/// Writes n zero bytes, in turns. After a failure some of them are not written.
pub fn send_zeros<O: Sink>(n: u64, out: &mut O) -> Result<(), Failed>
    ensures { Sends (O.told out.old) (O.told out.new) (zero_bytes n) result }
{
    let mut left = n;
    'turns: while left > 0 {
        let count = left.min(BLOCK as u64);
        send(out, &ZEROS[..count as usize])?;
        left -= count;
    }
    Ok(())
}

/// A prefix behind a glue or without the zero bytes in front of it, and a head that reads, are parts of a unit.
pub fn parts_law()
    ensures prefix { GluedIsPrefix }
    ensures zeros { ZerosAreInFront }
    ensures head { HeadIsHead }
{}

/// What stands in front of a unit and behind it is its own, and what was written unit by unit is cut into these units.
pub fn joined_law()
    ensures glue { GlueIsInFront }
    ensures zeros { UnitWithZeros }
    ensures written { WrittenIsCut }
{}
