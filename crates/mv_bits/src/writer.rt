//! Bits that are put into a receiver of bytes.
ghost use Rattle.std.specs.Prelude.{◌≡◌, ◌<◌, ◌≤◌, ◌%◌, ◌^◌, ◌∷◌, [], length};
ghost use Rattle.mv_bits.specs.Bits.{digits, worth};
ghost use Rattle.mv_bits.specs.Writing.{Writes, padding};

use crate::put::Put;
use std::marker::Model;

/// The bits of a word of 32 that isn't whole yet: the `count` lowest bits of `pending`, the highest first.
///
/// The bytes of whole words go at once into the receiver that each call names, and those of whole bytes when the writer
/// is aligned. Contracts see the list of the pending bits.
#[derive(Drop)]
pub struct BitWriter {
    pending: u64,
    count: u32,
}

impl Model for BitWriter {
    ghost use Rattle.std.specs.Prelude.{List, Bool, ◌<◌, ◌^◌};
    ghost use Rattle.mv_bits.specs.Bits.{digits};

    ghost Value = { List Bool };

    ghost view = { λ w. digits w.count w.pending };

    ghost invariant = { λ w. (w.count < 32) × (w.pending < 2 ^ w.count) };
}

impl BitWriter {
    ghost use Rattle.std.specs.Prelude.{◌≡◌, ◌<◌, ◌≤◌, ◌^◌, ◌∷◌, [], length};
    ghost use Rattle.mv_bits.specs.Bits.{digits};
    ghost use Rattle.mv_bits.specs.Writing.{Writes, padding};

    /// Stands at the beginning of a byte.
    pub fn new() -> BitWriter
        ensures { result ≡ [] }
    {
        BitWriter {
            pending: 0,
            count: 0,
        }
    }

    /// Puts a number of n bits, its high bit first. Fewer than 32 bits stay pending.
    #[inline(always)]
    pub fn put<P: Put>(&mut self, value: u32, n: u32, to: &mut P)
        requires few { n ≤ 32 }
        requires fits { value < 2 ^ n }
        ensures written { Writes P.stands to.old to.new self.old self.new (digits n value) }
        ensures part { length self.new < 32 }
    {
        let bits = (self.pending << n) + value as u64;
        let (pending, count) = put_word(bits, self.count + n, to);
        self.pending = pending;
        self.count = count;
    }

    /// Puts one bit.
    pub fn put_flag<P: Put>(&mut self, flag: bool, to: &mut P)
        ensures { Writes P.stands to.old to.new self.old self.new (flag ∷ []) }
    {
        self.put(bit(flag), 1, to);
    }

    /// Puts zero bits up to the end of the byte.
    pub fn align<P: Put>(&mut self, to: &mut P)
        ensures written { Writes P.stands to.old to.new self.old self.new (padding self.old) }
        ensures whole { self.new ≡ [] }
    {
        let free = (8 - self.count % 8) % 8;
        let (pending, count) = put_whole(self.pending << free, self.count + free, to);
        self.pending = pending;
        self.count = count;
    }
}

/// A bit as the number that it is worth, to be put as a field of one bit.
pub fn bit(flag: bool) -> u32
    ensures value { result ≡ worth flag }
    ensures bound { result < 2 }
{
    u32::from(flag)
}

/// Puts the first 32 of so many bits, where there are as many, and answers the bits that are left and how many these
/// are.
#[inline(always)]
fn put_word<P: Put>(bits: u64, count: u32, to: &mut P) -> (u64, u32)
    requires few { count < 64 }
    requires fits { bits < 2 ^ count }
    ensures written { Writes P.stands to.old to.new [] (digits result.1 result.0)
        (digits count bits) }
    ensures part { result.1 < 32 }
    ensures fits { result.0 < 2 ^ result.1 }
{
    if count < 32 {
        return (bits, count);
    }
    let left = count - 32;
    put_four_bytes(bits >> left, to);
    (bits % (1 << left), left)
}

/// Puts the four bytes of a word; not inlined, since `put` is, in many places.
#[inline(never)]
fn put_four_bytes<P: Put>(word: u64, to: &mut P)
    requires { word < 2 ^ 32 }
    ensures { Writes P.stands to.old to.new [] [] (digits 32 word) }
{
    put_whole(word, 32, to);
}

/// Puts the whole bytes of so many bits, and answers the bits that are left and how many these are.
#[inline(always)]
fn put_whole<P: Put>(mut bits: u64, mut count: u32, to: &mut P) -> (u64, u32)
    requires few { count ≤ 40 }
    requires fits { bits < 2 ^ count }
    ensures written { Writes P.stands to.old to.new [] (digits result.1 result.0)
        (digits count bits) }
    ensures left { result.1 ≡ count % 8 }
    ensures fits { result.0 < 2 ^ result.1 }
{
    'bytes: while count >= 8 {
        count -= 8;
        to.put_byte((bits >> count) as u8);
        bits %= 1 << count;
    }
    (bits, count)
}
