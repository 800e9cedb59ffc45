//! Bytes read as their bits.
ghost use Rattle.std.specs.Prelude.{◌≡◌, ◌+◌, ◌-◌, ◌*◌, ◌/◌, ◌%◌, ◌<◌, ◌≤◌, ◌^◌, ◌==◌, ◌++◌, IsTrue, ◌↔◌, Bool, drop, slice_index};
ghost use Rattle.std.specs.List.{list_all};
ghost use Rattle.mv_bits.specs.Bits.{digits, front, bits_of, trim, none_left};

use std::marker::Model;

/// Borrowed bytes read as bits, with zeros without end behind them.
///
/// The lowest `count` bits of `kept` are the next ones, what stands above them says nothing, and `rest` has the bytes
/// behind them. Contracts see the list of the bits that are left, without the zeros that end it (`trim`), so two windows
/// are equal exactly where they read the same.
#[derive(Drop)]
pub struct BitWindow<'a> {
    rest: &'a [u8],
    kept: u64,
    count: u32,
}

impl<'a> Model for BitWindow<'a> {
    ghost use Rattle.std.specs.Prelude.{List, Bool, ◌++◌, ◌<◌, ◌≤◌};
    ghost use Rattle.mv_bits.specs.Bits.{digits, bits_of, trim};

    ghost Value = { List Bool };

    ghost view = { λ w. trim (digits w.count w.kept ++ bits_of w.rest.now) };

    ghost invariant = { λ w. (32 ≤ w.count) × (w.count < 64) };
}

impl<'a> BitWindow<'a> {
    ghost use Rattle.std.specs.Prelude.{◌≡◌, ◌≤◌, ◌<◌, ◌^◌, ◌==◌, [], drop, IsTrue, ◌↔◌};
    ghost use Rattle.mv_bits.specs.Bits.{bits_of, front, trim, none_left};

    /// Stands at the first bit of the bytes.
    pub fn new(bytes: &'a [u8]) -> BitWindow<'a>
        ensures { result ≡ trim (bits_of bytes.now) }
    {
        let (rest, kept, count) = filled(bytes, 0, 0);
        BitWindow { rest, kept, count }
    }

    /// The next n bits as a number, the first bit the highest.
    #[inline(always)]
    pub fn peek(&self, n: u32) -> u32
        requires { n ≤ 32 }
        ensures value { result ≡ front n self.now }
        ensures bound { result < 2 ^ n }
    {
        bits_at_front(self.kept, self.count, n)
    }

    /// The next n bits as a number, the first bit the highest. The window moves past them.
    #[inline(always)]
    pub fn take(&mut self, n: u32) -> u32
        requires { n ≤ 32 }
        ensures value { result ≡ front n self.old }
        ensures bound { result < 2 ^ n }
        ensures rest { self.new ≡ drop n self.old }
    {
        let value = bits_at_front(self.kept, self.count, n);
        let (rest, kept, count) = filled(self.rest, self.kept, self.count - n);
        self.rest = rest;
        self.kept = kept;
        self.count = count;
        value
    }

    /// Whether the next 23 bits are zero, as only before a start code or at the end (H.262, 6.2.4).
    pub fn at_end_mark(&self) -> bool
        ensures { IsTrue result ↔ (front 23 self.now ≡ 0) }
    {
        self.peek(23) == 0
    }

    /// Whether all bits that are left are zero.
    pub fn rest_zero(&self) -> bool
        ensures value { result ≡ none_left self.now }
        ensures meaning { IsTrue result ↔ (self.now ≡ []) }
    {
        is_rest_zero(self.rest, self.kept, self.count)
    }
}

fn byte_at(bytes: &[u8], i: usize) -> u8
    ensures { result ≡ slice_index bytes.now i }
{
    if i < bytes.len() { bytes[i] } else { 0 }
}

/// Four bytes as one number, the first byte the highest.
fn be_u32(a: u8, b: u8, c: u8, d: u8) -> u64
    ensures value { result ≡ (a * 256 + b) * 65536 + (c * 256 + d) }
    ensures bound { result < 2 ^ 32 }
{
    let high = a as u64 * 0x100 + b as u64;
    let low = c as u64 * 0x100 + d as u64;
    high * 0x1_0000 + low
}

/// The first 32 bits where fewer are left.
#[cold]
#[inline(never)]
fn last_word(bytes: &[u8]) -> u64
    ensures value { result ≡ front 32 (bits_of bytes.now) }
    ensures bound { result < 2 ^ 32 }
{
    be_u32(
        byte_at(bytes, 0),
        byte_at(bytes, 1),
        byte_at(bytes, 2),
        byte_at(bytes, 3),
    )
}

/// The first 32 bits, and the bytes behind them.
#[inline(always)]
fn split_word(bytes: &[u8]) -> (u64, &[u8])
    ensures value { result.0 ≡ front 32 (bits_of bytes.now) }
    ensures bound { result.0 < 2 ^ 32 }
    ensures rest { bits_of result.1.now ≡ drop 32 (bits_of bytes.now) }
{
    if bytes.len() >= 4 {
        (be_u32(bytes[0], bytes[1], bytes[2], bytes[3]), &bytes[4..])
    } else {
        (last_word(bytes), &[])
    }
}

/// The kept bits with a word behind them.
fn joined(kept: u64, word: u64) -> u64
    requires { word < 2 ^ 32 }
    ensures { result ≡ (kept % 2 ^ 32) * 2 ^ 32 + word }
{
    (kept % 0x1_0000_0000) * 0x1_0000_0000 + word
}

/// The bytes left, the kept bits and how many these are, with a further word kept where there is room.
#[inline(always)]
fn filled(rest: &[u8], kept: u64, count: u32) -> (&[u8], u64, u32)
    requires { count < 64 }
    ensures same { trim (digits result.2 result.1 ++ bits_of result.0.now)
        ≡ trim (digits count kept ++ bits_of rest.now) }
    ensures least { 32 ≤ result.2 }
    ensures most { result.2 < 64 }
{
    if count >= 32 {
        return (rest, kept, count);
    }
    let (word, behind) = split_word(rest);
    (behind, joined(kept, word), count + 32)
}

/// The first n of so many kept bits.
#[inline(always)]
fn bits_at_front(kept: u64, count: u32, n: u32) -> u32
    requires kept { (32 ≤ count) × (count < 64) }
    requires few { n ≤ 32 }
    ensures value { result ≡ kept / 2 ^ (count - n) % 2 ^ n }
    ensures bound { result < 2 ^ n }
{
    ((kept >> (count - n)) % (1 << n)) as u32
}

/// Whether so many kept bits are zero.
fn are_kept_zero(kept: u64, count: u32) -> bool
    requires { count < 64 }
    ensures { result ≡ (kept % 2 ^ count == 0) }
{
    kept % (1 << count) == 0
}

fn are_zero(bytes: &[u8]) -> bool
    ensures { result ≡ list_all (λ b. b == 0) bytes.now }
{
    bytes.iter().all(|b| *b == 0)
}

/// Whether so many kept bits and all bits behind them are zero.
fn is_rest_zero(rest: &[u8], kept: u64, count: u32) -> bool
    requires { count < 64 }
    ensures { result ≡ none_left (trim (digits count kept ++ bits_of rest.now)) }
{
    are_kept_zero(kept, count) && are_zero(rest)
}
