//! What was read ahead of a shelf's input.
ghost use Rattle.std.specs.Prelude.{◌≡◌, ◌+◌, ◌-◌, ◌<◌, ◌≤◌, ℕ, List, [], ◌++◌, length, take, drop, min, vec_len, slice_range, IfOk, IfNone, IfSome, None, ◌⊎◌, OnOk, OnErr};
ghost use Rattle.std.specs.Io.KnownBytes.{Consumes, IsAtEnd, Keeps, prepend_known};
ghost use Rattle.y4m_frames.specs.Lines.{line_within};
ghost use Rattle.y4m_frames.specs.Reading.{TakesFewer};
ghost use Rattle.mv_ends.specs.Causes.{FailedRead};
ghost use Rattle.mv_ends.specs.Kept.{KeepsShelf};

use memchr::memchr;
use mv_ends::{Failed, Shelf};
use mv_terms::NoMemory;
use std::alloc::Global;
use std::marker::Model;

/// The most bytes that are read ahead, and the most that one read asks for.
pub(crate) const AHEAD: usize = 65_536;

/// Bytes that were read and not yet taken.
#[derive(Drop)]
pub(crate) struct Ahead {
    store: Vec<u8>,
    at: usize,
    end: usize,
}

impl Model for Ahead {
    ghost Value = { List ℕ };

    ghost view = { λ a. slice_range a.store.items a.at a.end };

    ghost invariant = { λ a. (a.at ≤ a.end) × (a.end ≤ 65536) × (vec_len a.store ≡ 65536) };
}

impl Ahead {
    pub(crate) fn start(alloc: Global) -> Result<Ahead, NoMemory>
        ensures { IfOk result (λ a. a ≡ []) }
    {
        let store = store(alloc)?;
        Ok(Ahead {
            store,
            at: 0,
            end: 0,
        })
    }

    pub(crate) fn bytes(&self) -> &[u8]
        ensures value { result.now ≡ self.now }
        ensures most { length result.now ≤ 65536 }
    {
        &self.store[self.at..self.end]
    }

    /// Lets the first bytes go.
    pub(crate) fn skip(&mut self, count: usize)
        requires { count ≤ length self.old }
        ensures { self.new ≡ drop count self.old }
    {
        self.at += count;
    }

    /// Takes the first bytes out.
    pub(crate) fn give(&mut self, to: &mut [u8]) -> usize
        ensures count { result ≡ min (length self.old) (length to.old) }
        ensures given { take result to.new ≡ take result self.old }
        ensures most { length self.new ≤ 65536 }
        ensures left { self.new ≡ drop result self.old }
    {
        let count = (self.end - self.at).min(to.len());
        to[..count].copy_from_slice(&self.store[self.at..self.at + count]);
        self.at += count;
        count
    }

    /// Reads more; nothing where none is left.
    pub(crate) fn refill<S: Shelf>(&mut self, shelf: &mut S) -> Result<usize, Failed>
        requires { length self.old < 65536 }
        ensures same { Consumes (prepend_known self.old (S.told shelf.old).rest)
            (prepend_known self.new (S.told shelf.new).rest) [] }
        ensures more { IfOk result (λ n. length self.new ≡ length self.old + n) }
        ensures end { IfOk result (λ n. n ≡ 0 → IsAtEnd (S.told shelf.new).rest) }
        ensures none { IfOk result (λ n. n ≡ 0 → self.new ≡ self.old) }
        ensures kept { OnErr result (self.new ≡ self.old) }
        ensures most { length self.new ≤ 65536 }
        ensures failed { OnErr result (FailedRead (S.told shelf.old) (S.told shelf.new)) }
        ensures chosen { (S.told shelf.new).selected ≡ (S.told shelf.old).selected }
        ensures keeps { KeepsShelf (S.told shelf.old) (S.told shelf.new) }
    {
        let held = to_front(&mut self.store, self.at, self.end);
        self.at = 0;
        self.end = held;
        let count = read_behind(shelf, &mut self.store, held)?;
        self.end = held + count;
        Ok(count)
    }
}

impl Ahead {
    /// Reads until a line feed is among the first bytes, as many as `most`, or these are there, or
    /// no more is left. Says how many bytes stand before the line feed.
    #[tactic(auto, using(mv_ends::proofs::Known::keeps_shelf_trans, mv_ends::proofs::Known::keeps_shelf_refl))]
    pub(crate) fn line<S: Shelf>(
        &mut self,
        shelf: &mut S,
        most: usize,
    ) -> Result<Option<usize>, Failed>
        requires { most ≤ 65536 }
        ensures same { Consumes (prepend_known self.old (S.told shelf.old).rest)
            (prepend_known self.new (S.told shelf.new).rest) [] }
        ensures found { IfOk result (λ found. line_within most self.new ≡ found) }
        ensures within { IfOk result (λ found. IfSome found
            (λ n. (n < most) × (n < length self.new))) }
        ensures none { OnErr result (line_within most self.new ≡ None) }
        ensures all { IfOk result (λ found. IfNone found
            ((most ≤ length self.new) ⊎ IsAtEnd (S.told shelf.new).rest)) }
        ensures most { length self.new ≤ 65536 }
        ensures failed { OnErr result (FailedRead (S.told shelf.old) (S.told shelf.new)) }
        ensures chosen { (S.told shelf.new).selected ≡ (S.told shelf.old).selected }
        ensures keeps { KeepsShelf (S.told shelf.old) (S.told shelf.new) }
    {
        'reads: loop {
            let found = line_end(self.bytes(), most);
            if found.is_some() || most <= self.bytes().len() {
                return Ok(found);
            }
            let count = self.refill(shelf)?;
            if count == 0 {
                return Ok(None);
            }
        }
    }

    /// Takes as many bytes as the buffer holds, or all that are left. Says how many.
    #[tactic(auto, using(mv_ends::proofs::Known::keeps_shelf_refl))]
    pub(crate) fn fill<S: Shelf>(&mut self, shelf: &mut S, to: &mut [u8]) -> Result<usize, Failed>
        ensures within { IfOk result (λ n. n ≤ length to.old) }
        ensures read { IfOk result (λ n. Consumes (prepend_known self.old (S.told shelf.old).rest)
            (prepend_known self.new (S.told shelf.new).rest) (take n to.new)) }
        ensures end { IfOk result (λ n. n < length to.old
            → IsAtEnd (prepend_known self.new (S.told shelf.new).rest)) }
        ensures part { OnErr result (TakesFewer (length to.old)
            (prepend_known self.old (S.told shelf.old).rest) (S.told shelf.new).rest) }
        ensures less { length self.new ≤ length self.old }
        ensures failed { OnErr result (FailedRead (S.told shelf.old) (S.told shelf.new)) }
        ensures chosen { (S.told shelf.new).selected ≡ (S.told shelf.old).selected }
        ensures keeps { KeepsShelf (S.told shelf.old) (S.told shelf.new) }
    {
        let given = self.give(to);
        if given == to.len() {
            return Ok(given);
        }
        read_all(shelf, to, given)
    }
}

// How many bytes stand before the first line feed, where one is among the first bytes.
fn line_end(bytes: &[u8], most: usize) -> Option<usize>
    ensures value { result ≡ line_within most bytes.now }
    ensures within { IfSome result (λ n. (n < most) × (n < length bytes.now)) }
{
    let count = bytes.len().min(most);
    memchr(b'\n', &bytes[..count])
}

// Moves the bytes between two places to the front.
fn to_front(store: &mut [u8], at: usize, end: usize) -> usize
    requires order { at ≤ end }
    requires within { end ≤ length store.old }
    ensures count { result ≡ end - at }
    ensures moved { take result store.new ≡ slice_range store.old at end }
{
    store.copy_within(at..end, 0);
    end - at
}

// Reads into a store, behind its first bytes.
fn read_behind<S: Shelf>(shelf: &mut S, store: &mut [u8], held: usize) -> Result<usize, Failed>
    requires { held < length store.old }
    ensures front { take held store.new ≡ take held store.old }
    ensures within { IfOk result (λ n. held + n ≤ length store.old) }
    ensures read { IfOk result (λ n. Consumes (S.told shelf.old).rest (S.told shelf.new).rest
        (take n (drop held store.new))) }
    ensures end { IfOk result (λ n. n ≡ 0 → IsAtEnd (S.told shelf.new).rest) }
    ensures kept { OnErr result (Keeps (S.told shelf.old).rest (S.told shelf.new).rest) }
    ensures failed { OnErr result (FailedRead (S.told shelf.old) (S.told shelf.new)) }
    ensures chosen { (S.told shelf.new).selected ≡ (S.told shelf.old).selected }
    ensures keeps { KeepsShelf (S.told shelf.old) (S.told shelf.new) }
{
    let end = held + (store.len() - held).min(AHEAD);
    shelf.read(&mut store[held..end])
}

/// Reads into a buffer, behind its first bytes, until it is full or no more is left. Says how many
/// bytes it has then.
#[tactic(auto, using(mv_ends::proofs::Known::keeps_shelf_refl))]
pub fn read_all<S: Shelf>(shelf: &mut S, to: &mut [u8], from: usize) -> Result<usize, Failed>
    requires { from ≤ length to.old }
    ensures front { OnOk result (take from to.new ≡ take from to.old) }
    ensures within { IfOk result (λ n. (from ≤ n) × (n ≤ length to.old)) }
    ensures read { IfOk result (λ n. Consumes (S.told shelf.old).rest (S.told shelf.new).rest
        (slice_range to.new from n)) }
    ensures end { IfOk result (λ n. n < length to.old → IsAtEnd (S.told shelf.new).rest) }
    ensures part { OnErr result (TakesFewer (length to.old - from) (S.told shelf.old).rest
        (S.told shelf.new).rest) }
    ensures failed { OnErr result (FailedRead (S.told shelf.old) (S.told shelf.new)) }
    ensures chosen { (S.told shelf.new).selected ≡ (S.told shelf.old).selected }
    ensures keeps { KeepsShelf (S.told shelf.old) (S.told shelf.new) }
{
    let mut filled = from;
    'reads: while filled < to.len() {
        let count = read_behind(shelf, to, filled)?;
        if count == 0 {
            return Ok(filled);
        }
        filled += count;
    }
    Ok(filled)
}

fn store(alloc: Global) -> Result<Vec<u8>, NoMemory>
    ensures { IfOk result (λ v. length v.items ≡ 65536) }
{
    vec![in alloc; 0; AHEAD].map_err(|_| NoMemory)
}
