//! The bytes of the sequence part in force.
ghost use Rattle.std.specs.Prelude.{◌≡◌, ◌≤◌, ℕ, List, [], IfOk, length, take, unwrap_or};
ghost use Rattle.mv_heads.specs.HeadElements.{sequence_bytes};
ghost use Rattle.job_decode.specs.Steps.{kept_front};

use mv_heads::sequence_part;
use mv_terms::NoMemory;
use std::alloc::Global;
use std::marker::Model;

/// The most bytes of a sequence part that are kept: one more than a record has room for.
const KEPT_LIMIT: usize = 65_536;

/// The first bytes of the sequence part in force: all of it where a record has room for it, else more than a record has
/// room for.
#[derive(Drop)]
pub(crate) struct SequenceFront {
    bytes: Vec<u8>,
    len: usize,
}

impl Model for SequenceFront {
    ghost use Rattle.std.specs.Prelude.{◌≡◌, ◌≤◌, ℕ, List, take, vec_len};

    ghost Value = { List ℕ };

    ghost view = { λ s. take s.len s.bytes.items };

    ghost invariant = { λ s. (s.len ≤ 65536) × (vec_len s.bytes ≡ 65536) };
}

impl SequenceFront {
    /// None came yet.
    pub(crate) fn start(alloc: Global) -> Result<SequenceFront, NoMemory>
        ensures { IfOk result (λ front. front ≡ []) }
    {
        Ok(SequenceFront {
            bytes: vec![in alloc; 0; KEPT_LIMIT].map_err(|_| NoMemory)?,
            len: 0,
        })
    }

    /// Notes the sequence part of a prefix, where it has one.
    pub(crate) fn note(&mut self, prefix: &[u8])
        ensures { (bytes : List ℕ) → self.old ≡ kept_front bytes
            → self.new ≡ kept_front (unwrap_or (sequence_bytes prefix.now) bytes) }
    {
        if let Some((at, len)) = sequence_part(prefix) {
            self.len = copy_front(&prefix[at..at + len], &mut self.bytes);
        }
    }

    pub(crate) fn bytes(&self) -> &[u8]
        ensures { result.now ≡ self.now }
    {
        &self.bytes[..self.len]
    }
}

/// Copies as many bytes as there is room for, and says how many.
fn copy_front(bytes: &[u8], to: &mut [u8]) -> usize
    ensures within { result ≤ length to.old }
    ensures front { take result to.new ≡ take (length to.old) bytes.now }
{
    let count = bytes.len().min(to.len());
    to[..count].copy_from_slice(&bytes[..count]);
    count
}
