//! A list of codes, and how one of them is found.
ghost use Rattle.std.specs.Prelude.{◌≤◌, length, IfNone, IfSome, IsTrue};
ghost use Rattle.std.specs.List.{Contains, list_all};
ghost use Rattle.mv_codes.specs.Tables.{Begins, NoneBegins, Reads, is_short};
ghost use Rattle.mv_codes.specs.LookUp.{find_all};

use crate::look_up::{LongTable, entry};
use mv_bits::BitWindow;

/// A code: the lowest `size` bits of `value`, the highest first, and what they mean.
#[derive(Clone, Copy, Debug)]
pub struct Code<M> {
    pub value: u32,
    pub size: u32,
    pub meaning: M,
}

/// Rows of a table: the value and the size of a code, and its meaning.
macro_rules! codes {
    ($(($value:literal, $size:literal) => $meaning:expr),* $(,)?) => {
        [$(Code { value: $value, size: $size, meaning: $meaning }),*]
    };
}

pub(crate) use codes;

/// Reads a code of the list that these look-up tables belong to.
#[inline(always)]
pub(crate) fn read<M: Copy>(
    codes: &[Code<M>],
    short: &[u8; 256],
    long: LongTable<'_>,
    w: &mut BitWindow<'_>,
) -> Option<M>
    requires few { length codes.now ≤ 255 }
    requires sizes { IsTrue (list_all is_short codes.now) }
    requires look_up { IsTrue (find_all codes.now short.now long.width long.first long.rows.now) }
    ensures { Reads codes.now w.old w.new result }
{
    let c = find(codes, short, long, w)?;
    let _ = w.take(c.size);
    Some(c.meaning)
}

/// The code of the list that begins the bits.
#[inline(always)]
pub(crate) fn find<M: Copy>(
    codes: &[Code<M>],
    short: &[u8; 256],
    long: LongTable<'_>,
    w: &BitWindow<'_>,
) -> Option<Code<M>>
    requires few { length codes.now ≤ 255 }
    requires sizes { IsTrue (list_all is_short codes.now) }
    requires look_up { IsTrue (find_all codes.now short.now long.width long.first long.rows.now) }
    ensures found { IfSome result (λ c. Contains codes.now c) }
    ensures begins { IfSome result (λ c. Begins c w.now) }
    ensures short { IfSome result (λ c. IsTrue (is_short c)) }
    ensures none { IfNone result (NoneBegins codes.now w.now) }
{
    let row = entry(short, long, w.peek(16));
    if row < codes.len() {
        Some(codes[row])
    } else {
        None
    }
}
