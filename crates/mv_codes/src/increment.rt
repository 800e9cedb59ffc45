//! The steps of `macroblock_address_increment`.
ghost use Rattle.std.specs.Prelude.{IfSome, IsTrue};
ghost use Rattle.mv_codes.specs.Tables.{Reads, ReadsWhatever};
ghost use Rattle.mv_codes.specs.Increments.{increment_codes};

use crate::code::{Code, codes, read};
use crate::look_up::{LONG_INCREMENTS, LongTable, SHORT_INCREMENTS};
use mv_bits::BitWindow;

/// A step of `macroblock_address_increment`: 1 to 33 and its end, or an escape, which adds 33 to the step behind it.
#[derive(Clone, Copy, Debug, PartialEq, Eq)]
pub enum Increment {
    Step(u8),
    Escape,
}

/// Reads a step of an address increment (H.262, 6.2.5 and Table B.1).
pub fn read_increment(w: &mut BitWindow<'_>) -> Option<Increment>
    ensures reads { Reads increment_codes w.old w.new result }
    ensures whatever { ReadsWhatever increment_codes w.old w.new result }
{
    read(
        &INCREMENTS,
        &SHORT_INCREMENTS,
        LongTable {
            width: 11,
            first: 8,
            rows: &LONG_INCREMENTS,
        },
        w,
    )
}

const INCREMENTS: [Code<Increment>; 34] = codes![
    (0b1, 1) => Increment::Step(1), (0b011, 3) => Increment::Step(2),
    (0b010, 3) => Increment::Step(3), (0b0011, 4) => Increment::Step(4),
    (0b0010, 4) => Increment::Step(5), (0b0001_1, 5) => Increment::Step(6),
    (0b0001_0, 5) => Increment::Step(7), (0b0000_111, 7) => Increment::Step(8),
    (0b0000_110, 7) => Increment::Step(9), (0b0000_1011, 8) => Increment::Step(10),
    (0b0000_1010, 8) => Increment::Step(11), (0b0000_1001, 8) => Increment::Step(12),
    (0b0000_1000, 8) => Increment::Step(13), (0b0000_0111, 8) => Increment::Step(14),
    (0b0000_0110, 8) => Increment::Step(15), (0b0000_0101_11, 10) => Increment::Step(16),
    (0b0000_0101_10, 10) => Increment::Step(17), (0b0000_0101_01, 10) => Increment::Step(18),
    (0b0000_0101_00, 10) => Increment::Step(19), (0b0000_0100_11, 10) => Increment::Step(20),
    (0b0000_0100_10, 10) => Increment::Step(21), (0b0000_0100_011, 11) => Increment::Step(22),
    (0b0000_0100_010, 11) => Increment::Step(23), (0b0000_0100_001, 11) => Increment::Step(24),
    (0b0000_0100_000, 11) => Increment::Step(25), (0b0000_0011_111, 11) => Increment::Step(26),
    (0b0000_0011_110, 11) => Increment::Step(27), (0b0000_0011_101, 11) => Increment::Step(28),
    (0b0000_0011_100, 11) => Increment::Step(29), (0b0000_0011_011, 11) => Increment::Step(30),
    (0b0000_0011_010, 11) => Increment::Step(31), (0b0000_0011_001, 11) => Increment::Step(32),
    (0b0000_0011_000, 11) => Increment::Step(33), (0b0000_0001_000, 11) => Increment::Escape,
];
