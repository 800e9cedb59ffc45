//! A receiver that compares bytes.
ghost use Rattle.std.specs.Prelude.{◌↔◌, [], List, ℕ, IsTrue};
ghost use Rattle.mv_bits.specs.Receivers.{Compared, Compares, Matches, compared};

use crate::put::Put;
use std::marker::Model;

/// Compares what is put with borrowed bytes and with zero bytes behind them. Nothing is looked at behind the first
/// byte that differs.
#[derive(Drop)]
pub struct CompareWith<'a> {
    agrees: bool,
    rest: &'a [u8],
    zeros: u64,
}

impl<'a> Model for CompareWith<'a> {
    ghost use Rattle.mv_bits.specs.Receivers.{Comparison, compared};

    ghost Value = { Comparison };

    ghost view = { λ c. record { agrees = c.agrees; left = compared c.rest.now c.zeros } };
}

impl<'a> CompareWith<'a> {
    ghost use Rattle.std.specs.Prelude.{◌↔◌, List, ℕ, [], IsTrue};
    ghost use Rattle.mv_bits.specs.Receivers.{Compared, Compares, Matches, compared};

    /// Compares with these bytes and at most so many zero bytes behind them. Nothing was put yet.
    pub fn new(bytes: &'a [u8], zeros: u64) -> CompareWith<'a>
        ensures { Compares result (compared bytes.now zeros) [] }
    {
        CompareWith {
            agrees: true,
            rest: bytes,
            zeros,
        }
    }

    /// Whether what was put is the bytes and at most so many zero bytes behind them.
    pub fn equal(&self) -> bool
        ensures { (with_these : Compared) (put : List ℕ) → Compares self.now with_these put
            → IsTrue result ↔ Matches with_these put }
    {
        self.agrees && self.rest.is_empty()
    }
}

impl<'a> Put for CompareWith<'a> {
    ghost use Rattle.mv_bits.specs.Receivers.{Compared, Compares};

    ghost Kind = { Compared };

    ghost stands = { Compares };

    fn put_byte(&mut self, byte: u8) {
        if self.agrees {
            if self.rest.is_empty() {
                if byte == 0 && self.zeros > 0 {
                    self.zeros -= 1;
                } else {
                    self.agrees = false;
                }
            } else {
                self.agrees = self.rest[0] == byte;
                self.rest = &self.rest[1..];
            }
        }
    }

    /// A byte differed.
    fn is_settled(&self) -> bool {
        !self.agrees
    }
}
