//! Receivers of bytes.
ghost use Rattle.std.specs.Prelude.{◌∷◌, [], IsTrue, List, ℕ};
ghost use Rattle.mv_bits.specs.Receivers.{HasPut, TakesAnything};

/// Takes bytes one by one, without an answer and without memory.
///
/// A receiver doesn't store what was put into it, so `stands` says for which bytes it stands. Its kind is what it was made
/// with and what no call changes (a room's size, the bytes that others are compared with).
pub trait Put {
    ghost Kind: { Type 0 };

    ghost stands: { Self → Kind → List ℕ → Type 0 };

    /// Takes one byte.
    fn put_byte(&mut self, byte: u8)
        ensures { HasPut stands self.old self.new (byte ∷ []) };

    /// Whether nothing that is put from here on changes what it stands for. Where it says no, something may.
    fn is_settled(&self) -> bool
        ensures { IsTrue result → TakesAnything stands self.now };
}
