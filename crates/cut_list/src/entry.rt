//! The entries of a cut list.
use std::marker::Model;

/// A line of a cut list: the frames `from` to `to` of an input.
#[derive(Drop)]
pub struct Entry {
    pub name: Name,
    pub from: u32,
    pub to: u32,
}

/// The name of an input.
#[derive(Drop)]
pub struct Name {
    text: String,
}

impl Model for Name {
    ghost use Rattle.std.specs.Prelude.{List, ℕ, string_bytes};

    ghost Value = { List ℕ };

    ghost view = { λ n. string_bytes n.text };
}

impl Name {
    ghost use Rattle.std.specs.Prelude.{◌≡◌, string_bytes};

    /// The name with this text.
    pub fn of(text: String) -> Name
        ensures { result ≡ string_bytes text }
    {
        Name { text }
    }

    /// The name as a text.
    pub fn text(&self) -> &str
        ensures { result.now ≡ self.now }
    {
        self.text.as_str()
    }
}
