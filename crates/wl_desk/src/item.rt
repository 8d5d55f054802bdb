//! What is shown.
ghost use Rattle.std.specs.Prelude.{◌≡◌, string_bytes};

use std::marker::Model;

/// A shown message or a printed text, without a line feed at its end.
#[derive(Drop)]
pub struct Item {
    text: String,
}

impl Model for Item {
    ghost use Rattle.std.specs.Prelude.{string_bytes};
    ghost use Rattle.wl_expr.specs.Words.{Bytes};

    ghost Value = { Bytes };

    ghost view = { λ i. string_bytes i.text };
}

impl Item {
    pub(crate) fn new(text: String) -> Item
        ensures { result ≡ string_bytes text }
    {
        Item { text }
    }

    /// What it says.
    pub fn text(&self) -> &str
        ensures { result.now ≡ self.now }
    {
        self.text.as_str()
    }
}
