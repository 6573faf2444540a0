//! A text in the bytes of a file.

ghost use Rattle.std.specs.Prelude.{◌≡◌};
ghost use Rattle.yv_source.specs.Legal.{IsLegalText};

use std::marker::Model;

/// A text that has only legal characters and at most `MOST_BYTES` bytes.
#[derive(Drop)]
pub(crate) struct Text<'a> {
    text: &'a str,
}

impl<'a> Model for Text<'a> {
    ghost use Rattle.std.specs.Prelude.{ℕ, List};

    ghost Value = { List ℕ };

    ghost view = { λ t. t.text.now };

    ghost use Rattle.yv_source.specs.Legal.{IsLegalText};

    ghost invariant = { λ t. IsLegalText t.text.now };
}

impl<'a> Text<'a> {
    /// A text whose characters are legal.
    pub(crate) fn new(text: &'a str) -> Text<'a>
        requires { IsLegalText text.now }
        ensures { result ≡ text.now }
    {
        Text { text }
    }

    /// The text itself.
    pub(crate) fn as_str(&self) -> &'a str
        ensures value { result.now ≡ self.now }
        ensures legal { IsLegalText self.now }
    {
        self.text
    }
}
