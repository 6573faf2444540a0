//! A text in memory that a diagram is drawn on.
ghost use Rattle.std.specs.Prelude.{◌≡◌, [], List, ℕ, Some, IfOk, false, is_err, string_bytes};
ghost use Rattle.yv_base_streams.specs.Pages.{Adds, IsPaged, output_of};

use crate::paper::Paper;
use std::alloc::{AllocError, Global};

/// A text, and whether memory for a piece of it was refused. Then no more is put.
#[derive(Drop)]
pub(crate) struct Text {
    text: String,
    room: Result<(), AllocError>,
}

impl Text {
    /// An empty text.
    pub(crate) fn new(alloc: Global) -> Text
        ensures { IsPaged (Some []) []
            (output_of (Some (string_bytes result.text)) (is_err result.room) 0 []) }
    {
        Text {
            text: String::new(alloc),
            room: Ok(()),
        }
    }

    /// The text, unless memory was refused.
    pub(crate) fn whole(self) -> Result<String, AllocError>
        ensures { (text : List ℕ)
            → IsPaged (Some []) text
            (output_of (Some (string_bytes self.text)) (is_err self.room) 0 [])
            → IfOk result (λ whole. string_bytes whole ≡ text) }
    {
        let Text { text, room } = self;
        room?;
        Ok(text)
    }

    // Puts a piece after the others, where there is room.
    fn push(&mut self, piece: &str)
        requires { is_err self.old.room ≡ false }
        ensures { Adds piece.now
            (output_of (Some (string_bytes self.old.text)) (is_err self.old.room) 0 [])
            (output_of (Some (string_bytes self.new.text)) (is_err self.new.room) 0 []) }
    {
        self.room = self.text.push_str(piece);
    }
}

impl Paper for Text {
    ghost use Rattle.std.specs.Prelude.{[], Some, is_err, string_bytes};
    ghost use Rattle.yv_base_streams.specs.Pages.{output_of};

    type Page = ();

    ghost output = { λ page t. output_of (Some (string_bytes t.text)) (is_err t.room) 0 [] };

    fn put(&mut self, _page: &mut (), piece: &str) {
        if self.room.is_ok() {
            self.push(piece);
        }
    }

    fn has_failed(&self) -> bool {
        self.room.is_err()
    }
}
