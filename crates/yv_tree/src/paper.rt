//! What a diagram is drawn on.
ghost use Rattle.std.specs.Prelude.{◌≡◌};
ghost use Rattle.yv_base_streams.specs.Pages.{Adds, Output};

use std::io::Write;
use yv_base_streams::{Counted, Page};

/// What takes a text piece by piece: a stream, by way of its page, or a text in memory. Once it has
/// failed it takes no more.
pub(crate) trait Paper {
    /// What holds the last pieces.
    type Page;

    ghost output: { Self.Page → Self → Output };

    /// Puts a piece after the others.
    fn put(&mut self, page: &mut Self::Page, piece: &str)
        ensures { Adds piece.now (output page.old self.old) (output page.new self.new) };

    /// Whether no more is taken.
    fn has_failed(&self) -> bool
        ensures { (page : Self.Page) → result ≡ (output page self.now).has_failed };
}

impl<W: Write> Paper for Counted<W> {
    ghost use Rattle.yv_base_streams.specs.Pages.{paged_output};

    type Page = Page;

    ghost output = { λ page w. paged_output W.contents w page };

    fn put(&mut self, page: &mut Page, piece: &str) {
        page.put(self, piece.as_bytes());
    }

    fn has_failed(&self) -> bool {
        self.has_failed()
    }
}
