//! The names in predicates.
ghost use Rattle.std.specs.{Prelude.{◌≡◌, ℕ, List}, Iterator.{YieldsFirstRef, item_count}};
ghost use Rattle.yv_text_path.specs.{NamesLeft.{names_left}, Paths.{IsPath}};

use crate::piece::{Piece, Pieces};
use crate::state::State;

/// The names in the predicates of a path, in order: of each predicate the name before the `=`, and
/// those of the path after it.
#[derive(Clone, Copy)]
pub struct PredicateNames<'a> {
    pieces: Pieces<'a>,
    state: State,
}

/// The names in the predicates of a path, in order. Of a text that is no path they are some words
/// of it.
pub fn predicate_names(text: &[u8]) -> PredicateNames<'_>
    ensures { (bare : List ℕ) (names : List (List ℕ)) → IsPath text.now bare names
        → names_left result ≡ names }
{
    PredicateNames {
        pieces: Pieces::new(text),
        state: State::Start,
    }
}

impl<'a> Iterator for PredicateNames<'a> {
    type Item = &'a [u8];

    ghost next_gives = { YieldsFirstRef names_left };

    ghost remaining = { item_count names_left };

    fn next(&mut self) -> Option<&'a [u8]> {
        while let Some(piece) = self.pieces.next() {
            self.state = self.state.after(piece);
            if let Piece::Word(word) = piece {
                if self.state.is_after_inner_name() {
                    return Some(word);
                }
            }
        }
        None
    }
}
