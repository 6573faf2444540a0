//! Whether a text is a path.
ghost use Rattle.std.specs.{Prelude.{◌↔◌, ℕ, List, Contains, IsTrue}, Bool.{MatchBool}};
ghost use Rattle.yv_text_path.specs.{Bytes.{opening_bracket}, Paths.{IsPath}};

use crate::piece::Pieces;
use crate::state::State;

/// Whether a text is the path of a leafref, perhaps with predicates (RFC 7950, section 9.9.2): an
/// absolute path, or one `../` or more and a descendant path. Blanks may be between the tokens of
/// a predicate only.
pub fn is_path(text: &[u8]) -> bool
    ensures { MatchBool result
        ((bare : List ℕ) × (names : List (List ℕ)) × IsPath text.now bare names)
        ((bare : List ℕ) (names : List (List ℕ)) → IsPath text.now bare names → ⊥) }
{
    let mut state = State::Start;
    for piece in Pieces::new(text) {
        state = state.after(piece);
    }
    state.is_end()
}

/// Whether a path has a predicate: whether a `[` is in the text.
pub fn has_predicate(text: &[u8]) -> bool
    ensures { IsTrue result ↔ Contains text.now opening_bracket }
{
    text.contains(&b'[')
}
