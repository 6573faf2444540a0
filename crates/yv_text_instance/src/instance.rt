//! Whether a text is an instance-identifier.
ghost use Rattle.std.specs.Prelude.{◌↔◌, IsTrue};
ghost use Rattle.yv_text_instance.specs.Instances.{IsInstance};

use crate::state::State;
use yv_text_path::Pieces;

/// Whether a text has the form of an instance-identifier in JSON (RFC 7951, section 6.11): `/` and
/// a name with its module, then `/` and names, perhaps with their modules. Predicates may follow
/// each name. Blanks may be between the tokens of a predicate only.
pub fn is_instance_identifier(text: &[u8]) -> bool
    ensures { IsTrue result ↔ IsInstance text.now }
{
    let mut state = State::Start;
    for piece in Pieces::new(text) {
        state = state.after(piece);
    }
    state.is_end()
}
