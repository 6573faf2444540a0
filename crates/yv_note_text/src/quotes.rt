//! Names of strangers, as a terminal may show them.
ghost use Rattle.std.specs.Prelude.{◌≡◌, ◌++◌, ◌∷◌, [], OnOk, OnErr, string_bytes};
ghost use Rattle.yv_note_text.specs.{Excerpt.{ascii_text}, Quotes.{Extends, dots, front, in_quotes}};

use crate::place::push_shown;
use std::alloc::AllocError;

/// How many bytes of a name are shown.
const MOST_SHOWN: usize = 72;

/// The bytes of a name that are shown.
pub fn front(name: &[u8]) -> &[u8]
    ensures { result.now ≡ front name.now }
{
    if name.len() <= MOST_SHOWN {
        name
    } else {
        &name[..MOST_SHOWN]
    }
}

// What is shown of the rest of a name.
fn dots(name: &str) -> &'static str
    ensures { result.now ≡ dots name.now }
{
    if name.len() > MOST_SHOWN { ".." } else { "" }
}

// Adds what is shown of a name, and the quote after it.
fn push_rest(text: &mut String, name: &str) -> Result<(), AllocError>
    ensures rest { OnOk result
        (string_bytes text.new
        ≡ string_bytes text.old ++ (ascii_text (front name.now) ++ (dots name.now ++ 34 ∷ []))) }
    ensures grows { Extends (string_bytes text.old) (string_bytes text.new) }
{
    push_shown(text, front(name.as_bytes()))?;
    text.push_str(dots(name))?;
    text.push_str("\"")?;
    Ok(())
}

/// Adds a name in quotes. Of a longer one the first 72 bytes and two dots are shown, and what could
/// drive a terminal is shown as dots. If memory runs out, the text is as it was.
pub fn push_quoted(text: &mut String, name: &str) -> Result<(), AllocError>
    // The name is appended in quotes, at most 72 bytes of it, with dots for what could drive a
    // terminal.
    ensures quotes { OnOk result
        (string_bytes text.new ≡ string_bytes text.old ++ in_quotes name.now) }
    // After an error the text is as it was.
    ensures same { OnErr result (string_bytes text.new ≡ string_bytes text.old) }
{
    let start = text.len();
    text.push_str("\"")?;
    match push_rest(text, name) {
        Ok(()) => Ok(()),
        Err(error) => {
            text.truncate(start);
            Err(error)
        }
    }
}
