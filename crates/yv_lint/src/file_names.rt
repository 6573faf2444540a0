//! The names of files.
ghost use Rattle.std.specs.{Prelude.{◌≡◌, map}, List.{concat}, Str.{bytes_eq}};
ghost use Rattle.yv_lint.specs.FileNames.{is_misnamed, last_part};

use crate::dates::greatest_date;
use crate::statements::has_child;
use yv_link_scopes::name_of;
use yv_text_statement::{Keyword, Statement};

// The last part of a path: what comes after its last slash.
fn last_part(path: &[u8]) -> &[u8]
    ensures { result.now ≡ last_part path.now }
{
    let mut start = 0;
    for (i, byte) in path.iter().enumerate() {
        if *byte == b'/' {
            start = i + 1;
        }
    }
    &path[start..]
}

// Whether a text is made of these pieces.
fn is_made_of(text: &[u8], pieces: &[&[u8]]) -> bool
    ensures { result ≡ bytes_eq text.now (concat (map (λ p. p.now) pieces.now)) }
{
    let mut rest = text;
    for piece in pieces {
        match rest.strip_prefix(*piece) {
            Some(after) => rest = after,
            None => return false,
        }
    }
    rest.is_empty()
}

/// Whether a file has another name than its module or submodule asks for: neither with the greatest
/// of its dates nor without one.
pub fn is_misnamed(path: &str, root: &Statement<'_>) -> bool
    ensures { result ≡ is_misnamed path.now root.now }
{
    let file = last_part(path.as_bytes());
    let name = name_of(root).as_bytes();
    let date = greatest_date(root).as_bytes();
    let is_dated = has_child(root, Keyword::Revision);
    !is_made_of(file, &[name, b".yang"])
        && !(is_dated && is_made_of(file, &[name, b"@", date, b".yang"]))
}
