//! A path as a diagram shows it.
ghost use Rattle.std.specs.Prelude.{◌≡◌, IfOk, string_bytes};
ghost use Rattle.yv_text_path.specs.ShownPaths.{is_blank, with_single_spaces};

use std::alloc::{AllocError, Global};

// A space, a tab, a CR or an LF.
fn is_blank(character: char) -> bool
    ensures { result ≡ is_blank character }
{
    matches!(character, ' ' | '\t' | '\r' | '\n')
}

/// The text with each run of blanks as one space.
pub fn shown_path(alloc: Global, text: &str) -> Result<String, AllocError>
    ensures { IfOk result (λ path. string_bytes path ≡ with_single_spaces text.now) }
{
    let mut path = String::new(alloc);
    let mut is_behind = false;
    for character in text.chars() {
        let blank = is_blank(character);
        if !blank {
            path.push(character)?;
        } else if !is_behind {
            path.push(' ')?;
        }
        is_behind = blank;
    }
    Ok(path)
}
