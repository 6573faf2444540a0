//! The words of a command line, as a caller gives them.
ghost use Rattle.std.specs.{Prelude.{◌≡◌, ◌∷◌, map, length, codes, All, IfOk, MatchOption, string_bytes}, Str.{IsUtf8}};

use std::alloc::{AllocError, Global};

/// The program's name, which is the first word of its command line.
const PROGRAM: &str = "yangcheck";

/// The command line of which these are the words behind the program's name.
pub fn command_line(alloc: Global, words: &[&str]) -> Result<Vec<String>, AllocError>
    ensures { IfOk result (λ line. map string_bytes line.items
        ≡ codes "yangcheck" ∷ map (λ t. t.now) words.now) }
{
    let mut line = Vec::new(alloc);
    line.push(String::from_str(alloc, PROGRAM)?)?;
    for word in words {
        line.push(String::from_str(alloc, word)?)?;
    }
    Ok(line)
}

/// The texts that parts are: none if one of them is not UTF-8.
pub fn texts_of<'a>(alloc: Global, parts: &[&'a [u8]]) -> Result<Option<Vec<&'a str>>, AllocError>
    ensures { IfOk result (λ texts. MatchOption texts
        (All IsUtf8 (map (λ p. p.now) parts.now) → ⊥)
        (λ v. map (λ t. t.now) v.items ≡ map (λ p. p.now) parts.now)) }
{
    let mut texts = Vec::new(alloc);
    for part in parts {
        match str::from_utf8(part) {
            Ok(text) => texts.push(text)?,
            Err(_) => return Ok(None),
        }
    }
    Ok(Some(texts))
}
