//! The characters that a text may have (RFC 7950, section 14).
ghost use Rattle.std.specs.{Prelude.{◌≡◌}, Str.{chars}};
ghost use Rattle.yv_text_statement.specs.Legal.{is_legal, all_legal};

/// Whether a YANG text may have the character: all but the controls other than tab, line feed and
/// carriage return, and the noncharacters (RFC 7950, section 14, `yang-char`).
pub fn is_legal(character: char) -> bool
    ensures { result ≡ is_legal character }
{
    let code = character as u32;
    (code == 9 || code == 10 || code == 13 || 32 <= code)
        && (code < 64976 || 65007 < code)
        && code % 65536 < 65534
}

/// Whether the text has only such characters.
pub fn is_legal_text(text: &str) -> bool
    ensures { result ≡ all_legal (chars text.now) }
{
    text.chars().all(is_legal)
}
