//! A text that is cut at its first blank.
ghost use Rattle.std.specs.{Prelude.{◌≡◌, position, IfSome, IsUtf8}, Option.{option_map}};
ghost use Rattle.yv_text_if_feature.specs.Bytes.{is_blank};
ghost use Rattle.yv_node_paths.specs.InnerFirstWord.{first_word};

/// What is before a text's first blank, and what is after it.
pub(crate) fn cut(text: &str) -> Option<(&str, &str)>
    ensures parts { option_map (λ parts. (parts.0.now, parts.1.now)) result ≡ first_word text.now }
    ensures text { IfSome result (λ parts. IsUtf8 parts.1.now) }
{
    match blank_in(text.as_bytes()) {
        Some(at) => Some((&text[..at], &text[at + 1..])),
        None => None,
    }
}

// The place of the first blank.
fn blank_in(text: &[u8]) -> Option<usize>
    ensures { result ≡ position is_blank text.now }
{
    text.iter()
        .position(|byte| matches!(*byte, b' ' | b'\t' | b'\r' | b'\n'))
}
