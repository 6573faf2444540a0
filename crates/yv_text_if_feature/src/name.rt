//! Identifiers and names.
ghost use Rattle.std.specs.{Prelude.{◌≡◌, ◌==◌}, List.{list_all, slice_split}};
ghost use Rattle.yv_text_if_feature.specs.{Bytes.{colon, is_digit}, Names.{is_identifier, is_name, is_part, is_start}};

fn is_digit(byte: u8) -> bool
    ensures { result ≡ is_digit byte }
{
    byte >= b'0' && byte <= b'9'
}

fn is_start(byte: u8) -> bool
    ensures { result ≡ is_start byte }
{
    byte >= b'A' && byte <= b'Z' || byte >= b'a' && byte <= b'z' || byte == b'_'
}

fn is_part(byte: u8) -> bool
    ensures { result ≡ is_part byte }
{
    is_start(byte) || is_digit(byte) || byte == b'-' || byte == b'.'
}

/// Whether a text is an identifier: a letter or `_`, then letters, digits, `_`, `-` and `.` (RFC
/// 7950, section 6.2).
pub fn is_identifier(text: &[u8]) -> bool
    ensures { result ≡ is_identifier text.now }
{
    match text.split_first() {
        None => false,
        Some((first, rest)) => is_start(*first) && are_parts(rest),
    }
}

fn are_parts(text: &[u8]) -> bool
    ensures { result ≡ list_all is_part text.now }
{
    text.iter().all(|byte| is_part(*byte))
}

/// Whether a text is a name, perhaps with a prefix: an identifier, or two with a colon between.
#[tactic(auto, unfolding(crate::specs::Names::is_name))]
pub fn is_name(text: &[u8]) -> bool
    ensures { result ≡ is_name text.now }
{
    text.iter().filter(|byte| **byte == b':').count() <= 1 && are_identifiers(text)
}

fn are_identifiers(text: &[u8]) -> bool
    ensures { result ≡ list_all is_identifier (slice_split (λ b. b == colon) text.now) }
{
    text.split(|byte| *byte == b':')
        .all(|piece| is_identifier(piece))
}
