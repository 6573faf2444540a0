//! Words of an instance-identifier: names with their modules, keys and positions.
ghost use Rattle.std.specs.{Prelude.{◌≡◌, ◌==◌}, List.{list_all, list_any}};
ghost use Rattle.yv_text_if_feature.specs.Bytes.{colon, is_digit};
ghost use Rattle.yv_text_instance.specs.{InnerStates.{is_key, is_qualified_name}, Predicates.{is_position}};

use yv_text_if_feature::is_name;

/// Whether a word is a name with its module: a name that has a colon.
pub fn is_qualified_name(word: &[u8]) -> bool
    ensures { result ≡ is_qualified_name word.now }
{
    is_name(word) && has_colon(word)
}

fn has_colon(word: &[u8]) -> bool
    ensures { result ≡ list_any (λ b. b == colon) word.now }
{
    word.iter().any(|byte| *byte == b':')
}

/// Whether a word is `.` or a name.
pub fn is_key(word: &[u8]) -> bool
    ensures { result ≡ is_key word.now }
{
    word == b".".as_slice() || is_name(word)
}

/// Whether a word is a position: digits, of which the first is not `0`.
pub fn is_position(word: &[u8]) -> bool
    ensures { result ≡ is_position word.now }
{
    match word.split_first() {
        None => false,
        Some((first, rest)) => is_digit(*first) && *first != b'0' && are_digits(rest),
    }
}

fn are_digits(text: &[u8]) -> bool
    ensures { result ≡ list_all is_digit text.now }
{
    text.iter().all(|byte| is_digit(*byte))
}

fn is_digit(byte: u8) -> bool
    ensures { result ≡ is_digit byte }
{
    byte >= b'0' && byte <= b'9'
}
