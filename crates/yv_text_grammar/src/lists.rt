//! The arguments that are lists of words: those of `key` and `unique`.
ghost use Rattle.std.specs.{Prelude.{◌≡◌}, List.{list_all}};
ghost use Rattle.yv_text_if_feature.specs.Names.{is_name};
ghost use Rattle.yv_text_grammar.specs.{Texts.{is_descendant_path, is_key, is_unique}, Words.{words}};

use crate::distinct::none_twice;
use crate::text::{is_descendant_path, is_trimmed};
use crate::words::Words;
use yv_text_if_feature::is_name;

/// Names with blanks between, none twice (RFC 7950, section 7.8.2).
pub fn is_key(text: &[u8]) -> bool
    ensures { result ≡ is_key text.now }
{
    is_trimmed(text) && are_names(text) && none_twice(text)
}

/// Descendant paths with blanks between (RFC 7950, section 7.8.3).
pub fn is_unique(text: &[u8]) -> bool
    ensures { result ≡ is_unique text.now }
{
    is_trimmed(text) && are_descendant_paths(text)
}

fn are_names(text: &[u8]) -> bool
    ensures { result ≡ list_all is_name (words text.now) }
{
    Words::new(text).all(|word| is_name(word))
}

fn are_descendant_paths(text: &[u8]) -> bool
    ensures { result ≡ list_all is_descendant_path (words text.now) }
{
    Words::new(text).all(|word| is_descendant_path(word))
}
