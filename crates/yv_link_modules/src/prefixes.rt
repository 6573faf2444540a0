//! Prefixes, and where they are declared.
ghost use Rattle.std.specs.{Prelude.{◌≡◌, ◌||◌}, Option.{option_map}};
ghost use Rattle.yv_link_scopes.specs.{Names.{prefix_of as prefix_at}, Rows.{row}, Tables.{table_of}};
ghost use Rattle.yv_link_modules.specs.Prefixes.{has_names, has_undeclared, is_cut, is_second, is_undeclared, is_unknown};

use crate::links::is_at;
use yv_link_scopes::{Entry, NamePlaces, name_of};
use yv_text_statement::Keyword;

// What comes before the first colon of a word.
fn prefix_of(word: &[u8]) -> Option<&[u8]>
    ensures { option_map (λ p. p.now) result ≡ prefix_at word.now }
{
    for (at, byte) in word.iter().enumerate() {
        if *byte == b':' {
            return Some(&word[..at]);
        }
    }
    None
}

// Whether a word ends at this byte.
fn is_cut(byte: u8) -> bool
    ensures { result ≡ is_cut byte }
{
    matches!(byte, b' ' | b'\t' | b'\r' | b'\n' | b'(' | b')' | b'/')
}

// Whether a word has a prefix that the file doesn't declare.
fn is_undeclared<'a>(prefixes: &NamePlaces<'a>, file: usize, word: &'a [u8]) -> bool
    ensures { result ≡ is_undeclared (table_of prefixes.now) file (prefix_at word.now) }
{
    match prefix_of(word) {
        Some(prefix) => prefixes.get_bytes(file, prefix).is_none(),
        None => false,
    }
}

// Whether one of the words has such a prefix.
fn has_undeclared<'a>(prefixes: &NamePlaces<'a>, file: usize, text: &'a [u8]) -> bool
    ensures { result ≡ has_undeclared (table_of prefixes.now) file text.now }
{
    for word in text.split(|byte| is_cut(*byte)) {
        if is_undeclared(prefixes, file, word) {
            return true;
        }
    }
    false
}

// Whether the statement's argument has names with prefixes.
#[tactic(auto, unfolding(crate::specs::Prefixes::has_names))]
fn has_names(entry: &Entry<'_, '_>) -> bool
    ensures { result ≡ has_names (row entry.now).head }
{
    match entry.kind() {
        Keyword::Type | Keyword::Uses | Keyword::Base => true,
        Keyword::IfFeature | Keyword::Augment | Keyword::Refine => true,
        Keyword::Key | Keyword::Unique | Keyword::Path => true,
        _ => false,
    }
}

// Whether a statement's keyword has a prefix that its file doesn't declare. Only an extension's has
// one.
fn has_unknown_keyword<'a>(prefixes: &NamePlaces<'a>, entry: &Entry<'a, '_>) -> bool
    ensures { let r = row entry.now
        in result ≡ is_undeclared (table_of prefixes.now) r.file (prefix_at r.head.keyword) }
{
    if !entry.is(Keyword::Extended) {
        return false;
    }
    let keyword = entry.statement.keyword();
    is_undeclared(prefixes, entry.file as usize, keyword.as_bytes())
}

// Whether a statement has a prefix that its file doesn't declare.
fn is_unknown<'a>(prefixes: &NamePlaces<'a>, entry: &Entry<'a, '_>) -> bool
    ensures { result ≡ is_unknown (table_of prefixes.now) (row entry.now) }
{
    if has_unknown_keyword(prefixes, entry) {
        return true;
    }
    let file = entry.file as usize;
    let name = name_of(entry.statement);
    has_names(entry) && has_undeclared(prefixes, file, name.as_bytes())
}

// Whether a statement declares a prefix that an earlier one of its file declares.
fn is_second<'a>(prefixes: &NamePlaces<'a>, number: usize, entry: &Entry<'a, '_>) -> bool
    ensures { result ≡ is_second (table_of prefixes.now) number (row entry.now) }
{
    let name = name_of(entry.statement);
    entry.is(Keyword::Prefix) && !is_at(number, prefixes.get(entry.file as usize, name))
}

/// Whether a statement has a prefix that its file doesn't declare, or declares one again.
pub(crate) fn is_foreign<'a>(
    prefixes: &NamePlaces<'a>,
    number: usize,
    entry: &Entry<'a, '_>,
) -> bool
    ensures { result ≡ (is_unknown (table_of prefixes.now) (row entry.now)
        || is_second (table_of prefixes.now) number (row entry.now)) }
{
    is_unknown(prefixes, entry) || is_second(prefixes, number, entry)
}
