//! Names and lists of them in a text of the command line.
ghost use Rattle.std.specs.{Prelude.{◌≡◌, ◌<◌, ◌==◌, ◌++◌, ◌∷◌, ℕ, List, map, length, IfOk, IfSome, MatchOption, string_bytes}, List.{All, AllZip, list_all, slice_split}};
ghost use Rattle.yv_text_if_feature.specs.Names.{is_identifier};
ghost use Rattle.yv_job.specs.Names.{IsIdentifier, IsNames, JoinsNames, IsEntry, IsSupport};
ghost use Rattle.yv_text_statement.specs.Selection.{Entry, entry_of};

use std::alloc::{AllocError, Global};
use yv_text_if_feature::is_identifier;

/// The parts of a text between the places where a character is.
pub fn pieces<'a>(alloc: Global, text: &'a str, at: char) -> Result<Vec<&'a str>, AllocError>
    requires { at < 128 }
    ensures { IfOk result (λ v. map (λ p. p.now) v.items ≡ slice_split (λ b. b == at) text.now) }
{
    text.split(at).collect(alloc)
}

/// Whether a text is a name: an identifier (RFC 7950, section 6.2).
pub fn is_name(text: &str) -> bool
    ensures { result ≡ is_identifier text.now }
{
    is_identifier(text.as_bytes())
}

fn all_names(parts: &[&str]) -> bool
    ensures { result ≡ list_all (λ p. is_identifier p.now) parts.now }
{
    parts.iter().all(|part| is_name(part))
}

/// The texts, each in memory of its own.
pub fn copy_texts(alloc: Global, texts: &[&str]) -> Result<Vec<String>, AllocError>
    ensures { IfOk result (λ v. map string_bytes v.items ≡ map (λ t. t.now) texts.now) }
{
    let mut copies = Vec::new(alloc);
    for text in texts {
        copies.push(String::from_str(alloc, text)?)?;
    }
    Ok(copies)
}

/// The names that a text joins by commas, or none where it joins no names.
pub fn names_of(alloc: Global, text: &str) -> Result<Option<Vec<String>>, AllocError>
    ensures { IfOk result (λ o. MatchOption o ((ns : List (List ℕ)) → IsNames text.now ns → ⊥)
        (λ v. IsNames text.now (map string_bytes v.items))) }
{
    let parts = pieces(alloc, text, ',')?;
    if all_names(&parts) {
        Ok(Some(copy_texts(alloc, &parts)?))
    } else {
        Ok(None)
    }
}

// The features that a text joins by commas, perhaps none.
fn features_of(alloc: Global, text: &str) -> Result<Option<Vec<String>>, AllocError>
    ensures { IfOk result (λ o. MatchOption o ((ns : List (List ℕ)) → JoinsNames text.now ns → ⊥)
        (λ v. JoinsNames text.now (map string_bytes v.items))) }
{
    if text.is_empty() {
        Ok(Some(Vec::new(alloc)))
    } else {
        names_of(alloc, text)
    }
}

/// What comes before a text's first colon, and after it.
pub fn cut(text: &str) -> Option<(&str, &str)>
    ensures joins { IfSome result (λ p. p.0.now ++ (58 ∷ p.1.now) ≡ text.now) }
    ensures first { (before after : List ℕ) → IsIdentifier before
        → before ++ (58 ∷ after) ≡ text.now
        → MatchOption result ⊥ (λ p. (p.0.now ≡ before) × (p.1.now ≡ after)) }
{
    text.split_once(':')
}

// The entry that a text is, or none.
fn entry(alloc: Global, text: &str) -> Result<Option<(String, Vec<String>)>, AllocError>
    ensures { IfOk result (λ o. MatchOption o ((e : Entry) → IsEntry text.now e → ⊥)
        (λ e. IsEntry text.now (entry_of e))) }
{
    let Some((name, rest)) = cut(text) else {
        return Ok(None);
    };
    if !is_name(name) {
        return Ok(None);
    }
    let Some(features) = features_of(alloc, rest)? else {
        return Ok(None);
    };
    Ok(Some((String::from_str(alloc, name)?, features)))
}

// The entries that texts are, or none where one isn't an entry.
fn entries(alloc: Global, parts: &[&str]) -> Result<Option<Vec<(String, Vec<String>)>>, AllocError>
    ensures { IfOk result (λ o. MatchOption o
        ((es : List Entry) → AllZip (λ p e. IsEntry p.now e) parts.now es → ⊥)
        (λ v. AllZip (λ p e. IsEntry p.now e) parts.now (map entry_of v.items))) }
{
    let mut entries = Vec::new(alloc);
    for part in parts {
        let Some(entry) = entry(alloc, part)? else {
            return Ok(None);
        };
        entries.push(entry)?;
    }
    Ok(Some(entries))
}

/// The entries that a text joins by `/`, or none where it joins no entries.
pub fn support_of(
    alloc: Global,
    text: &str,
) -> Result<Option<Vec<(String, Vec<String>)>>, AllocError>
    ensures { IfOk result (λ o. MatchOption o ((es : List Entry) → IsSupport text.now es → ⊥)
        (λ v. IsSupport text.now (map entry_of v.items))) }
{
    let parts = pieces(alloc, text, '/')?;
    entries(alloc, &parts)
}
