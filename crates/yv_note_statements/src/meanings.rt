//! What names mean in the statements of the files.
use crate::site::{Site, named_in_file};
use crate::sites::Sites;
use std::alloc::{AllocError, Global};
use yv_link_scopes::{local, prefix_of};
use yv_text_statement::Keyword;

/// How many steps from one typedef to the next are followed.
const MOST_STEPS: usize = 64;

/// A `type` statement, and those of the typedefs to which it leads, up to one of a built-in type.
pub fn chain<'s, 'a>(alloc: Global, site: &Site<'s, 'a>) -> Result<Vec<Site<'s, 'a>>, AllocError> {
    let mut types = Vec::new(alloc);
    let mut at = *site;
    for _ in 0..MOST_STEPS {
        types.push(at)?;
        match next_type(&at) {
            Some(next) => at = next,
            None => break,
        }
    }
    Ok(types)
}

// The `type` of the typedef that a `type` means.
fn next_type<'s, 'a>(site: &Site<'s, 'a>) -> Option<Site<'s, 'a>> {
    site.meaning()?.child(Keyword::Type)
}

/// The statement by which the file of a statement declares a prefix.
pub fn declaration<'s, 'a>(site: &Site<'s, 'a>, prefix: &str) -> Option<Site<'s, 'a>> {
    named_in_file(site, Keyword::Prefix, prefix)
}

/// The root of the module in which a name in a statement is looked up by its prefix.
pub fn module_of<'s, 'a>(site: &Site<'s, 'a>, name: &str) -> Option<Site<'s, 'a>> {
    match prefix_of(name) {
        Some(prefix) => declaration(site, prefix)?.meaning(),
        None => site.module(),
    }
}

/// How many words of an argument are looked at.
const MOST_WORDS: usize = 64;

/// The names in a path, a key or an expression: its first 64.
pub fn words_of<'a>(alloc: Global, text: &'a str) -> Result<Vec<&'a str>, AllocError> {
    text.split(is_between)
        .filter(|word| !word.is_empty())
        .take(MOST_WORDS)
        .collect(alloc)
}

// Whether a character separates names.
fn is_between(character: char) -> bool {
    matches!(character, ' ' | '\t' | '\n' | '\r' | '/' | '(' | ')')
}

/// The last name of a path, without its prefix.
pub fn last_step(path: &str) -> &str {
    match path.rsplit_once('/') {
        Some((_, last)) => local(last),
        None => local(path),
    }
}

/// The prefix by which the file of a statement names the module of another one: no text for its
/// own.
pub fn prefix_of_module<'a>(site: &Site<'_, 'a>, other: &Site<'_, 'a>) -> Option<&'a str> {
    let module = other.module()?;
    if site.module()?.number == module.number {
        return Some("");
    }
    let declaration = Sites::all(site.entries).find(|other| {
        other.is(Keyword::Prefix) && other.is_beside(site) && other.means(module.number)
    })?;
    declaration.entry.argument
}
