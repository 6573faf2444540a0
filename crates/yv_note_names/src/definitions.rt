//! Names that are defined twice, or not at all.
use crate::prefixes::Prefixes;
use std::alloc::{AllocError, Global};
use std::collections::BTreeMap;
use yv_link_definitions::{BUILT_INS, is_built_in};
use yv_link_scopes::local;
use yv_note_statements::{
    Guess, Message, Site, Sites, is_among, nearest_definition, prefix_of_module, say_guess,
    words_of,
};
use yv_note_text::Likeness;
use yv_text_statement::{Code, Keyword};

// What other languages call a type, and what YANG calls it.
static OTHER_NAMES: &[(&str, &str)] = &[
    ("integer", "int32"),
    ("int", "int32"),
    ("uint", "uint32"),
    ("unsigned", "uint32"),
    ("long", "int64"),
    ("float", "decimal64"),
    ("double", "decimal64"),
    ("decimal", "decimal64"),
    ("number", "decimal64"),
    ("text", "string"),
    ("str", "string"),
    ("bytes", "binary"),
    ("enum", "enumeration"),
];

// The type of YANG that another language calls so.
fn other_name(written: &str) -> Option<&'static str> {
    let (_, meant) = OTHER_NAMES.iter().find(|(name, _)| *name == written)?;
    Some(*meant)
}

// Whether a statement gives another one's name a second time: of a file or of a definition of the
// same kind.
fn is_namesake(one: &Site<'_, '_>, other: &Site<'_, '_>) -> bool {
    one.number != other.number && one.argument() == other.argument() && are_kin(one, other)
}

// Whether both are files, or the one is of the other's keyword and in a block around it.
fn are_kin(one: &Site<'_, '_>, other: &Site<'_, '_>) -> bool {
    if other.is_root() {
        one.is_root()
    } else {
        one.is(other.kind()) && is_visible(one, other)
    }
}

// Whether a statement is in the block of another one, or in a block around that.
fn is_visible(one: &Site<'_, '_>, other: &Site<'_, '_>) -> bool {
    let mut block = other.entry.scope;
    for _ in 0..MOST_DEPTH {
        if block == one.entry.scope {
            return true;
        }
        match Site::at(other.entries, block) {
            Some(around) if !around.is_root() => block = around.entry.scope,
            _ => return false,
        }
    }
    false
}

/// How deep statements nest at most.
const MOST_DEPTH: usize = 64;

// The other statement of the name that a refusal says is there twice.
fn other_of_name<'s, 'a>(site: &Site<'s, 'a>) -> Option<Site<'s, 'a>> {
    Sites::all(site.entries).find(|one| is_namesake(one, site))
}

// Adds where the other statement is, and shows its line.
fn say_other<'a>(telling: &mut Message<'a>, site: &Site<'_, 'a>) {
    if let Some(other) = other_of_name(site) {
        telling.point(" The other one is at ", &other, ":");
        telling.show(&other);
    }
}

/// Adds that another file has the name of a file.
pub fn tell_second_module<'a>(telling: &mut Message<'a>, site: &Site<'_, 'a>) {
    telling.sentence(Code::DuplicateModule);
    say_other(telling, site);
}

/// Adds that another definition has the same name.
pub fn tell_second_name<'a>(telling: &mut Message<'a>, site: &Site<'_, 'a>) {
    if site.is(Keyword::Typedef) && is_built_in(site.argument()) {
        telling.subject("", " is the name of a built-in type; choose another one.");
    } else {
        telling.subject_statement(site, " is defined in this scope already.");
        say_other(telling, site);
    }
}

// Adds how the name of a definition is written in a file, or why it can't be used there.
fn say_spelling<'a>(telling: &mut Message<'a>, site: &Site<'_, 'a>, definition: &Site<'_, 'a>) {
    if !is_at_top(definition) {
        telling.point(
            " The one at ",
            definition,
            " is seen only in its own block: move it to a block around this statement.",
        );
        return;
    }
    match prefix_of_module(site, definition) {
        Some(prefix) => {
            telling.quote_prefixed(" Write ", prefix, definition.argument(), "");
            telling.point(": it is defined at ", definition, ".");
        }
        None => telling.point(" It is defined at ", definition, ": import that module."),
    }
}

// Whether a statement is in no block but that of a file.
fn is_at_top(site: &Site<'_, '_>) -> bool {
    site.parent().is_none_or(|parent| parent.is_root())
}

// Adds what may be meant by a name: a definition of the same name that isn't seen, or one with a
// name that is like it.
fn say_meant<'a>(telling: &mut Message<'a>, site: &Site<'_, 'a>, guess: Option<Guess<'a>>) {
    match definition_of(site, guess) {
        Some((guess, definition)) if guess.likeness == Likeness::Same => {
            say_spelling(telling, site, &definition);
        }
        Some((guess, definition)) => {
            let prefix = prefix_of_module(site, &definition).unwrap_or("");
            telling.quote_prefixed(" Did you mean ", prefix, guess.name, "");
            telling.point(", which is defined at ", &definition, "?");
        }
        None => say_guess(telling, guess),
    }
}

// A guess with the statement that defines it, if there is one.
fn definition_of<'s, 'a>(
    site: &Site<'s, 'a>,
    guess: Option<Guess<'a>>,
) -> Option<(Guess<'a>, Site<'s, 'a>)> {
    let guess = guess?;
    Some((guess, Site::at(site.entries, guess.number?)?))
}

// The built-in type whose name is most like one that was written.
fn nearest_built_in(written: &str) -> Option<Guess<'static>> {
    BUILT_INS.iter().fold(None, |nearest, name| {
        Guess::nearer(nearest, Guess::of(written, name, None))
    })
}

/// Adds that a type is not defined, and what may be meant.
pub fn tell_type_name<'a>(telling: &mut Message<'a>, site: &Site<'_, 'a>) {
    telling.sentence(Code::UnknownType);
    if let Some(meant) = other_name(site.argument()) {
        telling.quote(" Did you mean ", meant, "?");
        return;
    }
    let built_in = nearest_built_in(site.argument());
    let typedef = nearest_definition(site.entries, Keyword::Typedef, site.argument());
    say_meant(telling, site, Guess::nearer(built_in, typedef));
}

/// Adds that a grouping is not defined, and what may be meant.
pub fn tell_grouping_name<'a>(telling: &mut Message<'a>, site: &Site<'_, 'a>) {
    telling.sentence(Code::UnknownGrouping);
    say_nearest(telling, site, Keyword::Grouping, site.argument());
}

/// Adds that an identity is not defined, and what may be meant.
pub fn tell_identity_name<'a>(telling: &mut Message<'a>, site: &Site<'_, 'a>) {
    telling.sentence(Code::UnknownIdentity);
    say_nearest(telling, site, Keyword::Identity, site.argument());
}

// Adds what may be meant by the name of a definition of this keyword.
fn say_nearest<'a>(
    telling: &mut Message<'a>,
    site: &Site<'_, 'a>,
    keyword: Keyword,
    name: &'a str,
) {
    say_meant(
        telling,
        site,
        nearest_definition(site.entries, keyword, name),
    );
}

// Names in an expression that are not known as features so far: for each module and name its place
// among the words of the expression.
type Unknown<'a> = BTreeMap<(usize, &'a [u8]), usize>;

// The names in words up to the first one that means nothing, and how many words these are.
fn names_in<'a>(
    alloc: Global,
    site: &Site<'_, 'a>,
    words: &[&'a str],
) -> Result<(Unknown<'a>, usize), AllocError> {
    let prefixes = Prefixes::read(alloc, site)?;
    let mut names = BTreeMap::new(alloc);
    for (place, word) in words.iter().enumerate() {
        if is_among(word, "and or not") {
            continue;
        }
        let Some(module) = prefixes.module_of(site, word) else {
            return Ok((names, place));
        };
        let name = (module.number, local(word).as_bytes());
        let _ = names.entry(name)?.or_insert(place);
    }
    Ok((names, words.len()))
}

// The first name of an expression that is not that of a feature.
fn unknown_feature<'a>(alloc: Global, site: &Site<'_, 'a>) -> Result<Option<&'a str>, AllocError> {
    let words = words_of(alloc, site.argument())?;
    let (mut unknown, count) = names_in(alloc, site, &words)?;
    for feature in Sites::all(site.entries) {
        if feature.is(Keyword::Feature) {
            let name = (feature.entry.scope, feature.argument().as_bytes());
            let _ = unknown.remove(&name);
        }
    }
    let first = unknown.values().copied().min().unwrap_or(count);
    Ok(words.get(first.min(count)).copied())
}

/// Adds which feature is not defined, and what may be meant.
pub fn tell_feature_name<'a>(
    telling: &mut Message<'a>,
    site: &Site<'_, 'a>,
) -> Result<(), AllocError> {
    let Some(unknown) = unknown_feature(telling.alloc(), site)? else {
        telling.sentence(Code::UnknownFeature);
        return Ok(());
    };
    if unknown == site.argument() {
        telling.subject("The feature ", " is not defined.");
    } else {
        telling.quote("The feature ", unknown, "");
        telling.subject(" in ", " is not defined.");
    }
    say_nearest(telling, site, Keyword::Feature, unknown);
    Ok(())
}
