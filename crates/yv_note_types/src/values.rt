//! What values a type has.
use crate::derived_identities::derived_from;
use crate::restrictions::{digits_of, limits_of};
use crate::unread_texts::unknown_bit;
use std::alloc::{AllocError, Global};
use yv_note_statements::{Guess, Message, Site, prefix_of_module, say_guess};
use yv_text_statement::Keyword;

/// How many names of a type are listed.
const MOST_NAMES: usize = 8;

// Adds names of a type, the first of them and the one that is most like what was written.
fn say_names<'a>(
    telling: &mut Message<'a>,
    names: &[Site<'_, 'a>],
    default: &Site<'_, 'a>,
    written: &str,
) {
    for (place, name) in names.iter().enumerate().take(MOST_NAMES) {
        telling.quote_prefixed(
            if place == 0 { "" } else { ", " },
            prefix_of_module(default, name).unwrap_or(""),
            name.argument(),
            "",
        );
    }
    say_rest(telling, names.len());
    say_guess(telling, nearest_name(names, written));
}

// Adds how many of so many names are not listed.
fn say_rest(telling: &mut Message<'_>, count: usize) {
    if count > MOST_NAMES {
        telling.count(" and ", count.saturating_sub(MOST_NAMES) as u64, " more.");
    } else {
        telling.say(if count == 0 { "none." } else { "." });
    }
}

/// The argument of a statement that is most like what was written.
pub(crate) fn nearest_name<'a>(sites: &[Site<'_, 'a>], written: &str) -> Option<Guess<'a>> {
    sites.iter().fold(None, |nearest, site| {
        Guess::nearer(nearest, Guess::of(written, site.argument(), None))
    })
}

// Adds which numbers a type has: those of the nearest `range`, or of the built-in type.
fn say_range<'a>(telling: &mut Message<'a>, chain: &[Site<'_, 'a>], built_in: &'a str) {
    telling.quote(" Its type is ", built_in, "");
    if let Some(digits) = digits_in(chain) {
        telling.count(" with `fraction-digits` ", digits as u64, "");
    }
    match nearest_with(chain, Keyword::Range) {
        Some(site) => {
            if let Some(range) = site.child(Keyword::Range) {
                telling.quote(
                    ", which expects numbers in the range ",
                    range.argument(),
                    "",
                );
                telling.point(" at ", &range, ".");
            }
        }
        None => say_limits(telling, built_in),
    }
}

// Adds the least and the greatest number of a built-in type.
fn say_limits<'a>(telling: &mut Message<'a>, built_in: &str) {
    match limits_of(built_in) {
        Some((least, greatest)) => {
            telling.quote(", which expects numbers from ", least, "");
            telling.quote(" to ", greatest, ".");
        }
        None => telling.say("."),
    }
}

// The digits after the point, if the built-in type of this chain is decimal64.
fn digits_in(chain: &[Site<'_, '_>]) -> Option<u32> {
    digits_of(chain.last()?)
}

// The keywords of restrictions of numbers and texts.
static RESTRICTIONS: &[Keyword] = &[Keyword::Range, Keyword::Length, Keyword::Pattern];

// The restrictions along a chain of types.
fn restrictions_of<'s, 'a>(
    alloc: Global,
    chain: &[Site<'s, 'a>],
) -> Result<Vec<Site<'s, 'a>>, AllocError> {
    let mut restrictions = Vec::new(alloc);
    for site in chain {
        for child in site.children() {
            if child.is_one_of(RESTRICTIONS) {
                restrictions.push(child)?;
            }
        }
    }
    Ok(restrictions)
}

// Adds the restrictions along a chain of types, the first of them and how many more there are.
fn say_restrictions<'a>(
    telling: &mut Message<'a>,
    chain: &[Site<'_, 'a>],
) -> Result<(), AllocError> {
    let restrictions = restrictions_of(telling.alloc(), chain)?;
    for restriction in restrictions.iter().take(MOST_NAMES) {
        let argument = Some(restriction.argument());
        telling.head(", with the ", restriction.keyword(), argument, "");
    }
    let more = restrictions.len().saturating_sub(MOST_NAMES);
    if more > 0 {
        telling.count(", and with ", more as u64, " more restrictions");
    }
    telling.say(".");
    Ok(())
}

// The items of the nearest type that has some.
fn items_of<'s, 'a>(
    alloc: Global,
    chain: &[Site<'s, 'a>],
    keyword: Keyword,
) -> Result<Vec<Site<'s, 'a>>, AllocError> {
    match nearest_with(chain, keyword) {
        Some(site) => site.children_of(alloc, keyword),
        None => Ok(Vec::new(alloc)),
    }
}

/// The nearest of these types that has a substatement of this keyword.
pub(crate) fn nearest_with<'s, 'a>(
    chain: &[Site<'s, 'a>],
    keyword: Keyword,
) -> Option<Site<'s, 'a>> {
    chain
        .iter()
        .copied()
        .find(|site| site.child(keyword).is_some())
}

// The identities that are derived from the base of a type, also by way of others.
fn identities_of<'s, 'a>(
    alloc: Global,
    first: &Site<'s, 'a>,
) -> Result<Vec<Site<'s, 'a>>, AllocError> {
    match base_of(first) {
        Some(identity) => derived_from(alloc, &identity),
        None => Ok(Vec::new(alloc)),
    }
}

// The identity that is the base of a type.
fn base_of<'s, 'a>(site: &Site<'s, 'a>) -> Option<Site<'s, 'a>> {
    site.child(Keyword::Base)?.meaning()
}

/// Adds what values a type has; the chain leads from it to its built-in type.
pub(crate) fn say_values<'a>(
    telling: &mut Message<'a>,
    chain: &[Site<'_, 'a>],
    default: &Site<'_, 'a>,
) -> Result<(), AllocError> {
    let Some(first) = chain.last() else {
        return Ok(());
    };
    match first.argument() {
        "boolean" => telling.say(" Its values are `true` and `false`."),
        "empty" => telling.say(" The type \"empty\" has no default."),
        "enumeration" | "bits" | "identityref" => {
            return say_named(telling, chain, first, default);
        }
        "union" => telling.say(" None of the types of its union has this value."),
        "string" | "binary" => {
            telling.quote(" Its type is ", first.argument(), "");
            telling.say(if first.argument() == "binary" {
                ", which expects text in base64"
            } else {
                ""
            });
            return say_restrictions(telling, chain);
        }
        built_in => say_range(telling, chain, built_in),
    }
    Ok(())
}

// Adds the names that are the values of a type.
fn say_named<'a>(
    telling: &mut Message<'a>,
    chain: &[Site<'_, 'a>],
    first: &Site<'_, 'a>,
    default: &Site<'_, 'a>,
) -> Result<(), AllocError> {
    match first.argument() {
        "enumeration" => {
            let names = items_of(telling.alloc(), chain, Keyword::Enum)?;
            telling.say(" Its values are ");
            say_names(telling, &names, default, default.argument());
        }
        "bits" => {
            let names = items_of(telling.alloc(), chain, Keyword::Bit)?;
            let word = unknown_bit(telling.alloc(), chain, default.argument())?;
            match word {
                Some(word) => telling.quote(" There is no bit ", word, "."),
                None => telling.say(" A bit is named twice."),
            }
            telling.say(" Its bits are ");
            say_names(telling, &names, default, word.unwrap_or(""));
        }
        _ => {
            let names = identities_of(telling.alloc(), first)?;
            telling.say(" Its identities are ");
            say_names(telling, &names, default, default.name());
        }
    }
    Ok(())
}
