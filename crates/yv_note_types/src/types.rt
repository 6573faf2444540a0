//! What types need and what they can't have.
use std::alloc::{AllocError, Global};
use yv_note_statements::{Message, Site, chain, is_among};
use yv_text_statement::{Code, Keyword};

// A substatement that restricts the values of a type: its keyword, and how that is written.
type Restriction = (Keyword, &'static str);

const LENGTH: Restriction = (Keyword::Length, "length");

const PATTERN: Restriction = (Keyword::Pattern, "pattern");

const RANGE: Restriction = (Keyword::Range, "range");

const FRACTION_DIGITS: Restriction = (Keyword::FractionDigits, "fraction-digits");

const ENUM: Restriction = (Keyword::Enum, "enum");

const BIT: Restriction = (Keyword::Bit, "bit");

const PATH: Restriction = (Keyword::Path, "path");

const REQUIRE_INSTANCE: Restriction = (Keyword::RequireInstance, "require-instance");

const BASE: Restriction = (Keyword::Base, "base");

const TYPE: Restriction = (Keyword::Type, "type");

static RESTRICTIONS: &[Restriction] = &[
    LENGTH,
    PATTERN,
    RANGE,
    FRACTION_DIGITS,
    ENUM,
    BIT,
    PATH,
    REQUIRE_INSTANCE,
    BASE,
    TYPE,
];

// What only the built-in type itself can have.
static FIRST_ONLY: &[Restriction] = &[FRACTION_DIGITS, PATH, BASE, TYPE];

// Built-in types, the restrictions that they can have, and the one that a use of them needs.
struct BuiltIn {
    names: &'static str,
    allowed: &'static [Restriction],
    needed: Option<Restriction>,
}

static BUILT_IN: &[BuiltIn] = &[
    BuiltIn {
        names: "string",
        allowed: &[LENGTH, PATTERN],
        needed: None,
    },
    BuiltIn {
        names: "binary",
        allowed: &[LENGTH],
        needed: None,
    },
    BuiltIn {
        names: "int8 int16 int32 int64 uint8 uint16 uint32 uint64",
        allowed: &[RANGE],
        needed: None,
    },
    BuiltIn {
        names: "decimal64",
        allowed: &[FRACTION_DIGITS, RANGE],
        needed: Some(FRACTION_DIGITS),
    },
    BuiltIn {
        names: "enumeration",
        allowed: &[ENUM],
        needed: Some(ENUM),
    },
    BuiltIn {
        names: "bits",
        allowed: &[BIT],
        needed: Some(BIT),
    },
    BuiltIn {
        names: "leafref",
        allowed: &[PATH, REQUIRE_INSTANCE],
        needed: Some(PATH),
    },
    BuiltIn {
        names: "identityref",
        allowed: &[BASE],
        needed: Some(BASE),
    },
    BuiltIn {
        names: "union",
        allowed: &[TYPE],
        needed: Some(TYPE),
    },
];

static OTHER: BuiltIn = BuiltIn {
    names: "",
    allowed: &[],
    needed: None,
};

// What a built-in type of this name can have and needs.
fn built_in_of(name: &str) -> &'static BuiltIn {
    match BUILT_IN
        .iter()
        .find(|built_in| is_among(name, built_in.names))
    {
        Some(built_in) => built_in,
        None => &OTHER,
    }
}

// Adds the substatements that a built-in type can have.
fn say_allowed<'a>(telling: &mut Message<'a>, built_in: &'a str) {
    let allowed = built_in_of(built_in).allowed;
    telling.quote(" The type ", built_in, "");
    for (place, (_, word)) in allowed.iter().enumerate() {
        telling.say(if place == 0 { " can have `" } else { "` and `" });
        telling.say(*word);
    }
    telling.say(if allowed.is_empty() {
        " can't be restricted."
    } else {
        "`."
    });
}

// Whether a substatement of a type is one of these restrictions.
fn is_of(child: &Site<'_, '_>, restrictions: &[Restriction]) -> bool {
    restrictions.iter().any(|(keyword, _)| child.is(*keyword))
}

// Whether a substatement of a type restricts its values, and this built-in type can't have it.
fn is_foreign(child: &Site<'_, '_>, built_in: &str) -> bool {
    is_of(child, RESTRICTIONS) && !is_of(child, built_in_of(built_in).allowed)
}

// The first substatement of a type that it can't have, where it is derived from this built-in type.
fn misfit<'s, 'a>(site: &Site<'s, 'a>, built_in: &str, is_first: bool) -> Option<Site<'s, 'a>> {
    site.children().find(|child| {
        let is_second = !is_first && is_of(child, FIRST_ONLY);
        is_second || is_foreign(child, built_in)
    })
}

/// Adds what is wrong with a type.
pub fn tell_type<'a>(telling: &mut Message<'a>, site: &Site<'_, 'a>) -> Result<(), AllocError> {
    let chain = chain(telling.alloc(), site)?;
    let is_first = chain.len() < 2;
    if let Some(last) = chain.last() {
        match misfit(site, last.argument(), is_first) {
            Some(child) => say_misfit(telling, &child, last.argument()),
            None => say_need(telling, site, last.argument(), is_first),
        }
    }
    Ok(())
}

// Adds that a type can't have a substatement.
fn say_misfit<'a>(telling: &mut Message<'a>, child: &Site<'_, 'a>, built_in: &'a str) {
    if is_foreign(child, built_in) {
        telling.subject("The type ", " can't have the `");
        telling.say(child.keyword());
        telling.point("` at ", child, ".");
        say_allowed(telling, built_in);
    } else {
        telling.subject("The typedef ", " can't be given another `");
        telling.say(child.keyword());
        telling.say("`, as its own type has one.");
    }
}

// Adds what a type needs, or that it can't be a member of a union.
fn say_need<'a>(telling: &mut Message<'a>, site: &Site<'_, 'a>, built_in: &'a str, is_first: bool) {
    match built_in_of(built_in).needed {
        Some((keyword, word)) if is_first && site.child(keyword).is_none() => {
            telling.subject("The type ", " needs the substatement `");
            telling.say(word);
            telling.say("`.");
        }
        _ if built_in == "leafref" => telling.subject(
            "The type ",
            " is a leafref in a union. RFC 7950 allows it, but yangcheck does not support it (docs/PROFILE.md).",
        ),
        _ => telling.sentence(Code::BadType),
    }
}
