//! What the form of arguments is, and which statements are not supported.
use crate::blanks::say_blank;
use crate::tokens::CURLY;
use yv_note_statements::{Message, Site};
use yv_note_text::has_curly_quote;
use yv_text_statement::Keyword;

// The statements whose argument is a name without a prefix.
static NAMED: &[Keyword] = &[
    Keyword::Module,
    Keyword::Submodule,
    Keyword::BelongsTo,
    Keyword::Import,
    Keyword::Include,
    Keyword::Leaf,
    Keyword::LeafList,
    Keyword::Typedef,
    Keyword::Prefix,
    Keyword::Container,
    Keyword::List,
    Keyword::Choice,
    Keyword::Case,
    Keyword::Anydata,
    Keyword::Anyxml,
    Keyword::Grouping,
    Keyword::Rpc,
    Keyword::Action,
    Keyword::Notification,
    Keyword::Identity,
    Keyword::Feature,
    Keyword::Extension,
    Keyword::Argument,
    Keyword::Bit,
];

// What is said after an argument that doesn't have the form that statements of this keyword need.
fn form_of(keyword: Keyword) -> &'static str {
    match keyword {
        Keyword::Type | Keyword::Uses | Keyword::Base =>
            " is not a name, with or without a prefix and a colon before it.",
        Keyword::Config | Keyword::Mandatory | Keyword::RequireInstance | Keyword::YinElement =>
            " is neither `true` nor `false`.",
        Keyword::Revision | Keyword::RevisionDate => " is not a date like 2024-06-01.",
        Keyword::Input | Keyword::Output => " is not wanted: this statement has no argument.",
        Keyword::Enum =>
            " is not the name of an enum: it is not empty, and has no blank at either end.",
        Keyword::YangVersion => " is neither `1` nor `1.1`.",
        Keyword::Status =>
            " is not a status: it must be one of `current`, `deprecated` and `obsolete`.",
        Keyword::OrderedBy => " is neither `system` nor `user`.",
        Keyword::Modifier => " is not `invert-match`.",
        Keyword::MinElements | Keyword::Position => " is not a number from 0 to 4294967295.",
        Keyword::MaxElements => " is neither `unbounded` nor a number from 1 to 4294967295.",
        Keyword::FractionDigits => " is not a number from 1 to 18.",
        Keyword::Value => " is not a number from -2147483648 to 2147483647.",
        Keyword::Range | Keyword::Length =>
            " is not a list of numbers and of parts `a..b`, with bars between.",
        Keyword::IfFeature =>
            " is not an expression of feature names, `not`, `and`, `or` and parentheses.",
        Keyword::Key =>
            " is not a list of different names with blanks between; a key is a leaf of the list itself.",
        Keyword::Unique =>
            " is not a list of paths with blanks between; a path is names joined by `/`.",
        Keyword::Refine => " is not a path of names joined by `/`.",
        Keyword::Augment =>
            " is not a path of names joined by `/`, which begins with `/` except under `uses`.",
        Keyword::Path =>
            " is not the path of a leafref: names joined by `/`, with `/` or `../` in front.",
        _ if is_named(keyword) =>
            " is not a name: it begins with a letter or `_`, and continues with letters, digits, `_`, `-` and `.`.",
        _ => " is not an argument of the form that this statement needs.",
    }
}

/// Adds what is wrong with an argument.
pub fn tell_argument<'a>(telling: &mut Message<'a>, site: &Site<'_, 'a>) {
    match site.entry.argument {
        Some(argument) => {
            telling.subject("", form_of(site.kind()));
            if !say_blank(telling, argument) && has_curly_quote(argument.as_bytes()) {
                telling.say(CURLY);
            }
        }
        None => telling.subject("", " has no argument, and needs one."),
    }
}

/// Whether the argument of statements of this keyword is a name without a prefix.
pub(crate) fn is_named(keyword: Keyword) -> bool {
    NAMED.contains(&keyword)
}

/// Adds why a statement is not supported.
pub fn tell_unsupported<'a>(telling: &mut Message<'a>, site: &Site<'_, 'a>) {
    match site.kind() {
        Keyword::Must | Keyword::When => {
            telling.subject(
                "yangcheck has no XPath, so it refuses ",
                " rather than ignore it. Remove it",
            );
        }
        Keyword::Path => telling.subject(
            "yangcheck has no XPath, so it refuses the predicates and functions of ",
            " rather than ignore them. Remove them",
        ),
        Keyword::Type => {
            telling.subject(
                "yangcheck does not support the type ",
                ". Write another type",
            );
        }
        _ => telling.subject(
            "yangcheck does not support ",
            ", so it refuses it rather than ignore it. Remove it",
        ),
    }
    telling.say(", or check these modules with another tool (docs/PROFILE.md).");
}
