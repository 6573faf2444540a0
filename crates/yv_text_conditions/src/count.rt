//! How many statements of files need XPath.
ghost use Rattle.std.specs.{Prelude.{◌≡◌, codes}, Option.{option_copied}, Str.{bytes_eq}};
ghost use Rattle.yv_text_statement.specs.Tree.{forest};
ghost use Rattle.yv_text_grammar.specs.Conditions.{has_predicate};
ghost use Rattle.yv_text_conditions.specs.{Conditions.{count_in, is_filtered_path, is_instance_type, is_must, is_when, one_if}, InnerCounts.{AreCounts, count_of}, Sums.{cap_of}};

use crate::counts::Unevaluated;
use yv_text_statement::{Keyword, Statement};

/// How many statements of these files need XPath, of each kind: also those in groupings, in modules
/// that are only imported, and in what features prune. Those in statements of extensions don't
/// count. Takes no memory, and time in proportion to the statements and their arguments.
pub fn passed_over(files: &[Statement<'_>]) -> Unevaluated
    // The number of `must` statements, up to 2^64 - 1.
    ensures must { result.must ≡ cap_of (count_in is_must (forest files.now)) }
    // That of `when` statements.
    ensures when { result.when ≡ cap_of (count_in is_when (forest files.now)) }
    // That of paths with predicates.
    ensures path { result.path ≡ cap_of (count_in is_filtered_path (forest files.now)) }
    // That of types that are `instance-identifier`.
    ensures instance { result.instance
        ≡ cap_of (count_in is_instance_type (forest files.now)) }
{
    let mut counts = Unevaluated::NOTHING;
    for file in files {
        counts = counts.plus(in_statement(file));
    }
    counts
}

// How many there are in a statement, with itself.
fn in_statement(statement: &Statement<'_>) -> Unevaluated
    ensures { AreCounts (count_of statement.now) result }
{
    let keyword = statement.kind();
    if keyword == Keyword::Extended {
        return Unevaluated::NOTHING;
    }
    let mut counts = own_counts(keyword, statement.argument());
    for child in statement.children() {
        counts = counts.plus(in_statement(child));
    }
    counts
}

// The statement itself, by its keyword and argument.
fn own_counts(keyword: Keyword, argument: Option<&str>) -> Unevaluated
    ensures { AreCounts (λ has. one_if (has keyword (option_copied argument.entry))) result }
{
    match (keyword, argument) {
        (Keyword::Must, _) => Unevaluated {
            must: 1,
            ..Unevaluated::NOTHING
        },
        (Keyword::When, _) => Unevaluated {
            when: 1,
            ..Unevaluated::NOTHING
        },
        (Keyword::Path, Some(text)) => Unevaluated {
            path: u64::from(has_predicate(text.as_bytes())),
            ..Unevaluated::NOTHING
        },
        (Keyword::Type, Some(text)) => Unevaluated {
            instance: u64::from(is_instance_identifier(text)),
            ..Unevaluated::NOTHING
        },
        _ => Unevaluated::NOTHING,
    }
}

// Whether a type is `instance-identifier`.
fn is_instance_identifier(text: &str) -> bool
    ensures { result ≡ bytes_eq text.now (codes "instance-identifier") }
{
    text == "instance-identifier"
}

// Whether a path has a predicate.
fn has_predicate(text: &[u8]) -> bool
    ensures { result ≡ has_predicate text.now }
{
    text.iter().any(|byte| *byte == b'[')
}
