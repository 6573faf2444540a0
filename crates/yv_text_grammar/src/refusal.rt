//! What is wrong with the statements of a file.
ghost use Rattle.std.specs.{Prelude.{◌≡◌, ◌↔◌, not, ◌&&◌, map, IfNone, IsOk}, List.{list_any}, Option.{option_copied}, Result.{result_err}};
ghost use Rattle.yv_text_statement.specs.Order.{IsLeast};
ghost use Rattle.yv_text_grammar.specs.{Conditions.{has_function, has_predicate, is_beyond, is_condition, is_unsupported}, InnerEntries.{row}, InnerKeywordSet.{is_marked}, Refusals.{Bad, Faulty, CountsBadly, OwnRefusal, is_excess, is_misplaced, is_module, keyword_at}, Fits.{Fits, FitsIn, OwnFits}, Table.{is_one, occurs_in}};

use crate::argument;
use crate::keyword_set::KeywordSet;
use crate::table::{self, Occurs, Row};
use crate::xpath::Xpath;
use yv_text_statement::{Code, Keyword, Refusal, Statement, lesser, refusal_if};

/// Whether the statements of a file are as the tables of RFC 7950, sections 7 and 9, say: each has
/// the substatements that it may have, no more and no fewer, and an argument in its grammar. The
/// refusal is the least by offset and code among
///
/// - `Unsupported`: `deviation` or `deviate`, or a leafref's path with a function; where conditions
/// are refused, also `must` or `when`, a leafref's path with a predicate, or the type
///   `instance-identifier`;
/// - `UnknownStatement`: a keyword without prefix that the language doesn't have;
/// - `Cardinality`: a root that is not a module or submodule, a child that is not allowed where it
/// is or is one too many,
///   or the parent of one that is missing;
/// - `BadArgument`: an argument against its grammar, one that is missing, or one too many.
///
/// It names the file as 0. A statement whose keyword has a prefix is an extension's: it is allowed
/// everywhere except at the root, and nothing in it is looked at.
///
/// No memory is allocated. The time is in proportion to the statements and their arguments, except
/// for a `key`: one of n different names costs about n * n / 32,768 searches in a table, which is a
/// second for 500,000 names.
pub fn conform(root: &Statement, xpath: Xpath) -> Result<(), Refusal>
    // Ok exactly if the root fits the tables of substatements and the grammars of arguments.
    ensures fits { IsOk result ↔ Fits xpath root.now }
    // Otherwise the refusal is the least that applies.
    ensures least { IsLeast (Bad xpath root.now) (result_err result) }
{
    let keyword = root.kind();
    let outer = refusal_if(!is_module(keyword), Code::Cardinality, 0, root);
    let inner = first_refusal(xpath, Keyword::Unknown, root);
    let first = lesser(outer, inner);
    match first {
        None => Ok(()),
        Some(refusal) => Err(refusal),
    }
}

fn is_module(keyword: Keyword) -> bool
    ensures { result ≡ is_module keyword }
{
    matches!(keyword, Keyword::Module | Keyword::Submodule)
}

// The least refusal in a statement that is in the block of a parent; the root's parent is unknown.
fn first_refusal(xpath: Xpath, parent: Keyword, statement: &Statement) -> Option<Refusal>
    ensures fits { IfNone result (FitsIn xpath parent statement.now) }
    ensures least { IsLeast (Faulty xpath parent statement.now) result }
{
    let keyword = statement.kind();
    if keyword == Keyword::Extended {
        return None;
    }
    let own = own_refusal(xpath, parent, keyword, statement);
    let number = count_fault(keyword, statement);
    let mut best = None;
    for child in statement.children() {
        let inner = first_refusal(xpath, keyword, child);
        best = lesser(best, inner);
    }
    let outer = lesser(own, number);
    lesser(outer, best)
}

// The least refusal of the statement itself.
fn own_refusal(
    xpath: Xpath,
    parent: Keyword,
    keyword: Keyword,
    statement: &Statement,
) -> Option<Refusal>
    requires { keyword ≡ keyword_at statement.now }
    ensures fits { IfNone result (OwnFits xpath parent statement.now) }
    ensures least { IsLeast (OwnRefusal xpath parent statement.now) result }
{
    let argument = statement.argument();
    let unsupported = is_unsupported(xpath, keyword, argument);
    let unknown = keyword == Keyword::Unknown;
    let fits = argument::fits(parent, keyword, argument);
    let first = refusal_if(unsupported, Code::Unsupported, 0, statement);
    let second = refusal_if(unknown, Code::UnknownStatement, 0, statement);
    let third = refusal_if(!fits, Code::BadArgument, 0, statement);
    lesser(first, lesser(second, third))
}

// The least refusal for the number of the children.
fn count_fault(keyword: Keyword, statement: &Statement) -> Option<Refusal>
    requires { keyword ≡ keyword_at statement.now }
    ensures { IsLeast (CountsBadly statement.now) result }
{
    let rows = table::rows(keyword);
    let mut seen = KeywordSet::new();
    let mut best = None;
    for child in statement.children() {
        let kind = child.kind();
        let misplaced = is_misplaced(rows, kind, seen.contains(kind));
        let here = refusal_if(misplaced, Code::Cardinality, 0, child);
        best = lesser(best, here);
        seen.insert(kind);
    }
    let missing = refusal_if(lacks_child(rows, &seen), Code::Cardinality, 0, statement);
    lesser(best, missing)
}

// Whether this statement isn't supported.
fn is_unsupported(xpath: Xpath, keyword: Keyword, argument: Option<&str>) -> bool
    ensures { result ≡ is_unsupported xpath keyword (option_copied argument.entry) }
{
    is_beyond(keyword, argument) || xpath.is_refusal() && is_condition(keyword, argument)
}

// Whether this statement needs XPath.
fn is_condition(keyword: Keyword, argument: Option<&str>) -> bool
    ensures { result ≡ is_condition keyword (option_copied argument.entry) }
{
    match (keyword, argument) {
        (Keyword::Must | Keyword::When, _) => true,
        (Keyword::Path, Some(text)) => has_predicate(text.as_bytes()),
        (Keyword::Type, Some(text)) => text == "instance-identifier",
        _ => false,
    }
}

// Whether a path has a predicate.
fn has_predicate(text: &[u8]) -> bool
    ensures { result ≡ has_predicate text.now }
{
    text.iter().any(|byte| *byte == b'[')
}

// Whether this statement is supported in no way.
fn is_beyond(keyword: Keyword, argument: Option<&str>) -> bool
    ensures { result ≡ is_beyond keyword (option_copied argument.entry) }
{
    match (keyword, argument) {
        (Keyword::Deviation | Keyword::Deviate, _) => true,
        (Keyword::Path, Some(text)) => has_function(text.as_bytes()),
        _ => false,
    }
}

// Whether a path has a `(` that is not between a `[` and the next `]`.
fn has_function(text: &[u8]) -> bool
    ensures { result ≡ has_function text.now }
{
    let mut is_inside = false;
    let mut is_waiting = false;
    for byte in text {
        match *byte {
            b'(' if is_inside => is_waiting = true,
            b'(' => return true,
            b'[' => is_inside = true,
            b']' => {
                is_inside = false;
                is_waiting = false;
            }
            _ => {}
        }
    }
    is_waiting
}

// Whether a child with this keyword may not be, or is one too many.
fn is_misplaced(rows: &[Row], keyword: Keyword, before: bool) -> bool
    ensures { result ≡ is_misplaced (map row rows.now) keyword before }
{
    keyword != Keyword::Extended && is_excess(occurs(rows, keyword), before)
}

// How often a child with this keyword may be.
fn occurs(rows: &[Row], keyword: Keyword) -> Option<Occurs>
    ensures { result ≡ occurs_in (map row rows.now) keyword }
{
    for row in rows {
        if row.child == keyword {
            return Some(row.occurs);
        }
    }
    None
}

// Whether one more child is too many.
fn is_excess(occurs: Option<Occurs>, before: bool) -> bool
    ensures { result ≡ is_excess occurs before }
{
    match occurs {
        None => true,
        Some(Occurs::One | Occurs::Optional) => before,
        Some(Occurs::Any) => false,
    }
}

// Whether a child that has to be was not seen.
fn lacks_child(rows: &[Row], seen: &KeywordSet) -> bool
    ensures { result
        ≡ list_any (λ r. is_one r.1 && not (is_marked seen.now r.0)) (map row rows.now) }
{
    for row in rows {
        if row.occurs.is_one() && !seen.contains(row.child) {
            return true;
        }
    }
    false
}
