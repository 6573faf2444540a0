//! Statements and what is in their blocks, by their keywords.
ghost use Rattle.std.specs.{Prelude.{◌≡◌}, Option.{option_map}};
ghost use Rattle.yv_link_scopes.specs.{Files.{first_name}, Rows.{is_extended}};
ghost use Rattle.yv_lint.specs.Statements.{child, child_name, has_child};

use yv_link_scopes::name_of;
use yv_text_statement::{Keyword, Statement};

/// Whether a statement is an extension's.
pub fn is_extended(statement: &Statement<'_>) -> bool
    ensures { result ≡ is_extended statement.now.head.keyword }
{
    statement.is(Keyword::Extended)
}

/// The first statement with this keyword in the block of another.
pub fn child<'a, 'b>(statement: &'a Statement<'b>, keyword: Keyword) -> Option<&'a Statement<'b>>
    ensures { option_map (λ s. s.now) result ≡ child keyword statement.now }
{
    for one in statement.children() {
        if one.is(keyword) {
            return Some(one);
        }
    }
    None
}

/// Whether the block of a statement has one with this keyword.
pub fn has_child(statement: &Statement<'_>, keyword: Keyword) -> bool
    ensures { result ≡ has_child keyword statement.now }
{
    for one in statement.children() {
        if one.is(keyword) {
            return true;
        }
    }
    false
}

/// The argument of a statement that may be there.
pub fn first_name<'a>(statement: Option<&'a Statement<'_>>) -> &'a str
    ensures { result.now ≡ first_name (option_map (λ s. s.now) statement.entry) }
{
    match statement {
        None => "",
        Some(one) => name_of(one),
    }
}

/// The argument of the first statement with this keyword in a block; no text where there is none.
pub fn child_name<'a>(statement: &'a Statement<'_>, keyword: Keyword) -> &'a str
    ensures { result.now ≡ child_name keyword statement.now }
{
    first_name(child(statement, keyword))
}
