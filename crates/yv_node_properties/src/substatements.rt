//! The statements of a block by their keyword.
ghost use Rattle.std.specs.{Prelude.{◌≡◌, is_some}, Option.{option_map}};
ghost use Rattle.yv_text_statement.specs.Tree.{name_of as name_at};
ghost use Rattle.yv_node_properties.specs.Statements.{argument_of, first_of, is_of};

use yv_text_grammar::Keyword;
use yv_text_statement::Statement;

/// Whether a statement has this keyword.
pub fn is_of(keyword: Keyword, statement: &Statement<'_>) -> bool
    ensures { result ≡ is_of keyword statement.now }
{
    statement.kind() == keyword
}

/// The first of the statements in its block that has this keyword.
pub fn first_of<'s, 'b>(keyword: Keyword, statement: &'s Statement<'b>) -> Option<&'s Statement<'b>>
    ensures { option_map (λ found. found.now) result ≡ first_of keyword statement.now.children }
{
    statement
        .children()
        .iter()
        .find(|child| is_of(keyword, child))
}

/// Whether its block has a statement of this keyword.
pub fn has(keyword: Keyword, statement: &Statement<'_>) -> bool
    ensures { result ≡ is_some (first_of keyword statement.now.children) }
{
    first_of(keyword, statement).is_some()
}

/// The statement's argument, or no text where it has none.
pub fn name_of<'s>(statement: &'s Statement<'_>) -> &'s str
    ensures { result.now ≡ name_at statement.now.head }
{
    statement.argument().unwrap_or("")
}

/// The argument of the first statement of its block that has this keyword, or no text.
pub fn argument_of<'s>(keyword: Keyword, statement: &'s Statement<'_>) -> &'s str
    ensures { result.now ≡ argument_of (first_of keyword statement.now.children) }
{
    match first_of(keyword, statement) {
        Some(found) => name_of(found),
        None => "",
    }
}
