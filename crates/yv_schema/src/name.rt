//! The name and the prefix that a statement gives.
ghost use Rattle.std.specs.{Prelude.{◌≡◌}, Option.{option_map}};
ghost use Rattle.yv_text_statement.specs.declared.keyword.Keyword.TheVariants as word;
ghost use Rattle.yv_text_statement.specs.Tree.{name_of as name_at};
ghost use Rattle.yv_node_properties.specs.Statements.{argument_of, first_of, is_of};

use yv_text_grammar::Keyword;
use yv_text_statement::Statement;

/// The statement's argument, or no text where it has none.
pub(crate) fn name_of<'s>(statement: &'s Statement<'_>) -> &'s str
    ensures { result.now ≡ name_at statement.now.head }
{
    statement.argument().unwrap_or("")
}

/// The prefix that the root of a file declares for its module, or no text where it declares none.
pub(crate) fn prefix_of<'s>(root: &'s Statement<'_>) -> &'s str
    ensures { result.now ≡ argument_of (first_of word.Prefix root.now.children) }
{
    match first_prefix(root) {
        Some(found) => name_of(found),
        None => "",
    }
}

// The first statement of its block that declares a prefix.
fn first_prefix<'s, 'b>(root: &'s Statement<'b>) -> Option<&'s Statement<'b>>
    ensures { option_map (λ found. found.now) result ≡ first_of word.Prefix root.now.children }
{
    root.children().iter().find(|child| is_prefix(child))
}

// Whether a statement declares a prefix.
fn is_prefix(statement: &Statement<'_>) -> bool
    ensures { result ≡ is_of word.Prefix statement.now }
{
    statement.kind() == Keyword::Prefix
}
