//! The texts of conditions.
ghost use Rattle.std.specs.Prelude.{◌≡◌, ◌∷◌, [], ◌++◌, OnOk, IfOk, string_bytes};
ghost use Rattle.yv_text_statement.specs.Tree.{trees};
ghost use Rattle.yv_node_statements.specs.{Features.{expressions, is_blank, with_single_spaces, with_expressions}, InnerTexts.{with_comma}};

use std::alloc::AllocError;
use yv_node_properties::{is_of, name_of};
use yv_text_grammar::Keyword;
use yv_text_statement::Statement;

// A space, a tab, a CR or an LF.
fn is_blank(character: char) -> bool
    ensures { result ≡ is_blank character }
{
    matches!(character, ' ' | '\t' | '\r' | '\n')
}

// Adds a text with each run of blanks as one space.
fn push_spaced(text: &mut String, more: &str) -> Result<(), AllocError>
    ensures { OnOk result
        (string_bytes text.new ≡ string_bytes text.old ++ with_single_spaces more.now) }
{
    let mut is_behind = false;
    for character in more.chars() {
        let blank = is_blank(character);
        if !blank {
            text.push(character)?;
        } else if !is_behind {
            text.push(' ')?;
        }
        is_behind = blank;
    }
    Ok(())
}

// Adds a comma, where there is text.
fn push_comma(text: &mut String) -> Result<(), AllocError>
    ensures { OnOk result (string_bytes text.new ≡ with_comma (string_bytes text.old)) }
{
    if !text.is_empty() {
        text.push(',')?;
    }
    Ok(())
}

// Adds an expression, unless it is empty.
fn push_expression(text: &mut String, expression: &str) -> Result<(), AllocError>
    ensures { OnOk result
        (string_bytes text.new ≡ with_expressions (string_bytes text.old) (expression.now ∷ [])) }
{
    if expression.is_empty() {
        return Ok(());
    }
    push_comma(text)?;
    push_spaced(text, expression)
}

/// Adds the expressions of the `if-feature` statements in a statement's block.
pub(crate) fn push_expressions(
    text: &mut String,
    statement: &Statement<'_>,
) -> Result<(), AllocError>
    ensures { OnOk result
        (string_bytes text.new
        ≡ with_expressions (string_bytes text.old) (expressions (trees statement.now.children))) }
{
    for child in statement.children() {
        if is_of(Keyword::IfFeature, child) {
            push_expression(text, name_of(child))?;
        }
    }
    Ok(())
}
