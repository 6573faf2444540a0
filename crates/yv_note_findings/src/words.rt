//! Words with names of strangers between them.
use std::alloc::AllocError;
use yv_note_text::push_quoted;
use yv_text_statement::Statement;

/// Adds words, and a name in quotes after them.
pub(crate) fn push_name(text: &mut String, words: &str, name: &str) -> Result<(), AllocError> {
    text.push_str(words)?;
    push_quoted(text, name)
}

/// Adds words, and after them a statement: its keyword, and its argument in quotes if it has one.
pub(crate) fn push_statement(
    text: &mut String,
    words: &str,
    statement: &Statement<'_>,
) -> Result<(), AllocError> {
    text.push_str(words)?;
    text.push_str(statement.keyword())?;
    match statement.argument() {
        Some(argument) => push_name(text, " ", argument),
        None => Ok(()),
    }
}
