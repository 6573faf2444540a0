//! What a refusal speaks of.
ghost use Rattle.std.specs.Prelude.{◌≡◌, option_map};
ghost use Rattle.yv_note_refusals.specs.Subject.{is_told_by_argument, subject, argument_or_keyword};
ghost use Rattle.yv_link_scopes.specs.Rows.{is_extended};

use yv_text_statement::{Code, Keyword, Statement};

// Whether a statement that isn't supported is so for its argument.
fn is_told_by_argument(statement: &Statement<'_>) -> bool
    ensures { result ≡ is_told_by_argument statement.now.head.keyword }
{
    statement.is(Keyword::Type) || statement.is(Keyword::Path)
}

// Whether a keyword is an extension's.
fn is_extended(keyword: &str) -> bool
    ensures { result ≡ is_extended keyword.now }
{
    keyword.as_bytes().iter().any(|byte| *byte == b':')
}

// The statement's argument; its keyword, where it has none.
fn argument_or_keyword<'s>(statement: &'s Statement<'_>) -> &'s str
    ensures { result.now ≡ argument_or_keyword statement.now.head }
{
    match statement.argument() {
        Some(argument) => argument,
        None => statement.keyword(),
    }
}

/// The word of a statement that a refusal at it speaks of: its keyword, where that is what is
/// wrong, and else its argument. None for a refusal that speaks of no word.
pub fn subject<'s>(code: Code, statement: &'s Statement<'_>) -> Option<&'s str>
    ensures { option_map (λ word. word.now) result ≡ subject code statement.now.head }
{
    let keyword = statement.keyword();
    match code {
        Code::TooManyNodes => None,
        Code::UnknownStatement | Code::Cardinality => Some(keyword),
        Code::Unsupported if !is_told_by_argument(statement) => Some(keyword),
        Code::UnknownPrefix if is_extended(keyword) => Some(keyword),
        _ => Some(argument_or_keyword(statement)),
    }
}
