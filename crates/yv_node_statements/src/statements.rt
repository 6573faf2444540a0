//! The statements of files by their numbers.
ghost use Rattle.std.specs.{Prelude.{◌≡◌}, Option.{option_map, unwrap_or}};
ghost use Rattle.yv_link_scopes.specs.Views.{lent_in};
ghost use Rattle.yv_text_statement.specs.declared.keyword.Keyword.TheVariants as word;
ghost use Rattle.yv_node_properties.specs.Statements.{file_at, first_of, no_statement, statement_at};

use yv_link_scopes::Rows;
use yv_node_properties::first_of;
use yv_text_grammar::Keyword;
use yv_text_statement::Statement;

/// The numbered statement.
pub(crate) fn statement_at<'a, 'b>(rows: &Rows<'a, 'b>, number: usize) -> Option<&'a Statement<'b>>
    ensures { unwrap_or (option_map (λ found. found.now) result) no_statement
        ≡ statement_at (lent_in rows.now) number }
{
    rows.statement(number)
}

/// The file of the numbered statement.
pub(crate) fn file_at(rows: &Rows<'_, '_>, number: usize) -> u32
    ensures { result ≡ file_at (lent_in rows.now) number }
{
    match rows.entries().get(number) {
        Some(entry) => entry.file,
        None => 0,
    }
}

/// The `type` statement in the block of the numbered statement: the first, if there are several.
pub(crate) fn type_at<'a, 'b>(rows: &Rows<'a, 'b>, number: usize) -> Option<&'a Statement<'b>>
    ensures { option_map (λ found. found.now) result
        ≡ first_of word.Type (statement_at (lent_in rows.now) number).children }
{
    first_of(Keyword::Type, statement_at(rows, number)?)
}
