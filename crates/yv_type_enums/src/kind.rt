//! The keywords of enumerations and bits.
ghost use Rattle.std.specs.Prelude.{◌≡◌};
ghost use Rattle.yv_link_scopes.specs.Files.{has_word};
ghost use Rattle.yv_type_enums.specs.Entries.{entry_word, number_word};

use yv_base_numbers::NumberKind;
use yv_text_statement::{Keyword, Statement};

/// Whether a statement is one of what is listed.
pub(crate) fn is_entry(kind: NumberKind, statement: &Statement<'_>) -> bool
    ensures { result ≡ has_word (entry_word kind) statement.now.head }
{
    match kind {
        NumberKind::Enumeration => statement.is(Keyword::Enum),
        NumberKind::Bits => statement.is(Keyword::Bit),
    }
}

/// Whether a substatement of an entry states its number.
pub(crate) fn states_number(kind: NumberKind, statement: &Statement<'_>) -> bool
    ensures { result ≡ has_word (number_word kind) statement.now.head }
{
    match kind {
        NumberKind::Enumeration => statement.is(Keyword::Value),
        NumberKind::Bits => statement.is(Keyword::Position),
    }
}
