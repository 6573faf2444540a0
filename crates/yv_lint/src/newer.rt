//! What YANG 1.1 adds to YANG 1.
ghost use Rattle.std.specs.Prelude.{◌≡◌};
ghost use Rattle.yv_lint.specs.Newer.{is_expression, is_link, is_module, is_type, restricts_names, takes_if_feature, takes_must};

use yv_link_scopes::name_of;
use yv_text_if_feature::{Word, Words};
use yv_text_statement::{Keyword, Statement};

/// Whether a keyword is that of a root.
pub fn is_module(keyword: Keyword) -> bool
    ensures { result ≡ is_module keyword }
{
    matches!(keyword, Keyword::Module | Keyword::Submodule)
}

/// Whether it is that of an import or an include.
pub fn is_link(keyword: Keyword) -> bool
    ensures { result ≡ is_link keyword }
{
    matches!(keyword, Keyword::Import | Keyword::Include)
}

/// Whether only YANG 1.1 lets its statements have an `if-feature`.
pub fn takes_if_feature(keyword: Keyword) -> bool
    ensures { result ≡ takes_if_feature keyword }
{
    matches!(
        keyword,
        Keyword::Bit | Keyword::Enum | Keyword::Identity | Keyword::Refine
    )
}

/// Whether only YANG 1.1 lets its statements have a `must`.
pub fn takes_must(keyword: Keyword) -> bool
    ensures { result ≡ takes_must keyword }
{
    matches!(
        keyword,
        Keyword::Input | Keyword::Output | Keyword::Notification
    )
}

/// Whether a condition is more than the name of a feature.
pub fn is_expression(text: &str) -> bool
    ensures { result ≡ is_expression text.now }
{
    let mut words = Words::new(text);
    match words.next() {
        Some(Word::Name(_)) => words.next().is_some(),
        _ => true,
    }
}

/// Whether a statement is a `type` with this argument.
pub fn is_type(statement: &Statement<'_>, name: &str) -> bool
    ensures { result ≡ is_type name.now statement.now }
{
    statement.is(Keyword::Type) && name_of(statement) == name
}

/// Whether a statement is a `type` that restricts one with enums or bits.
pub fn restricts_names(statement: &Statement<'_>) -> bool
    ensures { result ≡ restricts_names statement.now }
{
    let name = name_of(statement);
    statement.is(Keyword::Type) && !(name == "enumeration" || name == "bits")
}
