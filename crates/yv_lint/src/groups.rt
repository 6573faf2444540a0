//! The order of the statements at the top of a file.
ghost use Rattle.std.specs.Prelude.{◌≡◌, ◌≤◌};
ghost use Rattle.yv_lint.specs.Groups.{group_of};

use yv_text_statement::Keyword;

/// The group of a keyword (RFC 7950, section 14).
pub fn group_of(keyword: Keyword) -> u8
    // The group of the definition.
    ensures group { result ≡ group_of keyword }
    // There are five.
    ensures few { result ≤ 5 }
{
    match keyword {
        Keyword::YangVersion | Keyword::Namespace | Keyword::Prefix | Keyword::BelongsTo => 1,
        Keyword::Import | Keyword::Include => 2,
        Keyword::Organization | Keyword::Contact | Keyword::Description | Keyword::Reference => 3,
        Keyword::Revision => 4,
        Keyword::Extended => 0,
        _ => 5,
    }
}
