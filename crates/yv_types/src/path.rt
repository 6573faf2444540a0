//! The paths of leafrefs as they are written.
ghost use Rattle.std.specs.{Prelude.{◌≡◌, codes}, Option.{option_map}};
ghost use Rattle.yv_link_scopes.specs.{Files.{has_word}, Views.{lent_in}};
ghost use Rattle.yv_types.specs.Referrals.{first_in, path_at, written_of};

use yv_link_scopes::{Rows, name_of};
use yv_text_statement::{Keyword, Statement};

/// The text of a path, and the file in which it is written, whose prefixes it uses.
#[derive(Clone, Copy)]
pub struct PathText<'a> {
    /// The text.
    pub text: &'a str,
    /// The number of the file.
    pub file: u32,
}

// Whether a statement is a path.
fn is_path(statement: &Statement<'_>) -> bool
    ensures { result ≡ has_word (codes "path") statement.now.head }
{
    statement.is(Keyword::Path)
}

// The first path in the block of a statement.
fn first_path<'s, 'b>(statement: &'s Statement<'b>) -> Option<&'s Statement<'b>>
    ensures { option_map (λ found. found.now) result ≡ first_in (codes "path") statement.now }
{
    statement.children().iter().find(|child| is_path(child))
}

/// The text of the first `path` in the block of the numbered statement, as that of a type which
/// names leafref itself (RFC 7950, section 9.9.2). None where there is none. It allocates no
/// memory.
pub fn path_of<'a>(rows: &Rows<'a, '_>, number: usize) -> Option<PathText<'a>>
    ensures { option_map written_of result ≡ path_at (lent_in rows.now) number }
{
    let file = rows.entries().get(number)?.file;
    let text = name_of(first_path(rows.statement(number)?)?);
    Some(PathText { text, file })
}
