//! What a name means in a block.
ghost use Rattle.std.specs.Prelude.{◌≡◌, map};
ghost use Rattle.yv_link_scopes.specs.{Tables.{first_of, table_of}, Rows.{row}, Scopes.{Means, AreNested}, InnerPlaces.{lesser_of}, declared.kind.NameKind.{NameKind}};

use crate::entry::Entry;
use crate::places::NamePlaces;

// The lesser of two numbers, or the one that there is.
fn lesser(first: Option<usize>, second: Option<usize>) -> Option<usize>
    ensures { result ≡ lesser_of first second }
{
    let Some(a) = first else {
        return second;
    };
    let Some(b) = second else {
        return first;
    };
    Some(if b < a { b } else { a })
}

/// The number of the first statement with a name in a block or in those around it, the places being
/// those of a kind.
pub(crate) fn meaning_at<'a>(
    places: &NamePlaces<'a>,
    entries: &[Entry<'a, '_>],
    scope: usize,
    name: &'a str,
) -> Option<usize>
    requires { AreNested (map row entries.now) }
    ensures { (kind : NameKind) → table_of places.now ≡ first_of kind (map row entries.now)
        → Means kind (map row entries.now) scope name.now result }
{
    let mut least = None;
    let mut block = scope;
    loop {
        let place = places.get(block, name);
        least = lesser(least, place);
        let Some(entry) = entries.get(block) else {
            return least;
        };
        if entry.scope == block {
            return least;
        }
        block = entry.scope;
    }
}
