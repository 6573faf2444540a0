//! Sets of bases as keys.
ghost use Rattle.std.specs.{Prelude.{◌≡◌, IfOk}, List.{list_any}};
ghost use Rattle.yv_link_identities.specs.{References.{is_at}, declared.references.IdentityRef.{IdentityRef}};
ghost use Rattle.yv_type_identities.specs.InnerSets.{has, is_key};

use crate::sets::References;
use std::alloc::{AllocError, Global};
use yv_link::IdentityRef;

// The set of some identities.
fn set_of(alloc: Global, identities: &[IdentityRef]) -> Result<References, AllocError>
    ensures { IfOk result
        (λ set. (place : IdentityRef) → has set place ≡ list_any (is_at place) identities.now) }
{
    let mut set = References::new(alloc);
    for identity in identities {
        set.add(*identity)?;
    }
    Ok(set)
}

/// The files and offsets of some identities, each once, and equal for equal sets.
pub(crate) fn key_of(
    alloc: Global,
    identities: &[IdentityRef],
) -> Result<Vec<(u32, u64)>, AllocError>
    ensures { IfOk result
        (λ key. (place : IdentityRef) → list_any (is_key place) key.items
        ≡ list_any (is_at place) identities.now) }
{
    let set = set_of(alloc, identities)?;
    set.key(alloc)
}
