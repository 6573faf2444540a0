//! Sets of identities by their places.
ghost use Rattle.std.specs.{Prelude.{◌≡◌, ◌||◌, ◌&&◌, false, OnOk, IfOk}, List.{list_any}};
ghost use Rattle.yv_link_identities.specs.{References.{is_at}, declared.references.IdentityRef.{IdentityRef}};
ghost use Rattle.yv_type_identities.specs.InnerSets.{has, is_key, is_left};

use std::alloc::{AllocError, Global};
use std::collections::BTreeSet;
use yv_link::IdentityRef;

/// A set of identities.
#[derive(Drop)]
pub(crate) struct References {
    set: BTreeSet<(u32, u64)>,
}

impl References {
    /// No identities.
    pub(crate) fn new(alloc: Global) -> References
        ensures { (place : IdentityRef) → has result place ≡ false }
    {
        References {
            set: BTreeSet::new(alloc),
        }
    }

    /// Whether an identity is one of them.
    pub(crate) fn has(&self, identity: IdentityRef) -> bool
        ensures { result ≡ has self.now identity }
    {
        self.set.contains(&(identity.file, identity.offset))
    }

    /// The files and offsets of the identities, each once and in their order.
    pub(crate) fn key(&self, alloc: Global) -> Result<Vec<(u32, u64)>, AllocError>
        ensures { IfOk result
            (λ key. (place : IdentityRef) → list_any (is_key place) key.items
            ≡ has self.now place) }
    {
        self.pairs(alloc)
    }

    fn pairs(&self, alloc: Global) -> Result<Vec<(u32, u64)>, AllocError>
        ensures { IfOk result (λ pairs. pairs.items ≡ self.now.set.keys) }
    {
        self.set.iter().copied().collect(alloc)
    }

    /// Adds an identity.
    pub(crate) fn add(&mut self, identity: IdentityRef) -> Result<(), AllocError>
        ensures { OnOk result
            ((place : IdentityRef) → has self.new place
            ≡ (has self.old place || is_at place identity)) }
    {
        self.set.insert((identity.file, identity.offset))?;
        Ok(())
    }
}

/// Whether an identity is in the set, where there is one.
pub(crate) fn is_left(left: &Option<References>, identity: IdentityRef) -> bool
    ensures { result ≡ is_left left.now identity }
{
    match left {
        Some(references) => references.has(identity),
        None => true,
    }
}

/// Those of the identities that are in the set, where there is one.
pub(crate) fn intersect(
    alloc: Global,
    left: &Option<References>,
    identities: &[IdentityRef],
) -> Result<References, AllocError>
    ensures { IfOk result (λ both. (place : IdentityRef)
        → has both place ≡ (is_left left.now place && list_any (is_at place) identities.now)) }
{
    let mut both = References::new(alloc);
    for identity in identities {
        if is_left(left, *identity) {
            both.add(*identity)?;
        }
    }
    Ok(both)
}
