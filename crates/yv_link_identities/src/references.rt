//! References to identities, and the first identity at each place.
ghost use Rattle.std.specs.Prelude.{◌≡◌, ℕ, OnOk, IfOk};
ghost use Rattle.yv_link_scopes.specs.{Names.{first_where}, Rows.{row}};
ghost use Rattle.yv_link_identities.specs.{References.{is_at, ref_of}, InnerPlaces.{placed_in, keep_first}};

use std::alloc::{AllocError, Global};
use std::collections::BTreeMap;
use yv_link_scopes::Entry;

/// An identity, by its statement's file and offset.
#[derive(Clone, Copy, Debug, PartialEq, Eq)]
pub struct IdentityRef {
    pub file: u32,
    pub offset: u64,
}

/// The reference to a statement.
pub(crate) fn reference(entry: &Entry<'_, '_>) -> IdentityRef
    ensures { result ≡ ref_of (row entry.now) }
{
    IdentityRef {
        file: entry.file,
        offset: entry.statement.offset(),
    }
}

/// For each place in a file the number of the first identity there.
#[derive(Drop)]
pub(crate) struct References {
    map: BTreeMap<(u32, u64), usize>,
}

impl References {
    /// The places of these identities.
    pub(crate) fn read(alloc: Global, identities: &[IdentityRef]) -> Result<References, AllocError>
        ensures { IfOk result
            (λ places. (f o : ℕ) → placed_in places f o
            ≡ first_where (is_at (record { file = f; offset = o })) identities.now) }
    {
        let mut places = References {
            map: BTreeMap::new(alloc),
        };
        for (node, identity) in identities.iter().enumerate() {
            places.keep(*identity, node)?;
        }
        Ok(places)
    }

    /// The number of the identity that a reference means.
    pub(crate) fn get(&self, identity: IdentityRef) -> Option<usize>
        ensures { result ≡ placed_in self.now identity.file identity.offset }
    {
        self.map.get(&(identity.file, identity.offset)).copied()
    }

    // Puts a number at a place, where there is none yet.
    fn keep(&mut self, identity: IdentityRef, node: usize) -> Result<(), AllocError>
        ensures { OnOk result
            ((f o : ℕ) → placed_in self.new f o
            ≡ keep_first (placed_in self.old) identity node f o) }
    {
        if self.get(identity).is_none() {
            self.map.insert((identity.file, identity.offset), node)?;
        }
        Ok(())
    }
}
