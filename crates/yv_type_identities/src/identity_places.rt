//! The identity at each place.
ghost use Rattle.std.specs.Prelude.{◌≡◌, ◌≢◌, None, Some, true, cond, ℕ, List, map, slice_get, IfOk, IfSome};
ghost use Rattle.yv_text_statement.specs.Selection.{ModuleChoice};
ghost use Rattle.yv_link_scopes.specs.{Files.{Files, brief_of}, RowList.{rows_of}, Rows.{Row, row}};
ghost use Rattle.yv_link_identities.specs.{References.{is_at}, declared.references.IdentityRef.{IdentityRef}};
ghost use Rattle.yv_link.specs.LinkedFiles.{AreLinked};
ghost use Rattle.yv_type_identities.specs.InnerRuns.{AreIdentityPlaces, number_at};

use crate::candidates::{is_identity, reference};
use std::alloc::{AllocError, Global};
use std::collections::BTreeMap;
use yv_link::{IdentityRef, Linked};

/// For each place the number of the identity's statement there.
#[derive(Drop)]
pub(crate) struct IdentityPlaces {
    map: BTreeMap<(u32, u64), usize>,
}

impl IdentityPlaces {
    /// Reads where identities are, in time n log n in the statements; nothing, if two of them are
    /// at one place.
    pub(crate) fn read(
        alloc: Global,
        linked: &Linked<'_, '_>,
    ) -> Result<Option<IdentityPlaces>, AllocError>
        ensures { IfOk result (λ found. IfSome found (λ places. (files : Files)
            (choice : ModuleChoice)
            → AreLinked files choice linked.now → AreIdentityPlaces (rows_of files) places)) }
    {
        let mut places = IdentityPlaces::new(alloc);
        for (number, entry) in linked.rows().entries().iter().enumerate() {
            if is_identity(entry) && !places.keep(reference(entry), number)? {
                return Ok(None);
            }
        }
        Ok(Some(places))
    }

    fn new(alloc: Global) -> IdentityPlaces
        ensures { (place : IdentityRef) → number_at result place ≡ None }
    {
        IdentityPlaces {
            map: BTreeMap::new(alloc),
        }
    }

    /// Whether there is no identity.
    pub(crate) fn is_empty(&self) -> bool {
        self.map.is_empty()
    }

    /// The number at a place.
    pub(crate) fn get(&self, place: IdentityRef) -> Option<usize>
        ensures { result ≡ number_at self.now place }
    {
        self.map.get(&(place.file, place.offset)).copied()
    }

    // Puts a number at a place, and tells whether there was none.
    fn keep(&mut self, place: IdentityRef, number: usize) -> Result<bool, AllocError>
        ensures none { result ≡ Ok true → number_at self.old place ≡ None }
        ensures keeps { result ≡ Ok true → (other : IdentityRef) → number_at self.new other
            ≡ cond (is_at other place) (Some number) (number_at self.old other) }
    {
        if self.get(place).is_some() {
            return Ok(false);
        }
        self.map.insert((place.file, place.offset), number)?;
        Ok(true)
    }
}
