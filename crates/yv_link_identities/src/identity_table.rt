//! The identities of files, and what readers ask of them.
ghost use Rattle.std.specs.{Prelude.{◌≡◌, ◌↔◌, ◌<◌, length, map, IsTrue, IfOk, IfSome}, Option.{option_map}};
ghost use Rattle.yv_link_scopes.specs.{Files.{Files, brief_of}, RowList.{rows_of}};

use crate::hierarchy::{Hierarchy, STEPS};
use crate::references::{IdentityRef, References, reference};
use std::alloc::{AllocError, Global};
use yv_link_scopes::{NamePlaces, Rows, local};

/// The identities of files in which nothing is wrong with identities.
#[derive(Drop)]
pub struct Identities<'a> {
    pub(crate) names: NamePlaces<'a>,
    pub(crate) identities: Vec<IdentityRef>,
    pub(crate) places: References,
    pub(crate) hierarchy: Hierarchy,
}

impl<'a> Identities<'a> {
    ghost use Rattle.yv_link_scopes.specs.Views.{lent_in, files_in, rows_in};
    ghost use Rattle.yv_link_identities.specs.{References.{AreDescendants, IsDerived, number_of, reference_of}, InnerIdentityNumbers.{number_at}, Tables.{AreIdentities}};

    /// The identity that a name means in a file of the statements from which these identities are.
    pub fn identity(&self, rows: &Rows<'a, '_>, file: usize, name: &'a str) -> Option<IdentityRef>
        ensures { AreIdentities (lent_in rows.now) self.now → result
            ≡ reference_of (files_in rows.now) (rows_in rows.now) file name.now }
    {
        let block = rows.block_of(file, name)?;
        let number = self.names.get(block, local(name))?;
        let entry = rows.entries().get(number)?;
        Some(reference(entry))
    }

    // The place among the identities of the one that a reference means.
    fn node(&self, identity: IdentityRef) -> Option<usize>
        ensures within { IfSome result (λ node. node < length self.now.hierarchy.bases.items) }
        ensures means { (files : Files) → AreIdentities files self.now
            → option_map (number_at (rows_of files)) result ≡ number_of (rows_of files) identity }
    {
        let node = self.places.get(identity)?;
        if node < self.hierarchy.bases.len() {
            Some(node)
        } else {
            None
        }
    }

    /// Whether an identity is derived from another, in one step or more.
    ///
    /// It allocates no memory and uses little stack. Where identities have one base each it takes
    /// one step for each base on the way. Otherwise it may take one for each way to a base, and
    /// files can be made to have more ways than can be counted: use `descendants` for files from
    /// strangers.
    pub fn is_derived(&self, identity: IdentityRef, base: IdentityRef) -> bool
        ensures { (files : Files) → AreIdentities files self.now → IsTrue result
            ↔ IsDerived (map brief_of files) (rows_of files) identity base }
    {
        let Some(from) = self.node(identity) else {
            return false;
        };
        let Some(to) = self.node(base) else {
            return false;
        };
        self.hierarchy.leads(from, to, STEPS)
    }

    /// All identities that are derived from one, in the order of the statements. Takes time n log n
    /// in these and in the bases that they name among these and that one, and no more of all others
    /// than it takes to look that one up.
    pub fn descendants(
        &self,
        alloc: Global,
        base: IdentityRef,
    ) -> Result<Vec<IdentityRef>, AllocError>
        ensures { IfOk result
            (λ found. (files : Files) → AreIdentities files self.now
            → AreDescendants (map brief_of files) (rows_of files) base found.items) }
    {
        let mut found = Vec::new(alloc);
        let Some(to) = self.node(base) else {
            return Ok(found);
        };
        let below = self.hierarchy.below(alloc, to)?;
        for node in below {
            if let Some(identity) = self.identities.get(node) {
                found.push(*identity)?;
            }
        }
        Ok(found)
    }
}
