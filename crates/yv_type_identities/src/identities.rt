//! The values of identityref types.
ghost use Rattle.std.specs.{Prelude.{◌≡◌, ◌↔◌, ℕ, List, IsTrue, IfOk, IfSome, OnOk}, List.{list_any}};
ghost use Rattle.yv_text_statement.specs.Selection.{ModuleChoice};
ghost use Rattle.yv_link_scopes.specs.Files.{Files};
ghost use Rattle.yv_link.specs.LinkedFiles.{AreLinked, truth_in};
ghost use Rattle.yv_values.specs.Identities.{RiseById, is_identity};
ghost use Rattle.yv_type_identities.specs.{Values.{HasValue}, InnerBases.{bases_at}};

use crate::bases::below;
use crate::inside::bases_inside;
use crate::keys::key_of;
use crate::lists::{Candidates, members_of};
use crate::shared_members::SharedMembers;
use std::alloc::{AllocError, Global};
use std::collections::BTreeMap;
use yv_link::{IdentityRef, Linked};
use yv_values::Members;

// The identities that are derived from all of some bases.
#[derive(Drop)]
pub(crate) struct KeyMembers {
    pub key: Vec<(u32, u64)>,
    pub members: Members,
}

/// What identityref types ask of linked files. Types share one list of identities, of which each
/// has a part; where that can't be, types with the same bases share a list that was made for one.
#[derive(Drop)]
pub struct IdentityLists {
    pub(crate) bases: Vec<Vec<IdentityRef>>,
    pub(crate) candidates: Candidates,
    pub(crate) shared: Option<SharedMembers>,
    pub(crate) found: Vec<KeyMembers>,
    places: BTreeMap<Vec<(u32, u64)>, usize>,
}

/// The bases in a block.
pub(crate) fn bases_of(inside: &[Vec<IdentityRef>], block: usize) -> &[IdentityRef]
    ensures { result.now ≡ bases_at inside.now block }
{
    match inside.get(block) {
        Some(bases) => bases,
        None => &[],
    }
}

impl IdentityLists {
    ghost use Rattle.yv_type_identities.specs.Identities.{AreIdentities, IsFound};

    /// Reads what types ask, in time n log n in the statements. Each identity's name is copied
    /// once, and that of its module once for each file.
    pub fn new(alloc: Global, linked: &Linked<'_, '_>) -> Result<IdentityLists, AllocError>
        ensures { IfOk result (λ identities. AreIdentities linked.now identities) }
    {
        let bases = bases_inside(alloc, linked)?;
        let candidates = Candidates::read(alloc, linked)?;
        let shared = SharedMembers::read(alloc, linked, &bases, &candidates.list)?;
        Ok(IdentityLists {
            bases,
            candidates,
            shared,
            found: Vec::new(alloc),
            places: BTreeMap::new(alloc),
        })
    }

    /// The values of the identityref type whose statement has a number among the rows of linked
    /// files: the identities of implemented modules that are derived from every base of the type
    /// and whose own conditions hold (RFC 7950, section 9.10.2). The linked files decide whether a
    /// condition is true. A base isn't derived from itself, and so is not a value. An identity is
    /// derived through others whether or not these are values. A base whose name means nothing,
    /// which linking refuses, counts as none, and a type without a base has all identities.
    ///
    /// Where identities and their bases make a tree, it takes the time of sorting the bases, and
    /// the list is a part of one that all types share. Otherwise it takes for the first type with
    /// these bases for each of them the time of `Linked::descendants`, and n log n in the
    /// identities that are derived from it; only a type without a base goes through all identities
    /// here. For the others it takes the time of sorting the bases.
    pub fn of(
        &mut self,
        alloc: Global,
        linked: &Linked<'_, '_>,
        number: usize,
    ) -> Result<Members, AllocError>
        // If it was read from these files: exactly the identities that are values of the
        // identityref type of this number: derived from each of its bases, of an implemented
        // module, and with conditions that hold.
        ensures same { AreIdentities linked.now self.old
            → IfOk result (λ members. (files : Files) (choice : ModuleChoice)
            → AreLinked files choice linked.now → (module_name called : List ℕ)
            → IsTrue (list_any (is_identity module_name called) members)
            ↔ HasValue (truth_in linked.now) choice files number module_name called) }
        // Each once.
        ensures rises { IfOk result (λ members. RiseById members) }
        // The lists are still those of these files.
        ensures keeps { AreIdentities linked.now self.old → AreIdentities linked.now self.new }
    {
        let key = key_of(alloc, bases_of(&self.bases, number))?;
        if let Some(members) = self.find(&key)? {
            return Ok(members);
        }
        let left = below(alloc, linked, &key)?;
        let members = members_of(alloc, &self.candidates, &left)?;
        let copy = members.copy()?;
        self.keep(alloc, key, copy)?;
        Ok(members)
    }

    // The list of a key, if it is a part of the shared one or was made before.
    fn find(&self, key: &[(u32, u64)]) -> Result<Option<Members>, AllocError>
        ensures rises { IfOk result (λ found. IfSome found RiseById) }
        ensures right { (linked : Linked) → AreIdentities linked self.now
            → IfOk result (λ found. IfSome found (IsFound linked key.now)) }
    {
        if let Some(shared) = &self.shared {
            if let Some(members) = shared.members(key)? {
                return Ok(Some(members));
            }
        }
        self.find_made(key)
    }

    // The list that was made for a key. That it is the one of this key is looked at, and not kept
    // as a fact.
    fn find_made(&self, key: &[(u32, u64)]) -> Result<Option<Members>, AllocError>
        ensures rises { IfOk result (λ found. IfSome found RiseById) }
        ensures right { (linked : Linked) → AreIdentities linked self.now
            → IfOk result (λ found. IfSome found (IsFound linked key.now)) }
    {
        let Some(place) = self.places.get(key) else {
            return Ok(None);
        };
        let Some(found) = self.found.get(*place) else {
            return Ok(None);
        };
        if is_same(&found.key, key) {
            Ok(Some(found.members.copy()?))
        } else {
            Ok(None)
        }
    }

    // Keeps the list of a key.
    fn keep(
        &mut self,
        alloc: Global,
        key: Vec<(u32, u64)>,
        members: Members,
    ) -> Result<(), AllocError>
        ensures { (linked : Linked) → AreIdentities linked self.old
            → IsFound linked key.items members → AreIdentities linked self.new }
    {
        let place = self.found.len();
        let copy = copy_key(alloc, &key)?;
        self.found.push(KeyMembers { key, members })?;
        self.places.insert(copy, place)?;
        Ok(())
    }
}

// Whether two keys are one.
fn is_same(one: &[(u32, u64)], other: &[(u32, u64)]) -> bool
    ensures { IsTrue result → one.now ≡ other.now }
{
    one == other
}

fn copy_key(alloc: Global, key: &[(u32, u64)]) -> Result<Vec<(u32, u64)>, AllocError> {
    key.iter().copied().collect(alloc)
}
