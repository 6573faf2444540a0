//! The identities of a type, of those that might be.
ghost use Rattle.std.specs.{Prelude.{◌≡◌, ◌↔◌, ℕ, List, true, Some, nat_eq, nat_lt, slice_get, IsTrue, IfOk}, List.{list_any}};
ghost use Rattle.yv_text_statement.specs.Selection.{ModuleChoice};
ghost use Rattle.yv_link_scopes.specs.Files.{Files};
ghost use Rattle.yv_link.specs.LinkedFiles.{AreLinked, truth_in};
ghost use Rattle.yv_values.specs.Identities.{RiseById, id_of, is_identity};
ghost use Rattle.yv_type_identities.specs.{InnerCandidates.{AreCandidates}, InnerPlaces.{ArePlaced}, InnerSets.{is_left}, declared.candidates.Candidate.{Candidate}};

use crate::candidates::{Candidate, candidates};
use crate::places::CandidatePlaces;
use crate::sets::{References, is_left};
use std::alloc::{AllocError, Global};
use yv_link::Linked;
use yv_values::Members;

/// The identities that might be values, and where they are.
#[derive(Drop)]
pub(crate) struct Candidates {
    pub list: Vec<Candidate>,
    places: CandidatePlaces,
    ghost placed: { ArePlaced list.items places },
}

// The numbers below a count.
fn up_to(alloc: Global, count: usize) -> Result<Vec<usize>, AllocError>
    ensures { IfOk result
        (λ numbers. (number : ℕ) → list_any (nat_eq number) numbers.items ≡ nat_lt number count) }
{
    let mut numbers = Vec::new(alloc);
    for number in 0..count {
        numbers.push(number)?;
    }
    Ok(numbers)
}

impl Candidates {
    /// Reads them, in time n log n in the statements.
    pub(crate) fn read(alloc: Global, linked: &Linked<'_, '_>) -> Result<Candidates, AllocError>
        ensures { IfOk result
            (λ all. (files : Files) (choice : ModuleChoice) → AreLinked files choice linked.now
            → AreCandidates (truth_in linked.now) choice files all.list.items) }
    {
        let list = candidates(alloc, linked)?;
        let places = CandidatePlaces::read(alloc, &list)?;
        Ok(Candidates { list, places })
    }

    // The numbers of those that are in the set, where there is one. It asks of each place in the
    // set who is there, and not of each candidate whether it is in the set, since there may be as
    // many sets as candidates.
    fn choose(&self, alloc: Global, left: &Option<References>) -> Result<Vec<usize>, AllocError>
        ensures { IfOk result (λ numbers. (k : ℕ) → IsTrue (list_any (nat_eq k) numbers.items)
            ↔ ((c : Candidate) × (slice_get self.now.list.items k ≡ Some c)
            × (is_left left.now c.identity ≡ true))) }
    {
        match left {
            Some(set) => {
                let keys = set.key(alloc)?;
                self.places.numbers(alloc, &keys)
            }
            None => up_to(alloc, self.list.len()),
        }
    }
}

/// Those of the candidates that are in the set, where there is one, in time n log n in the set and
/// in these, except for the look-ups, each of which takes the logarithm of all candidates. Without
/// a set it is n log n in all candidates.
pub(crate) fn members_of(
    alloc: Global,
    candidates: &Candidates,
    left: &Option<References>,
) -> Result<Members, AllocError>
    ensures same { IfOk result
        (λ members. (module_name called : List ℕ)
        → IsTrue (list_any (is_identity module_name called) members)
        ↔ ((k : ℕ) × (c : Candidate) × (slice_get candidates.now.list.items k ≡ Some c)
        × (is_left left.now c.identity ≡ true)
        × (id_of c.member ≡ record { module_name = module_name; name = called }))) }
    ensures rises { IfOk result (λ members. RiseById members) }
{
    let numbers = candidates.choose(alloc, left)?;
    let mut members = Vec::new(alloc);
    for number in &numbers {
        if let Some(candidate) = candidates.list.get(*number) {
            members.push(candidate.member.copy()?)?;
        }
    }
    Members::new(members)
}
