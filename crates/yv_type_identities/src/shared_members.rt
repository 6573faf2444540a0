//! The identities that may be values as one list, which types share.
ghost use Rattle.std.specs.{Prelude.{◌≡◌, ◌↔◌, ◌&&◌, ℕ, List, Some, map, slice_get, IsTrue, IfOk, IfSome}, Option.{option_and_then}};
ghost use Rattle.yv_text_statement.specs.Selection.{ModuleChoice};
ghost use Rattle.yv_link_scopes.specs.Files.{Files};
ghost use Rattle.yv_link.specs.{LinkedFiles.{AreLinked, truth_in}, declared.linked_files.Linked.{Linked}};
ghost use Rattle.yv_values.specs.Identities.{RiseById, numbered_of};
ghost use Rattle.yv_type_identities.specs.{Identities.{IsFound}, InnerCandidates.{AreCandidates}, InnerRuns.{AreShared, HasRun, in_run, is_in, is_met, number_at, numbered_by, run_of}, declared.candidates.Candidate.{Candidate}};

use crate::candidates::Candidate;
use crate::graph::read_graph;
use crate::identity_places::IdentityPlaces;
use crate::runs::{Run, run_at, runs};
use std::alloc::{AllocError, Global};
use yv_base_graph::{Ranking, rank};
use yv_link::{IdentityRef, Linked};
use yv_values::{Members, NumberedMember, NumberedMembers};

/// The identities that may be values as one list, in which each has a number; and for each identity
/// the run of the numbers of all that is derived from it, where they make one.
#[derive(Drop)]
pub(crate) struct SharedMembers {
    all: NumberedMembers,
    places: IdentityPlaces,
    ranks: Vec<usize>,
    runs: Vec<Option<Run>>,
}

// The number of the identity at a place.
fn rank_of(places: &IdentityPlaces, ranks: &[usize], place: IdentityRef) -> Option<usize>
    ensures { result ≡ option_and_then (λ k. slice_get ranks.now k) (number_at places.now place) }
{
    ranks.get(places.get(place)?).copied()
}

// The candidates with their numbers.
fn number_candidates(
    alloc: Global,
    candidates: &[Candidate],
    places: &IdentityPlaces,
    ranks: &[usize],
) -> Result<Vec<NumberedMember>, AllocError>
    ensures { IfOk result (λ members. map numbered_of members.items
        ≡ map (numbered_by places.now ranks.now) candidates.now) }
{
    let mut members = Vec::new(alloc);
    for candidate in candidates {
        let member = candidate.member.copy()?;
        let number = rank_of(places, ranks, candidate.identity).unwrap_or(0);
        members.push(NumberedMember { member, number })?;
    }
    Ok(members)
}

// The numbers that both have, where there is a first one.
fn narrow(met: Option<Run>, run: Run) -> Run
    ensures { (n : ℕ) → is_in result n ≡ (is_met met n && is_in run n) }
{
    match met {
        Some(met) => met.meet(run),
        None => run,
    }
}

impl SharedMembers {
    /// Reads them, in time n log n in the statements and the candidates; nothing, if there is no
    /// identity, and if two are at one place, or of one module and name.
    pub(crate) fn read(
        alloc: Global,
        linked: &Linked<'_, '_>,
        inside: &[Vec<IdentityRef>],
        candidates: &[Candidate],
    ) -> Result<Option<SharedMembers>, AllocError>
        ensures { IfOk result (λ found. IfSome found (AreShared linked.now candidates.now)) }
    {
        let Some(places) = IdentityPlaces::read(alloc, linked)? else {
            return Ok(None);
        };
        if places.is_empty() {
            return Ok(None);
        }
        let graph = read_graph(alloc, linked, inside, &places)?;
        let Ranking::Ranks { ranks, order } = rank(alloc, &graph)? else {
            return Ok(None);
        };
        let runs = runs(alloc, &graph, &ranks, &order)?;
        let members = number_candidates(alloc, candidates, &places, &ranks)?;
        let Some(all) = NumberedMembers::new(members)? else {
            return Ok(None);
        };
        Ok(Some(SharedMembers {
            all,
            places,
            ranks,
            runs,
        }))
    }

    // The run of all that is derived from the identity at a place.
    fn run_of(&self, base: IdentityRef) -> Option<Run>
        ensures { result ≡ run_of self.now base }
    {
        run_at(&self.runs, rank_of(&self.places, &self.ranks, base)?)
    }

    // The numbers of all that is derived from each identity at some files and offsets.
    fn run_of_all(&self, key: &[(u32, u64)]) -> Option<Run>
        ensures known { IfSome result (λ _. (c : ℕ) (k : ℕ × ℕ) → slice_get key.now c ≡ Some k
            → HasRun self.now k) }
        ensures met { IfSome result (λ run. (n : ℕ) → IsTrue (is_in run n)
            ↔ ((c : ℕ) (k : ℕ × ℕ) → slice_get key.now c ≡ Some k
            → IsTrue (in_run (run_of self.now (record { file = k.0; offset = k.1 })) n))) }
    {
        let mut met = None;
        for base in key {
            let (file, offset) = *base;
            met = Some(narrow(met, self.run_of(IdentityRef { file, offset })?));
        }
        met
    }

    /// The values of a type with these bases, as a part of the list, if they are one.
    pub(crate) fn members(&self, key: &[(u32, u64)]) -> Result<Option<Members>, AllocError>
        ensures rises { IfOk result (λ found. IfSome found RiseById) }
        ensures right { (linked : Linked) (cs : List Candidate) → AreShared linked cs self.now
            → ((files : Files) (choice : ModuleChoice) → AreLinked files choice linked
            → AreCandidates (truth_in linked) choice files cs)
            → IfOk result (λ found. IfSome found (IsFound linked key.now)) }
    {
        match self.run_of_all(key) {
            Some(run) => Ok(Some(self.all.between(run.low, run.high)?)),
            None => Ok(None),
        }
    }
}
