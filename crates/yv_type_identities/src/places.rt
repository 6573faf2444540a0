//! Where candidates are.
ghost use Rattle.std.specs.{Prelude.{◌≡◌, ◌||◌, ◌&&◌, ◌==◌, ℕ, false, nat_eq, IfOk, OnOk}, List.{list_any}};
ghost use Rattle.yv_link_identities.specs.declared.references.IdentityRef.{IdentityRef};
ghost use Rattle.yv_type_identities.specs.{InnerPlaces.{ArePlaced, is_kept, numbers_at}, InnerSets.{is_key}};

use crate::candidates::Candidate;
use std::alloc::{AllocError, Global};
use std::collections::BTreeMap;
use yv_link::IdentityRef;

/// For each file and offset the numbers of the candidates there.
#[derive(Drop)]
pub(crate) struct CandidatePlaces {
    map: BTreeMap<(u32, u64), Vec<usize>>,
}

impl CandidatePlaces {
    /// Reads where candidates are, in time n log n. Each place has a list of its own, so that
    /// nothing is lost where two candidates are at one.
    pub(crate) fn read(
        alloc: Global,
        candidates: &[Candidate],
    ) -> Result<CandidatePlaces, AllocError>
        ensures { IfOk result (λ places. ArePlaced candidates.now places) }
    {
        let mut places = CandidatePlaces::new(alloc);
        for (number, candidate) in candidates.iter().enumerate() {
            places.add(alloc, candidate.identity, number)?;
        }
        Ok(places)
    }

    /// The numbers at some files and offsets, by one look-up for each of these.
    pub(crate) fn numbers(
        &self,
        alloc: Global,
        keys: &[(u32, u64)],
    ) -> Result<Vec<usize>, AllocError>
        ensures { IfOk result (λ numbers. (number : ℕ)
            → list_any (nat_eq number) numbers.items
            ≡ list_any (λ k. is_kept self.now k number) keys.now) }
    {
        let mut numbers = Vec::new(alloc);
        for key in keys {
            numbers.extend_from_slice(self.at(*key))?;
        }
        Ok(numbers)
    }

    fn new(alloc: Global) -> CandidatePlaces
        ensures { (k : ℕ × ℕ) (number : ℕ) → is_kept result k number ≡ false }
    {
        CandidatePlaces {
            map: BTreeMap::new(alloc),
        }
    }

    // Puts a number after those at a place.
    fn add(&mut self, alloc: Global, place: IdentityRef, number: usize) -> Result<(), AllocError>
        ensures { OnOk result
            ((k : ℕ × ℕ) (n : ℕ) → is_kept self.new k n
            ≡ (is_kept self.old k n || (is_key place k && (n == number)))) }
    {
        self.map
            .entry((place.file, place.offset))?
            .or_insert(Vec::new(alloc))
            .push(number)?;
        Ok(())
    }

    // The numbers at a file and an offset.
    fn at(&self, key: (u32, u64)) -> &[usize]
        ensures { result.now ≡ numbers_at self.now key }
    {
        match self.map.get(&key) {
            Some(numbers) => numbers,
            None => &[],
        }
    }
}
