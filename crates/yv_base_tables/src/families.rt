//! Numbers by place.
ghost use Rattle.std.specs.{Prelude.{◌≡◌, ◌≤◌, [], length, slice_index_or, IfOk}, List.{slice_range}};
ghost use Rattle.yv_base_tables.specs.{Families.{by_place}, InnerParts.{start_of}};

use crate::chains::Chains;
use std::alloc::{AllocError, Global};
use std::marker::Model;

// Where the numbers of a place begin: those of the place before end there.
fn start(ends: &[usize], place: usize) -> usize
    requires { place ≤ length ends.now }
    ensures { result ≡ start_of 0 ends.now place }
{
    if place == 0 { 0 } else { ends[place - 1] }
}

// What is between two places of a list.
fn part(numbers: &[usize], start: usize, end: usize) -> &[usize]
    requires order { start ≤ end }
    requires within { end ≤ length numbers.now }
    ensures { result.now ≡ slice_range numbers.now start end }
{
    &numbers[start..end]
}

/// Families of numbers from 0, by place: each number is in that of one place, or in none. Contracts
/// see the list of the numbers of each place.
#[derive(Drop)]
pub struct Families {
    // Where the numbers of each place end among all of them.
    ends: Vec<usize>,
    numbers: Vec<usize>,
}

impl Model for Families {
    ghost use Rattle.std.specs.Prelude.{ℕ, List, length};
    ghost use Rattle.yv_base_tables.specs.InnerParts.{AreEnds, parts};

    ghost Value = { List (List ℕ) };

    ghost view = { λ f. parts f.numbers.items 0 f.ends.items };

    ghost invariant = { λ f. AreEnds 0 f.ends.items (length f.numbers.items) };
}

impl Families {
    /// The numbers at each of so many places; `places` gives the place of each number. A number at
    /// a later place is left out. Takes time and memory linear in numbers and places. Err only if
    /// memory runs out.
    pub fn new(
        alloc: Global,
        places: &[Option<usize>],
        count: usize,
    ) -> Result<Families, AllocError>
        ensures { IfOk result (λ families. families ≡ by_place places.now count) }
    {
        let chains = Chains::read(alloc, places, count)?;
        let mut ends = Vec::new(alloc);
        let mut numbers = Vec::new(alloc);
        for place in 0..count {
            chains.write(place, &mut numbers)?;
            ends.push(numbers.len())?;
        }
        Ok(Families { ends, numbers })
    }

    /// The numbers at a place, ascending. None past the last place.
    pub fn at(&self, place: usize) -> &[usize]
        ensures { result.now ≡ slice_index_or self.now place [] }
    {
        if place >= self.ends.len() {
            return &[];
        }
        let start = start(&self.ends, place);
        let end = self.ends[place];
        part(&self.numbers, start, end)
    }
}
