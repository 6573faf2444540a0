//! Numbers in ascending order, of which those between others are marked.
ghost use Rattle.std.specs.Prelude.{◌≤◌, vec_len};

use std::alloc::{AllocError, Global};
use yv_base_numbers::{Integer, is_at_most};

/// Numbers in ascending order, each with whether it is marked.
#[derive(Drop)]
pub(crate) struct Spread {
    ascending: Vec<Integer>,
    are_marked: Vec<bool>,
}

impl Spread {
    /// These numbers, none of them marked.
    pub(crate) fn of(alloc: Global, numbers: &[Integer]) -> Result<Spread, AllocError> {
        let mut spread = Spread {
            ascending: Vec::new(alloc),
            are_marked: vec![in alloc; false; numbers.len()]?,
        };
        for number in numbers {
            let place = spread.count_below(*number);
            spread.ascending.insert(place, *number)?;
        }
        Ok(spread)
    }

    // How many of the numbers are below this one.
    fn count_below(&self, number: Integer) -> usize
        ensures { result ≤ vec_len self.now.ascending }
    {
        self.ascending
            .partition_point(|other| !is_at_most(number, *other))
    }

    /// Marks those from a number to another one.
    pub(crate) fn mark(&mut self, low: Integer, high: Integer) {
        for place in self.count_below(low)..self.ascending.len() {
            if !is_at_most(self.ascending[place], high) {
                return;
            }
            if let Some(is_marked) = self.are_marked.get_mut(place) {
                *is_marked = true;
            }
        }
    }

    /// Whether one of the numbers is marked.
    pub(crate) fn is_marked(&self, number: Integer) -> bool {
        match self.are_marked.get(self.count_below(number)) {
            Some(is_marked) => *is_marked,
            None => false,
        }
    }
}
