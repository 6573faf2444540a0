//! Numbers of one place, each linked to the next.
ghost use Rattle.std.specs.Prelude.{◌≡◌, ◌<◌, ◌++◌, ℕ, List, length, IfOk, OnOk};
ghost use Rattle.yv_base_tables.specs.InnerChains.{AreChains, IsChain, Links};

use std::alloc::{AllocError, Global};

/// The first number at each place, and for each number the next one at its place.
#[derive(Drop)]
pub(crate) struct Chains {
    firsts: Vec<Option<usize>>,
    next: Vec<Option<usize>>,
}

impl Chains {
    // Puts a number before the others at its place, if that is one of those that are asked for.
    fn link(&mut self, number: usize, place: Option<usize>)
        requires { number < length self.old.next.items }
        ensures { Links number place self.old self.new }
    {
        let Some(place) = place else {
            return;
        };
        if place < self.firsts.len() {
            self.next[number] = self.firsts[place];
            self.firsts[place] = Some(number);
        }
    }

    /// The numbers at each of so many places.
    pub(crate) fn read(
        alloc: Global,
        places: &[Option<usize>],
        count: usize,
    ) -> Result<Chains, AllocError>
        ensures { IfOk result (AreChains places.now count 0) }
    {
        let firsts = vec![in alloc; None; count]?;
        let next = vec![in alloc; None; places.len()]?;
        let mut chains = Chains { firsts, next };
        let mut left = places.len();
        while left > 0 {
            left -= 1;
            chains.link(left, places[left]);
        }
        Ok(chains)
    }

    /// Appends the numbers at a place to others.
    pub(crate) fn write(&self, place: usize, numbers: &mut Vec<usize>) -> Result<(), AllocError>
        requires place { place < length self.now.firsts.items }
        requires chain { (ks : List ℕ) × IsChain self.now place ks }
        ensures { (ks : List ℕ) → IsChain self.now place ks
            → OnOk result (numbers.new.items ≡ numbers.old.items ++ ks) }
    {
        let mut next = self.firsts[place];
        while let Some(number) = next {
            numbers.push(number)?;
            next = self.next[number];
        }
        Ok(())
    }
}
