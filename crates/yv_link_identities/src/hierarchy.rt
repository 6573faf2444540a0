//! The identities by their numbers, in an order in which each comes after its bases.
ghost use Rattle.std.specs.{Prelude.{◌↔◌, ◌<◌, ◌≤◌, length, slice_index, IsTrue, IfOk, OnOk}, List.{All}};
ghost use Rattle.yv_base_graph.specs.Graph.{IsGraph, AreRanks, ArePlaces, LeadsTo};
ghost use Rattle.yv_link_identities.specs.InnerWays.{AddsRanks, AreBelow, AreReversed, EntersBelow};

use std::alloc::{AllocError, Global};
use std::collections::BTreeSet;

/// So many steps a search goes from base to base before it goes over the middle between both ranks.
pub(crate) const STEPS: usize = 64;

/// For each identity its bases and what has it as a base, and the order.
#[derive(Drop)]
pub(crate) struct Hierarchy {
    pub bases: Vec<Vec<usize>>,
    pub derived: Vec<Vec<usize>>,
    pub ranks: Vec<usize>,
    pub order: Vec<usize>,
    ghost graph: { IsGraph bases.items },
    ghost reversed: { AreReversed bases.items derived.items },
    ghost ranked: { AreRanks bases.items ranks.items },
    ghost placed: { ArePlaces ranks.items order.items },
}

// Adds the ranks of these to a set.
fn add_ranks(
    ranks: &[usize],
    nodes: &[usize],
    pending: &mut BTreeSet<usize>,
) -> Result<(), AllocError>
    requires { All (λ a. a < length ranks.now) nodes.now }
    ensures { OnOk result (AddsRanks ranks.now nodes.now pending.old pending.new) }
{
    for node in nodes {
        pending.insert(ranks[*node])?;
    }
    Ok(())
}

impl Hierarchy {
    /// The identities that are derived from one. What is derived from an identity has a higher
    /// rank, so that none comes back once the least rank is removed.
    pub(crate) fn below(&self, alloc: Global, base: usize) -> Result<BTreeSet<usize>, AllocError>
        requires { base < length self.now.bases.items }
        ensures { IfOk result (AreBelow self.now.bases.items base) }
    {
        let mut found = BTreeSet::new(alloc);
        let mut pending = BTreeSet::new(alloc);
        add_ranks(&self.ranks, &self.derived[base], &mut pending)?;
        while let Some(rank) = pending.pop_first() {
            let node = self.order[rank];
            found.insert(node)?;
            add_ranks(&self.ranks, &self.derived[node], &mut pending)?;
        }
        Ok(found)
    }

    // The last of the identities that are reached while there is one base alone, which isn't the
    // one looked for.
    fn stem(&self, from: usize, to: usize) -> usize
        requires { from < length self.now.bases.items }
        ensures within { result < length self.now.bases.items }
        ensures ranks { slice_index self.now.ranks.items result
            ≤ slice_index self.now.ranks.items from }
        ensures leads { LeadsTo self.now.bases.items from to
            ↔ LeadsTo self.now.bases.items result to }
    {
        let mut node = from;
        while self.bases[node].len() == 1 {
            let only = self.bases[node][0];
            if only == to {
                return node;
            }
            node = only;
        }
        node
    }

    /// Whether one identity leads to another by its bases. The calls nest to a depth of some
    /// thousand at most: so many steps go from identities with several bases to these, and after
    /// them all ways are halved.
    #[cycle(ways)]
    pub(crate) fn leads(&self, from: usize, to: usize, steps: usize) -> bool
        requires from { from < length self.now.bases.items }
        requires to { to < length self.now.bases.items }
        ensures { IsTrue result ↔ LeadsTo self.now.bases.items from to }
    {
        let node = self.stem(from, to);
        if self.ranks[node] <= self.ranks[to] {
            return false;
        }
        if steps > 0 {
            self.leads_near(node, to, steps - 1)
        } else {
            self.leads_far(node, to)
        }
    }

    // Goes on from each base.
    #[cycle(ways)]
    fn leads_near(&self, from: usize, to: usize, steps: usize) -> bool
        requires from { from < length self.now.bases.items }
        requires to { to < length self.now.bases.items }
        requires falls { slice_index self.now.ranks.items to
            < slice_index self.now.ranks.items from }
        ensures { IsTrue result ↔ LeadsTo self.now.bases.items from to }
    {
        for base in &self.bases[from] {
            let base = *base;
            if base == to || self.leads(base, to, steps) {
                return true;
            }
        }
        false
    }

    // Each way down passes the middle rank by one of its edges.
    #[cycle(ways)]
    fn leads_far(&self, from: usize, to: usize) -> bool
        requires from { from < length self.now.bases.items }
        requires to { to < length self.now.bases.items }
        requires falls { slice_index self.now.ranks.items to
            < slice_index self.now.ranks.items from }
        ensures { IsTrue result ↔ LeadsTo self.now.bases.items from to }
    {
        let high = self.ranks[from];
        let low = self.ranks[to];
        let middle = low + (high - low) / 2;
        for place in middle + 1..high + 1 {
            let node = self.order[place];
            if self.enters(node, to, middle) && (node == from || self.leads(from, node, STEPS)) {
                return true;
            }
        }
        false
    }

    // Whether a base of a node, up to the middle rank, is the one looked for, or leads to it.
    #[cycle(ways)]
    fn enters(&self, node: usize, to: usize, middle: usize) -> bool
        requires node { node < length self.now.bases.items }
        requires to { to < length self.now.bases.items }
        requires above { slice_index self.now.ranks.items to ≤ middle }
        ensures { IsTrue result
            ↔ EntersBelow self.now.bases.items self.now.ranks.items middle node to }
    {
        for base in &self.bases[node] {
            let base = *base;
            if self.ranks[base] <= middle && (base == to || self.leads(base, to, STEPS)) {
                return true;
            }
        }
        false
    }
}
