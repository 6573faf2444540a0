//! Runs of numbers: where identities and their bases make a tree, the numbers of all that is
//! derived from one follow one another.
ghost use Rattle.std.specs.{Prelude.{◌≡◌, ◌<◌, ◌||◌, ◌&&◌, ℕ, Some, true, false, length, slice_index, IfOk, IfSome}, List.{All, Contains, list_any}};
ghost use Rattle.yv_base_graph.specs.Graph.{ArePlaces, IsGraph};
ghost use Rattle.yv_type_identities.specs.InnerRuns.{AreRuns, IsKnown, in_node, is_in, run_at};

use std::alloc::{AllocError, Global};

/// The numbers from the low one up to the high one, and not that.
#[derive(Clone, Copy)]
pub(crate) struct Run {
    pub low: usize,
    pub high: usize,
}

impl Run {
    // Whether it has no number.
    fn is_empty(self) -> bool
        ensures { result ≡ true → (n : ℕ) → is_in self n ≡ false }
    {
        self.high <= self.low
    }

    // The numbers of both, if they make one run.
    fn join(self, other: Run) -> Option<Run>
        ensures { IfSome result (λ both. (n : ℕ) → is_in both n ≡ (is_in self n || is_in other n)) }
    {
        if self.is_empty() {
            return Some(other);
        }
        if other.is_empty() {
            return Some(self);
        }
        if self.low <= other.high && other.low <= self.high {
            Some(Run {
                low: self.low.min(other.low),
                high: self.high.max(other.high),
            })
        } else {
            None
        }
    }

    /// The numbers that both have.
    pub(crate) fn meet(self, other: Run) -> Run
        ensures { (n : ℕ) → is_in result n ≡ (is_in self n && is_in other n) }
    {
        Run {
            low: self.low.max(other.low),
            high: self.high.min(other.high),
        }
    }
}

/// The run at a place of a list, if there is one.
pub(crate) fn run_at(runs: &[Option<Run>], place: usize) -> Option<Run>
    ensures { result ≡ run_at runs.now place }
{
    *runs.get(place)?
}

// The numbers of a node and of all to which it leads, if they make one run.
fn run_with(runs: &[Option<Run>], rank: usize) -> Option<Run>
    ensures known { IfSome result (λ _. IsKnown runs.now rank) }
    ensures numbers { IfSome result (λ run. (n : ℕ) → is_in run n ≡ in_node runs.now rank n) }
{
    let own = Run {
        low: rank,
        high: rank.checked_add(1)?,
    };
    run_at(runs, rank)?.join(own)
}

// The numbers of nodes and of all to which they lead, if they make one run.
fn run_of(runs: &[Option<Run>], ranks: &[usize], nodes: &[usize]) -> Option<Run>
    requires { All (λ a. a < length ranks.now) nodes.now }
    ensures known { IfSome result (λ _. (a : ℕ) → Contains nodes.now a
        → IsKnown runs.now (slice_index ranks.now a)) }
    ensures numbers { IfSome result (λ run. (n : ℕ) → is_in run n
        ≡ list_any (λ a. in_node runs.now (slice_index ranks.now a) n) nodes.now) }
{
    let mut run = Run { low: 0, high: 0 };
    for node in nodes {
        run = run.join(run_with(runs, ranks[*node])?)?;
    }
    Some(run)
}

/// For each node of an order the run of the numbers of all to which it leads, where they make one.
/// The number of a node is its rank.
pub(crate) fn runs(
    alloc: Global,
    graph: &[Vec<usize>],
    ranks: &[usize],
    order: &[usize],
) -> Result<Vec<Option<Run>>, AllocError>
    requires graph { IsGraph graph.now }
    requires each { length ranks.now ≡ length graph.now }
    requires places { ArePlaces ranks.now order.now }
    ensures { IfOk result (λ runs. AreRuns graph.now ranks.now order.now runs.items) }
{
    let mut found = Vec::new(alloc);
    for node in order {
        let run = run_of(&found, ranks, &graph[*node]);
        found.push(run)?;
    }
    Ok(found)
}
