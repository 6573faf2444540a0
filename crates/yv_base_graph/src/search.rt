//! A search along the edges that finds the groups of nodes that lead to one another: each node is
//! met once, and its edges are followed one by one, by stacks in place of recursion.
ghost use Rattle.std.specs.{Prelude.{◌≡◌, ℕ, ◌-◌, ◌<◌, length, slice_index, IfOk, OnOk, IsTrue, false, map}, List.{All}};
ghost use Rattle.yv_base_graph.specs.{Graph.{IsGraph}, InnerSearch.{IsSorted, Merges, Closes, Enters, Skips, Joins, Retreats, Leaves, IsSearch, Steps, IsIdle, IsNext, IsTop, KeepsVisited, IsVisited, IsSearched, is_new, state_of, rank_of}};

use std::alloc::{AllocError, Global};
use std::marker::Model;

/// What the search knows of a node.
#[derive(Clone, Copy, Debug)]
pub enum State {
    /// It wasn't met yet.
    New,
    /// It waits at that place for the end of its group.
    Pending(usize),
    /// Its group is whole and has that rank.
    Done(usize),
}

/// The search.
#[derive(Drop)]
pub struct Search {
    /// The state of each node.
    states: Vec<State>,
    /// How many edges of each node were passed.
    cursors: Vec<usize>,
    /// The nodes that were met and whose groups aren't whole yet, in the order in which they were
    /// met.
    pending: Vec<usize>,
    /// The places at which the groups of the pending nodes begin.
    heads: Vec<usize>,
    /// The places of the nodes whose edges are being followed, each led to by the one before it.
    path: Vec<usize>,
    /// The nodes whose groups are whole.
    order: Vec<usize>,
    /// The least node so far that leads to itself, or the number of nodes.
    least: usize,
}

impl Model for Search {
    ghost use Rattle.std.specs.Prelude.{ℕ};
    ghost use Rattle.yv_base_graph.specs.InnerSearch.{Progress};

    ghost Value = { Progress };

    ghost view = { λ s. record { states = s.states.items; cursors = s.cursors.items; pending = s.pending.items; heads = s.heads.items; path = s.path.items; order = s.order.items; least = s.least } };
}

/// Joins the groups that begin after that place to the one that it is in.
fn merge(heads: &mut Vec<usize>, place: usize)
    requires { IsSorted heads.old.items }
    ensures { Merges place heads.old.items heads.new.items }
{
    let mut count = heads.len();
    while count > 0 && heads[count - 1] > place {
        count -= 1;
    }
    heads.truncate(count);
}

/// Gives each of these nodes the rank.
fn close(nodes: &[usize], states: &mut Vec<State>, rank: usize)
    requires { All (λ n. n < length states.old.items) nodes.now }
    ensures { Closes rank nodes.now states.old.items states.new.items }
{
    for node in nodes {
        let node = *node;
        states[node] = State::Done(rank);
    }
}

impl Search {
    /// Begins to follow a node's edges.
    fn enter(&mut self, node: usize) -> Result<(), AllocError>
        requires { node < length self.old.states }
        ensures { OnOk result (Enters node self.old self.new) }
    {
        let place = self.pending.len();
        self.states[node] = State::Pending(place);
        self.pending.push(node)?;
        self.heads.push(place)?;
        self.path.push(place)?;
        Ok(())
    }

    /// Goes on to a node's next edge.
    fn skip(&mut self, node: usize, next: usize)
        requires { node < length self.old.cursors }
        ensures { Skips node next self.old self.new }
    {
        self.cursors[node] = next;
    }

    /// Joins the groups after a place, to which an edge of the node leads.
    fn join(&mut self, node: usize, place: usize)
        requires { IsSorted self.old.heads }
        ensures { Joins node place self.old self.new }
    {
        merge(&mut self.heads, place);
        if node < self.least {
            self.least = node;
        }
    }

    /// Goes back to the node before.
    fn retreat(&mut self)
        requires { 0 < length self.old.path }
        ensures { Retreats self.old self.new }
    {
        self.path.pop();
    }

    /// Ends the group that begins at that place, which is the last.
    fn leave(&mut self, place: usize) -> Result<(), AllocError>
        requires heads { 0 < length self.old.heads }
        requires path { 0 < length self.old.path }
        requires place { place < length self.old.pending }
        requires nodes { All (λ n. n < length self.old.states) self.old.pending }
        ensures { OnOk result (Leaves place self.old self.new) }
    {
        self.path.pop();
        self.heads.pop();
        let rank = self.order.len();
        self.order.extend_from_slice(&self.pending[place..])?;
        close(&self.pending[place..], &mut self.states, rank);
        self.pending.truncate(place);
        Ok(())
    }

    /// The place of the last node on the path.
    fn place(&self) -> usize
        requires { 0 < length self.now.path }
        ensures { result ≡ slice_index self.now.path (length self.now.path - 1) }
    {
        self.path[self.path.len() - 1]
    }

    /// The last node on the path.
    fn node(&self, graph: &[Vec<usize>], place: usize) -> usize
        requires searches { IsSearch graph.now self.now }
        requires busy { 0 < length self.now.path }
        requires last { place ≡ slice_index self.now.path (length self.now.path - 1) }
        ensures top { IsTop graph.now self.now place result }
        ensures within { result < length graph.now }
    {
        self.pending[place]
    }

    /// The place at which the last group begins.
    fn head(&self) -> usize
        requires { 0 < length self.now.heads }
        ensures { result ≡ slice_index self.now.heads (length self.now.heads - 1) }
    {
        self.heads[self.heads.len() - 1]
    }

    /// How many edges of the node were followed.
    fn cursor(&self, node: usize) -> usize
        requires { node < length self.now.cursors }
        ensures { result ≡ slice_index self.now.cursors node }
    {
        self.cursors[node]
    }

    /// Follows one edge, or goes back.
    fn step(&mut self, graph: &[Vec<usize>]) -> Result<(), AllocError>
        requires graph { IsGraph graph.now }
        requires searches { IsSearch graph.now self.old }
        requires busy { 0 < length self.old.path }
        ensures { OnOk result (Steps graph.now self.old self.new) }
    {
        let place = self.place();
        let node = self.node(graph, place);
        let row = &graph[node];
        let cursor = self.cursor(node);
        if cursor < row.len() {
            let target = row[cursor];
            return self.follow(graph, node, cursor, target);
        }
        if self.head() == place {
            self.leave(place)
        } else {
            self.retreat();
            Ok(())
        }
    }

    /// Follows an edge of the last node on the path.
    fn follow(
        &mut self,
        graph: &[Vec<usize>],
        node: usize,
        cursor: usize,
        target: usize,
    ) -> Result<(), AllocError>
        requires graph { IsGraph graph.now }
        requires searches { IsSearch graph.now self.old }
        requires next { IsNext graph.now self.old node cursor target }
        ensures { OnOk result (Steps graph.now self.old self.new) }
    {
        // An edge to a new node is passed only once that node was visited: where both are then of
        // one group, the edge's node leads to itself.
        match self.states[target] {
            State::New => self.enter(target),
            State::Pending(place) => {
                self.join(node, place);
                self.skip(node, cursor + 1);
                Ok(())
            }
            State::Done(_) => {
                self.skip(node, cursor + 1);
                Ok(())
            }
        }
    }

    /// Nothing was met yet.
    fn new(alloc: Global, graph: &[Vec<usize>]) -> Result<Search, AllocError>
        ensures searches { IfOk result (IsSearch graph.now) }
        ensures idle { IfOk result IsIdle }
    {
        let count = graph.len();
        let states = vec![in alloc; State::New; count]?;
        let cursors = vec![in alloc; 0; count]?;
        Ok(Search {
            states,
            cursors,
            pending: Vec::new(alloc),
            heads: Vec::new(alloc),
            path: Vec::new(alloc),
            order: Vec::new(alloc),
            least: count,
        })
    }

    /// Whether the node wasn't met yet.
    fn is_new(&self, node: usize) -> bool
        requires { node < length self.now.states }
        ensures { result ≡ is_new (state_of self.now.states node) }
    {
        matches!(self.states[node], State::New)
    }

    /// Whether no node is on the path.
    fn is_idle(&self) -> bool
        ensures idle { IsTrue result → IsIdle self.now }
        ensures busy { result ≡ false → 0 < length self.now.path }
    {
        self.path.is_empty()
    }

    /// Follows all edges from a node that wasn't met yet.
    fn visit(&mut self, graph: &[Vec<usize>], node: usize) -> Result<(), AllocError>
        requires graph { IsGraph graph.now }
        requires searches { IsSearch graph.now self.old }
        requires idle { IsIdle self.old }
        requires new { state_of self.old.states node ≡ State.New }
        requires within { node < length graph.now }
        ensures searches { OnOk result (IsSearch graph.now self.new) }
        ensures idle { OnOk result (IsIdle self.new) }
        ensures keeps { OnOk result (KeepsVisited self.old self.new) }
        ensures visits { OnOk result (IsVisited self.new node) }
    {
        self.enter(node)?;
        while !self.is_idle() {
            self.step(graph)?;
        }
        Ok(())
    }

    /// Follows all edges.
    pub fn run(alloc: Global, graph: &[Vec<usize>]) -> Result<Search, AllocError>
        requires { IsGraph graph.now }
        ensures { IfOk result (IsSearched graph.now) }
    {
        let mut search = Search::new(alloc, graph)?;
        for node in 0..graph.len() {
            if search.is_new(node) {
                search.visit(graph, node)?;
            }
        }
        Ok(search)
    }

    /// The least node that leads to itself, or the number of nodes.
    pub fn least(&self) -> usize
        ensures { result ≡ self.now.least }
    {
        self.least
    }

    /// The nodes, each after those that it leads to.
    pub fn into_order(self) -> Vec<usize>
        ensures { result.items ≡ self.order }
    {
        self.order
    }

    /// The rank of each node.
    pub fn ranks(&self, alloc: Global) -> Result<Vec<usize>, AllocError>
        ensures { IfOk result (λ ranks. ranks.items ≡ map rank_of self.now.states) }
    {
        let mut ranks = Vec::new(alloc);
        for state in &self.states {
            ranks.push(rank_of(*state))?;
        }
        Ok(ranks)
    }
}

/// The rank of a node whose group is whole.
fn rank_of(state: State) -> usize
    ensures { result ≡ rank_of state }
{
    match state {
        State::New | State::Pending(_) => 0,
        State::Done(rank) => rank,
    }
}
