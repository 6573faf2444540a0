//! What is said of the nodes that refines change.
ghost use Rattle.std.specs.Prelude.{◌≡◌, [], List, ℕ, IfOk, IfSome, OnOk, Some, map};
ghost use Rattle.yv_expand_refines.specs.Changes.{sequence_at};
ghost use Rattle.yv_node_statements.specs.{Definitions.{refined_definition}, Context.{files_in, typing_in}, InnerRefinedStore.{AreRefined, IsChain, IsRefined, with_runs}};

use crate::chain::Chain;
use crate::definitions::Definitions;
use std::alloc::{AllocError, Global};
use std::collections::{BTreeMap, BTreeSet};
use yv_expand_refines::Changes;
use yv_expand_statements::Origin;
use yv_node_content::Definition;
use yv_values::Matchers;

/// The definitions of items: what the statements of files say of their nodes, as refines change
/// these. Contracts see
/// what the statements say, and the sequences of refines.
#[derive(Drop)]
pub struct RefinedDefinitions<'d, 'r, 'a, 'b> {
    alloc: Global,
    definitions: &'d Definitions<'r, 'a, 'b>,
    changes: &'d Changes,
    // By origin and sequence.
    kept: BTreeMap<(usize, usize, usize), RefinedNode>,
    // Those from which others that are kept go on.
    passed: BTreeSet<(usize, usize, usize)>,
    ghost kept_so: { AreRefined (typing_in definitions.now) (files_in definitions.now) changes.now.sequences kept },
}

/// What is said of a node of this origin that the refines of this sequence change.
#[derive(Drop)]
pub(crate) struct RefinedNode {
    pub(crate) origin: Origin,
    pub(crate) sequence: usize,
    pub(crate) said: Definition,
}

// By what it is kept.
fn key_of(origin: Origin, sequence: usize) -> (usize, usize, usize) {
    match origin {
        Origin::Statement(number) => (0, number, sequence),
        Origin::Input(number) => (1, number, sequence),
        Origin::Output(number) => (2, number, sequence),
    }
}

// The refines of these runs, of which the last is first.
fn join_runs<'d>(alloc: Global, runs: Vec<&'d [usize]>) -> Result<Vec<usize>, AllocError>
    ensures { IfOk result
        (λ refines. refines.items ≡ with_runs [] (map (λ run. run.now) runs.entry.items)) }
{
    let mut runs = runs;
    let mut refines = Vec::new(alloc);
    while let Some(run) = runs.pop() {
        refines.extend_from_slice(run)?;
    }
    Ok(refines)
}

impl<'d, 'r, 'a, 'b> RefinedDefinitions<'d, 'r, 'a, 'b> {
    ghost use Rattle.yv_node_statements.specs.RefinedContext.{files_of, sequences_of, typing_of};

    /// What these statements say, these being the sequences of refines. Nothing is kept yet.
    pub fn new(
        alloc: Global,
        definitions: &'d Definitions<'r, 'a, 'b>,
        changes: &'d Changes,
    ) -> RefinedDefinitions<'d, 'r, 'a, 'b>
        // They are those of the files of these definitions, with their types.
        ensures typing { typing_of result ≡ typing_in definitions.now }
        // They are of the files of these definitions.
        ensures files { files_of result ≡ files_in definitions.now }
        // They have these sequences of refines.
        ensures sequences { sequences_of result ≡ changes.now.sequences }
    {
        RefinedDefinitions {
            alloc,
            definitions,
            changes,
            kept: BTreeMap::new(alloc),
            passed: BTreeSet::new(alloc),
        }
    }

    /// Keeps what is said of a node of this origin that the refines of a sequence change, and of
    /// what only the first of them change where two of the sequences that are kept go on from it:
    /// `of` then shares it. The matchers are kept of the patterns against which defaults are held,
    /// from one to the next.
    pub fn keep(
        &mut self,
        matchers: &mut Matchers<'r>,
        origin: Origin,
        sequence: usize,
    ) -> Result<(), AllocError>
        // They remain those of these files, with these types and these sequences.
        ensures typing { typing_of self.new ≡ typing_of self.old }
        // They are of the same files.
        ensures files { files_of self.new ≡ files_of self.old }
        // They have the same sequences.
        ensures sequences { sequences_of self.new ≡ sequences_of self.old }
    {
        if self.find(origin, sequence).is_some() {
            return Ok(());
        }
        if let Some(front) = self.fork(origin, sequence)? {
            self.keep_definition(matchers, origin, front)?;
        }
        self.keep_definition(matchers, origin, sequence)
    }

    /// What is said of a node of this origin, as the refines of a sequence change it, if one does
    /// (RFC 7950, section 7.13.2).
    pub fn of(&self, origin: Origin, sequence: Option<usize>) -> Result<Definition, AllocError>
        ensures { IfOk result
            (λ d. d
            ≡ refined_definition (typing_of self.now) (files_of self.now) origin
            (sequence_at (sequences_of self.now) sequence)) }
    {
        match sequence {
            Some(sequence) => self.apply_sequence(
                &mut Matchers::none(self.alloc),
                origin,
                sequence,
            ),
            None => self.definitions.of(origin),
        }
    }

    // The same of a sequence.
    fn apply_sequence(
        &self,
        matchers: &mut Matchers<'r>,
        origin: Origin,
        sequence: usize,
    ) -> Result<Definition, AllocError>
        ensures { IfOk result
            (IsRefined (typing_of self.now) (files_of self.now) (sequences_of self.now) origin
            sequence) }
    {
        if let Some(said) = self.find(origin, sequence) {
            return said.share();
        }
        let chain = self.chain(origin, sequence)?;
        self.apply_chain(matchers, origin, chain)
    }

    // What is kept of it.
    fn find(&self, origin: Origin, sequence: usize) -> Option<&Definition>
        ensures { IfSome result
            (λ d. IsRefined (typing_of self.now) (files_of self.now) (sequences_of self.now) origin
            sequence d.now) }
    {
        let kept = self.kept.get(&key_of(origin, sequence))?;
        if kept.origin == origin && kept.sequence == sequence {
            Some(&kept.said)
        } else {
            None
        }
    }

    // The last earlier sequence from which this one goes on in turn, where another one that is kept
    // does too and nothing is kept of it yet. All from which this one goes on are noted, so that of
    // these only the ones are kept at which two part: a text of conditions that grows with each
    // would take memory for the square of their number.
    fn fork(&mut self, origin: Origin, sequence: usize) -> Result<Option<usize>, AllocError>
        ensures typing { typing_of self.new ≡ typing_of self.old }
        ensures files { files_of self.new ≡ files_of self.old }
        ensures sequences { sequences_of self.new ≡ sequences_of self.old }
    {
        let mut next = self.changes.link(sequence).front;
        while let Some(front) = next {
            if self.find(origin, front).is_some() {
                return Ok(None);
            }
            if !self.passed.insert(key_of(origin, front))? {
                return Ok(Some(front));
            }
            next = self.changes.link(front).front;
        }
        Ok(None)
    }

    // What is said of a node that the first refines of a sequence change, as far as that is kept,
    // and the runs of the others.
    fn chain(&self, origin: Origin, sequence: usize) -> Result<Chain<'d>, AllocError>
        ensures { IfOk result
            (IsChain (typing_of self.now) (files_of self.now) origin
            (sequence_at (sequences_of self.now) (Some sequence))) }
    {
        let mut runs = Vec::new(self.alloc);
        let mut next = sequence;
        loop {
            let link = self.changes.link(next);
            runs.push(link.run)?;
            let Some(front) = link.front else {
                let said = self.definitions.of(origin)?;
                return Ok(Chain { said, runs });
            };
            if let Some(known) = self.find(origin, front) {
                let said = known.share()?;
                return Ok(Chain { said, runs });
            }
            next = front;
        }
    }

    // What is said when the runs have changed it. All their refines change it at once, so that a
    // default is read and the text of conditions is made once, and not for each run.
    fn apply_chain(
        &self,
        matchers: &mut Matchers<'r>,
        origin: Origin,
        chain: Chain<'d>,
    ) -> Result<Definition, AllocError>
        ensures { (refines : List ℕ)
            → IsChain (typing_of self.now) (files_of self.now) origin refines chain.entry
            → IfOk result
            (λ d. d ≡ refined_definition (typing_of self.now) (files_of self.now) origin refines) }
    {
        let Chain { said, runs } = chain;
        let refines = join_runs(self.alloc, runs)?;
        self.definitions.more(matchers, origin, &said, &refines)
    }

    // Keeps what is said of a node that the refines of one sequence change.
    fn keep_definition(
        &mut self,
        matchers: &mut Matchers<'r>,
        origin: Origin,
        sequence: usize,
    ) -> Result<(), AllocError>
        ensures typing { typing_of self.new ≡ typing_of self.old }
        ensures files { files_of self.new ≡ files_of self.old }
        ensures sequences { sequences_of self.new ≡ sequences_of self.old }
    {
        let said = self.apply_sequence(matchers, origin, sequence)?;
        let refined = RefinedNode {
            origin,
            sequence,
            said,
        };
        self.kept.insert(key_of(origin, sequence), refined)?;
        Ok(())
    }
}
