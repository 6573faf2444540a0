//! Identities that are derived from another one.
use std::alloc::{AllocError, Global};
use std::cmp::Reverse;
use std::collections::BinaryHeap;
use yv_note_statements::{Site, Sites};
use yv_text_statement::Keyword;

/// How many times the `base` statements are looked at in turn.
const MOST_ROUNDS: usize = 64;

// The `base` statements of the files, in their order, and the number of the identity that each
// means with its place, in the order of these numbers.
#[derive(Drop)]
struct Bases<'s, 'a> {
    sites: Vec<Site<'s, 'a>>,
    by_meaning: Vec<(usize, usize)>,
}

impl<'s, 'a> Bases<'s, 'a> {
    fn read(alloc: Global, site: &Site<'s, 'a>) -> Result<Bases<'s, 'a>, AllocError> {
        let sites: Vec<Site<'s, 'a>> = Sites::all(site.entries)
            .filter(|site| site.is(Keyword::Base))
            .collect(alloc)?;
        let mut by_meaning = Vec::new(alloc);
        for (place, base) in sites.iter().enumerate() {
            if let Some(meaning) = base.entry.meaning {
                by_meaning.push((meaning, place))?;
            }
        }
        by_meaning.sort()?;
        Ok(Bases { sites, by_meaning })
    }

    // The meanings and places from those of a number on.
    fn meanings_from(&self, number: usize) -> &[(usize, usize)] {
        let start = self
            .by_meaning
            .partition_point(|(meaning, _)| *meaning < number);
        self.by_meaning.get(start..).unwrap_or(&[])
    }

    // The identity in which a base is.
    fn identity(&self, place: usize) -> Option<Site<'s, 'a>> {
        self.sites
            .get(place)?
            .parent()
            .filter(|parent| parent.is(Keyword::Identity))
    }
}

// What was found: the identities that are derived, a mark for the number of each, and the bases
// that mean one of them, with the round in which they are looked at.
#[derive(Drop)]
struct Search<'s, 'a> {
    found: Vec<Site<'s, 'a>>,
    marks: Vec<bool>,
    waiting: BinaryHeap<Reverse<(usize, usize)>>,
}

impl<'s, 'a> Search<'s, 'a> {
    // Marks an identity. False if it was marked before.
    fn mark(&mut self, number: usize) -> bool {
        match self.marks.get_mut(number) {
            Some(mark) if !*mark => {
                *mark = true;
                true
            }
            _ => false,
        }
    }

    // Adds the bases that mean an identity: those after a place in this round, the others in the
    // next one.
    fn wait(
        &mut self,
        bases: &Bases<'s, 'a>,
        number: usize,
        round: usize,
        after: usize,
    ) -> Result<(), AllocError> {
        for (meaning, place) in bases.meanings_from(number) {
            if *meaning != number {
                break;
            }
            let next = if *place >= after {
                round
            } else {
                round.saturating_add(1)
            };
            self.waiting.push(Reverse((next, *place)))?;
        }
        Ok(())
    }

    // Looks at a base in a round.
    fn look(
        &mut self,
        bases: &Bases<'s, 'a>,
        round: usize,
        place: usize,
    ) -> Result<(), AllocError> {
        if let Some(identity) = bases.identity(place) {
            if self.mark(identity.number) {
                self.found.push(identity)?;
                self.wait(bases, identity.number, round, place)?;
            }
        }
        Ok(())
    }
}

/// The identities that are derived from one, also by way of others, in the order in which they are
/// found if the `base` statements are looked at 64 times, from first to last. It takes n log n time
/// in the number of statements.
pub(crate) fn derived_from<'s, 'a>(
    alloc: Global,
    identity: &Site<'s, 'a>,
) -> Result<Vec<Site<'s, 'a>>, AllocError> {
    let bases = Bases::read(alloc, identity)?;
    let mut search = Search {
        found: Vec::new(alloc),
        marks: vec![in alloc; false; identity.entries.len()]?,
        waiting: BinaryHeap::new(alloc),
    };
    if search.mark(identity.number) {
        search.wait(&bases, identity.number, 0, 0)?;
    }
    for _ in 0..bases.sites.len() {
        match search.waiting.pop() {
            Some(Reverse((round, place))) if round < MOST_ROUNDS => {
                search.look(&bases, round, place)?;
            }
            _ => break,
        }
    }
    let Search { found, .. } = search;
    Ok(found)
}
