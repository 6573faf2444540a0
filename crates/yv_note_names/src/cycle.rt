//! The cycle that a refusal is about.
use std::alloc::{AllocError, Global};
use yv_link_scopes::{NameKind, NamePlaces, Rows, first_places, local};
use yv_note_statements::{Message, Site, Sites, StatementEntry, say_ring, words_of};
use yv_text_statement::{Code, Keyword};

// The statements of a keyword in their order, also by the block that they are in, and for each
// statement of the files the number of the last one in it.
#[derive(Drop)]
struct Steps<'s, 'a> {
    sites: Vec<Site<'s, 'a>>,
    by_block: Vec<(usize, usize)>,
    ends: Vec<usize>,
}

impl<'s, 'a> Steps<'s, 'a> {
    fn read(
        alloc: Global,
        entries: &'s [StatementEntry<'a>],
        keyword: Keyword,
    ) -> Result<Steps<'s, 'a>, AllocError> {
        let sites: Vec<Site<'s, 'a>> = Sites::all(entries)
            .filter(|site| site.is(keyword))
            .collect(alloc)?;
        let mut by_block = Vec::new(alloc);
        for (place, site) in sites.iter().enumerate() {
            by_block.push((site.entry.scope, place))?;
        }
        by_block.sort()?;
        Ok(Steps {
            sites,
            by_block,
            ends: ends_of(alloc, entries)?,
        })
    }

    // The blocks and places from those of a block on.
    fn in_block(&self, number: usize) -> &[(usize, usize)] {
        let start = self.by_block.partition_point(|(block, _)| *block < number);
        self.by_block.get(start..).unwrap_or(&[])
    }

    // The place of the first one after a statement begins.
    fn after(&self, number: usize) -> usize {
        self.sites.partition_point(|site| site.number <= number)
    }

    // The number of the last statement in another one.
    fn last_in(&self, number: usize) -> usize {
        self.ends.get(number).copied().unwrap_or(number)
    }
}

// For each statement the number of the last one in it, or its own, if there is none.
fn ends_of(alloc: Global, entries: &[StatementEntry<'_>]) -> Result<Vec<usize>, AllocError> {
    let mut ends: Vec<usize> = (0..entries.len()).collect(alloc)?;
    for number in (0..entries.len()).rev() {
        let end = ends.get(number).copied().unwrap_or(number);
        if let Some(entry) = entries.get(number) {
            raise(&mut ends, entry.scope, end);
        }
    }
    Ok(ends)
}

// Raises the number at a place, if it is lower than this.
fn raise(numbers: &mut [usize], place: usize, number: usize) {
    if let Some(other) = numbers.get_mut(place) {
        *other = number.max(*other);
    }
}

// How statements lead to one another: by those of a keyword in them, and by names of features, if
// the keyword is `if-feature`.
#[derive(Drop)]
struct Leads<'r, 's, 'a, 'b> {
    rows: &'r Rows<'a, 'b>,
    features: Option<NamePlaces<'a>>,
    steps: Steps<'s, 'a>,
}

impl<'r, 's, 'a, 'b> Leads<'r, 's, 'a, 'b> {
    fn read(
        alloc: Global,
        rows: &'r Rows<'a, 'b>,
        entries: &'s [StatementEntry<'a>],
        keyword: Keyword,
    ) -> Result<Leads<'r, 's, 'a, 'b>, AllocError> {
        let features = if keyword == Keyword::IfFeature {
            Some(first_places(alloc, NameKind::Feature, rows)?)
        } else {
            None
        };
        let steps = Steps::read(alloc, entries, keyword)?;
        Ok(Leads {
            rows,
            features,
            steps,
        })
    }

    // The feature that a name in a statement means.
    fn feature(&self, site: &Site<'s, 'a>, name: &'a str) -> Option<Site<'s, 'a>> {
        let block = self.rows.block_of(site.entry.file as usize, name)?;
        let features = self.features.as_ref()?;
        Site::at(site.entries, features.get(block, local(name))?)
    }

    // Reaches the statements to which one leads: a root by those of its block, another one by those
    // at any depth.
    fn reach_from(
        &self,
        alloc: Global,
        search: &mut Search<'s, 'a>,
        site: &Site<'s, 'a>,
    ) -> Result<(), AllocError> {
        if site.is_root() {
            return self.reach_from_root(alloc, search, site);
        }
        let last = self.steps.last_in(site.number);
        for place in self.steps.after(site.number)..self.steps.sites.len() {
            match self.steps.sites.get(place) {
                Some(step) if step.number <= last => {
                    self.reach_by(alloc, search, place, site.number)?;
                }
                _ => break,
            }
        }
        Ok(())
    }

    fn reach_from_root(
        &self,
        alloc: Global,
        search: &mut Search<'s, 'a>,
        root: &Site<'s, 'a>,
    ) -> Result<(), AllocError> {
        for (block, place) in self.steps.in_block(root.number) {
            if *block != root.number {
                break;
            }
            self.reach_by(alloc, search, *place, root.number)?;
        }
        Ok(())
    }

    // Reaches from a statement what the argument of the one at this place means. What was reached
    // by it before is not looked for again.
    fn reach_by(
        &self,
        alloc: Global,
        search: &mut Search<'s, 'a>,
        place: usize,
        from: usize,
    ) -> Result<(), AllocError> {
        match self.steps.sites.get(place) {
            Some(step) if search.take(place) => self.reach_meanings(alloc, search, step, from),
            _ => Ok(()),
        }
    }

    fn reach_meanings(
        &self,
        alloc: Global,
        search: &mut Search<'s, 'a>,
        step: &Site<'s, 'a>,
        from: usize,
    ) -> Result<(), AllocError> {
        if let Some(meaning) = step.meaning() {
            search.reach(&meaning, from)?;
        }
        if self.features.is_some() {
            for word in words_of(alloc, step.argument())?.iter() {
                if let Some(feature) = self.feature(step, word) {
                    search.reach(&feature, from)?;
                }
            }
        }
        Ok(())
    }

    // Whether `start` is reached from the statements that were reached so far.
    fn leads_back(
        &self,
        alloc: Global,
        search: &mut Search<'s, 'a>,
        start: &Site<'s, 'a>,
    ) -> Result<bool, AllocError> {
        for step in 0..start.entries.len() {
            let Some(site) = search.found.get(step).copied() else {
                return Ok(false);
            };
            if site.number == start.number {
                return Ok(true);
            }
            self.reach_from(alloc, search, &site)?;
        }
        Ok(false)
    }

    // Adds the statements on a way from this one back to itself, if there is one whose first step
    // is to one of those that were reached so far.
    fn say_cycle(
        &self,
        telling: &mut Message<'a>,
        search: &mut Search<'s, 'a>,
        start: &Site<'s, 'a>,
    ) -> Result<(), AllocError> {
        if self.leads_back(telling.alloc(), search, start)? {
            let mut way = search.way_back(telling.alloc(), start.number)?;
            way.reverse();
            say_ring(telling, start, &way);
        }
        Ok(())
    }
}

// Statements that were reached, in the order in which they were, each with the number of the one
// that leads to it; and which of the statements of the keyword were taken.
#[derive(Drop)]
struct Search<'s, 'a> {
    found: Vec<Site<'s, 'a>>,
    from: Vec<Option<usize>>,
    are_taken: Vec<bool>,
}

impl<'s, 'a> Search<'s, 'a> {
    fn new(alloc: Global, leads: &Leads<'_, 's, 'a, '_>) -> Result<Search<'s, 'a>, AllocError> {
        Ok(Search {
            found: Vec::new(alloc),
            from: vec![in alloc; None; leads.steps.ends.len()]?,
            are_taken: vec![in alloc; false; leads.steps.sites.len()]?,
        })
    }

    // Takes the statement of the keyword at a place. False if it was taken before.
    fn take(&mut self, place: usize) -> bool {
        match self.are_taken.get_mut(place) {
            Some(is_taken) if !*is_taken => {
                *is_taken = true;
                true
            }
            _ => false,
        }
    }

    // Reaches a statement from another one, unless it was reached before.
    fn reach(&mut self, site: &Site<'s, 'a>, from: usize) -> Result<(), AllocError> {
        if let Some(None) = self.from.get(site.number) {
            self.found.push(*site)?;
            self.from[site.number] = Some(from);
        }
        Ok(())
    }

    // The numbers on the way back from a statement to itself: first itself, and last the one that
    // it leads to.
    fn way_back(&self, alloc: Global, start: usize) -> Result<Vec<usize>, AllocError> {
        let mut way = Vec::new(alloc);
        way.push(start)?;
        let mut at = start;
        for _ in 0..self.found.len() {
            match self.from.get(at) {
                Some(Some(from)) if *from != start => {
                    at = *from;
                    way.push(at)?;
                }
                _ => break,
            }
        }
        Ok(way)
    }
}

/// Adds the cycle of modules that an import is part of: this module, the one that it imports, and
/// so on.
pub fn tell_imports<'a>(
    telling: &mut Message<'a>,
    rows: &Rows<'a, '_>,
    import: &Site<'_, 'a>,
) -> Result<(), AllocError> {
    telling.sentence(Code::ImportCycle);
    let leads = Leads::read(telling.alloc(), rows, import.entries, Keyword::Import)?;
    match (import.module(), import.meaning()) {
        (Some(own), Some(first)) => {
            let mut search = Search::new(telling.alloc(), &leads)?;
            search.reach(&first, own.number)?;
            leads.say_cycle(telling, &mut search, &own)
        }
        _ => Ok(()),
    }
}

/// Adds the cycle of definitions that one is part of: each leads to the next one by a statement of
/// this keyword.
pub fn tell_cycle<'a>(
    telling: &mut Message<'a>,
    rows: &Rows<'a, '_>,
    site: &Site<'_, 'a>,
    keyword: Keyword,
) -> Result<(), AllocError> {
    let leads = Leads::read(telling.alloc(), rows, site.entries, keyword)?;
    let mut search = Search::new(telling.alloc(), &leads)?;
    leads.reach_from(telling.alloc(), &mut search, site)?;
    leads.say_cycle(telling, &mut search, site)
}
