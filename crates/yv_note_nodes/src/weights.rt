//! How many nodes and `uses` each statement expands to.
use crate::nodes::NAMED_NODES;
use std::alloc::{AllocError, Global};
use yv_link_scopes::Entry;
use yv_note_statements::{StatementEntry, StatementLists};
use yv_text_statement::Keyword;

// What a statement of this keyword counts by itself: an operation three, with its input and its
// output. None, if what is in it doesn't count either.
fn own_weight(keyword: Keyword) -> Option<u64> {
    match keyword {
        Keyword::Rpc | Keyword::Action => Some(3),
        Keyword::Input | Keyword::Output | Keyword::Augment => Some(0),
        Keyword::Uses => Some(1),
        _ if NAMED_NODES.contains(&keyword) => Some(1),
        _ => None,
    }
}

/// The weights of statements: how many nodes and `uses` each expands to, or 2 to the 64 less one if
/// these are more.
#[derive(Drop)]
pub(crate) struct Weights<'r, 'a, 'b> {
    rows: &'r [Entry<'a, 'b>],
    /// For each statement what it counts, with what is in it as far as this is known, and the
    /// grouping that it uses. One that doesn't count has what is in its block.
    sums: Vec<u64>,
    /// How many statements are still missing in each sum.
    missing: Vec<usize>,
    /// The statements whose sums are complete and are not yet part of others.
    complete: Vec<usize>,
}

impl<'r, 'a, 'b> Weights<'r, 'a, 'b> {
    /// Counts those of these statements, of which no grouping uses itself. Takes time linear in
    /// them: each sum is added to the others of which it is part as soon as it is complete.
    pub(crate) fn read(
        alloc: Global,
        rows: &'r [Entry<'a, 'b>],
        entries: &[StatementEntry<'a>],
    ) -> Result<Weights<'r, 'a, 'b>, AllocError> {
        let lists = StatementLists::read(alloc, entries)?;
        let missing = parts_of(alloc, entries)?;
        let mut weights = Weights {
            rows,
            sums: own_weights(alloc, rows)?,
            complete: without_parts(alloc, &missing)?,
            missing,
        };
        weights.add_complete(&lists, entries)?;
        Ok(weights)
    }

    /// How many nodes and `uses` the statement of this number expands to.
    pub(crate) fn weight(&self, number: usize) -> u64 {
        match self.own(number) {
            Some(_) => self.sum(number),
            None => 0,
        }
    }

    fn own(&self, number: usize) -> Option<u64> {
        own_weight(self.rows.get(number)?.statement.kind())
    }

    fn sum(&self, number: usize) -> u64 {
        self.sums.get(number).copied().unwrap_or(0)
    }

    // Adds complete sums to those of which they are part, as long as there are some.
    fn add_complete(
        &mut self,
        lists: &StatementLists,
        entries: &[StatementEntry<'a>],
    ) -> Result<(), AllocError> {
        for _ in 0..entries.len() {
            let Some(number) = self.complete.pop() else {
                break;
            };
            if let Some(entry) = entries.get(number) {
                self.add_to_block(number, entry)?;
                self.add_to_uses(number, lists)?;
            }
        }
        Ok(())
    }

    // Adds the weight of a statement to that of the statement in whose block it is.
    fn add_to_block(
        &mut self,
        number: usize,
        entry: &StatementEntry<'a>,
    ) -> Result<(), AllocError> {
        if entry.is_root {
            return Ok(());
        }
        let weight = self.weight(number);
        self.add(entry.scope, weight)
    }

    // Adds what is in a grouping to each `uses` of it.
    fn add_to_uses(&mut self, grouping: usize, lists: &StatementLists) -> Result<(), AllocError> {
        let sum = self.sum(grouping);
        let mut next = lists.first_use(grouping);
        for _ in 0..self.rows.len() {
            let Some(number) = next else {
                break;
            };
            self.add(number, sum)?;
            next = lists.next_use(number);
        }
        Ok(())
    }

    // Adds one of the parts of a statement.
    fn add(&mut self, number: usize, part: u64) -> Result<(), AllocError> {
        if let Some(sum) = self.sums.get_mut(number) {
            *sum = sum.saturating_add(part);
        }
        if takes_last(&mut self.missing, number) {
            self.complete.push(number)?;
        }
        Ok(())
    }
}

// Lowers the number at a place by one. Whether it is 0 then.
fn takes_last(numbers: &mut [usize], place: usize) -> bool {
    match numbers.get_mut(place) {
        Some(number) => {
            *number = number.saturating_sub(1);
            *number == 0
        }
        None => false,
    }
}

// What each statement counts by itself.
fn own_weights(alloc: Global, rows: &[Entry<'_, '_>]) -> Result<Vec<u64>, AllocError> {
    rows.iter()
        .map(|row| own_weight(row.statement.kind()).unwrap_or(0))
        .collect(alloc)
}

// Of how many others the sum of each statement consists: those in its block, and the grouping that
// it uses.
fn parts_of(alloc: Global, entries: &[StatementEntry<'_>]) -> Result<Vec<usize>, AllocError> {
    let mut parts = vec![in alloc; 0; entries.len()]?;
    for (number, entry) in entries.iter().enumerate() {
        if !entry.is_root {
            add_one(&mut parts, entry.scope);
        }
        if entry.kind == Keyword::Uses && entry.meaning.is_some() {
            add_one(&mut parts, number);
        }
    }
    Ok(parts)
}

// The numbers of those that consist of no others.
fn without_parts(alloc: Global, parts: &[usize]) -> Result<Vec<usize>, AllocError> {
    let mut numbers = Vec::new(alloc);
    for (number, count) in parts.iter().enumerate() {
        if *count == 0 {
            numbers.push(number)?;
        }
    }
    Ok(numbers)
}

// Raises the number at a place by one.
fn add_one(numbers: &mut [usize], place: usize) {
    if let Some(number) = numbers.get_mut(place) {
        *number = number.saturating_add(1);
    }
}
