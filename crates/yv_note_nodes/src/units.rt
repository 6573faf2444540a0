//! How many nodes and uses modules expand to.
use crate::weights::Weights;
use std::alloc::{AllocError, Global};
use yv_link_scopes::{Entry, Rows};
use yv_note_statements::{Message, Site, StatementEntry};
use yv_text_statement::{Code, Keyword, Selection};

/// The highest limit that may be asked for.
const HIGHEST_LIMIT: u64 = 1_000_000;

// For each file whether its module is implemented.
fn marks(
    alloc: Global,
    rows: &Rows<'_, '_>,
    selection: &Selection,
) -> Result<Vec<bool>, AllocError> {
    let mut marks = Vec::new(alloc);
    for file in rows.files() {
        marks.push(selection.is_implemented(file.module_name))?;
    }
    Ok(marks)
}

// Whether a numbered statement is at the top of a file that is marked: after the roots, in the
// block of one.
fn is_counted(marks: &[bool], number: usize, entry: &Entry<'_, '_>) -> bool {
    let is_top = number >= marks.len() && entry.scope < marks.len();
    is_top && marks.get(entry.file as usize).copied().unwrap_or(false)
}

// How many units modules expand to, and the number of the statement at the top of one that expands
// to most of them.
#[derive(Clone, Copy)]
struct Count {
    total: u64,
    most: u64,
    largest: usize,
    /// The first `uses` in that statement that expands to most of them, and to how many.
    uses: Option<(usize, u64)>,
}

// How many units the implemented modules expand to, or 2 to the 64 less one if these are more.
fn count_of(
    alloc: Global,
    rows: &Rows<'_, '_>,
    selection: &Selection,
    weights: &Weights<'_, '_, '_>,
) -> Result<Count, AllocError> {
    let marks = marks(alloc, rows, selection)?;
    let mut count = Count {
        total: 0,
        most: 0,
        largest: 0,
        uses: None,
    };
    for (number, entry) in rows.entries().iter().enumerate() {
        if is_counted(&marks, number, entry) {
            add(&mut count, number, weights.weight(number));
        }
    }
    count.uses = largest_uses(rows, weights, count.largest);
    Ok(count)
}

// The first `uses` of those in a statement, or that statement, that expands to most units.
fn largest_uses(
    rows: &Rows<'_, '_>,
    weights: &Weights<'_, '_, '_>,
    around: usize,
) -> Option<(usize, u64)> {
    let mut largest: Option<(usize, u64)> = None;
    for (number, entry) in rows.entries().iter().enumerate().skip(around) {
        if number > around && entry.scope < around {
            break;
        }
        let weight = weights.weight(number);
        if entry.statement.is(Keyword::Uses) && is_more(weight, largest) {
            largest = Some((number, weight));
        }
    }
    largest
}

fn is_more(weight: u64, largest: Option<(usize, u64)>) -> bool {
    largest.is_none_or(|(_, most)| weight > most)
}

// Counts the units of a statement.
fn add(count: &mut Count, number: usize, weight: u64) {
    count.total = count.total.saturating_add(weight);
    if weight > count.most {
        count.most = weight;
        count.largest = number;
    }
}

/// Adds how many nodes and uses the implemented modules expand to, where most of them are, and what
/// the limit is.
pub fn tell_units<'a>(
    telling: &mut Message<'a>,
    rows: &Rows<'a, '_>,
    selection: &Selection,
    limit: u32,
    entries: &[StatementEntry<'a>],
) -> Result<(), AllocError> {
    telling.sentence(Code::TooManyNodes);
    let weights = Weights::read(telling.alloc(), rows.entries(), entries)?;
    let count = count_of(telling.alloc(), rows, selection, &weights)?;
    say_count(telling, &count, limit);
    if let Some(largest) = Site::at(entries, count.largest) {
        telling.statement_at(" Most are in the ", &largest, "");
        telling.count(": ", count.most, or_more(count.most));
        telling.say(".");
    }
    say_uses(telling, entries, count.uses);
    Ok(())
}

// Adds to how many a `uses` expands, and where its grouping is.
fn say_uses<'a>(
    telling: &mut Message<'a>,
    entries: &[StatementEntry<'a>],
    uses: Option<(usize, u64)>,
) {
    let Some((number, weight)) = uses else {
        return;
    };
    if let Some(uses) = Site::at(entries, number) {
        telling.statement_at(" The ", &uses, "");
        telling.count(" expands to ", weight, or_more(weight));
        if let Some(grouping) = uses.meaning() {
            telling.point("; its grouping is at ", &grouping, "");
        }
        telling.say(".");
    }
}

// Adds how many there are, and the limit.
fn say_count(telling: &mut Message<'_>, count: &Count, limit: u32) {
    telling.count(" They expand to ", count.total, or_more(count.total));
    telling.count(", and the limit is ", limit as u64, "");
    telling.say(if count.total > HIGHEST_LIMIT {
        "; the highest that --max-nodes allows is 1,000,000."
    } else {
        "; --max-nodes sets another one."
    });
}

// What is said after a number that may be one of many more.
fn or_more(number: u64) -> &'static str {
    if number == u64::MAX { " or more" } else { "" }
}
