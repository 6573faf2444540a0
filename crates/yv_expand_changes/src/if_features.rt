//! Which conditions hold.
ghost use Rattle.std.specs.{Prelude.{◌≡◌, ◌&&◌, ◌||◌, true, codes, map, not, slice_get, IfOk}, List.{list_all}};
ghost use Rattle.yv_text_statement.specs.Tree.{name_of as name_at};
ghost use Rattle.yv_link_scopes.specs.{Files.{has_word}, Views.{lent_in, trees_in}};
ghost use Rattle.yv_link.specs.LinkedFiles.{truth_in};
ghost use Rattle.yv_base_graph.specs.Marks.{is_marked};
ghost use Rattle.yv_expand_refines.specs.Changes.{each};
ghost use Rattle.yv_expand_changes.specs.{IfFeatures.{is_on, item_marks, statement_marks}, InnerIfFeatures.{is_on_in}, InnerSequences.{known_of}};

use crate::sequences::known_of;
use std::alloc::{AllocError, Global};
use yv_base_graph::is_marked;
use yv_expand_refines::Changes;
use yv_expand_uses::Spot;
use yv_link::Linked;
use yv_link_scopes::{Rows, name_of};
use yv_text_statement::{Keyword, Statement};

// Whether a statement isn't a condition, or holds in the file.
fn holds<'a, 'b>(linked: &Linked<'a, 'b>, file: u32, statement: &'a Statement<'b>) -> bool
    ensures { result ≡ (not (has_word (codes "if-feature") statement.now.head)
        || truth_in linked.now file (name_at statement.now.head)) }
{
    !statement.is(Keyword::IfFeature) || linked.holds(file, name_of(statement))
}

// Whether each condition of a statement of a file holds.
fn is_on<'a, 'b>(linked: &Linked<'a, 'b>, file: u32, statement: &'a Statement<'b>) -> bool
    ensures { result ≡ is_on (truth_in linked.now) file statement.now.children }
{
    for child in statement.children() {
        if !holds(linked, file, child) {
            return false;
        }
    }
    true
}

// Whether each condition of a numbered statement of a file holds.
fn is_statement_on<'a, 'b>(
    linked: &Linked<'a, 'b>,
    rows: &Rows<'a, 'b>,
    file: u32,
    number: usize,
) -> bool
    ensures { result ≡ is_on_in (truth_in linked.now) file (slice_get (trees_in rows.now) number) }
{
    match rows.statement(number) {
        Some(statement) => is_on(linked, file, statement),
        None => true,
    }
}

/// A mark for each numbered statement whose conditions hold.
pub fn statement_marks<'a, 'b>(
    alloc: Global,
    linked: &Linked<'a, 'b>,
    rows: &Rows<'a, 'b>,
) -> Result<Vec<bool>, AllocError>
    ensures { IfOk result
        (λ marks. marks.items ≡ statement_marks (truth_in linked.now) (lent_in rows.now)) }
{
    yv_link_scopes::laws::statements_have_their_rows();
    let mut marks = Vec::new(alloc);
    for (number, entry) in rows.entries().iter().enumerate() {
        marks.push(is_statement_on(linked, rows, entry.file, number))?;
    }
    Ok(marks)
}

// Whether each of these numbers has a mark.
fn are_marked(marks: &[bool], numbers: &[usize]) -> bool
    ensures { result ≡ list_all (is_marked marks.now) numbers.now }
{
    numbers.iter().all(|number| is_marked(marks, *number))
}

// Of each sequence of refines whether each of them has a mark, by those of the sequence before it
// and of the run after.
fn sequence_marks(
    alloc: Global,
    statements: &[bool],
    changes: &Changes,
) -> Result<Vec<bool>, AllocError>
    ensures { IfOk result
        (λ marks. marks.items ≡ map (list_all (is_marked statements.now)) changes.now.sequences) }
{
    let mut marks = Vec::new(alloc);
    for sequence in 0..changes.count() {
        let link = changes.link(sequence);
        let front = known_of(&marks, link.front, true);
        marks.push(front && are_marked(statements, link.run))?;
    }
    Ok(marks)
}

// Whether a statement has a mark, and the sequence of the refines that change its item.
fn is_on_with(statements: &[bool], known: &[bool], spot: &Spot, sequence: Option<usize>) -> bool
    ensures { result
        ≡ (is_marked statements.now spot.now.statement && known_of known.now sequence true) }
{
    is_marked(statements, spot.statement) && known_of(known, sequence, true)
}

/// A mark for each item whose own conditions hold, by those of statements: that of the statement
/// that gives it, and of each refine that changes it.
pub fn item_marks(
    alloc: Global,
    statements: &[bool],
    spots: &[Spot],
    changes: &Changes,
) -> Result<Vec<bool>, AllocError>
    ensures { IfOk result
        (λ marks. marks.items ≡ item_marks statements.now spots.now (each changes.now)) }
{
    let known = sequence_marks(alloc, statements, changes)?;
    let mut marks = Vec::with_capacity(alloc, spots.len())?;
    for (number, spot) in spots.iter().enumerate() {
        marks.push(is_on_with(statements, &known, spot, changes.sequence(number)))?;
    }
    Ok(marks)
}
