//! The entries of a `type` statement: its `enum` or its `bit` statements.
ghost use Rattle.std.specs.{Prelude.{◌≡◌, ◌||◌, map, not, codes, IfOk, option_map}, List.{find}};
ghost use Rattle.yv_text_statement.specs.Tree.{name_of as name_at, trees};
ghost use Rattle.yv_link_scopes.specs.Files.{has_word};
ghost use Rattle.yv_link.specs.LinkedFiles.{truth_in};
ghost use Rattle.yv_type_enums.specs.Entries.{entry_of, is_on, listing, number_text, number_word};

use crate::kind::{is_entry, states_number};
use std::alloc::{AllocError, Global};
use yv_base_numbers::{ListedEntry, NumberKind};
use yv_link::Linked;
use yv_link_scopes::name_of;
use yv_text_statement::{Keyword, Statement};

/// The statements that list names, in order.
pub(crate) fn listing<'a, 'b>(
    alloc: Global,
    kind: NumberKind,
    statement: &'a Statement<'b>,
) -> Result<Vec<&'a Statement<'b>>, AllocError>
    ensures { IfOk result
        (λ lines. map (λ line. line.now) lines.items ≡ listing kind statement.now) }
{
    let mut lines = Vec::new(alloc);
    for child in statement.children() {
        if is_entry(kind, child) {
            lines.push(child)?;
        }
    }
    Ok(lines)
}

/// The entries, as numbering sees them.
pub(crate) fn entries<'a>(
    alloc: Global,
    kind: NumberKind,
    lines: &[&'a Statement<'_>],
) -> Result<Vec<ListedEntry<'a>>, AllocError>
    ensures { IfOk result
        (λ entries. entries.items ≡ map (entry_of kind) (map (λ line. line.now) lines.now)) }
{
    let mut entries = Vec::new(alloc);
    for line in lines {
        entries.push(ListedEntry {
            name: name_of(line),
            number: number_text(kind, line),
        })?;
    }
    Ok(entries)
}

// The text that says the number of an entry.
fn number_text<'a>(kind: NumberKind, line: &'a Statement<'_>) -> Option<&'a str>
    ensures { option_map (λ text. text.now) result ≡ number_text kind line.now }
{
    let found = first_number(kind, line)?;
    Some(name_of(found))
}

// The first substatement that says it.
fn first_number<'a, 'b>(kind: NumberKind, line: &'a Statement<'b>) -> Option<&'a Statement<'b>>
    ensures { option_map (λ found. found.now) result
        ≡ find (λ c. has_word (number_word kind) c.head) (trees line.now.children) }
{
    for child in line.children() {
        if states_number(kind, child) {
            return Some(child);
        }
    }
    None
}

/// Whether each `if-feature` of an entry holds in the file.
pub(crate) fn is_on<'a>(linked: &Linked<'a, '_>, file: u32, line: &'a Statement<'_>) -> bool
    ensures { result ≡ is_on (truth_in linked.now) file line.now }
{
    for child in line.children() {
        if !holds(linked, file, child) {
            return false;
        }
    }
    true
}

// Whether a statement is no `if-feature` or holds in the file.
fn holds<'a>(linked: &Linked<'a, '_>, file: u32, statement: &'a Statement<'_>) -> bool
    ensures { result ≡ (not (has_word (codes "if-feature") statement.now.head)
        || truth_in linked.now file (name_at statement.now.head)) }
{
    !statement.is(Keyword::IfFeature) || linked.holds(file, name_of(statement))
}
