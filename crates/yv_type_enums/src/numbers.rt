//! The numbers of entries, and the refusal of the first wrong one.
ghost use Rattle.std.specs.Prelude.{◌≡◌, ℕ, List, IfOk};
ghost use Rattle.yv_base_numbers.specs.Numberings.{IsFirstWrong, is_wrong, is_wrong_in, keep_numbers, number_in, number_entries, table_of};
ghost use Rattle.yv_type_enums.specs.InnerEntries.{entries_in, refusal_of_entry, borrow};

use crate::entries::entries;
use std::alloc::{AllocError, Global};
use yv_base_numbers::{NumberKind, NumberedEntries, Numbering, number_entries};
use yv_text_statement::{Code, Refusal, Statement, refusal_if};

/// The numbers of a new type's entries.
pub(crate) fn new_numbers<'a>(
    alloc: Global,
    kind: NumberKind,
    lines: &[&'a Statement<'_>],
) -> Result<NumberedEntries<'a>, AllocError>
    ensures numbers { IfOk result (λ r. (name : List ℕ)
        → table_of r.numbering name
        ≡ number_in (number_entries kind (entries_in kind lines.now)) name) }
    ensures wrong { IfOk result (λ r.
        IsFirstWrong (number_entries kind) (is_wrong kind) (entries_in kind lines.now)
        r.first_wrong) }
{
    let entries = entries(alloc, kind, lines)?;
    let found = number_entries(alloc, kind, &entries)?;
    Ok(found)
}

/// The numbers of the entries of a type that is derived from one with these numbers.
pub(crate) fn derived_numbers<'a>(
    alloc: Global,
    base: &Numbering<'a>,
    kind: NumberKind,
    lines: &[&'a Statement<'_>],
) -> Result<NumberedEntries<'a>, AllocError>
    ensures numbers { IfOk result (λ r. (name : List ℕ)
        → table_of r.numbering name
        ≡ number_in (keep_numbers (table_of base.now) (entries_in kind lines.now)) name) }
    ensures wrong { IfOk result
        (λ r. IsFirstWrong (keep_numbers (table_of base.now)) (is_wrong_in (table_of base.now))
        (entries_in kind lines.now) r.first_wrong) }
{
    let entries = entries(alloc, kind, lines)?;
    let found = base.derive(alloc, &entries)?;
    Ok(found)
}

/// The refusal of the entry at this place.
pub(crate) fn refusal_of_entry(
    file: u32,
    lines: &[&Statement<'_>],
    first_wrong: Option<usize>,
) -> Option<Refusal>
    ensures { result ≡ refusal_of_entry file (borrow lines.now) first_wrong }
{
    let at = first_wrong?;
    let line = lines.get(at)?;
    refusal_if(true, Code::BadNumbering, file, line)
}
