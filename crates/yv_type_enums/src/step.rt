//! One type.
ghost use Rattle.std.specs.{Prelude.{◌≡◌, ◌&&◌, None, IfOk}, Option.{option_map}};
ghost use Rattle.yv_link_scopes.specs.{Rows.{row}, Views.{lent_in}};
ghost use Rattle.yv_type_chains.specs.{Bases.{AreBases}, Types.{is_kind}};
ghost use Rattle.yv_link.specs.LinkedFiles.{truth_in};
ghost use Rattle.yv_type_enums.specs.{Types.{from, kind_in, new}, TypeNames.{told_of}, InnerSteps.{AreKnown, IsFollowed, IsRead, IsStep}};

use crate::table::{TypeNames, get};
use crate::type_names::NamedEntries;
use std::alloc::{AllocError, Global};
use yv_base_numbers::NumberKind;
use yv_base_tables::Table;
use yv_link::Linked;
use yv_link_scopes::{Entry, Rows, name_of};
use yv_text_statement::{Keyword, Refusal, Statement};
use yv_type_chains::Bases;

/// The names of a statement, if it has some, and the refusal of its first wrong entry.
#[derive(Drop)]
pub(crate) struct Step<'a> {
    pub names: Option<TypeNames<'a>>,
    pub fault: Option<Refusal>,
}

// Nothing where no names are listed.
fn nothing<'a>() -> Step<'a>
    ensures names { result.names ≡ None }
    ensures fault { result.fault ≡ None }
{
    Step {
        names: None,
        fault: None,
    }
}

// Whether a statement is a type of this name.
fn is_kind(name: &str, entry: &Entry<'_, '_>) -> bool
    ensures { result ≡ is_kind name.now (row entry.now) }
{
    entry.is(Keyword::Type) && name_of(entry.statement) == name
}

// The kind of a type that names `enumeration` or `bits`.
fn kind_in(entry: &Entry<'_, '_>) -> Option<NumberKind>
    ensures { result ≡ kind_in (row entry.now) }
{
    if is_kind("enumeration", entry) {
        return Some(NumberKind::Enumeration);
    }
    if is_kind("bits", entry) {
        Some(NumberKind::Bits)
    } else {
        None
    }
}

// The names of a new type.
fn new<'a>(
    alloc: Global,
    linked: &Linked<'a, '_>,
    file: u32,
    kind: NumberKind,
    statement: &'a Statement<'_>,
) -> Result<Step<'a>, AllocError>
    ensures { IfOk result
        (λ s. IsRead (truth_in linked.now) file statement.now (new kind)
        (option_map told_of s.names) s.fault) }
{
    let listing = NamedEntries::new(alloc, linked, file, kind, statement)?;
    let names = Some(TypeNames {
        kind,
        names: listing.names,
    });
    Ok(Step {
        names,
        fault: listing.fault,
    })
}

// The names of a type that follows the one with these names.
fn derive<'a>(
    alloc: Global,
    linked: &Linked<'a, '_>,
    file: u32,
    base: &TypeNames<'a>,
    statement: &'a Statement<'_>,
) -> Result<Step<'a>, AllocError>
    ensures { IfOk result
        (λ s. IsRead (truth_in linked.now) file statement.now (from (told_of base.now))
        (option_map told_of s.names) s.fault) }
{
    let kind = base.kind;
    let listing = base.names.derive(alloc, linked, file, kind, statement)?;
    let names = Some(TypeNames {
        kind,
        names: listing.names,
    });
    Ok(Step {
        names,
        fault: listing.fault,
    })
}

/// The names of the numbered statement, the table having those of the type that it follows.
pub(crate) fn type_at<'a>(
    alloc: Global,
    linked: &Linked<'a, '_>,
    rows: &Rows<'a, '_>,
    bases: &Bases,
    types: &Table<TypeNames<'a>>,
    number: usize,
) -> Result<Step<'a>, AllocError>
    ensures { IfOk result (λ s. AreBases (lent_in rows.now) bases.now
        → AreKnown (lent_in rows.now) (truth_in linked.now) (IsFollowed (lent_in rows.now) number)
        types.now
        → IsStep (lent_in rows.now) (truth_in linked.now) number (option_map told_of s.names)
        s.fault) }
{
    let Some(entry) = rows.entries().get(number) else {
        return Ok(nothing());
    };
    let Some(statement) = rows.statement(number) else {
        return Ok(nothing());
    };
    match bases.follows(number) {
        Some(followed) => match get(types, followed) {
            Some(base) => derive(alloc, linked, entry.file, base, statement),
            None => Ok(nothing()),
        },
        None => match kind_in(entry) {
            Some(kind) => new(alloc, linked, entry.file, kind, statement),
            None => Ok(nothing()),
        },
    }
}
