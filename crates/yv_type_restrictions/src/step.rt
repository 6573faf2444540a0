//! One type.
ghost use Rattle.std.specs.{Prelude.{◌≡◌, None, IfOk, IfErr, codes}, Option.{option_map, option_copied}};
ghost use Rattle.yv_text_statement.specs.Tree.{trees};
ghost use Rattle.yv_link_scopes.specs.Views.{lent_in};
ghost use Rattle.yv_type_chains.specs.Bases.{AreBases};
ghost use Rattle.yv_values.specs.Types.{plain_of};
ghost use Rattle.yv_type_restrictions.specs.{Facets.{has_word}, FacetRefusals.{HasPattern}, Types.{HasTypePattern, named_type}, InnerSteps.{AreKnown, IsFollowed, IsLeft, IsStep}};
ghost use Rattle.yv_type_restrictions.specs.InnerStops.{StopsWhere};

use crate::built_in_kinds::built_in;
use crate::digits::digits_of_type;
use crate::facets::narrow;
use crate::table::get;
use std::alloc::{AllocError, Global};
use yv_base_tables::Table;
use yv_link_scopes::{Rows, name_of};
use yv_pattern::Patterns;
use yv_text_statement::{Keyword, Refusal, Statement, Stop};
use yv_type_chains::Bases;
use yv_values::PlainType;

/// The plain type of a statement, if it has one, and the least that is wrong with its restrictions.
#[derive(Drop)]
pub(crate) struct Step {
    pub plain: Option<PlainType>,
    pub fault: Option<Refusal>,
}

// Nothing where there is no type.
fn nothing() -> Step
    ensures plain { result.plain ≡ None }
    ensures fault { result.fault ≡ None }
{
    Step {
        plain: None,
        fault: None,
    }
}

// Whether a statement is a type.
fn is_type(statement: &Statement<'_>) -> bool
    ensures { result ≡ has_word (codes "type") statement.now }
{
    statement.is(Keyword::Type)
}

// What a type statement leaves of the type that it narrows.
fn left_of(
    alloc: Global,
    patterns: &mut Patterns,
    file: u32,
    statement: &Statement<'_>,
    base: Option<&PlainType>,
) -> Result<Step, Stop>
    ensures leaves { IfOk result (λ s.
        IsLeft file statement.now (option_map plain_of (option_copied base.entry))
        (option_map plain_of s.plain) s.fault) }
    ensures stops { IfErr result (StopsWhere (HasPattern (trees statement.now.children))) }
{
    crate::facet_laws::one_type_is_left();
    match base {
        Some(base) => match narrow(alloc, patterns, file, statement, base) {
            Ok(left) => Ok(Step {
                plain: Some(left.plain),
                fault: left.fault,
            }),
            Err(stop) => Err(stop),
        },
        None => Ok(nothing()),
    }
}

// The plain type of the built-in type that a type statement names.
fn named_type(alloc: Global, statement: &Statement<'_>) -> Result<Option<PlainType>, AllocError>
    ensures { IfOk result (λ p. option_map plain_of p ≡ named_type statement.now) }
{
    match digits_of_type(statement) {
        Some(digits) => built_in(alloc, name_of(statement), digits),
        None => Ok(None),
    }
}

// What a type statement leaves of the built-in type that it names.
fn from_built_in(
    alloc: Global,
    patterns: &mut Patterns,
    file: u32,
    statement: &Statement<'_>,
) -> Result<Step, Stop>
    ensures leaves { IfOk result (λ s.
        IsLeft file statement.now (named_type statement.now) (option_map plain_of s.plain)
        s.fault) }
    ensures stops { IfErr result (StopsWhere (HasPattern (trees statement.now.children))) }
{
    let base = named_type(alloc, statement)?;
    left_of(alloc, patterns, file, statement, base.as_ref())
}

/// The plain type of the numbered statement, the table having that of the type that it follows.
pub(crate) fn type_at(
    alloc: Global,
    patterns: &mut Patterns,
    rows: &Rows<'_, '_>,
    bases: &Bases,
    types: &Table<PlainType>,
    number: usize,
) -> Result<Step, Stop>
    ensures step { IfOk result (λ s. AreBases (lent_in rows.now) bases.now
        → AreKnown (lent_in rows.now) (IsFollowed (lent_in rows.now) number) types.now
        → IsStep (lent_in rows.now) number (option_map plain_of s.plain) s.fault) }
    ensures stops { IfErr result (StopsWhere (HasTypePattern (lent_in rows.now))) }
{
    yv_link_scopes::laws::statements_have_their_rows();
    let Some(entry) = rows.entries().get(number) else {
        return Ok(nothing());
    };
    let Some(statement) = rows.statement(number) else {
        return Ok(nothing());
    };
    if !is_type(statement) {
        return Ok(nothing());
    }
    match bases.follows(number) {
        Some(followed) => left_of(alloc, patterns, entry.file, statement, get(types, followed)),
        None => from_built_in(alloc, patterns, entry.file, statement),
    }
}
