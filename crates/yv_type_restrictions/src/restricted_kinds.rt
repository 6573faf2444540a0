//! What is left of each kind of type.
ghost use Rattle.std.specs.Prelude.{◌≡◌, IfOk, IfErr};
ghost use Rattle.yv_text_statement.specs.{Order.{IsLeast}, Tree.{trees}};
ghost use Rattle.yv_values.specs.Types.{plain_of, wholes, decimals, strings, octets};
ghost use Rattle.yv_type_restrictions.specs.{Facets.{Narrows}, FacetRefusals.{BadFacets, HasPattern}, InnerStops.{StopsWhere}};

use crate::patterns::read_tests;
use crate::restriction::{child, restrict_intervals};
use std::alloc::{AllocError, Global};
use yv_base_numbers::Intervals;
use yv_pattern::Patterns;
use yv_text_statement::{Keyword, Refusal, Statement, Stop, lesser};
use yv_values::{DecimalType, PlainType, TextType, WholeType};

/// What a type statement leaves of a type, and the least that is wrong with its restrictions.
#[derive(Drop)]
pub struct NarrowedType {
    pub plain: PlainType,
    pub fault: Option<Refusal>,
}

/// A `range` of whole numbers.
pub(crate) fn whole(
    alloc: Global,
    file: u32,
    statement: &Statement<'_>,
    base: &WholeType,
) -> Result<NarrowedType, AllocError>
    ensures narrows { IfOk result (λ n.
        Narrows statement.now (wholes base.now.is_text base.now.spans) (plain_of n.plain)) }
    ensures fault { IfOk result (λ n.
        IsLeast (BadFacets file statement.now (wholes base.now.is_text base.now.spans)) n.fault) }
{
    let left = restrict_intervals(
        alloc,
        file,
        child(Keyword::Range, statement),
        &base.spans,
        None,
    )?;
    Ok(NarrowedType {
        plain: PlainType::Whole(WholeType {
            is_text: base.is_text,
            spans: left.spans,
        }),
        fault: left.fault,
    })
}

/// A `range` of decimals.
pub(crate) fn decimal(
    alloc: Global,
    file: u32,
    statement: &Statement<'_>,
    base: &DecimalType,
) -> Result<NarrowedType, AllocError>
    ensures narrows { IfOk result (λ n.
        Narrows statement.now (decimals base.now.digits base.now.spans) (plain_of n.plain)) }
    ensures fault { IfOk result (λ n.
        IsLeast (BadFacets file statement.now (decimals base.now.digits base.now.spans)) n.fault) }
{
    let range = child(Keyword::Range, statement);
    let left = restrict_intervals(alloc, file, range, &base.spans, Some(base.digits))?;
    Ok(NarrowedType {
        plain: PlainType::Decimal(DecimalType {
            digits: base.digits,
            spans: left.spans,
        }),
        fault: left.fault,
    })
}

/// A `length` of octets.
pub(crate) fn binary(
    alloc: Global,
    file: u32,
    statement: &Statement<'_>,
    base: &Intervals,
) -> Result<NarrowedType, AllocError>
    ensures narrows { IfOk result
        (λ n. Narrows statement.now (octets base.now) (plain_of n.plain)) }
    ensures fault { IfOk result
        (λ n. IsLeast (BadFacets file statement.now (octets base.now)) n.fault) }
{
    let left = restrict_intervals(alloc, file, child(Keyword::Length, statement), base, None)?;
    Ok(NarrowedType {
        plain: PlainType::Binary(left.spans),
        fault: left.fault,
    })
}

/// A `length` of texts, and their patterns.
pub(crate) fn text(
    alloc: Global,
    patterns: &mut Patterns,
    file: u32,
    statement: &Statement<'_>,
    base: &TextType,
) -> Result<NarrowedType, Stop>
    ensures narrows { IfOk result (λ n. Narrows statement.now
        (strings base.now.lengths base.now.patterns) (plain_of n.plain)) }
    ensures fault { IfOk result (λ n. IsLeast (BadFacets file statement.now
        (strings base.now.lengths base.now.patterns)) n.fault) }
    ensures stops { IfErr result (StopsWhere (HasPattern (trees statement.now.children))) }
{
    let length = child(Keyword::Length, statement);
    let left = restrict_intervals(alloc, file, length, &base.lengths, None)?;
    let read = match read_tests(alloc, patterns, file, statement.children()) {
        Ok(read) => read,
        Err(stop) => return Err(stop),
    };
    let lengths = left.spans;
    let patterns = base.patterns.with(alloc, read.tests)?;
    Ok(NarrowedType {
        plain: PlainType::Text(TextType { lengths, patterns }),
        fault: lesser(left.fault, read.fault),
    })
}
