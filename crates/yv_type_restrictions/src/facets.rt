//! What a type statement leaves of the type that it names.
ghost use Rattle.std.specs.Prelude.{◌≡◌, ◌≢◌, Err, IfOk};
ghost use Rattle.yv_text_statement.specs.{Order.{IsLeast}, Tree.{trees}, declared.refusal.Stop.TheVariants.{Fault, PatternBuild}};
ghost use Rattle.yv_values.specs.Types.{plain_of};
ghost use Rattle.yv_type_restrictions.specs.{Facets.{Narrows}, FacetRefusals.{BadFacets, HasPattern}};

use crate::restricted_kinds::{NarrowedType, binary, decimal, text, whole};
use std::alloc::Global;
use yv_pattern::Patterns;
use yv_text_statement::{Refusal, Statement, Stop};
use yv_values::PlainType;

/// What a type statement's `range`, `length` and `pattern` leave of the type that it names, and the
/// least that is wrong with them (RFC 7950, sections 9.2.4, 9.3.4, 9.4.4 to 9.4.6 and 9.8.1). A
/// type that none of them restricts passes unchanged. `PatternBuild` says that `regex` doesn't
/// build the translation of a pattern of the dialect; no refusal is an error here. Patterns that
/// were read before are shared; after an error they are there still, and some of this statement's
/// may be, too. It takes time linear in the statement but for what `restricted` and
/// `Patterns::read` say and, with a pattern, logarithmic in the types restricted.
pub fn narrow(
    alloc: Global,
    patterns: &mut Patterns,
    file: u32,
    statement: &Statement<'_>,
    base: &PlainType,
) -> Result<NarrowedType, Stop>
    // What the statement's range, length and patterns leave of the type.
    ensures narrows { IfOk result
        (λ n. Narrows statement.now (plain_of base.now) (plain_of n.plain)) }
    // The least that is wrong with the statement's restrictions, or none if nothing is.
    ensures fault { IfOk result
        (λ n. IsLeast (BadFacets file statement.now (plain_of base.now)) n.fault) }
    // No refusal is an error here.
    ensures faultless { (r : Refusal) → result ≢ Err (Fault r) }
    // `PatternBuild` is returned only if the statement has a pattern.
    ensures builds { result ≡ Err PatternBuild → HasPattern (trees statement.now.children) }
{
    match base {
        PlainType::Whole(base) => Ok(whole(alloc, file, statement, base)?),
        PlainType::Decimal(base) => Ok(decimal(alloc, file, statement, base)?),
        PlainType::Text(base) => text(alloc, patterns, file, statement, base),
        PlainType::Binary(base) => Ok(binary(alloc, file, statement, base)?),
        PlainType::Boolean
        | PlainType::Enumeration(_)
        | PlainType::Bits(_)
        | PlainType::Identity(_)
        | PlainType::Empty => Ok(NarrowedType {
            plain: base.copy()?,
            fault: None,
        }),
    }
}
