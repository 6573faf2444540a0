//! Restrictions by `range` and by `length`.
ghost use Rattle.std.specs.{Prelude.{◌≡◌, IfOk, IfSome}, List.{find}, Option.{option_copied}};
ghost use Rattle.yv_text_statement.specs.{Keywords.{keyword_of, same, spelling}, Order.{IsLeast}, Tree.{name_of as text_of, trees}};
ghost use Rattle.yv_type_restrictions.specs.{Facets.{child, Leaves}, FacetRefusals.{BadRestriction}};

use std::alloc::{AllocError, Global};
use yv_base_numbers::{Intervals, restrict};
use yv_text_statement::{Code, Keyword, Refusal, Statement, refusal_if};

/// The statement's argument, or no text where it has none.
pub fn text_of<'a>(statement: &'a Statement<'_>) -> &'a str
    ensures { result.now ≡ text_of statement.now.head }
{
    statement.argument().unwrap_or("")
}

// The first substatement with a keyword, by what keywords mean.
fn first<'a, 'b>(keyword: Keyword, statement: &'a Statement<'b>) -> Option<&'a Statement<'b>>
    ensures { option_copied result
        ≡ find (λ c. same (keyword_of c.head.keyword) keyword) (trees statement.now.children) }
{
    statement.children().iter().find(|child| child.is(keyword))
}

/// The first substatement with a keyword.
pub fn child<'a, 'b>(keyword: Keyword, statement: &'a Statement<'b>) -> Option<&'a Statement<'b>>
    ensures { IfSome (spelling keyword) (λ word. option_copied result ≡ child word statement.now) }
{
    first(keyword, statement)
}

/// What a restriction leaves of a type's intervals, and its refusal where it doesn't restrict them.
#[derive(Drop)]
pub struct Leftover {
    pub spans: Intervals,
    pub fault: Option<Refusal>,
}

/// What a type statement's `range` or `length` leaves of intervals.
pub fn restrict_intervals(
    alloc: Global,
    file: u32,
    restriction: Option<&Statement<'_>>,
    base: &Intervals,
    digits: Option<u32>,
) -> Result<Leftover, AllocError>
    ensures leaves { IfOk result
        (λ l. Leaves digits base.now (option_copied restriction.entry) l.spans) }
    ensures fault { IfOk result (λ l.
        IsLeast (BadRestriction file digits base.now (option_copied restriction.entry)) l.fault) }
{
    match restriction {
        Some(statement) => match restrict(alloc, text_of(statement), base, digits)? {
            Some(spans) => Ok(Leftover { spans, fault: None }),
            None => {
                let spans = base.copy()?;
                let fault = refusal_if(true, Code::BadRestriction, file, statement);
                Ok(Leftover { spans, fault })
            }
        },
        None => Ok(Leftover {
            spans: base.copy()?,
            fault: None,
        }),
    }
}
