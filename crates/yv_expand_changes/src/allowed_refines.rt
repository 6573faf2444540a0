//! Which statements may refine which nodes.
ghost use Rattle.std.specs.{Prelude.{◌≡◌, codes, count_by}, List.{list_all}};
ghost use Rattle.yv_link_scopes.specs.{Files.{has_word}, Views.{lent_in}};
ghost use Rattle.yv_expand_changes.specs.{InnerAlike.{is_fit_at}, InnerKeywords.{is_allowed_by}};
ghost use Rattle.yv_expand_statements.specs.AllowedRefines.{is_allowed, is_fit, may_have};

use yv_link_scopes::Rows;
use yv_text_statement::{Keyword, Statement};

// Whether a statement of a keyword may refine a node of another keyword.
fn is_allowed_by(keyword: Keyword, target: Keyword) -> bool
    ensures { result ≡ is_allowed_by keyword target }
{
    match keyword {
        Keyword::Default => matches!(target, Keyword::Leaf | Keyword::LeafList | Keyword::Choice),
        Keyword::Mandatory => matches!(
            target,
            Keyword::Leaf | Keyword::Choice | Keyword::Anydata | Keyword::Anyxml
        ),
        Keyword::Presence => matches!(target, Keyword::Container),
        Keyword::MinElements | Keyword::MaxElements => matches!(
            target,
            Keyword::List | Keyword::LeafList
        ),
        Keyword::Config | Keyword::Description | Keyword::Reference => true,
        Keyword::IfFeature | Keyword::Extended => true,
        _ => false,
    }
}

// Whether a statement may refine a node that another gives.
fn is_allowed(statement: &Statement<'_>, target: &Statement<'_>) -> bool
    ensures { result ≡ is_allowed statement.now.head.keyword target.now.head.keyword }
{
    is_allowed_by(statement.kind(), target.kind())
}

// Whether each of these statements may refine a node that a statement gives.
fn is_each_allowed(target: &Statement<'_>, children: &[Statement<'_>]) -> bool
    ensures { result
        ≡ list_all (λ c. is_allowed c.head.keyword target.now.head.keyword) children.now }
{
    children.iter().all(|child| is_allowed(child, target))
}

// How many of these statements are defaults.
fn defaults(children: &[Statement<'_>]) -> usize
    ensures { result ≡ count_by (λ c. has_word (codes "default") c.head) children.now }
{
    children
        .iter()
        .filter(|child| child.is(Keyword::Default))
        .count()
}

// Whether a node that a statement gives may have so many defaults.
fn may_have(target: &Statement<'_>, defaults: usize) -> bool
    ensures { result ≡ may_have target.now.head.keyword defaults }
{
    target.is(Keyword::LeafList) || defaults <= 1
}

// Whether a refine is fit for a node that a statement gives.
fn is_fit(target: &Statement<'_>, refine: &Statement<'_>) -> bool
    ensures { result ≡ is_fit target.now.head.keyword refine.now }
{
    let children = refine.children();
    is_each_allowed(target, children) && may_have(target, defaults(children))
}

/// Whether a numbered refine is fit for an item that a statement gives.
pub(crate) fn is_fit_at(rows: &Rows<'_, '_>, statement: Option<usize>, refine: usize) -> bool
    ensures { result ≡ is_fit_at (lent_in rows.now) statement refine }
{
    let Some(number) = statement else {
        return false;
    };
    match (rows.entries().get(number), rows.statement(refine)) {
        (Some(entry), Some(statement)) => is_fit(entry.statement, statement),
        _ => false,
    }
}
