//! The values of options.
ghost use Rattle.std.specs.Prelude.{◌≡◌, ◌≤◌, ◌==◌, ℕ, List, Option, slice_index, IfSome, IfOk, MatchOption, map, option_map, string_bytes};
ghost use Rattle.yv_job.specs.{Asks.{IsDecimal, IsLimit, IsExplainFor, IsSupportFor, IsImportsFor, IsKindFor, IsEachFor, IsFormFor, IsRulesFor, IsDepthFor, IsBelowFor}, Requests.{rules_of}, declared.{job.OutputForm.{OutputForm as TheForm}, request.Each.{Each as TheEach}}};
ghost use Rattle.yv_lint.specs.declared.rule.Rule.{Rule as TheRule};
ghost use Rattle.yv_text_statement.specs.{Selection.{Entry, entry_of}, declared.document_kind.Kind.{Kind as TheKind}};
ghost use Rattle.yv_tree_drawing.specs.Steps.{Step};

use crate::job::OutputForm;
use crate::names::{names_of, support_of};
use crate::request::Each;
use crate::way::way_of;
use std::alloc::{AllocError, Global};
use yv_lint::Rules;
use yv_text_statement::Kind;
use yv_tree_drawing::WayStep;

const MOST_NODES: u32 = 1_000_000;

const USUAL_NODES: u32 = 100_000;

const MOST_EXPLAIN: u32 = 10_000;

const USUAL_EXPLAIN: u32 = 20;

const MOST_DEPTH: u32 = 128;

const USUAL_KIND: Kind = Kind::All;

fn has_plus(text: &str) -> bool
    ensures { result ≡ (slice_index text.now 0 == 43) }
{
    match text.as_bytes().first() {
        Some(byte) => *byte == b'+',
        None => false,
    }
}

// The number that decimal digits write. A plus, which `parse` takes, is none.
fn number_of(text: &str) -> Option<u32>
    ensures { MatchOption result ((n : ℕ) → n ≤ 1000000 → IsDecimal text.now n → ⊥)
        (IsDecimal text.now) }
{
    if has_plus(text) {
        return None;
    }
    text.parse::<u32>().ok()
}

/// The limit that the value of `--max-nodes` writes, or the usual one.
pub fn limit_of(value: Option<&str>) -> Option<u32>
    ensures bounds { IfSome result (λ n. (1 ≤ n) × (n ≤ 1000000)) }
    ensures limit { let text = option_map (λ t. t.now) value.entry in
        MatchOption result ((n : ℕ) → IsLimit text n → ⊥) (IsLimit text) }
{
    let Some(text) = value else {
        return Some(USUAL_NODES);
    };
    match number_of(text) {
        Some(n) if n >= 1 && n <= MOST_NODES => Some(n),
        _ => None,
    }
}

/// Of how many faults of a document `--explain` asks for a line: the usual number where it has no
/// value.
pub fn explain_value(value: Option<&str>) -> Option<u32>
    ensures { let text = option_map (λ t. t.now) value.entry in
        MatchOption result ((n : ℕ) → IsExplainFor text n → ⊥) (IsExplainFor text) }
{
    let Some(text) = value else {
        return Some(USUAL_EXPLAIN);
    };
    match number_of(text) {
        Some(n) if n <= MOST_EXPLAIN => Some(n),
        _ => None,
    }
}

/// The entries of the value of `--support`.
pub fn support_value(
    alloc: Global,
    value: Option<&str>,
) -> Result<Option<Vec<(String, Vec<String>)>>, AllocError>
    ensures { let text = option_map (λ t. t.now) value.entry in
        IfOk result (λ o. MatchOption o ((es : List Entry) → IsSupportFor text es → ⊥)
        (λ v. IsSupportFor text (map entry_of v.items))) }
{
    match value {
        None => Ok(Some(Vec::new(alloc))),
        Some(text) => support_of(alloc, text),
    }
}

/// The modules of the value of `--import-only`.
pub fn imports_value(alloc: Global, value: Option<&str>) -> Result<Option<Vec<String>>, AllocError>
    ensures { let text = option_map (λ t. t.now) value.entry in
        IfOk result (λ o. MatchOption o ((ns : List (List ℕ)) → IsImportsFor text ns → ⊥)
        (λ v. IsImportsFor text (map string_bytes v.items))) }
{
    match value {
        None => Ok(Some(Vec::new(alloc))),
        Some(text) => names_of(alloc, text),
    }
}

/// What the value of `--kind` asks for: all data where there is none.
pub fn kind_value(value: Option<&str>) -> Option<Kind>
    ensures { let text = option_map (λ t. t.now) value.entry in
        MatchOption result ((k : TheKind) → IsKindFor text k → ⊥) (IsKindFor text) }
{
    let Some(text) = value else {
        return Some(USUAL_KIND);
    };
    if text == "data" {
        return Some(Kind::All);
    }
    if text == "config" {
        return Some(Kind::ConfigOnly);
    }
    None
}

/// What the value of `--each` says that a source holds: nothing where there is none.
pub fn each_value(value: Option<&str>) -> Option<Option<Each>>
    ensures { let text = option_map (λ t. t.now) value.entry in
        MatchOption result ((e : Option TheEach) → IsEachFor text e → ⊥) (IsEachFor text) }
{
    let Some(text) = value else {
        return Some(None);
    };
    if text == "file" {
        return Some(Some(Each::File));
    }
    if text == "line" {
        return Some(Some(Each::Line));
    }
    if text == "name" {
        return Some(Some(Each::Name));
    }
    if text == "name0" {
        return Some(Some(Each::Name0));
    }
    None
}

/// What the value of `--format` asks for: text where there is none.
pub fn form_value(value: Option<&str>) -> Option<OutputForm>
    ensures { let text = option_map (λ t. t.now) value.entry in
        MatchOption result ((f : TheForm) → IsFormFor text f → ⊥) (IsFormFor text) }
{
    let Some(text) = value else {
        return Some(OutputForm::Text);
    };
    if text == "text" {
        return Some(OutputForm::Text);
    }
    if text == "json" {
        return Some(OutputForm::Json);
    }
    None
}

/// The rules that the value of `--rules` names: all where there is none.
pub fn rules_value(value: Option<&str>) -> Option<Rules>
    ensures { let text = option_map (λ t. t.now) value.entry in
        MatchOption result ((rules : List TheRule) → IsRulesFor text rules → ⊥)
        (λ rules. IsRulesFor text (rules_of rules)) }
{
    match value {
        None => Some(Rules::all()),
        Some(names) => Rules::read(names),
    }
}

/// How many levels of nodes the value of `--depth` asks for: all where there is no value.
pub fn depth_value(value: Option<&str>) -> Option<Option<u32>>
    ensures { let text = option_map (λ t. t.now) value.entry in
        MatchOption result ((d : Option ℕ) → IsDepthFor text d → ⊥) (IsDepthFor text) }
{
    let Some(text) = value else {
        return Some(None);
    };
    match number_of(text) {
        Some(n) if n >= 1 && n <= MOST_DEPTH => Some(Some(n)),
        _ => None,
    }
}

/// The steps of the value of `--below`: none where there is no value.
pub fn below_value(alloc: Global, value: Option<&str>) -> Result<Option<Vec<WayStep>>, AllocError>
    ensures { let text = option_map (λ t. t.now) value.entry in
        IfOk result (λ o. MatchOption o ((steps : List Step) → IsBelowFor text steps → ⊥)
        (λ v. IsBelowFor text v.items)) }
{
    match value {
        None => Ok(Some(Vec::new(alloc))),
        Some(text) => way_of(alloc, text),
    }
}
