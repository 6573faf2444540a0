//! A path without its predicates.
ghost use Rattle.std.specs.{Prelude.{◌≡◌, ◌==◌, ℕ, List, IfOk, string_bytes}, List.{after_first}};
ghost use Rattle.yv_text_path.specs.{Bytes.{closing_bracket}, InnerBrackets.{without_predicates}, Paths.{IsPath}};

use std::alloc::{AllocError, Global};

/// The path without its predicates: what is from each `[` to the next `]` is left out.
pub fn bare_path(alloc: Global, text: &str) -> Result<String, AllocError>
    ensures { (bare : List ℕ) (names : List (List ℕ)) → IsPath text.now bare names
        → IfOk result (λ path. string_bytes path ≡ bare) }
{
    let path = outside_brackets(alloc, text)?;
    Ok(path)
}

fn outside_brackets(alloc: Global, text: &str) -> Result<String, AllocError>
    ensures { IfOk result (λ path. string_bytes path ≡ without_predicates text.now) }
{
    let mut path = String::new(alloc);
    let mut rest = text;
    while let Some((steps, predicate)) = rest.split_once('[') {
        path.push_str(steps)?;
        rest = after_bracket(predicate);
    }
    path.push_str(rest)?;
    Ok(path)
}

// What comes after the first `]`.
fn after_bracket(text: &str) -> &str
    ensures { result.now ≡ after_first (λ b. b == closing_bracket) text.now }
{
    match text.split_once(']') {
        Some((_predicate, rest)) => rest,
        None => "",
    }
}
