//! The way to a node in a text of the command line.
ghost use Rattle.std.specs.{Prelude.{◌≡◌, ◌∷◌, ◌≢◌, ℕ, List, Decides, IfOk, MatchOption, option_map}, List.{AllZip}};
ghost use Rattle.yv_job.specs.Names.{IsStep, IsWay, StartsInModule};
ghost use Rattle.yv_tree_drawing.specs.Steps.{Step};

use crate::names::{cut, is_name, pieces};
use std::alloc::{AllocError, Global};
use yv_tree_drawing::WayStep;

// The step with this name, and with this module where there is one.
fn new_step(alloc: Global, module_name: Option<&str>, name: &str) -> Result<WayStep, AllocError>
    ensures owner { IfOk result (λ x. x.module ≡ option_map (λ m. m.now) module_name.entry) }
    ensures name { IfOk result (λ x. x.name ≡ name.now) }
{
    let name = String::from_str(alloc, name)?;
    let module = match module_name {
        Some(module_name) => Some(String::from_str(alloc, module_name)?),
        None => None,
    };
    Ok(WayStep { module, name })
}

// The step that a text is, or none.
fn step(alloc: Global, text: &str) -> Result<Option<WayStep>, AllocError>
    ensures { IfOk result (λ o. MatchOption o ((x : Step) → IsStep text.now x → ⊥)
        (IsStep text.now)) }
{
    let Some((module, name)) = cut(text) else {
        if !is_name(text) {
            return Ok(None);
        }
        return Ok(Some(new_step(alloc, None, text)?));
    };
    if is_name(module) && is_name(name) {
        Ok(Some(new_step(alloc, Some(module), name)?))
    } else {
        Ok(None)
    }
}

// The steps that texts are, or none where one isn't a step.
fn steps(alloc: Global, parts: &[&str]) -> Result<Option<Vec<WayStep>>, AllocError>
    ensures { IfOk result (λ o. MatchOption o
        ((xs : List Step) → AllZip (λ p x. IsStep p.now x) parts.now xs → ⊥)
        (λ v. AllZip (λ p x. IsStep p.now x) parts.now v.items)) }
{
    let mut steps = Vec::new(alloc);
    for part in parts {
        let Some(step) = step(alloc, part)? else {
            return Ok(None);
        };
        steps.push(step)?;
    }
    Ok(Some(steps))
}

// What comes after the `/` that a text begins with.
fn after_slash(text: &str) -> Option<&str>
    ensures { MatchOption result ((rest : List ℕ) → text.now ≢ 47 ∷ rest)
        (λ rest. text.now ≡ 47 ∷ rest.now) }
{
    text.strip_prefix('/')
}

// Whether there is a first step, and it gives a module.
fn starts_in_module(steps: &[WayStep]) -> bool
    ensures { Decides result (StartsInModule steps.now) }
{
    match steps.first() {
        Some(step) => step.module().is_some(),
        None => false,
    }
}

/// The steps of the way that a text is, or none where it is no way.
pub fn way_of(alloc: Global, text: &str) -> Result<Option<Vec<WayStep>>, AllocError>
    ensures { IfOk result (λ o. MatchOption o ((steps : List Step) → IsWay text.now steps → ⊥)
        (λ v. IsWay text.now v.items)) }
{
    let Some(rest) = after_slash(text) else {
        return Ok(None);
    };
    let parts = pieces(alloc, rest, '/')?;
    let Some(steps) = steps(alloc, &parts)? else {
        return Ok(None);
    };
    if starts_in_module(&steps) {
        Ok(Some(steps))
    } else {
        Ok(None)
    }
}
