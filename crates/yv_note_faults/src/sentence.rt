//! What is said of one fault.
ghost use Rattle.std.specs.Prelude.{◌≡◌, ◌++◌, IfOk, OnOk, string_bytes};
ghost use Rattle.yv_note_faults.specs.{Line.{keys_text, like_text}, InnerAdds.{IsSaid}};

use crate::front::{front, left_out};
use std::alloc::{AllocError, Global};
use yv_data_faults::Fault;
use yv_note_advice::Advisor;
use yv_note_text::push_quoted;

/// What is said of a fault behind its place, where so many others are like it.
pub(crate) fn sentence(
    alloc: Global,
    advisor: &Advisor<'_, '_>,
    fault: &Fault,
    likes: u64,
) -> Result<String, AllocError>
    ensures { IfOk result (λ text. IsSaid fault.now (string_bytes text)) }
{
    let keys = advisor.keys(alloc, fault)?;
    let advice = advice(alloc, advisor, fault)?;
    let mut text = front(alloc, fault)?;
    push_keys(&mut text, keys.as_str())?;
    push_likes(alloc, &mut text, likes)?;
    text.push_str(": ")?;
    text.push_str(advice.as_str())?;
    Ok(text)
}

// What is wrong at a fault and what to do. The name of a member comes first where it is so long
// that the front has none of it.
fn advice(alloc: Global, advisor: &Advisor<'_, '_>, fault: &Fault) -> Result<String, AllocError> {
    let mut text = String::new(alloc);
    let path = fault.path.steps().to_vec(alloc)?;
    if let Some(step) = path.last() {
        if left_out(path.as_slice()) == path.len() {
            push_quoted(&mut text, step.name.name)?;
            text.push_str(": ")?;
        }
    }
    let advice = advisor.advice(alloc, fault)?;
    text.push_str(advice.as_str())?;
    Ok(text)
}

// Adds the keys of an entry, if there are any.
fn push_keys(text: &mut String, keys: &str) -> Result<(), AllocError>
    ensures { OnOk result (string_bytes text.new ≡ string_bytes text.old ++ keys_text keys.now) }
{
    if keys.is_empty() {
        return Ok(());
    }
    text.push_str(" (")?;
    text.push_str(keys)?;
    text.push_str(")")
}

// Adds how many faults are like one, if there are any.
fn push_likes(alloc: Global, text: &mut String, likes: u64) -> Result<(), AllocError>
    ensures { OnOk result (string_bytes text.new ≡ string_bytes text.old ++ like_text likes) }
{
    if likes == 0 {
        return Ok(());
    }
    let likes = format!(in alloc; " (and {likes} more like it)")?;
    text.push_str(likes.as_str())
}
