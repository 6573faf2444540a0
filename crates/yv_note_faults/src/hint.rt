//! What is said of the faults as a whole.
ghost use Rattle.std.specs.Prelude.{◌≡◌, ◌≤◌, ◌++◌, length, IfOk, OnOk, string_bytes};
ghost use Rattle.yv_note_faults.specs.Sentences.{IsHint, more_line, more_text, state_line, state_text};

use itoa::Buffer;
use std::alloc::{AllocError, Global};
use yv_data_faults::Fault;
use yv_note_advice::Advisor;
use yv_note_lines::push_line;

/// Adds how many faults there are that have no line, where at most so many have one.
pub(crate) fn push_more(
    alloc: Global,
    text: &mut String,
    count: usize,
    most: usize,
) -> Result<(), AllocError>
    ensures { OnOk result
        (string_bytes text.new ≡ string_bytes text.old ++ more_text most count) }
{
    if count > most {
        push_count(alloc, text, count - most)?;
    }
    Ok(())
}

fn push_count(alloc: Global, text: &mut String, count: usize) -> Result<(), AllocError>
    ensures { OnOk result (string_bytes text.new ≡ string_bytes text.old ++ more_line count) }
{
    let line = format!(in alloc; "more faults: {count}")?;
    push_line(text, line.as_str())
}

/// The hint on faults, where most of them are that state data is missing.
pub(crate) fn hint(
    alloc: Global,
    advisor: &Advisor<'_, '_>,
    faults: &[Fault],
) -> Result<String, AllocError>
    ensures { IfOk result (λ text. IsHint (length faults.now) (string_bytes text)) }
{
    let missing = count_missing(advisor, faults);
    if missing <= faults.len() - missing {
        return Ok(String::new(alloc));
    }
    state_hint(alloc, missing, faults.len())
}

// The hint that so many of all faults are that state data is missing.
fn state_hint(alloc: Global, missing: usize, count: usize) -> Result<String, AllocError>
    ensures { IfOk result (λ text. string_bytes text ≡ state_line missing count) }
{
    let line = state_text(alloc, missing, count)?;
    let mut text = String::new(alloc);
    push_line(&mut text, line.as_str())?;
    Ok(text)
}

// The words of that hint.
fn state_text(alloc: Global, missing: usize, count: usize) -> Result<String, AllocError>
    ensures { IfOk result (λ text. string_bytes text ≡ state_text missing count) }
{
    let mut text = String::new(alloc);
    text.push_str(Buffer::new().format(missing))?;
    text.push_str(" of ")?;
    text.push_str(Buffer::new().format(count))?;
    text.push_str(" faults are missing state data; ")?;
    text.push_str("if the document is configuration alone, use --kind config")?;
    Ok(text)
}

// How many faults are that state data is missing.
fn count_missing(advisor: &Advisor<'_, '_>, faults: &[Fault]) -> usize
    ensures { result ≤ length faults.now }
{
    let mut count = 0;
    for fault in faults {
        if advisor.is_missing_state(fault) {
            count += 1;
        }
    }
    count
}
