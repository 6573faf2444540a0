//! How the sentence on a fault begins.
ghost use Rattle.std.specs.Prelude.{◌≡◌, ◌≤◌, ◌++◌, length, drop, IfOk, OnOk, string_bytes};
ghost use Rattle.yv_data_faults.specs.{Line.{place_text, places_text}, Part.{part_of, steps_of}};
ghost use Rattle.yv_note_faults.specs.Line.{Begins, number_text, shortened_line};

use itoa::Buffer;
use std::alloc::{AllocError, Global};
use yv_data_faults::{Fault, Part, line};

/// The most bytes of the steps that are shown of a path, as the names are before they are escaped.
const MOST_SHOWN: usize = 300;

/// What a step has besides its names: a slash, a colon, parentheses, and a number in brackets.
const AROUND_NAMES: usize = 26;

/// How the sentence on a fault begins: as the fault's line, or with two dots in place of the first
/// steps of a long path.
pub(crate) fn front(alloc: Global, fault: &Fault) -> Result<String, AllocError>
    ensures { IfOk result (λ text. Begins fault.now (string_bytes text)) }
{
    let path = fault.path.steps().to_vec(alloc)?;
    front_of(alloc, fault, path.as_slice())
}

// The same, by the steps of the fault's path.
fn front_of(alloc: Global, fault: &Fault, path: &[Part<'_>]) -> Result<String, AllocError>
    requires { steps_of path.now ≡ fault.now.path }
    ensures { IfOk result (λ text. Begins fault.now (string_bytes text)) }
{
    let left_out = left_out(path);
    if left_out == 0 {
        line(alloc, fault)
    } else {
        shortened_line(alloc, fault, path, left_out)
    }
}

/// How many of the first steps of a path aren't shown.
pub(crate) fn left_out(path: &[Part<'_>]) -> usize
    ensures { result ≤ length path.now }
{
    let mut first = path.len();
    let mut room = MOST_SHOWN;
    for step in path.iter().rev() {
        let size = size_of(step);
        if size > room || first == 0 {
            return first;
        }
        room -= size;
        first -= 1;
    }
    first
}

// About how many bytes are shown of a step.
fn size_of(step: &Part<'_>) -> usize {
    let module = step.name.module.map_or(0, |module| module.len());
    module
        .saturating_add(step.name.name.len())
        .saturating_add(AROUND_NAMES)
}

// The fault's line without so many of the first steps.
fn shortened_line(
    alloc: Global,
    fault: &Fault,
    path: &[Part<'_>],
    left_out: usize,
) -> Result<String, AllocError>
    requires { left_out ≤ length path.now }
    ensures { IfOk result
        (λ text. string_bytes text ≡ shortened_line fault.now (steps_of (drop left_out path.now))) }
{
    let mut text = String::from_str(alloc, fault.kind.name())?;
    text.push_str(" ..")?;
    push_steps(&mut text, &path[left_out..])?;
    push_number(&mut text, fault.number)?;
    Ok(text)
}

// The number of a statement, where there is one.
fn push_number(text: &mut String, number: u32) -> Result<(), AllocError>
    ensures { OnOk result (string_bytes text.new ≡ string_bytes text.old ++ number_text number) }
{
    if number != 0 {
        text.push_str(" ")?;
        text.push_str(Buffer::new().format(number))?;
    }
    Ok(())
}

fn push_steps(text: &mut String, path: &[Part<'_>]) -> Result<(), AllocError>
    ensures { OnOk result
        (string_bytes text.new ≡ string_bytes text.old ++ places_text (steps_of path.now)) }
{
    for step in path {
        push_step(text, step)?;
    }
    Ok(())
}

fn push_step(text: &mut String, step: &Part<'_>) -> Result<(), AllocError>
    ensures { OnOk result
        (string_bytes text.new ≡ string_bytes text.old ++ place_text (part_of step.now)) }
{
    let shown = step.to_string(*text.allocator())?;
    text.push_str(shown.as_str())
}
