//! Lines on members of objects that are repeated.
ghost use Rattle.std.specs.Prelude.{◌≡◌, ◌≤◌, ◌*◌, true, length, IfOk, string_bytes};
ghost use Rattle.yv_note_faults.specs.{Line.{TellsRepeat, repeat_text}, Sentences.{TellsRepeats}};
ghost use Rattle.yv_note_text.specs.Clear.{is_clear};

use crate::document::NotedDocument;
use crate::place_line::placed_line;
use crate::places::in_file;
use std::alloc::{AllocError, Global};
use yv_note_places::{RepeatedMember, has_repeated_members, repeated_members};
use yv_note_text::push_quoted;

/// A line for each of the first members of a document that have the name of an earlier one in their
/// object, at most so many. The last member of a name counts, and the others are passed over.
pub fn repeat_lines(
    alloc: Global,
    document: &NotedDocument<'_>,
    most: usize,
) -> Result<String, AllocError>
    // Each line has the place of a member in the document's file, and its name.
    ensures tells { IfOk result
        (λ text. TellsRepeats most document.now.name.now (string_bytes text)) }
    // No character controls a terminal.
    ensures clear { IfOk result (λ text. is_clear (string_bytes text) ≡ true) }
    // If the name has at most 4,096 bytes, there are at most 6,000 for each line.
    ensures short { IfOk result
        (λ text. length document.now.name.now ≤ 4096
        → length (string_bytes text) ≤ 6000 * most) }
{
    if !has_repeated_members(document.bytes, document.value) {
        return Ok(String::new(alloc));
    }
    let members = repeated_members(alloc, document.bytes, most)?;
    lines_on(alloc, document, members.as_slice())
}

// A line for each of these members.
#[tactic(auto, using(crate::proofs::Lines::repeat_more))]
fn lines_on(
    alloc: Global,
    document: &NotedDocument<'_>,
    members: &[RepeatedMember],
) -> Result<String, AllocError>
    ensures { IfOk result
        (λ text. TellsRepeats (length members.now) document.now.name.now (string_bytes text)) }
{
    let mut text = String::new(alloc);
    for member in members {
        let line = line_on(alloc, document, member)?;
        text.push_str(line.as_str())?;
    }
    Ok(text)
}

// The line on a member.
fn line_on(
    alloc: Global,
    document: &NotedDocument<'_>,
    member: &RepeatedMember,
) -> Result<String, AllocError>
    ensures { IfOk result (λ text. TellsRepeat document.now.name.now (string_bytes text)) }
{
    let said = repeat_text(alloc, member.name.as_str())?;
    placed_line(
        alloc,
        document.name,
        in_file(document, member.place),
        said.as_str(),
    )
}

// What is said of a member of this name.
fn repeat_text(alloc: Global, name: &str) -> Result<String, AllocError>
    ensures { IfOk result (λ text. string_bytes text ≡ repeat_text name.now) }
{
    let mut said = String::from_str(alloc, "member ")?;
    push_quoted(&mut said, name)?;
    said.push_str(" is repeated; the last one counts")?;
    Ok(said)
}
