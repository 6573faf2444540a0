//! The other files that are refused, beside the one that is reported.
ghost use Rattle.std.specs.Prelude.{◌≡◌, ◌<◌, ◌≤◌, ◌+◌, ◌++◌, ◌∷◌, [], List, Some, map, drop, length, true, count_by, string_bytes, IfOk, IfSome, OnOk};
ghost use Rattle.yv_text_statement.specs.{Codes.{phase_of}, Order.{IsLeast}, Tree.{Tree}};
ghost use Rattle.yv_text_grammar.specs.{Refusals.{Bad}, declared.xpath.Xpath.TheVariants.{Refuse}};
ghost use Rattle.yv_base_positions.specs.Column.{is_line_feed};
ghost use Rattle.yv_base_streams.specs.Files.{file_of};
ghost use Rattle.yv_note_text.specs.Clear.{is_clear};
ghost use Rattle.yv_note_refusals.specs.{InnerLines.{HoldsLines, TakesFile}, OtherRefusals.{AreOtherLines, IsLineOn, IsOtherLine, IsRefusedAlone, front_text}};

use crate::explain::sentence;
use std::alloc::{AllocError, Global};
use std::slice;
use yv_base_positions::column_of;
use yv_base_streams::Input;
use yv_job::Job;
use yv_note_lines::{push_line, push_visible};
use yv_source::{Texts, Xpath, conform};
use yv_text_statement::{Refusal, Statement, Stop};

/// How many files get a line.
const MOST_LINES: usize = 20;

/// The last phase in which each file is looked at alone.
const LAST_LONE_PHASE: u8 = 2;

// The lines on the files that were looked at.
#[derive(Drop)]
struct OtherLines {
    text: String,
    /// How many they are.
    count: usize,
}

/// A line for each file after that of a refusal which is refused in the same phase, where that is
/// one in which each file is looked at alone: the place, and the name and the sentence of the
/// file's own refusal. Files before it are not refused in that phase, or theirs would be reported.
/// There are at most 20 lines. A file is read alone, so that the memory is that of one file.
pub fn other_refusals(
    alloc: Global,
    inputs: &[Input],
    job: &Job,
    refusal: &Refusal,
) -> Result<String, AllocError>
    // At most 20 lines, each on a later file that is refused in the refusal's phase, in the order
    // of the files.
    ensures lines { IfOk result
        (λ s. AreOtherLines (phase_of refusal.now.code)
        (drop (refusal.now.file + 1) (map file_of inputs.now)) (string_bytes s)) }
    // There are none in the phases that look at all files together.
    ensures later { IfOk result (λ s. 2 < phase_of refusal.now.code → string_bytes s ≡ []) }
    // No character controls a terminal.
    ensures clear { IfOk result (λ s. is_clear (string_bytes s) ≡ true) }
    // There are at most 20 line feeds.
    ensures short { IfOk result (λ s. count_by is_line_feed (string_bytes s) ≤ 20) }
{
    let phase = refusal.code.phase();
    if phase > LAST_LONE_PHASE {
        return Ok(String::new(alloc));
    }
    let lines = lines_on(alloc, files_after(inputs, refusal.file), job, phase)?;
    Ok(lines.text)
}

// The files that come after the one of this number.
fn files_after(inputs: &[Input], file: u32) -> &[Input]
    ensures { map file_of result.now ≡ drop (file + 1) (map file_of inputs.now) }
{
    let next = file as usize + 1;
    if next <= inputs.len() {
        &inputs[next..]
    } else {
        &[]
    }
}

// The lines on the files that are refused in a phase.
fn lines_on(alloc: Global, inputs: &[Input], job: &Job, phase: u8) -> Result<OtherLines, AllocError>
    ensures { IfOk result (HoldsLines phase (map file_of inputs.now)) }
{
    let mut lines = OtherLines {
        text: String::new(alloc),
        count: 0,
    };
    for input in inputs {
        lines.take(alloc, input, job, phase)?;
    }
    Ok(lines)
}

impl OtherLines {
    // Adds the line on a file, if it is refused in this phase and there are not too many.
    fn take(&mut self, alloc: Global, input: &Input, job: &Job, phase: u8) -> Result<(), AllocError>
        ensures { OnOk result (TakesFile phase (file_of input.now) self.old self.new) }
    {
        if self.count >= MOST_LINES {
            return Ok(());
        }
        if let Some(line) = other_line(alloc, input, job, phase)? {
            self.text.push_str(line.as_str())?;
            self.count += 1;
        }
        Ok(())
    }
}

// The line on a file, if it is refused in this phase.
fn other_line(
    alloc: Global,
    input: &Input,
    job: &Job,
    phase: u8,
) -> Result<Option<String>, AllocError>
    ensures { IfOk result
        (λ line. IfSome line (λ s. IsOtherLine phase (file_of input.now) (string_bytes s))) }
{
    let Some(refusal) = refusal_alone(alloc, input)? else {
        return Ok(None);
    };
    if refusal.code.phase() != phase {
        return Ok(None);
    }
    Ok(Some(line_on(alloc, input, job, &refusal)?))
}

// Why a file is refused that is looked at alone.
fn refusal_alone(alloc: Global, input: &Input) -> Result<Option<Refusal>, AllocError>
    ensures { IfOk result (λ r. IfSome r (IsRefusedAlone (file_of input.now))) }
{
    let texts = Texts::read(alloc, slice::from_ref(input))?;
    match texts.statements(alloc) {
        Ok(statements) => Ok(first_unfit(&statements)),
        Err(Stop::Fault(refusal)) => Ok(Some(refusal)),
        Err(Stop::NoMemory) => Err(AllocError),
        Err(Stop::PatternBuild) => unreachable!(),
    }
}

// Why the first of these statements is not as the tables of the language say.
fn first_unfit(roots: &[Statement<'_>]) -> Option<Refusal>
    ensures { IfSome result
        (λ r. (root : Tree) × (others : List Tree) × (roots.now ≡ root ∷ others)
        × IsLeast (Bad Refuse root) (Some r)) }
{
    match roots {
        [root, ..] => conform(root, Xpath::Refuse).err(),
        [] => None,
    }
}

// The line on a refusal of a file.
fn line_on(alloc: Global, input: &Input, job: &Job, refusal: &Refusal) -> Result<String, AllocError>
    ensures { IfOk result (λ s. IsLineOn (file_of input.now) refusal.now (string_bytes s)) }
{
    let front = front_of_line(alloc, input, refusal)?;
    let sentence = sentence(alloc, slice::from_ref(input), job, refusal)?;
    let mut text = String::new(alloc);
    push_visible(&mut text, front.as_bytes())?;
    push_line(&mut text, sentence.as_str())?;
    Ok(text)
}

// How the line on a refusal of a file begins.
fn front_of_line(alloc: Global, input: &Input, refusal: &Refusal) -> Result<String, AllocError>
    ensures { IfOk result
        (λ s. string_bytes s ≡ front_text (file_of input.now) refusal.now) }
{
    let name = input.name.as_str();
    let line = refusal.line;
    let column = column_of(input.bytes.as_slice(), refusal.offset as usize);
    let code = refusal.code.name();
    format!(in alloc; "{name}:{line}:{column}: {code}: ")
}
