//! What helps a person to fix a file that is refused.
ghost use Rattle.std.specs.Prelude.{map, string_bytes, true, OnOk, IfOk, slice_get, ◌≡◌};
ghost use Rattle.yv_base_streams.specs.Files.{file_of};
ghost use Rattle.yv_note_refusals.specs.{Explanations.{Explains, Speaks, bytes_at}};
ghost use Rattle.yv_note_text.specs.{Clear.{is_clear}, Quotes.{Extends}};

use crate::clear::push_clear;
use crate::refusal_text::push_sentence;
use std::alloc::{AllocError, Global};
use yv_base_streams::Input;
use yv_job::Job;
use yv_link_scopes::Rows;
use yv_note_syntax::push_unread;
use yv_note_text::excerpt;
use yv_source::Texts;
use yv_text_statement::{Refusal, Stop};

// The bytes of the file of this number; none, where there is none.
fn bytes_at(inputs: &[Input], file: u32) -> &[u8]
    ensures { result.now ≡ bytes_at (slice_get (map file_of inputs.now) file) }
{
    match inputs.get(file as usize) {
        Some(input) => input.bytes.as_slice(),
        None => &[],
    }
}

// Adds the sentence on a refusal.
fn push_told(
    alloc: Global,
    text: &mut String,
    inputs: &[Input],
    job: &Job,
    refusal: &Refusal,
) -> Result<(), AllocError>
    ensures grows { OnOk result (Extends (string_bytes text.old) (string_bytes text.new)) }
    ensures speaks { OnOk result
        (Speaks (map file_of inputs.now) refusal.now (string_bytes text.new)) }
{
    let texts = Texts::read(alloc, inputs)?;
    match texts.statements(alloc) {
        Ok(statements) => {
            let rows = Rows::read(alloc, &statements)?;
            push_sentence(alloc, text, inputs, &rows, job, refusal)?;
            Ok(())
        }
        Err(Stop::Fault(_)) => {
            push_unread(alloc, text, inputs, bytes_at(inputs, refusal.file), refusal)?;
            Ok(())
        }
        Err(Stop::NoMemory) => Err(AllocError),
        Err(Stop::PatternBuild) => unreachable!(),
    }
}

/// The sentence on a refusal, as the notes make it.
pub(crate) fn sentence(
    alloc: Global,
    inputs: &[Input],
    job: &Job,
    refusal: &Refusal,
) -> Result<String, AllocError>
    ensures { IfOk result (λ s. Speaks (map file_of inputs.now) refusal.now (string_bytes s)) }
{
    let mut text = String::new(alloc);
    push_told(alloc, &mut text, inputs, job, refusal)?;
    Ok(text)
}

/// The line of the file with a caret under the place of a refusal, and below it the refusal's name
/// with a sentence. The sentence names the argument or keyword that the refusal is about, where the
/// files can be read; where not, it is the one that fits every refusal of that name. What could
/// drive a terminal is shown as dots.
pub fn explanation(
    alloc: Global,
    inputs: &[Input],
    job: &Job,
    refusal: &Refusal,
) -> Result<String, AllocError>
    // The line that contains the refusal's place, and below it the code's name with a sentence.
    ensures place { IfOk result
        (λ s. Explains (bytes_at (slice_get (map file_of inputs.now) refusal.now.file)) refusal.now
        (string_bytes s)) }
    // The sentence names the argument or keyword at fault, where the files can be read.
    ensures speaks { IfOk result
        (λ s. Speaks (map file_of inputs.now) refusal.now (string_bytes s)) }
    // No character controls a terminal.
    ensures clear { IfOk result (λ s. is_clear (string_bytes s) ≡ true) }
{
    let bytes = bytes_at(inputs, refusal.file);
    let place = usize::try_from(refusal.offset).unwrap_or(0);
    let mut text = excerpt(alloc, bytes, place.min(bytes.len()))?;
    text.push_str(refusal.code.name())?;
    text.push_str(": ")?;
    let sentence = sentence(alloc, inputs, job, refusal)?;
    push_clear(&mut text, sentence.as_str())?;
    text.push_str("\n")?;
    Ok(text)
}
