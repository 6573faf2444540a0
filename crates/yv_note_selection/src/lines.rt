//! The lines on the names of a selection.
ghost use Rattle.std.specs.Prelude.{◌≡◌, ◌≤◌, length, true, IfOk, string_bytes};
ghost use Rattle.yv_note_text.specs.Clear.{is_clear};
ghost use Rattle.yv_note_selection.specs.{Lines.{AreLines}, InnerLines.{HoldsLines}};

use crate::sentences::sentences;
use std::alloc::{AllocError, Global};
use yv_base_streams::Input;
use yv_job::Job;
use yv_note_lines::push_line;

/// The most lines.
pub(crate) const MOST_LINES: usize = 20;

/// A line for each of the first names in a job's `--support` and `--import-only` that mean nothing,
/// with the features or modules that there are. Such a name has no effect, so it is often one that
/// is misspelled. There is no line where the statements of the files can't be read. It reads the
/// files again, unless these options aren't given.
pub fn selection_lines(alloc: Global, job: &Job, inputs: &[Input]) -> Result<String, AllocError>
    // There are at most 20 lines.
    ensures lines { IfOk result (λ s. AreLines (string_bytes s)) }
    // No character controls a terminal.
    ensures clear { IfOk result (λ s. is_clear (string_bytes s) ≡ true) }
    // They have at most 1,401 bytes each.
    ensures short { IfOk result (λ s. length (string_bytes s) ≤ 28020) }
{
    let sentences = sentences(alloc, job, inputs)?;
    lines_on(alloc, front_lines(&sentences))
}

// The first sentences.
fn front_lines(sentences: &[String]) -> &[String]
    ensures { length result.now ≤ 20 }
{
    if sentences.len() <= MOST_LINES {
        sentences
    } else {
        &sentences[..MOST_LINES]
    }
}

// A line for each of these sentences.
#[tactic(auto, using(crate::proofs::SentenceLines::no_line))]
fn lines_on(alloc: Global, sentences: &[String]) -> Result<String, AllocError>
    ensures { IfOk result (λ text. HoldsLines (length sentences.now) (string_bytes text)) }
{
    let mut text = String::new(alloc);
    for sentence in sentences {
        push_line(&mut text, sentence.as_str())?;
    }
    Ok(text)
}
