//! What helps a person to fix a pattern that the library of regular expressions doesn't build.
ghost use Rattle.std.specs.Prelude.{◌≡◌, length, map, min, option_map, string_bytes, IfOk, IfNone, IfSome};
ghost use Rattle.yv_link_scopes.specs.{Rows.{row}, Views.{lent_in, rows_in}};
ghost use Rattle.yv_base_streams.specs.Files.{file_of};
ghost use Rattle.yv_note_text.specs.Excerpt.{ShowsPlace};
ghost use Rattle.yv_note_patterns.specs.{InnerPatterns.{FindsPattern}, PatternFailure.{AreNoPatterns, HasNoPattern, TellsAmong, TellsOf, TellsPattern, unbuilt_line}};

use crate::patterns::{first_pattern, first_unbuilt};
use std::alloc::{AllocError, Global};
use yv_base_streams::Input;
use yv_link_scopes::{Entry, Rows, name_of};
use yv_note_text::{excerpt, push_quoted, push_shown};
use yv_source::Texts;
use yv_text_statement::{Statement, Stop};

const REASON: &str =
    " is too large for the library of regular expressions, or takes more room than is left: all patterns of the files together have 256 MiB.\n";

// The name of a file and a line of it, and what is wrong there.
fn headline(alloc: Global, input: &Input, line: u64) -> Result<String, AllocError>
    ensures { IfOk result (λ s. string_bytes s ≡ unbuilt_line (file_of input.now) line) }
{
    let mut text = String::new(alloc);
    push_shown(&mut text, input.name.as_bytes())?;
    let place = format!(in alloc; ":{line}: pattern not built\n")?;
    text.push_str(place.as_str())?;
    Ok(text)
}

// The line of a file at a statement, with a caret under it.
fn line_at(alloc: Global, input: &Input, statement: &Statement<'_>) -> Result<String, AllocError>
    ensures { IfOk result
        (λ s. ShowsPlace (file_of input.now).bytes
        (min statement.now.head.offset (length (file_of input.now).bytes)) (string_bytes s)) }
{
    let place = usize::try_from(statement.offset()).unwrap_or(0);
    excerpt(alloc, &input.bytes, place.min(input.bytes.len()))
}

// What is said of a pattern of a file.
fn pattern_message(
    alloc: Global,
    input: &Input,
    statement: &Statement<'_>,
) -> Result<String, AllocError>
    ensures { IfOk result (λ s. TellsOf (file_of input.now) statement.now.head (string_bytes s)) }
{
    let mut text = headline(alloc, input, statement.line())?;
    let line = line_at(alloc, input, statement)?;
    text.push_str(line.as_str())?;
    push_quoted(&mut text, name_of(statement))?;
    text.push_str(REASON)?;
    Ok(text)
}

// The first pattern that isn't built in the order of the files; the first pattern, if all are built
// in this order.
fn pattern_to_tell<'r, 'a, 'b>(
    alloc: Global,
    rows: &'r Rows<'a, 'b>,
) -> Result<Option<&'r Entry<'a, 'b>>, AllocError>
    ensures { IfOk result
        (λ found. FindsPattern (rows_in rows.now) (option_map (λ e. row e.now) found)) }
{
    if let Some(entry) = first_unbuilt(alloc, rows)? {
        return Ok(Some(entry));
    }
    first_pattern(alloc, rows)
}

// What is said of a pattern that isn't built among the statements of the files.
fn told_among(
    alloc: Global,
    inputs: &[Input],
    rows: &Rows<'_, '_>,
) -> Result<Option<String>, AllocError>
    requires { length inputs.now ≡ length (lent_in rows.now) }
    ensures tells { IfOk result
        (λ found. IfSome found
        (λ s. TellsAmong (map file_of inputs.now) (rows_in rows.now) (string_bytes s))) }
    ensures none { IfOk result (λ found. IfNone found (AreNoPatterns (rows_in rows.now))) }
{
    yv_link_scopes::laws::roots_come_first();
    let Some(entry) = pattern_to_tell(alloc, rows)? else {
        return Ok(None);
    };
    match inputs.get(entry.file as usize) {
        Some(input) => Ok(Some(pattern_message(alloc, input, entry.statement)?)),
        None => unreachable!(),
    }
}

/// The message on the first pattern of the files that the library of regular expressions doesn't
/// build: the file and the line, that line with a caret under the statement, and below it the
/// pattern with the reason. The patterns are read in the order of the files, each in the room that
/// those before it leave; if all are built like this, it is about the first. None only if there is
/// no pattern of the dialect, or if the files can't be read.
pub fn unbuilt_pattern(alloc: Global, inputs: &[Input]) -> Result<Option<String>, AllocError>
    // A result describes a `pattern` statement of the files, which spell statements, whose argument
    // is in the dialect: the file's name, the statement's line, the line of the file that contains
    // its place, with a caret, and the argument in quotes.
    ensures tells { IfOk result
        (λ found. IfSome found (λ s. TellsPattern (map file_of inputs.now) (string_bytes s))) }
    // None is returned only if the files have no pattern.
    ensures none { IfOk result (λ found. IfNone found (HasNoPattern (map file_of inputs.now))) }
{
    let texts = Texts::read(alloc, inputs)?;
    match texts.statements(alloc) {
        Ok(statements) => {
            let rows = Rows::read(alloc, &statements)?;
            told_among(alloc, inputs, &rows)
        }
        Err(Stop::Fault(_)) => Ok(None),
        Err(Stop::NoMemory) => Err(AllocError),
        Err(Stop::PatternBuild) => unreachable!(),
    }
}
