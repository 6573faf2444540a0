//! What is said of a refusal.
ghost use Rattle.std.specs.{Prelude.{◌≡◌, IfOk, IfSome, OnOk, OnErr, option_map, string_bytes}, List.{find}};
ghost use Rattle.yv_link_scopes.specs.{Rows.{row}, Views.{rows_in}};
ghost use Rattle.yv_note_text.specs.Quotes.{Extends, Quotes};
ghost use Rattle.yv_note_refusals.specs.Subject.{Names, is_at, subject};

use crate::cause::Refused;
use crate::words::subject;
use std::alloc::{AllocError, Global};
use yv_base_streams::Input;
use yv_job::Job;
use yv_link_scopes::{Entry, Rows};
use yv_note_statements::{Message, Site, entries, push_around, push_plain, sentence_of};
use yv_text_statement::{Code, Refusal, Statement};

// Whether a statement is at the refusal's place.
fn is_at(entry: &Entry<'_, '_>, refusal: &Refusal) -> bool
    ensures { result ≡ is_at refusal.now (row entry.now) }
{
    entry.file == refusal.file && entry.statement.offset() == refusal.offset
}

// The statement at the refusal's place.
fn statement_at<'r, 'a, 'b>(rows: &'r Rows<'a, 'b>, refusal: &Refusal) -> Option<&'r Entry<'a, 'b>>
    ensures { option_map (λ e. row e.now) result ≡ find (is_at refusal.now) (rows_in rows.now) }
{
    for entry in rows.entries() {
        if is_at(entry, refusal) {
            return Some(entry);
        }
    }
    None
}

// The number of the statement at the refusal's place.
fn number_at(rows: &Rows<'_, '_>, refusal: &Refusal) -> usize {
    rows.entries()
        .iter()
        .position(|entry| is_at(entry, refusal))
        .unwrap_or(0)
}

// What is said of a refusal at a statement.
fn telling_of<'a>(
    alloc: Global,
    rows: &Rows<'a, '_>,
    job: &'a Job,
    refusal: &Refusal,
) -> Result<Message<'a>, AllocError> {
    let entries = entries(alloc, rows)?;
    let mut telling = Message::new(alloc);
    if let Some(site) = Site::at(&entries, number_at(rows, refusal)) {
        let refused = Refused {
            rows,
            site,
            job,
            code: refusal.code,
        };
        refused.tell_cause(&mut telling)?;
    }
    if telling.is_empty() {
        telling.sentence(refusal.code);
    }
    telling.outcome()?;
    Ok(telling)
}

// Adds what is said of a refusal at a place where no statement is.
fn push_meaning(text: &mut String, code: Code) -> Result<(), AllocError>
    ensures { OnOk result (Extends (string_bytes text.old) (string_bytes text.new)) }
{
    let sentence = sentence_of(code);
    text.push_str(sentence.before)?;
    text.push_str(sentence.after)
}

// Adds what is said of a refusal at a statement.
fn push_about(
    text: &mut String,
    inputs: &[Input],
    telling: &Message<'_>,
    code: Code,
    statement: &Statement<'_>,
) -> Result<(), AllocError>
    ensures grows { OnOk result (Extends (string_bytes text.old) (string_bytes text.new)) }
    ensures names { OnOk result
        (IfSome (subject code statement.now.head) (λ word. Quotes word (string_bytes text.new))) }
{
    match subject(code, statement) {
        Some(word) => push_around(text, inputs, telling, word),
        None => push_plain(text, inputs, telling),
    }
}

// What is said of a refusal.
fn sentence<'a>(
    alloc: Global,
    inputs: &[Input],
    rows: &Rows<'a, '_>,
    job: &'a Job,
    refusal: &Refusal,
) -> Result<String, AllocError>
    ensures { IfOk result (λ s. Names (rows_in rows.now) refusal.now (string_bytes s)) }
{
    let mut text = String::new(alloc);
    let Some(entry) = statement_at(rows, refusal) else {
        push_meaning(&mut text, refusal.code)?;
        return Ok(text);
    };
    let telling = telling_of(alloc, rows, job, refusal)?;
    push_about(&mut text, inputs, &telling, refusal.code, entry.statement)?;
    Ok(text)
}

/// Adds what is said of a refusal: a sentence that names the word at fault, if there is a statement
/// at its place, and else one that fits every refusal of its code. The sentence reports the cause
/// as far as it is found. If memory runs out, the text is as it was.
pub fn push_sentence<'a>(
    alloc: Global,
    text: &mut String,
    inputs: &[Input],
    rows: &Rows<'a, '_>,
    job: &'a Job,
    refusal: &Refusal,
) -> Result<(), AllocError>
    // The text is extended, and quotes the word of the first statement at the refusal's place.
    ensures grows { OnOk result (Extends (string_bytes text.old) (string_bytes text.new)) }
    // It quotes the word of the first statement at the refusal's place.
    ensures names { OnOk result (Names (rows_in rows.now) refusal.now (string_bytes text.new)) }
    // After an error the text is as it was.
    ensures same { OnErr result (string_bytes text.new ≡ string_bytes text.old) }
{
    let sentence = sentence(alloc, inputs, rows, job, refusal)?;
    text.push_str(sentence.as_str())?;
    Ok(())
}
