//! The lines on the faults of a document.
ghost use Rattle.std.specs.Prelude.{◌≡◌, ◌≤◌, ◌*◌, ◌∷◌, [], ◌++◌, true, ℕ, List, length, map, min, IfOk, OnOk, string_bytes};
ghost use Rattle.yv_note_faults.specs.{Sentences.{AreSentences, IsHint, Tells, more_text}, Line.{IsSentence}, InnerAdds.{IsSaid}};
ghost use Rattle.yv_note_text.specs.Clear.{is_clear};

use crate::causes::Causes;
use crate::choice::choose;
use crate::document::{FaultNote, NotedDocument};
use crate::hint::{hint, push_more};
use crate::place_line::placed_line;
use crate::places::places_of;
use crate::sentence::sentence;
use std::alloc::{AllocError, Global};
use yv_base_streams::Input;
use yv_data_faults::Fault;
use yv_job::Job;
use yv_note_advice::Advisor;
use yv_note_places::LineColumn;
use yv_schema_tables::Schema;
use yv_source::Texts;

/// A line for each of the first faults of a document that a job checks, as many as the job says,
/// and what is to be said of all of them. A line has the place of the fault, the fault with the
/// keys of its entry, and what is wrong there and what to do; of a long path it has the last steps.
/// First comes the first fault of each cause, a kind of fault at a node of the schema, with how
/// many more are like it. No value but those of these faults is checked again. The statements of
/// the modules are read again where advice needs them.
pub fn sentences<'n>(
    alloc: Global,
    schema: &'n Schema,
    job: &'n Job,
    inputs: &'n [Input],
    document: &'n NotedDocument<'n>,
    faults: &[Fault],
) -> Result<FaultNote, AllocError>
    // The lines are sentences on the chosen faults, in their order, each with a place in the
    // document's file; the rest says how many faults have no line.
    ensures tells { IfOk result
        (λ note. Tells job.now.explain document.now.name.now faults.now (string_bytes note.lines)
        (string_bytes note.rest)) }
    // No character controls a terminal.
    ensures clear { IfOk result (λ note. is_clear (string_bytes note.lines) ≡ true) }
    // Nor one of the rest.
    ensures clear_rest { IfOk result (λ note. is_clear (string_bytes note.rest) ≡ true) }
    // If the name has at most 4,096 bytes, there are at most 6,000 for each line.
    ensures short { IfOk result
        (λ note. length document.now.name.now ≤ 4096
        → length (string_bytes note.lines) ≤ 6000 * min job.now.explain (length faults.now)) }
    // The rest has at most 6,000 bytes.
    ensures short_rest { IfOk result (λ note. length (string_bytes note.rest) ≤ 6000) }
{
    let most = job.explain as usize;
    let causes = Causes::find(alloc, faults, most)?;
    let those = choose(alloc, faults, causes.leads.as_slice(), most)?;
    let advisor = Advisor::new(schema, document.value, job, inputs);
    let lines = lines(alloc, &advisor, document, &causes, those.as_slice())?;
    let rest = rest(alloc, &advisor, faults, most)?;
    Ok(FaultNote { lines, rest })
}

// What is said of faults of which so many have a line.
fn rest(
    alloc: Global,
    advisor: &Advisor<'_, '_>,
    faults: &[Fault],
    most: usize,
) -> Result<String, AllocError>
    ensures { IfOk result (λ text. (hint : List ℕ) × IsHint (length faults.now) hint
        × (string_bytes text ≡ more_text most (length faults.now) ++ hint)) }
{
    let mut text = String::new(alloc);
    push_more(alloc, &mut text, faults.len(), most)?;
    let hint = hint(alloc, advisor, faults)?;
    text.push_str(hint.as_str())?;
    Ok(text)
}

// The lines on faults of these causes. The statements of the modules are read again where advice
// needs them.
fn lines(
    alloc: Global,
    advisor: &Advisor<'_, '_>,
    document: &NotedDocument<'_>,
    causes: &Causes,
    faults: &[&Fault],
) -> Result<String, AllocError>
    ensures { IfOk result
        (λ text. AreSentences document.now.name.now (map (λ f. f.now) faults.now)
        (string_bytes text)) }
{
    if !faults.iter().any(|fault| advisor.wants_statements(fault)) {
        return lines_on(alloc, advisor, document, causes, faults);
    }
    let texts = Texts::read(alloc, advisor.inputs)?;
    match texts.statements(alloc) {
        Ok(statements) => {
            let informed = advisor.with_statements(statements.as_slice());
            lines_on(alloc, &informed, document, causes, faults)
        }
        Err(_) => lines_on(alloc, advisor, document, causes, faults),
    }
}

// The lines on faults of these causes.
fn lines_on(
    alloc: Global,
    advisor: &Advisor<'_, '_>,
    document: &NotedDocument<'_>,
    causes: &Causes,
    faults: &[&Fault],
) -> Result<String, AllocError>
    ensures { IfOk result
        (λ text. AreSentences document.now.name.now (map (λ f. f.now) faults.now)
        (string_bytes text)) }
{
    let places = places_of(alloc, document, faults)?;
    let mut text = String::new(alloc);
    for (number, fault) in faults.iter().enumerate() {
        let place = places.get(number).copied().unwrap_or(TOP);
        let said = sentence(alloc, advisor, fault, causes.likes(number))?;
        let line = line_on(alloc, document.name, fault, place, said.as_str())?;
        text.push_str(line.as_str())?;
    }
    Ok(text)
}

// The line that says this of a fault.
fn line_on(
    alloc: Global,
    name: &[u8],
    fault: &Fault,
    place: LineColumn,
    said: &str,
) -> Result<String, AllocError>
    requires { IsSaid fault.now said.now }
    ensures { IfOk result (λ text. IsSentence name.now fault.now (string_bytes text)) }
{
    placed_line(alloc, name, place, said)
}

// Where a document begins.
const TOP: LineColumn = LineColumn { line: 1, column: 1 };
