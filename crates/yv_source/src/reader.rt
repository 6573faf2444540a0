//! The statement that a text spells.

ghost use Rattle.std.specs.Prelude.{◌≡◌, ◌≤◌, ◌+◌, ◌*◌, ◌⊎◌, None, IfOk, IfSome, drop, length, reverse};
ghost use Rattle.yv_text_statement.specs.{Tree.{Tree}, declared.refusal.Refusal.{Refusal}};
ghost use Rattle.yv_source.specs.{Answer.{IsSpelled, IsRefused}, Legal.{IsLegalFile, most_bytes}, Place.{mark_len}, Inner.End.{Comes, ended_in, refusal_of_halt, IsChecked, IsEnd}};
ghost use Rattle.yv_text_statement.specs.Offsets.{IsInOrder};

use crate::escapes::{bad_found, is_newer};
use crate::fault::refuse;
use crate::gap::past_gap;
use crate::machine::{Halt, Phase};
use crate::place::{Lines, mark_len_of};
use crate::scan::{Ahead, Before, look_ahead};
use crate::source::Source;
use crate::turn::turn;
use std::alloc::Global;
use yv_text_statement::{Code, Statement, Stop};

/// The one statement of a source (RFC 7950, section 6), or what is refused first: BadToken where no
/// token is allowed, BadSyntax at the first token that cannot continue a statement, or at the
/// text's end where none is whole, TooDeep at a keyword of depth 65; and where none of these
/// applies, BadEscape at the first backslash pair that YANG 1.1 doesn't know, in a file of that
/// version. An offset counts bytes, a line is counted from 1.
pub fn parse<'a>(alloc: Global, source: &'a Source) -> Result<Statement<'a>, Stop>
    // The statement is the one that the text spells.
    ensures spells { IfOk result (IsSpelled source.now.text) }
    // The refusal is the one with which the text is refused.
    ensures refuses { (r : Refusal) → result ≡ Err (Stop.Fault r) → IsRefused source.now.text r }
    // `PatternBuild` is never returned.
    ensures never_built { result ≡ Err Stop.PatternBuild → ⊥ }

    // If the text spells a statement, that statement is returned, or out of memory.
    ensures only_spelled { (t : Tree) → IsSpelled source.now.text t → (result ≡ Ok t)
        ⊎ (result ≡ Err Stop.NoMemory) }
    // If the text is refused, that refusal is returned, or out of memory.
    ensures only_refused { (r : Refusal) → IsRefused source.now.text r
        → (result ≡ Err (Stop.Fault r)) ⊎ (result ≡ Err Stop.NoMemory) }

    // Each statement comes before those of its block, and these come before the statements that
    // follow it.
    ensures order { IfOk result IsInOrder }
    // The text of a source is legal.
    ensures legal { IsLegalFile source.now.text }
{
    parse_text(alloc, source.text())
}

/// The one statement of a text, likewise.
pub(crate) fn parse_text<'a>(alloc: Global, text: &'a str) -> Result<Statement<'a>, Stop>
    requires { length text.now ≤ most_bytes }
    ensures { Comes text.now result }
{
    read(alloc, text, mark_len_of(text.as_bytes()))
}

// Reads the one statement of a text, from a place on.
fn read<'a>(alloc: Global, text: &'a str, start: usize) -> Result<Statement<'a>, Stop>
    requires start { start ≡ mark_len text.now }
    requires size { length text.now ≤ most_bytes }
    ensures { Comes text.now result }
{
    let bytes = text.as_bytes();
    let mut stack = Vec::new(alloc);
    let mut lines = Lines::new();
    let mut phase = Phase::Between;
    let mut before = Before::Apart;
    let mut bad = None;
    let mut at = start;
    loop {
        let found = match look_ahead(before, bytes, at) {
            Ahead::End => return at_end(stack, phase, at, bad, bytes),
            Ahead::Nothing => return Err(refuse(Code::BadToken, bytes, at)),
            Ahead::Piece(found) => found,
        };
        phase = match turn(alloc, &mut stack, &mut lines, phase, text, found, at) {
            Ok(next) => next,
            Err(halt) => return Err(refusal_of_halt(halt, bytes, at)),
        };
        bad = bad_found(bad, bytes, found, at);
        before = before.past(found);
        let end = at + found.length();
        at = past_gap(before, bytes, end);
    }
}

// The answer at a text's end.
fn at_end<'a>(
    stack: Vec<Statement<'a>>,
    phase: Phase,
    at: usize,
    bad: Option<usize>,
    bytes: &[u8],
) -> Result<Statement<'a>, Stop>
    requires at { at ≤ length bytes.now }
    requires bad { IfSome bad (λ n. n ≤ length bytes.now) }
    ensures { IsEnd bytes.now bad at (ended_in phase (reverse stack.entry.items)) result }
{
    match whole_statement(stack, phase) {
        None => Err(refuse(Code::BadSyntax, bytes, at)),
        Some(statement) => check_escapes(statement, bad, bytes),
    }
}

// The statement, where it is whole.
fn whole_statement<'a>(mut stack: Vec<Statement<'a>>, phase: Phase) -> Option<Statement<'a>>
    ensures { result ≡ ended_in phase (reverse stack.entry.items) }
{
    if !matches!(phase, Phase::Done) {
        return None;
    }
    stack.pop()
}

// The statement, where it has no bad backslash pair that counts.
fn check_escapes<'a>(
    statement: Statement<'a>,
    bad: Option<usize>,
    bytes: &[u8],
) -> Result<Statement<'a>, Stop>
    requires { IfSome bad (λ n. n ≤ length bytes.now) }
    ensures { IsChecked bytes.now bad statement.entry result }
{
    match bad {
        Some(at) if is_newer(&statement) => Err(refuse(Code::BadEscape, bytes, at)),
        _ => Ok(statement),
    }
}

// The refusal of a token at a place.
fn refusal_of_halt(halt: Halt, bytes: &[u8], at: usize) -> Stop
    requires { at ≤ length bytes.now }
    ensures { result ≡ refusal_of_halt halt bytes.now at }
{
    match halt {
        Halt::Wrong => refuse(Code::BadSyntax, bytes, at),
        Halt::Deep => refuse(Code::TooDeep, bytes, at),
        Halt::NoMemory => Stop::NoMemory,
    }
}
