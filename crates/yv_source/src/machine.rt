//! Statements from tokens, one at a time.

ghost use Rattle.std.specs.{Prelude.{◌≡◌, ◌≤◌, length, IfOk, reverse, MatchResult}, Cow.{cow_str_bytes}};
ghost use Rattle.yv_source.specs.{Inner.Machine.{Next, is_keyword, step_at, between_at, start_at, after_keyword, after_argument, after_quoted, after_plus, give_word, give_quoted, close, finish}, Inner.Steps.{Gives, piece_of}, Inner.Place.{AreCounted, place_of}, Legal.{most_bytes}, Outcome.{most_deep}};

use crate::double_quotes::read_quoted;
use crate::identifier::is_keyword;
use crate::place::Lines;
use std::alloc::{AllocError, AllocFailed, Global};
use std::borrow::CowStr;
use yv_text_statement::{Keyword, Statement};

/// How deep a statement may be, the outermost having depth 1.
const MOST_DEEP: usize = 64;

/// What was read of the innermost open statement.
#[derive(Clone, Copy)]
pub(crate) enum Phase {
    /// Its block so far; or nothing, where no statement is open.
    Between,
    /// Its keyword.
    Named,
    /// Its keyword and its argument, which is an unquoted text.
    Argued,
    /// Its keyword and the quoted texts of its argument so far.
    Said,
    /// The same, and a sign that joins one more.
    Joined,
    /// All of the outermost.
    Done,
}

/// A piece of the text that is neither blank nor comment.
#[derive(Clone, Copy)]
pub(crate) enum Token<'a> {
    Word(&'a str),
    Single(&'a str),
    Double(&'a str),
    Semicolon,
    Open,
    Close,
    Plus,
}

/// Why a token isn't taken.
#[derive(Clone, Copy)]
pub(crate) enum Halt {
    /// No statement goes on with it.
    Wrong,
    /// It begins a statement that is too deep.
    Deep,
    NoMemory,
}

impl From<AllocError> for Halt {
    ghost use Rattle.std.specs.Prelude.{◌≡◌};
    ghost use Rattle.yv_source.specs.declared.machine.Halt.TheVariants.{NoMemory};

    ghost from_gives = { λ _ h. h ≡ NoMemory };

    fn from(_error: AllocError) -> Halt {
        Halt::NoMemory
    }
}

impl<T: Drop> From<AllocFailed<T>> for Halt {
    ghost use Rattle.std.specs.Prelude.{◌≡◌};
    ghost use Rattle.yv_source.specs.declared.machine.Halt.TheVariants.{NoMemory};

    ghost from_gives = { λ _ h. h ≡ NoMemory };

    fn from(_error: AllocFailed<T>) -> Halt {
        Halt::NoMemory
    }
}

/// Takes a token after the text before it: the open statements, the innermost last, become those
/// after it.
pub(crate) fn step<'a>(
    alloc: Global,
    stack: &mut Vec<Statement<'a>>,
    lines: &mut Lines,
    phase: Phase,
    token: Token<'a>,
    front: &[u8],
) -> Result<Phase, Halt>
    requires size { length front.now ≤ most_bytes }
    requires counted { AreCounted lines.old front.now }
    ensures gives { Gives result (reverse stack.new.items)
        (step_at most_deep (reverse stack.old.items) phase (place_of front.now)
        (piece_of token.entry)) }
    ensures counts { AreCounted lines.new front.now }
{
    match (phase, token) {
        (Phase::Between, Token::Word(keyword)) => start(alloc, stack, lines, keyword, front),
        (Phase::Between, Token::Close) => close(stack),
        (Phase::Named, Token::Word(text)) => give_word(stack, text),
        (Phase::Named | Phase::Joined, Token::Single(text)) => {
            give_quoted(alloc, stack, CowStr::Borrowed(text))
        }
        (Phase::Named | Phase::Joined, Token::Double(text)) => {
            give_quoted(alloc, stack, read_quoted(alloc, text, front)?)
        }
        (Phase::Named | Phase::Argued | Phase::Said, Token::Semicolon) => close(stack),
        (Phase::Named | Phase::Argued | Phase::Said, Token::Open) => Ok(Phase::Between),
        (Phase::Said, Token::Plus) => Ok(Phase::Joined),
        _ => Err(Halt::Wrong),
    }
}

// Opens a statement after the text before it.
fn start<'a>(
    alloc: Global,
    stack: &mut Vec<Statement<'a>>,
    lines: &mut Lines,
    keyword: &'a str,
    front: &[u8],
) -> Result<Phase, Halt>
    requires size { length front.now ≤ most_bytes }
    requires counted { AreCounted lines.old front.now }
    ensures gives { Gives result (reverse stack.new.items)
        (start_at most_deep (reverse stack.old.items) (place_of front.now) keyword.now) }
    ensures counts { AreCounted lines.new front.now }
{
    let line = lines.line_after(front);
    let statement = Statement::new(alloc, keyword, line as u64, front.len() as u64);
    if !has_keyword(&statement) {
        return Err(Halt::Wrong);
    }
    if stack.len() >= MOST_DEEP {
        return Err(Halt::Deep);
    }
    stack.push(statement)?;
    Ok(Phase::Named)
}

// Whether a statement's keyword is one. Those that the statement knows are, and need no look at
// their characters.
fn has_keyword(statement: &Statement<'_>) -> bool
    ensures { result ≡ is_keyword statement.now.head.keyword }
{
    if statement.is(Keyword::Unknown) || statement.is(Keyword::Extended) {
        return is_keyword(statement.keyword().as_bytes());
    }
    true
}

// Gives the innermost statement its argument.
fn give_word<'a>(stack: &mut Vec<Statement<'a>>, text: &'a str) -> Result<Phase, Halt>
    ensures { Gives result (reverse stack.new.items)
        (give_word text.now (reverse stack.old.items)) }
{
    let Some(statement) = stack.last_mut() else {
        return Err(Halt::Wrong);
    };
    statement.lend(text);
    Ok(Phase::Argued)
}

// Gives the innermost statement more of its argument.
fn give_quoted<'a>(
    alloc: Global,
    stack: &mut Vec<Statement<'a>>,
    text: CowStr<'a>,
) -> Result<Phase, Halt>
    ensures { Gives result (reverse stack.new.items)
        (give_quoted (cow_str_bytes text.entry) (reverse stack.old.items)) }
{
    let Some(statement) = stack.last_mut() else {
        return Err(Halt::Wrong);
    };
    statement.extend(alloc, text)?;
    Ok(Phase::Said)
}

// Ends the innermost statement.
fn close<'a>(stack: &mut Vec<Statement<'a>>) -> Result<Phase, Halt>
    ensures { Gives result (reverse stack.new.items) (close (reverse stack.old.items)) }
{
    let Some(statement) = stack.pop() else {
        return Err(Halt::Wrong);
    };
    Ok(finish(stack, statement)?)
}

// Hands a statement to the one around it.
fn finish<'a>(stack: &mut Vec<Statement<'a>>, done: Statement<'a>) -> Result<Phase, AllocError>
    ensures { IfOk result
        (λ phase. finish done.entry (reverse stack.old.items)
        ≡ Next (reverse stack.new.items) phase) }
{
    let Some(parent) = stack.last_mut() else {
        stack.push(done)?;
        return Ok(Phase::Done);
    };
    parent.adopt(done)?;
    Ok(Phase::Between)
}
