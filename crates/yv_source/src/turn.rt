//! One turn of the reader.

ghost use Rattle.std.specs.{Prelude.{◌≡◌, ◌≤◌, ◌+◌, length, take, drop, reverse, IsCharBoundary}, Option.{option_map}};
ghost use Rattle.yv_source.specs.{Inner.Place.{AreCounted, place_at}, Inner.Steps.{Gives, piece_of}, Inner.Turn.{opener, inner, token_at, turn}, Legal.{most_bytes}};

use crate::machine::{Halt, Phase, Token, step};
use crate::place::Lines;
use crate::scan::FoundPiece;
use std::alloc::Global;
use yv_text_statement::Statement;

/// Takes the piece that was found at an offset, where it is a token.
pub(crate) fn turn<'a>(
    alloc: Global,
    stack: &mut Vec<Statement<'a>>,
    lines: &mut Lines,
    phase: Phase,
    text: &'a str,
    found: FoundPiece,
    at: usize,
) -> Result<Phase, Halt>
    requires size { length text.now ≤ most_bytes }
    requires within { at ≤ length text.now }
    requires from { IsCharBoundary text.now (at + opener found) }
    requires to { IsCharBoundary text.now (at + opener found + inner found) }
    requires counted { AreCounted lines.old (take at text.now) }
    ensures gives { Gives result (reverse stack.new.items)
        (turn text.now found (reverse stack.old.items) phase (place_at text.now at)) }
    ensures counts { AreCounted lines.new (take at text.now) }
{
    match token_of(text, found, at) {
        None => Ok(phase),
        Some(token) => step(alloc, stack, lines, phase, token, front_at(text, at)),
    }
}

// The bytes before an offset.
fn front_at(text: &str, at: usize) -> &[u8]
    requires { at ≤ length text.now }
    ensures { result.now ≡ take at text.now }
{
    &text.as_bytes()[..at]
}

fn token_of<'a>(text: &'a str, found: FoundPiece, at: usize) -> Option<Token<'a>>
    requires from { IsCharBoundary text.now (at + opener found) }
    requires to { IsCharBoundary text.now (at + opener found + inner found) }
    ensures { option_map piece_of result
        ≡ token_at found (take (inner found) (drop (at + opener found) text.now)) }
{
    match found {
        FoundPiece::Word(len) => Some(Token::Word(&text[at..at + len])),
        FoundPiece::Single(len) => Some(Token::Single(&text[at + 1..at + 1 + len])),
        FoundPiece::Double(len) => Some(Token::Double(&text[at + 1..at + 1 + len])),
        FoundPiece::Semicolon => Some(Token::Semicolon),
        FoundPiece::Open => Some(Token::Open),
        FoundPiece::Close => Some(Token::Close),
        FoundPiece::Plus => Some(Token::Plus),
        FoundPiece::Blank | FoundPiece::LineComment(_) | FoundPiece::BlockComment(_) => None,
    }
}
