//! How far an instance-identifier is read.
ghost use Rattle.std.specs.Prelude.{◌≡◌};
ghost use Rattle.yv_text_path.specs.ShownPieces.{piece_shown};
ghost use Rattle.yv_text_instance.specs.InnerStates.{after, after_blank, after_closing_bracket, after_equals_sign, after_opening_bracket, after_quote, after_slash, after_token, after_word, in_double_quotes, in_single_quotes, is_end};

use crate::name::{is_key, is_position, is_qualified_name};
use yv_text_if_feature::is_name;
use yv_text_path::Piece;

/// The state of an instance-identifier that is partly read: what came last, and so what may come
/// next.
#[derive(Clone, Copy, PartialEq, Eq, Debug)]
pub enum State {
    /// Nothing: a slash comes.
    Start,
    /// The first slash: a name with its module comes.
    FirstName,
    /// Another slash: a name comes.
    Name,
    /// A name, perhaps with predicates: a slash, a predicate or nothing comes.
    AfterName,
    /// The `[` of a predicate: a position, `.` or a name comes.
    Predicate,
    /// `.` or a name in a predicate: `=` comes.
    AfterKey,
    /// The `=`: a quote comes.
    Value,
    /// A single quote: anything comes, and then a single quote.
    SingleQuotes,
    /// A double quote: anything comes, and then a double quote.
    DoubleQuotes,
    /// A position, or the quote after a value: `]` comes.
    Closing,
    /// What begins no instance-identifier.
    Wrong,
}

impl State {
    /// The state after one piece more.
    pub fn after(self, piece: Piece<'_>) -> State
        ensures { result ≡ after self (piece_shown piece.entry) }
    {
        match self {
            State::SingleQuotes => in_single_quotes(piece),
            State::DoubleQuotes => in_double_quotes(piece),
            _ => self.after_token(piece),
        }
    }

    // The state after one piece more, outside of quotes.
    fn after_token(self, piece: Piece<'_>) -> State
        ensures { result ≡ after_token self (piece_shown piece.entry) }
    {
        match piece {
            Piece::Word(word) => self.after_word(word),
            Piece::Blank => self.after_blank(),
            Piece::Slash => self.after_slash(),
            Piece::OpeningBracket => self.after_opening_bracket(),
            Piece::ClosingBracket => self.after_closing_bracket(),
            Piece::EqualsSign => self.after_equals_sign(),
            Piece::SingleQuote => self.after_quote(State::SingleQuotes),
            Piece::DoubleQuote => self.after_quote(State::DoubleQuotes),
            Piece::OpeningParenthesis | Piece::ClosingParenthesis | Piece::Other => State::Wrong,
        }
    }

    fn after_word(self, word: &[u8]) -> State
        ensures { result ≡ after_word self word.now }
    {
        match self {
            State::FirstName if is_qualified_name(word) => State::AfterName,
            State::Name if is_name(word) => State::AfterName,
            State::Predicate if is_position(word) => State::Closing,
            State::Predicate if is_key(word) => State::AfterKey,
            _ => State::Wrong,
        }
    }

    // Blanks may be between the brackets of a predicate only.
    fn after_blank(self) -> State
        ensures { result ≡ after_blank self }
    {
        match self {
            State::Start | State::FirstName | State::Name | State::AfterName => State::Wrong,
            _ => self,
        }
    }

    fn after_slash(self) -> State
        ensures { result ≡ after_slash self }
    {
        match self {
            State::Start => State::FirstName,
            State::AfterName => State::Name,
            _ => State::Wrong,
        }
    }

    fn after_opening_bracket(self) -> State
        ensures { result ≡ after_opening_bracket self }
    {
        match self {
            State::AfterName => State::Predicate,
            _ => State::Wrong,
        }
    }

    fn after_closing_bracket(self) -> State
        ensures { result ≡ after_closing_bracket self }
    {
        match self {
            State::Closing => State::AfterName,
            _ => State::Wrong,
        }
    }

    fn after_equals_sign(self) -> State
        ensures { result ≡ after_equals_sign self }
    {
        match self {
            State::AfterKey => State::Value,
            _ => State::Wrong,
        }
    }

    // The quote that a value begins with leads into quotes.
    fn after_quote(self, quotes: State) -> State
        ensures { result ≡ after_quote self quotes }
    {
        match self {
            State::Value => quotes,
            _ => State::Wrong,
        }
    }

    /// Whether what was read is an instance-identifier.
    pub fn is_end(self) -> bool
        ensures { result ≡ is_end self }
    {
        matches!(self, State::AfterName)
    }
}

// Anything may be inside of quotes, up to the same quote.
fn in_single_quotes(piece: Piece<'_>) -> State
    ensures { result ≡ in_single_quotes (piece_shown piece.entry) }
{
    match piece {
        Piece::SingleQuote => State::Closing,
        _ => State::SingleQuotes,
    }
}

fn in_double_quotes(piece: Piece<'_>) -> State
    ensures { result ≡ in_double_quotes (piece_shown piece.entry) }
{
    match piece {
        Piece::DoubleQuote => State::Closing,
        _ => State::DoubleQuotes,
    }
}
