//! How far a path is read.
ghost use Rattle.std.specs.Prelude.{◌≡◌};
ghost use Rattle.yv_text_path.specs.{InnerStates.{after, after_blank, after_closing_bracket, after_closing_parenthesis, after_equals_sign, after_opening_bracket, after_opening_parenthesis, after_slash, after_word, is_after_inner_name, is_end}, ShownPieces.{piece_shown}};

use crate::piece::Piece;
use yv_text_if_feature::is_name;

/// The state of a path that is partly read: what came last, and so what may come next.
#[derive(Clone, Copy, PartialEq, Eq, Debug)]
pub enum State {
    /// Nothing: `/` or `..` comes.
    Start,
    /// `..`: a slash comes.
    Dots,
    /// `../`: `..` or a name comes.
    UpOrStep,
    /// A slash after a name or at the start: a name comes.
    Step,
    /// A name, perhaps with predicates: a slash, a predicate or nothing comes.
    AfterStep,
    /// The `[` of a predicate: a name comes.
    Key,
    /// The name of a key: `=` comes.
    AfterKey,
    /// The `=`: `current` comes.
    Function,
    /// `current`: `(` comes.
    Opening,
    /// The `(`: `)` comes.
    Closing,
    /// The `)`: a slash comes.
    FirstSlash,
    /// The slash after the `)`: `..` comes.
    FirstDots,
    /// `..` in a predicate: a slash comes.
    InnerDots,
    /// `../` in a predicate: `..` or a name comes.
    InnerUpOrName,
    /// A slash after a name in a predicate: a name comes.
    InnerName,
    /// A name of the path in a predicate: a slash or `]` comes.
    AfterInnerName,
    /// What begins no path.
    Wrong,
}

impl State {
    /// The state after one piece more.
    pub fn after(self, piece: Piece<'_>) -> State
        ensures { result ≡ after self (piece_shown piece.entry) }
    {
        match piece {
            Piece::Word(word) => self.after_word(word),
            Piece::Blank => self.after_blank(),
            Piece::Slash => self.after_slash(),
            Piece::OpeningBracket => self.after_opening_bracket(),
            Piece::ClosingBracket => self.after_closing_bracket(),
            Piece::EqualsSign => self.after_equals_sign(),
            Piece::OpeningParenthesis => self.after_opening_parenthesis(),
            Piece::ClosingParenthesis => self.after_closing_parenthesis(),
            Piece::SingleQuote | Piece::DoubleQuote | Piece::Other => State::Wrong,
        }
    }

    fn after_word(self, word: &[u8]) -> State
        ensures { result ≡ after_word self word.now }
    {
        let is_up = word == b"..".as_slice();
        match self {
            State::Start if is_up => State::Dots,
            State::UpOrStep | State::Step if is_name(word) => State::AfterStep,
            State::UpOrStep if is_up => State::Dots,
            State::Key if is_name(word) => State::AfterKey,
            State::Function if word == b"current".as_slice() => State::Opening,
            State::FirstDots if is_up => State::InnerDots,
            State::InnerUpOrName | State::InnerName if is_name(word) => State::AfterInnerName,
            State::InnerUpOrName if is_up => State::InnerDots,
            _ => State::Wrong,
        }
    }

    // Blanks may be between the brackets of a predicate only.
    fn after_blank(self) -> State
        ensures { result ≡ after_blank self }
    {
        match self {
            State::Start | State::Dots | State::UpOrStep => State::Wrong,
            State::Step | State::AfterStep => State::Wrong,
            _ => self,
        }
    }

    fn after_slash(self) -> State
        ensures { result ≡ after_slash self }
    {
        match self {
            State::Start | State::AfterStep => State::Step,
            State::Dots => State::UpOrStep,
            State::FirstSlash => State::FirstDots,
            State::InnerDots => State::InnerUpOrName,
            State::AfterInnerName => State::InnerName,
            _ => State::Wrong,
        }
    }

    fn after_opening_bracket(self) -> State
        ensures { result ≡ after_opening_bracket self }
    {
        match self {
            State::AfterStep => State::Key,
            _ => State::Wrong,
        }
    }

    fn after_closing_bracket(self) -> State
        ensures { result ≡ after_closing_bracket self }
    {
        match self {
            State::AfterInnerName => State::AfterStep,
            _ => State::Wrong,
        }
    }

    fn after_equals_sign(self) -> State
        ensures { result ≡ after_equals_sign self }
    {
        match self {
            State::AfterKey => State::Function,
            _ => State::Wrong,
        }
    }

    fn after_opening_parenthesis(self) -> State
        ensures { result ≡ after_opening_parenthesis self }
    {
        match self {
            State::Opening => State::Closing,
            _ => State::Wrong,
        }
    }

    fn after_closing_parenthesis(self) -> State
        ensures { result ≡ after_closing_parenthesis self }
    {
        match self {
            State::Closing => State::FirstSlash,
            _ => State::Wrong,
        }
    }

    /// Whether what was read is a path.
    pub fn is_end(self) -> bool
        ensures { result ≡ is_end self }
    {
        matches!(self, State::AfterStep)
    }

    /// Whether a name in a predicate was read last, perhaps with blanks after it.
    pub fn is_after_inner_name(self) -> bool
        ensures { result ≡ is_after_inner_name self }
    {
        matches!(self, State::AfterKey | State::AfterInnerName)
    }
}
