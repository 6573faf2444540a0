//! One pass over the words of an expression.
ghost use Rattle.std.specs.Prelude.{◌≡◌, ℕ, Bool, false, List, [], ◌∷◌, ◌++◌};
ghost use Rattle.yv_text_if_feature.specs.{State.{completion}, Reads.{Agrees, HasRead}, WordTokens.{token_shown}, Tokens.{Token}, Truth.{IsTruth}};
ghost use Rattle.yv_text_if_feature.specs.Tokens as token;

use crate::frame::Frame;
use crate::stack::{MOST_OPEN, Stack};
use crate::word::Word;
use std::marker::Model;

/// Finds the truth of an expression in one pass over its words, in constant memory: it keeps only
/// what is known inside and outside of the open parentheses, at most 64 of them.
///
/// A caller looks each name up by itself:
///
/// ```text
/// for word in Words::new(text) {
///     let holds = match word { Word::Name(name) => .., _ => false };
///     evaluator.take(word, holds);
/// } evaluator.truth()
/// ```
///
/// Contracts see it as what is known of the expression.
#[derive(Drop)]
pub struct Evaluator {
    // Whether a word was where it may not.
    is_lost: bool,
    // Whether an operand comes next.
    wants_operand: bool,
    // Inside the innermost parenthesis that is open.
    frame: Frame,
    outside: Stack,
}

impl Model for Evaluator {
    ghost use Rattle.yv_text_if_feature.specs.State.{State};

    ghost Value = { State };

    ghost view = { λ e. record { is_lost = e.is_lost; wants_operand = e.wants_operand; frame = e.frame; outside = e.outside } };
}

impl Evaluator {
    /// An evaluator that has read nothing.
    pub fn new() -> Evaluator
        ensures { (names : List ℕ → Bool) → HasRead names result [] }
    {
        Evaluator {
            is_lost: false,
            wants_operand: true,
            frame: Frame::empty(),
            outside: Stack::new(),
        }
    }

    /// Reads one more word. Whether it holds counts only for a name.
    pub fn take(&mut self, word: Word<'_>, holds: bool)
        ensures { (names : List ℕ → Bool) (before : List Token) → HasRead names self.old before
            → Agrees names (token_shown word.entry) holds
            → HasRead names self.new (before ++ token_shown word.entry ∷ []) }
    {
        self.step(word, holds);
    }

    fn step(&mut self, word: Word<'_>, holds: bool)
        ensures { (names : List ℕ → Bool) → Agrees names (token_shown word.entry) holds
            → (rest : List Token) → completion names self.new rest
            ≡ completion names self.old (token_shown word.entry ∷ rest) }
    {
        match (self.wants_operand, word) {
            (true, Word::Name(_)) => {
                self.frame = self.frame.with_factor(holds);
                self.wants_operand = false;
            }
            (true, Word::Not) => self.frame = self.frame.with_not(),
            (true, Word::Open) if self.outside.len() < MOST_OPEN => {
                self.outside.push(self.frame);
                self.frame = Frame::empty();
            }
            (false, Word::Close) => self.close(),
            (false, Word::And) => self.wants_operand = true,
            (false, Word::Or) => {
                self.frame = self.frame.with_or();
                self.wants_operand = true;
            }
            _ => self.is_lost = true,
        }
    }

    fn close(&mut self)
        ensures { self.old.wants_operand ≡ false → (names : List ℕ → Bool) (rest : List Token)
            → completion names self.new rest ≡ completion names self.old (token.Close ∷ rest) }
    {
        match self.outside.pop() {
            Some(frame) => self.frame = frame.with_factor(self.frame.holds()),
            None => self.is_lost = true,
        }
    }

    /// The truth of the expression that the words are, or `None` where they are not an expression.
    pub fn truth(&self) -> Option<bool>
        ensures { (names : List ℕ → Bool) (tokens : List Token) → HasRead names self.now tokens
            → IsTruth names tokens result }
    {
        self.outcome()
    }

    // The truth of the expression, if nothing follows.
    fn outcome(&self) -> Option<bool>
        ensures { (names : List ℕ → Bool) → result ≡ completion names self.now [] }
    {
        if self.is_lost || self.wants_operand || self.outside.len() > 0 {
            None
        } else {
            Some(self.frame.holds())
        }
    }
}
