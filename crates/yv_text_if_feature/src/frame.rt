//! What is known of an expression that is partly read.
ghost use Rattle.std.specs.Prelude.{◌≡◌};
ghost use Rattle.yv_text_if_feature.specs.State.{empty, holds, with_not, with_factor, with_or};

/// What is known inside a pair of parentheses.
#[derive(Clone, Copy)]
pub struct Frame {
    /// Whether a term before this one holds.
    pub earlier: bool,
    /// Whether each factor of this term holds so far.
    pub term: bool,
    /// Whether the next factor is turned round.
    pub negated: bool,
}

impl Frame {
    pub fn empty() -> Frame
        ensures { result ≡ empty }
    {
        Frame {
            earlier: false,
            term: true,
            negated: false,
        }
    }

    /// Whether what is read holds, as an expression.
    pub fn holds(self) -> bool
        ensures { result ≡ holds self }
    {
        self.earlier || self.term
    }

    /// A factor is read, with its truth.
    pub fn with_factor(self, truth: bool) -> Frame
        ensures { result ≡ with_factor truth self }
    {
        Frame {
            earlier: self.earlier,
            term: self.term && truth != self.negated,
            negated: false,
        }
    }

    /// A `not` is read.
    pub fn with_not(self) -> Frame
        ensures { result ≡ with_not self }
    {
        Frame {
            earlier: self.earlier,
            term: self.term,
            negated: !self.negated,
        }
    }

    /// An `or` is read.
    pub fn with_or(self) -> Frame
        ensures { result ≡ with_or self }
    {
        Frame {
            earlier: self.earlier || self.term,
            term: true,
            negated: false,
        }
    }
}
