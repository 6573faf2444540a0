//! What is done with conditions.
ghost use Rattle.std.specs.Prelude.{◌≡◌};
ghost use Rattle.yv_text_grammar.specs.Conditions.{is_refusal};

/// What is done with conditions: `must` and `when` statements, predicates in the paths of leafrefs,
/// and the type `instance-identifier`, all of which need XPath.
#[derive(Clone, Copy, PartialEq, Eq, Debug)]
pub enum Xpath {
    /// They are refused as `Unsupported`.
    Refuse,
    /// They are read, and not evaluated.
    Skip,
}

impl Xpath {
    // Whether conditions are refused.
    pub(crate) fn is_refusal(self) -> bool
        ensures { result ≡ is_refusal self }
    {
        matches!(self, Xpath::Refuse)
    }
}
