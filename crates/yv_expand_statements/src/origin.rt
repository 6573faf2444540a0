//! The statements from which schema nodes come.
ghost use Rattle.std.specs.Prelude.{◌≡◌};
ghost use Rattle.yv_expand_statements.specs.Origin.{number_of};

/// The origin of a schema node: the statement from which it comes.
#[derive(Clone, Copy, Debug, PartialEq, Eq)]
pub enum Origin {
    /// The statement of this number.
    Statement(usize),
    /// The input that the rpc or action of this number has without writing it (RFC 7950, sections
    /// 7.14 and 7.15).
    Input(usize),
    /// The output that the rpc or action of this number has without writing it.
    Output(usize),
}

impl Origin {
    /// The number of the statement: the one that gives the node, or the operation that does not
    /// write its input or output.
    pub fn number(self) -> usize
        ensures { result ≡ number_of self }
    {
        match self {
            Origin::Statement(number) => number,
            Origin::Input(number) => number,
            Origin::Output(number) => number,
        }
    }
}
