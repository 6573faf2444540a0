//! The kinds of statements that give schema nodes.
ghost use Rattle.std.specs.Prelude.{◌≡◌};
ghost use Rattle.yv_expand_statements.specs.Kinds.{is_node, is_choice, is_case, may_be_target};

/// What a statement gives: a schema node of a kind (RFC 7950, section 3), or what a `uses` copies.
/// The input and output of an operation have kinds too, written or not.
#[derive(Clone, Copy, Debug, PartialEq, Eq)]
pub enum StatementKind {
    Container,
    Leaf,
    LeafList,
    List,
    Choice,
    Case,
    Anydata,
    Anyxml,
    Rpc,
    Action,
    /// The input of an rpc or action, written or not.
    Input,
    /// The output of an rpc or action, written or not.
    Output,
    Notification,
    /// Not a schema node: what it gives is beside it.
    Uses,
}

impl StatementKind {
    /// Whether it is a schema node.
    pub fn is_node(self) -> bool
        ensures { result ≡ is_node self }
    {
        !matches!(self, StatementKind::Uses)
    }

    /// Whether it is a choice.
    pub fn is_choice(self) -> bool
        ensures { result ≡ is_choice self }
    {
        matches!(self, StatementKind::Choice)
    }

    /// Whether it is a case.
    pub fn is_case(self) -> bool
        ensures { result ≡ is_case self }
    {
        matches!(self, StatementKind::Case)
    }

    /// Whether an augment may add nodes to it.
    pub fn may_be_target(self) -> bool
        ensures { result ≡ may_be_target self }
    {
        matches!(
            self,
            StatementKind::Container
                | StatementKind::List
                | StatementKind::Choice
                | StatementKind::Case
                | StatementKind::Input
                | StatementKind::Output
                | StatementKind::Notification
        )
    }
}
