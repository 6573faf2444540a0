//! What schema nodes are.

/// What a schema node is (RFC 7950, section 1).
#[derive(Clone, Copy, Debug, PartialEq, Eq)]
pub enum NodeKind {
    /// An interior node without a value, an object in JSON (RFC 7950, section 7.5).
    Container,
    /// A node with one value (RFC 7950, section 7.6).
    Leaf,
    /// Nodes with one value each, an array in JSON (RFC 7950, section 7.7).
    LeafList,
    /// Interior nodes without a value, an array of objects in JSON (RFC 7950, section 7.8).
    List,
    /// Alternatives, at most one of which may be there; not a node of the data tree (RFC 7950,
    /// section 7.9).
    Choice,
    /// One alternative of a choice; no node of the data tree (RFC 7950, section 7.9.2).
    Case,
    /// An object whose content no schema describes (RFC 7950, section 7.10).
    Anydata,
    /// A value of any kind (RFC 7950, section 7.11).
    Anyxml,
    /// An operation of a server (RFC 7950, section 7.14).
    Rpc,
    /// An operation on a node of the data tree (RFC 7950, section 7.15).
    Action,
    /// What a server sends by itself (RFC 7950, section 7.16).
    Notification,
    /// What an rpc or action is given (RFC 7950, section 7.14.2).
    Input,
    /// What an rpc or action gives (RFC 7950, section 7.14.3).
    Output,
}

/// The status of a definition: whether it is still to be used (RFC 7950, section 7.21.2).
#[derive(Clone, Copy, Debug, PartialEq, Eq)]
pub enum NodeStatus {
    /// In use; a definition without a `status` statement is.
    Current,
    /// Outdated, and still to be implemented where older peers want it.
    Deprecated,
    /// Outdated, and no longer to be implemented.
    Obsolete,
}

impl NodeKind {
    ghost use Rattle.std.specs.Prelude.{◌≡◌};
    ghost use Rattle.yv_node_content.specs.Kinds.{is_data, is_operation_or_notification, is_passed};

    /// Whether it is an operation or a notification (RFC 7950, sections 7.14 to 7.16).
    pub fn is_operation_or_notification(self) -> bool
        ensures { result ≡ is_operation_or_notification self }
    {
        matches!(
            self,
            NodeKind::Rpc | NodeKind::Action | NodeKind::Notification
        )
    }

    /// Whether it is a choice or a case, which no data tree has (RFC 7950, section 7.9).
    pub fn is_passed(self) -> bool
        ensures { result ≡ is_passed self }
    {
        matches!(self, NodeKind::Choice | NodeKind::Case)
    }

    /// Whether a data tree may have such nodes (RFC 7950, section 3, "data node").
    pub fn is_data(self) -> bool
        ensures { result ≡ is_data self }
    {
        matches!(
            self,
            NodeKind::Container
                | NodeKind::Leaf
                | NodeKind::LeafList
                | NodeKind::List
                | NodeKind::Anydata
                | NodeKind::Anyxml
        )
    }
}
