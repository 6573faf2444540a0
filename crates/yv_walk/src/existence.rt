//! Which data nodes exist.
ghost use Rattle.std.specs.Prelude.{◌≡◌};
ghost use Rattle.yv_walk.specs.Existence.{any, any_but, both};

use yv_nodes::NodeId;

/// The existence of the data nodes of a group: none, only one, or several.
#[derive(Clone, Copy, Debug, PartialEq, Eq)]
pub enum Existence {
    /// None exists.
    Nothing,
    /// Only the node of this number.
    Only(NodeId),
    /// More than one.
    Several,
}

impl Existence {
    /// The nodes of both groups: one that is in both counts once.
    pub fn and(self, other: Existence) -> Existence
        ensures { result ≡ both self other }
    {
        match self {
            Existence::Nothing => other,
            Existence::Several => Existence::Several,
            Existence::Only(node) => match other {
                Existence::Nothing => Existence::Only(node),
                Existence::Several => Existence::Several,
                Existence::Only(second) => {
                    if node.number() == second.number() {
                        Existence::Only(node)
                    } else {
                        Existence::Several
                    }
                }
            },
        }
    }

    /// Whether a node exists: a case does where one of its nodes does (RFC 7950, section 7.9.2).
    pub fn any(self) -> bool
        ensures { result ≡ any self }
    {
        !matches!(self, Existence::Nothing)
    }

    /// Whether a node exists beside this one: the least number of entries is asked for where
    /// another node of the case exists (RFC 7950, section 7.7.5).
    pub fn any_but(self, id: NodeId) -> bool
        ensures { result ≡ any_but id self }
    {
        match self {
            Existence::Nothing => false,
            Existence::Only(node) => node.number() != id.number(),
            Existence::Several => true,
        }
    }
}
