//! Where a rule holds.
ghost use Rattle.std.specs.Prelude.{◌≡◌};
ghost use Rattle.yv_data_leafrefs.specs.InUse.{enforces, enforces_beside, is_asked, scope_in, uses_defaults};

use yv_nodes::NodeId;
use yv_text_statement::Kind;
use yv_walk::Existence;

/// The scope in which the rules of a node hold: always, in a case if one of these nodes exists,
/// only by default, or not at all.
#[derive(Clone, Copy, Debug, PartialEq, Eq)]
pub enum RuleScope {
    Always,
    InCase(Existence),
    /// In the default case of a choice, if no case of it exists (RFC 7950, section 7.9.3).
    InDefault,
    /// Nowhere: the node is state, and configuration only is asked for (RFC 7950, section 7.21.1).
    Unasked,
}

impl RuleScope {
    /// The scope of a node in this scope, which is configuration or not, in a document of this
    /// kind.
    pub fn narrow(self, kind: Kind, is_config: bool) -> RuleScope
        ensures { result ≡ scope_in kind is_config self }
    {
        match kind {
            Kind::ConfigOnly if !is_config => RuleScope::Unasked,
            _ => self,
        }
    }

    /// Whether some rule holds.
    pub fn is_asked(self) -> bool
        ensures { result ≡ is_asked self }
    {
        !matches!(self, RuleScope::Unasked)
    }

    /// Whether what is mandatory must be there.
    pub fn enforces(self) -> bool
        ensures { result ≡ enforces self }
    {
        match self {
            RuleScope::Always => true,
            RuleScope::InCase(those) => those.any(),
            RuleScope::InDefault | RuleScope::Unasked => false,
        }
    }

    /// Whether a list or leaf-list must have its least number of entries.
    pub fn enforces_beside(self, id: NodeId) -> bool
        ensures { result ≡ enforces_beside id self }
    {
        match self {
            RuleScope::Always => true,
            RuleScope::InCase(those) => those.any_but(id),
            RuleScope::InDefault | RuleScope::Unasked => false,
        }
    }

    /// Whether defaults are in use.
    pub fn uses_defaults(self) -> bool
        ensures { result ≡ uses_defaults self }
    {
        match self {
            RuleScope::Always | RuleScope::InDefault => true,
            RuleScope::InCase(those) => those.any(),
            RuleScope::Unasked => false,
        }
    }
}
