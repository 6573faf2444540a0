//! What a leafref says.
use std::marker::Model;
use yv_node_content::PathStep;

/// What the type of a leafref says (RFC 7950, section 9.9), which the copies of a node share.
/// Contracts see it as a `Referral`.
#[derive(Drop)]
pub struct Leafref {
    /// How many `../` its path begins with. None where that is absolute.
    pub climbs: Option<usize>,
    /// The names after these, in order: None where a prefix identifies no module.
    pub steps: Vec<Option<PathStep>>,
    /// What `require-instance` says.
    pub is_required: bool,
}

impl Model for Leafref {
    ghost use Rattle.yv_node_leafrefs.specs.Schema.{Referral};

    ghost Value = { Referral };

    ghost view = { λ l. record { climbs = l.climbs; steps = l.steps.items; is_required = l.is_required } };
}

impl Leafref {
    ghost use Rattle.std.specs.Prelude.{◌≡◌};

    /// How many `../` its path begins with. None where that is absolute.
    pub fn climbs(&self) -> Option<usize>
        ensures { result ≡ self.now.climbs }
    {
        self.climbs
    }

    /// The names after these, in order: None where a prefix identifies no module.
    pub fn steps(&self) -> &[Option<PathStep>]
        ensures { result.now ≡ self.now.steps }
    {
        self.steps.as_slice()
    }

    /// What `require-instance` says.
    pub fn is_required(&self) -> bool
        ensures { result ≡ self.now.is_required }
    {
        self.is_required
    }
}
