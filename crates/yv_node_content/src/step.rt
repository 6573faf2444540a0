//! A step of a path.
ghost use Rattle.std.specs.Prelude.{◌≡◌};

use std::marker::Model;
use std::rc::RcStr;

/// A step of a path from a list down to a leaf (RFC 7950, section 6.5). Contracts see it as a
/// `Step`.
#[derive(Drop)]
pub struct PathStep {
    /// The number of the file of the module that its prefix identifies. None without a prefix.
    pub module_file: Option<u32>,
    /// The name of the node, without a prefix.
    pub name: RcStr,
}

impl Model for PathStep {
    ghost use Rattle.std.specs.Rc.{rc_str_bytes};
    ghost use Rattle.yv_node_content.specs.Steps.{Step};

    ghost Value = { Step };

    ghost view = { λ s. record { module_file = s.module_file; name = rc_str_bytes s.name } };
}

impl PathStep {
    /// The number of the file of the module that its prefix identifies. None without a prefix.
    pub fn module_file(&self) -> Option<u32>
        ensures { result ≡ self.now.module_file }
    {
        self.module_file
    }

    /// The name of the node, without a prefix.
    pub fn name(&self) -> &str
        ensures { result.now ≡ self.now.name }
    {
        self.name.as_str()
    }
}
