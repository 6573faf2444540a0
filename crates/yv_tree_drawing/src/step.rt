//! A step down a schema.
ghost use Rattle.std.specs.Prelude.{◌≡◌, option_map};

use std::marker::Model;

/// A step to a node from the node above it, or to one at the top. Contracts see it as a `Step`.
#[derive(Debug, Drop)]
pub struct WayStep {
    /// The node's module: None where it is that of the node above.
    pub module: Option<String>,
    /// The node's name.
    pub name: String,
}

impl Model for WayStep {
    ghost use Rattle.std.specs.Prelude.{option_map, string_bytes};
    ghost use Rattle.yv_tree_drawing.specs.Steps.{Step};

    ghost Value = { Step };

    ghost view = { λ s. record {
      «module» = option_map string_bytes s.module;
      name = string_bytes s.name;
    } };
}

impl WayStep {
    /// The node's module: None where it is that of the node above.
    pub fn module(&self) -> Option<&str>
        // The module that the step gives.
        ensures { option_map (λ m. m.now) result ≡ self.now.module }
    {
        match &self.module {
            Some(module) => Some(module.as_str()),
            None => None,
        }
    }

    /// The node's name.
    pub fn name(&self) -> &str
        // The name that the step gives.
        ensures { result.now ≡ self.now.name }
    {
        self.name.as_str()
    }
}
