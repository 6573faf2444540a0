//! A piece of the path of a leafref, as it is written.
ghost use Rattle.std.specs.{Prelude.{◌≡◌}, Option.{option_map}};

use std::marker::Model;
use std::rc::RcStr;

/// A piece of the path of a leafref, as it is written between two `/` (RFC 7950, section 9.9.2).
/// Contracts see it as a `Piece`.
#[derive(Drop)]
pub struct PathPiece {
    /// Its prefix, as it is written. None where it has none.
    pub prefix: Option<RcStr>,
    /// The number of the file of the module that the prefix identifies. None where it identifies
    /// none.
    pub module_file: Option<u32>,
    /// The name after the prefix, or `..`.
    pub name: RcStr,
}

impl Model for PathPiece {
    ghost use Rattle.std.specs.{Option.{option_map}, Rc.{rc_str_bytes}};
    ghost use Rattle.yv_node_content.specs.Steps.{Piece};

    ghost Value = { Piece };

    ghost view = { λ p. record { prefix = option_map rc_str_bytes p.prefix; module_file = p.module_file; name = rc_str_bytes p.name } };
}

impl PathPiece {
    /// Its prefix, as it is written. None where it has none.
    pub fn prefix(&self) -> Option<&str>
        ensures { option_map (λ t. t.now) result ≡ self.now.prefix }
    {
        match &self.prefix {
            Some(prefix) => Some(prefix.as_str()),
            None => None,
        }
    }

    /// The number of the file of the module that the prefix identifies. None where it identifies
    /// none.
    pub fn module_file(&self) -> Option<u32>
        ensures { result ≡ self.now.module_file }
    {
        self.module_file
    }

    /// The name after the prefix, or `..`.
    pub fn name(&self) -> &str
        ensures { result.now ≡ self.now.name }
    {
        self.name.as_str()
    }
}
