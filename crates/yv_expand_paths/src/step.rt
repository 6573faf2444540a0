//! A step of a schema path.
ghost use Rattle.std.specs.Prelude.{◌≡◌};
ghost use Rattle.yv_expand_paths.specs.InnerNameNumbers.{qualified_name};

/// A step of a schema path as numbers (RFC 7950, section 6.5).
#[derive(Clone, Copy, Debug, PartialEq, Eq)]
pub struct SchemaStep {
    /// The file of the module that its prefix identifies. None without a prefix.
    pub module_file: Option<u32>,
    /// The number of its name.
    pub name: u32,
}

/// One number for the module of a file and the number of a name in it.
pub fn qualified_name(module_file: u32, name: u32) -> usize
    ensures { result ≡ qualified_name module_file name }
{
    module_file as usize * 4_294_967_296 + name as usize
}

impl SchemaStep {
    ghost use Rattle.yv_expand_paths.specs.InnerSteps.{step_number};

    /// The number of its module and name, where a name without prefix is of the module of this
    /// file.
    pub fn number(&self, own: u32) -> usize
        ensures { result ≡ step_number own self.now }
    {
        qualified_name(self.module_file.unwrap_or(own), self.name)
    }
}
