//! Files that were linked, and what is asked of them.
ghost use Rattle.std.specs.Prelude.{◌≡◌, ◌↔◌, map, IsTrue, IfOk};
ghost use Rattle.yv_text_statement.specs.Selection.{ModuleChoice};
ghost use Rattle.yv_link_scopes.specs.{Files.{Files, brief_of}, RowList.{rows_of}};

use crate::modules::ModuleRef;
use std::alloc::{AllocError, Global};
use yv_link_features::Features;
use yv_link_identities::{Identities, IdentityRef};
use yv_link_scopes::Rows;
use yv_text_statement::Statement;

/// Linked files: nothing is wrong in them with modules, features and identities. A file is meant by
/// its place in the list of files. Of the readers only `descendants` allocates memory.
#[derive(Drop)]
pub struct Linked<'a, 'b> {
    pub(crate) rows: Rows<'a, 'b>,
    pub(crate) modules: Vec<Option<ModuleRef>>,
    pub(crate) features: Features<'a>,
    pub(crate) identities: Identities<'a>,
}

impl<'a, 'b> Linked<'a, 'b> {
    ghost use Rattle.yv_link_features.specs.On.{Holds};
    ghost use Rattle.yv_link_identities.specs.References.{AreDescendants, IsDerived, reference_of};
    ghost use Rattle.yv_link_scopes.specs.Views.{lent_in};
    ghost use Rattle.yv_link.specs.{LinkedFiles.{AreLinked, truth_in}, Modules.{named_module, prefixed_module}};

    /// The statements of the files, in the order of the files.
    pub fn statements(&self) -> &'a [Statement<'b>]
        ensures { (files : Files) (choice : ModuleChoice) → AreLinked files choice self.now
            → result.now
            ≡ files }
    {
        self.rows.statements()
    }

    /// All statements of the files as one numbered list.
    pub fn rows(&self) -> &Rows<'a, 'b>
        ensures { (files : Files) (choice : ModuleChoice) → AreLinked files choice self.now
            → lent_in result.now ≡ files }
    {
        &self.rows
    }

    /// The module of a name.
    pub fn module(&self, name: &'a str) -> Option<ModuleRef>
        ensures { (files : Files) (choice : ModuleChoice) → AreLinked files choice self.now
            → result ≡ named_module choice (map brief_of files) name.now }
    {
        let number = self.rows.file_named(name)?;
        self.module_at(number)
    }

    /// The module that a prefix identifies in a file (RFC 7950, section 7.1.4).
    pub fn prefix(&self, file: u32, prefix: &'a str) -> Option<ModuleRef>
        ensures { (files : Files) (choice : ModuleChoice) → AreLinked files choice self.now
            → result ≡ prefixed_module choice (map brief_of files) (rows_of files) file prefix.now }
    {
        let number = self.rows.module_of(file as usize, prefix)?;
        self.module_at(number)
    }

    /// Whether the expression of an `if-feature` holds in a file (RFC 7950, section 7.20.2). A text
    /// that is not an expression doesn't, nor does one with a name that means no feature.
    pub fn holds(&self, file: u32, if_feature: &'a str) -> bool
        // The result is that of one function of file and text.
        ensures truth { result ≡ truth_in self.now file if_feature.now }
        // Whether the expression holds in the file.
        ensures holds { (files : Files) (choice : ModuleChoice) → AreLinked files choice self.now
            → Holds files choice file if_feature.now result }
    {
        self.features.holds(&self.rows, file as usize, if_feature)
    }

    /// The identity that a name means in a file (RFC 7950, section 7.18).
    pub fn identity(&self, file: u32, name: &'a str) -> Option<IdentityRef>
        ensures { (files : Files) (choice : ModuleChoice) → AreLinked files choice self.now
            → result ≡ reference_of (map brief_of files) (rows_of files) file name.now }
    {
        self.identities.identity(&self.rows, file as usize, name)
    }

    /// Whether an identity is derived from another, in one step or more (RFC 7950, section 7.18.2).
    /// Where identities have several bases each it may take one step for each way to a base: use
    /// `descendants` for files from strangers.
    pub fn is_derived(&self, identity: IdentityRef, base: IdentityRef) -> bool
        ensures { (files : Files) (choice : ModuleChoice) → AreLinked files choice self.now
            → IsTrue result ↔ IsDerived (map brief_of files) (rows_of files) identity base }
    {
        self.identities.is_derived(identity, base)
    }

    /// All identities that are derived from one, in the order of the statements. Takes time n log n
    /// in these and in the bases that they name among these and that one.
    pub fn descendants(
        &self,
        alloc: Global,
        base: IdentityRef,
    ) -> Result<Vec<IdentityRef>, AllocError>
        ensures { IfOk result
            (λ found. (files : Files) (choice : ModuleChoice) → AreLinked files choice self.now
            → AreDescendants (map brief_of files) (rows_of files) base found.items) }
    {
        self.identities.descendants(alloc, base)
    }

    // The module whose file has this number, if it is one.
    fn module_at(&self, number: usize) -> Option<ModuleRef>
        ensures { (files : Files) (choice : ModuleChoice) → AreLinked files choice self.now
            → result ≡ Rattle.yv_link.specs.Modules.ref_at choice (map brief_of files) number }
    {
        match self.modules.get(number) {
            Some(module) => *module,
            None => None,
        }
    }
}
