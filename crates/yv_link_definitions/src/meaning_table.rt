//! The names of files, and what readers ask of them.
ghost use Rattle.std.specs.Prelude.{◌≡◌, ◌↔◌, ℕ, Some, map, codes};
ghost use Rattle.yv_link_scopes.specs.{Files.{Files, brief_of}, RowList.{rows_of}};

use crate::meanings::meant_at;
use crate::place_list::PlaceList;
use crate::references::DefRef;
use std::collections::BTreeMap;

/// What types and uses mean in files in which nothing is wrong with the names of definitions.
#[derive(Drop)]
pub struct Names {
    pub(crate) meanings: Vec<Option<u32>>,
    pub(crate) definitions: BTreeMap<usize, DefRef>,
    pub(crate) types: PlaceList,
    pub(crate) uses: PlaceList,
    pub(crate) order: Vec<usize>,
}

impl Names {
    ghost use Rattle.yv_link_definitions.specs.{Refers.{RefersTo}, Leads.{IsOrderOf}, References.{RefersAt}, Meanings.{AreNames, definition_in, meant_in}, declared.references.DefRef.{DefRef}};

    // What the statement of a number means.
    fn definition_at(&self, number: usize) -> Option<usize>
        ensures { result ≡ meant_in self.now number }
    {
        meant_at(&self.meanings, number)
    }

    // The reference to the definition that the statement of a number means.
    fn definition(&self, number: usize) -> Option<DefRef>
        ensures { result ≡ definition_in self.now number }
    {
        let meant = self.definition_at(number)?;
        self.definitions.get(&meant).copied()
    }

    /// The number of the typedef that the type of this number means, or of the grouping that the
    /// uses of this number means. None for other statements, and for built-in types.
    pub fn meaning(&self, number: usize) -> Option<usize>
        ensures { (files : Files) → AreNames files self.now
            → (d : ℕ) → (result ≡ Some d) ↔ RefersTo (map brief_of files) (rows_of files) number d }
    {
        self.definition_at(number)
    }

    /// The typedef that the type statement at an offset of a file means, in time log n. None where
    /// there is no such statement, and for built-in types.
    pub fn typedef(&self, file: u32, offset: u64) -> Option<DefRef>
        ensures { (files : Files) → AreNames files self.now
            → (ref : DefRef) → (result ≡ Some ref) ↔ RefersAt files (codes "type") file offset ref }
    {
        let number = self.types.get(file, offset)?;
        self.definition(number)
    }

    /// The grouping that the uses statement at an offset of a file means, in time log n. None where
    /// there is no such statement.
    pub fn grouping(&self, file: u32, offset: u64) -> Option<DefRef>
        ensures { (files : Files) → AreNames files self.now
            → (ref : DefRef) → (result ≡ Some ref) ↔ RefersAt files (codes "uses") file offset ref }
    {
        let number = self.uses.get(file, offset)?;
        self.definition(number)
    }

    /// The numbers of all statements, each once, and each typedef and grouping after all to which
    /// it leads.
    pub fn order(&self) -> &[usize]
        ensures { (files : Files) → AreNames files self.now
            → IsOrderOf (map brief_of files) (rows_of files) result.now }
    {
        &self.order
    }
}
