//! The bases of types, and what readers ask of them.
ghost use Rattle.std.specs.Prelude.{◌≡◌, ◌↔◌, ℕ, Some, map, IfOk};
ghost use Rattle.yv_text_statement.specs.Order.{IsLeast};
ghost use Rattle.yv_link_scopes.specs.{Files.{Files, brief_of}, RowList.{rows_of}, Views.{lent_in}};
ghost use Rattle.yv_link_definitions.specs.Meanings.{AreNames};

use crate::draft::Draft;
use crate::findings::Findings;
use std::alloc::{AllocError, Global};
use yv_base_tables::slots;
use yv_link_definitions::Names;
use yv_link_scopes::Rows;
use yv_text_statement::Refusal;

/// The bases of types: the built-in types to which the types of files lead, and what is wrong with
/// these.
#[derive(Drop)]
pub struct Bases {
    pub(crate) bases: Vec<Option<usize>>,
    pub(crate) follows: Vec<Option<usize>>,
    pub(crate) order: Vec<usize>,
    pub(crate) fault: Option<Refusal>,
}

impl Bases {
    ghost use Rattle.yv_type_chains.specs.{Types.{Follows, HasBase, IsOrderOfTypes}, Refusals.{BadKinds}, Bases.{AreBases}};

    /// Reads the types of these statements, the names being theirs. Want of memory is the only
    /// error.
    pub fn read(alloc: Global, rows: &Rows<'_, '_>, names: &Names) -> Result<Bases, AllocError>
        ensures { IfOk result
            (λ bases. (files : Files) → lent_in rows.now ≡ files → AreNames files names.now
            → AreBases files bases) }
    {
        let draft = Draft::read(alloc, rows, names)?;
        let all = draft.order(alloc)?;
        let order = draft.types_only(alloc, &all)?;
        let found = Findings::read(alloc, &draft, &order)?;
        let fault = draft.first_refusal(&found);
        let bases = found.bases;
        let follows = draft.follows;
        Ok(Bases {
            bases,
            follows,
            order,
            fault,
        })
    }

    /// The number of the type statement that names the built-in type to which the type of this
    /// number leads along typedefs (RFC 7950, section 7.3): its own where it names one. None for
    /// other statements.
    pub fn base(&self, number: usize) -> Option<usize>
        ensures { (files : Files) → AreBases files self.now
            → (b : ℕ) → (result ≡ Some b) ↔ HasBase (map brief_of files) (rows_of files) number b }
    {
        slots::get(&self.bases, number)
    }

    /// The number of the type of the typedef that the type of this number names. None for other
    /// statements, and for types that name built-in types.
    pub fn follows(&self, number: usize) -> Option<usize>
        ensures { (files : Files) → AreBases files self.now
            → (j : ℕ) → (result ≡ Some j) ↔ Follows (map brief_of files) (rows_of files) number j }
    {
        slots::get(&self.follows, number)
    }

    /// The numbers of all type statements, each once, after the type that it follows and after its
    /// members.
    pub fn order(&self) -> &[usize]
        ensures { (files : Files) → AreBases files self.now
            → IsOrderOfTypes (map brief_of files) (rows_of files) result.now }
    {
        &self.order
    }

    /// The least that is wrong with the types (RFC 7950, section 9): a substatement that a type
    /// doesn't take or lacks, a leafref in a union, or a type with more than 64 members. None where
    /// nothing is wrong.
    pub fn refusal(&self) -> Option<Refusal>
        ensures { (files : Files) → AreBases files self.now → IsLeast (BadKinds files) result }
    {
        self.fault
    }
}
