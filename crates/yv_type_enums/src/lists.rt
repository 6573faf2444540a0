//! The names of types, and what readers ask of them.
ghost use Rattle.std.specs.{Prelude.{◌≡◌, ◌↔◌, ℕ, Some, IfOk}, Option.{option_map, option_copied}};
ghost use Rattle.yv_text_statement.specs.{Order.{IsLeast}, Selection.{ModuleChoice}};
ghost use Rattle.yv_link_scopes.specs.Files.{Files};
ghost use Rattle.yv_type_chains.specs.Bases.{AreBases};
ghost use Rattle.yv_link.specs.LinkedFiles.{AreLinked, truth_in};

use crate::step::type_at;
use crate::table::{TypeNames, get};
use std::alloc::{AllocError, Global};
use yv_base_tables::Table;
use yv_link::Linked;
use yv_text_statement::{Refusal, lesser};
use yv_type_chains::Bases;

/// The lists of names of the types of files that lead to `enumeration` or to `bits`, and what is
/// wrong with these.
#[derive(Drop)]
pub struct Lists<'a> {
    pub(crate) types: Table<TypeNames<'a>>,
    pub(crate) fault: Option<Refusal>,
}

impl<'a> Lists<'a> {
    ghost use Rattle.yv_type_enums.specs.{Types.{HasNames, NamesView, Truth}, Refusals.{BadLists}, Lists.{AreLists}, TypeNames.{told_of}};

    /// Reads the types of these files, the bases being theirs. Want of memory is the only error. It
    /// takes time n log n in statements; types that list nothing share the names of those that they
    /// follow.
    pub fn read(
        alloc: Global,
        linked: &Linked<'a, '_>,
        bases: &Bases,
    ) -> Result<Lists<'a>, AllocError>
        ensures { IfOk result
            (λ lists. (files : Files) (choice : ModuleChoice) → AreLinked files choice linked.now
            → AreBases files bases.now
            → AreLists files (truth_in linked.now) lists) }
    {
        let rows = linked.rows();
        let mut types = Table::new(alloc);
        let mut fault = None;
        for number in bases.order() {
            let step = type_at(alloc, linked, rows, bases, &types, *number)?;
            fault = lesser(fault, step.fault);
            types.put(*number, step.names)?;
        }
        Ok(Lists { types, fault })
    }

    /// The names of the type of this number, in constant time. None for other statements, and for
    /// types that lead elsewhere.
    pub fn names(&self, number: usize) -> Option<&TypeNames<'a>>
        ensures { (files : Files) (truth : Truth) → AreLists files truth self.now
            → (told : NamesView) → (option_map told_of (option_copied result) ≡ Some told)
            ↔ HasNames files truth number told }
    {
        get(&self.types, number)
    }

    /// The least that is wrong with the names and numbers of the types: the first wrong entry of a
    /// type. A wrong entry gives no name, so that the types derived from it are judged without it.
    /// None where nothing is wrong.
    pub fn refusal(&self) -> Option<Refusal>
        ensures { (files : Files) (truth : Truth) → AreLists files truth self.now
            → IsLeast (BadLists files truth) result }
    {
        self.fault
    }
}
