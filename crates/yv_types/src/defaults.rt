//! The defaults of types, and what readers ask of them.
ghost use Rattle.std.specs.{Prelude.{◌≡◌, ℕ, IfOk}, Option.{option_map, option_copied}};
ghost use Rattle.yv_link_scopes.specs.{Files.{Files}, Views.{lent_in}};
ghost use Rattle.yv_link_definitions.specs.Meanings.{AreNames};
ghost use Rattle.yv_type_chains.specs.Bases.{AreBases};
ghost use Rattle.yv_text_statement.specs.TextInFile.{written_of};

use crate::default_lookup::found_at;
use crate::typedef_defaults::all_said;
use std::alloc::{AllocError, Global};
use yv_base_tables::{Sparse, slots};
use yv_link_definitions::Names;
use yv_link_scopes::Rows;
use yv_text_statement::WrittenText;
use yv_type_chains::Bases;

/// The defaults that the types of files have by their typedefs. The text of each typedef's default
/// is kept once.
#[derive(Drop)]
pub struct TypedefDefaults {
    // of each typedef
    pub(crate) said: Sparse<WrittenText>,
    // the typedef whose default each type has
    pub(crate) found: Sparse<usize>,
}

impl TypedefDefaults {
    ghost use Rattle.yv_types.specs.{Defaults.{HasDefault}, TypeDefaults.{AreDefaults, found_in, typedef_in}};

    /// Reads the defaults of these statements, the names and the bases being theirs, in time linear
    /// in statements: no way along typedefs is gone twice.
    pub fn read(
        alloc: Global,
        rows: &Rows<'_, '_>,
        names: &Names,
        bases: &Bases,
    ) -> Result<TypedefDefaults, AllocError>
        ensures { IfOk result
            (λ defaults. (files : Files) → lent_in rows.now ≡ files → AreNames files names.now
            → AreBases files bases.now
            → AreDefaults files defaults) }
    {
        let order = bases.order();
        let said = all_said(alloc, rows)?;
        let mut found = slots::empty(alloc, rows.entries().len())?;
        for number in order {
            let typedef = found_at(names, bases, &said, &found, *number);
            slots::put(&mut found, *number, typedef);
        }
        let texts = Sparse::of(alloc, said)?;
        let kept = Sparse::of(alloc, found)?;
        Ok(TypedefDefaults {
            said: texts,
            found: kept,
        })
    }

    /// The default that the type of this number has by its typedefs (RFC 7950, section 7.6.1), with
    /// the file in which it is written: that of the nearest typedef that says one. None for other
    /// statements, and for types that name built-in types.
    pub fn of(&self, number: usize) -> Option<&WrittenText>
        // The default of the type statement of this number, that of the nearest typedef that states
        // one, with its file; none for all else.
        ensures tells { (files : Files) → AreDefaults files self.now
            → HasDefault files number (option_map written_of (option_copied result)) }
        // The same, as what is recorded at the number.
        ensures same { option_map written_of (option_copied result) ≡ found_in self.now number }
    {
        let typedef = *self.found.get(number)?;
        self.said.get(typedef)
    }

    /// The number of the typedef that says this default. Types with the same one have the same
    /// default.
    pub fn typedef(&self, number: usize) -> Option<usize>
        // What is recorded as the typedef that states this default.
        ensures number { result ≡ typedef_in self.now number }
        // Types with the same typedef have the same default.
        ensures same { (j : ℕ) → typedef_in self.now j ≡ result → found_in self.now j
            ≡ found_in self.now number }
    {
        self.found.get(number).copied()
    }
}
