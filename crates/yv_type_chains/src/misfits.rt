//! Substatements that types don't take, or need.
ghost use Rattle.std.specs.{Prelude.{◌≡◌, ◌↔◌, ℕ, List, Some, IsTrue, true, codes}, Option.{option_map}};
ghost use Rattle.yv_link_scopes.specs.{Rows.{row, name_in}, Views.{files_in, rows_in}};
ghost use Rattle.yv_type_chains.specs.{Kinds.{is_of_built_in, needs}, Types.{HasKind, is_union}, Refusals.{IsMisfit, is_derived}, InnerTables.{AreBased}, InnerMarks.{IsForeign, IsInherited, IsJoined, Meets, Passes}};

use crate::draft::Draft;
use crate::inside::is_type;
use crate::kinds::{is_foreign, is_of_built_in, needs};
use crate::steps::is_kind;
use yv_base_tables::slots;
use yv_link_definitions::is_built_in;
use yv_link_scopes::{Entry, name_of};
use yv_text_statement::Statement;

// Whether a statement is a type that names a typedef.
fn is_derived(entry: &Entry<'_, '_>) -> bool
    ensures { result ≡ is_derived (row entry.now) }
{
    is_type(entry) && !is_built_in(name_of(entry.statement))
}

impl<'a, 'b> Draft<'_, 'a, 'b> {
    // The name of the built-in type to which a type leads, these being the bases.
    fn kind(&self, bases: &[Option<usize>], number: usize) -> Option<&str>
        ensures { AreBased (files_in self.now.rows.now) (rows_in self.now.rows.now) bases.now
            → (name : List ℕ) → (option_map (λ text. text.now) result ≡ Some name)
            ↔ HasKind (files_in self.now.rows.now) (rows_in self.now.rows.now) number name }
    {
        let base = slots::get(bases, number)?;
        let entry = self.rows.entries().get(base)?;
        Some(name_of(entry.statement))
    }

    // Whether the built-in type to which a type leads doesn't allow a restriction.
    fn is_foreign(&self, bases: &[Option<usize>], number: usize, statement: &Statement<'_>) -> bool
        ensures { AreBased (files_in self.now.rows.now) (rows_in self.now.rows.now) bases.now
            → IsTrue result
            ↔ IsForeign (files_in self.now.rows.now) (rows_in self.now.rows.now) number
            statement.now.head.keyword }
    {
        match self.kind(bases, number) {
            Some(kind) => is_foreign(kind, statement),
            None => false,
        }
    }

    // Whether a type names a typedef.
    fn is_derived_at(&self, number: usize) -> bool
        ensures { IsTrue result ↔ Passes is_derived (rows_in self.now.rows.now) number }
    {
        match self.rows.entries().get(number) {
            Some(entry) => is_derived(entry),
            None => false,
        }
    }

    // Whether a type names a typedef, and a substatement is one that no derived type takes.
    fn is_inherited(&self, number: usize, statement: &Statement<'_>) -> bool
        ensures { IsTrue result
            ↔ IsInherited (rows_in self.now.rows.now) number statement.now.head.keyword }
    {
        self.is_derived_at(number) && is_of_built_in(statement)
    }

    // Whether a statement is a union.
    fn is_union_at(&self, number: usize) -> bool
        ensures { IsTrue result ↔ Passes is_union (rows_in self.now.rows.now) number }
    {
        match self.rows.entries().get(number) {
            Some(entry) => is_kind("union", entry),
            None => false,
        }
    }

    /// Whether the type of this number doesn't take a substatement, these being the bases.
    pub(crate) fn is_misfit(
        &self,
        bases: &[Option<usize>],
        number: usize,
        entry: &Entry<'a, 'b>,
    ) -> bool
        ensures { AreBased (files_in self.now.rows.now) (rows_in self.now.rows.now) bases.now
            → IsTrue result
            ↔ IsMisfit (files_in self.now.rows.now) (rows_in self.now.rows.now) number
            (row entry.now) }
    {
        let inherited = self.is_inherited(number, entry.statement);
        let foreign = self.is_foreign(bases, number, entry.statement);
        inherited || foreign
    }

    /// Whether the type of this number needs a substatement.
    pub(crate) fn meets(&self, number: usize, entry: &Entry<'a, 'b>) -> bool
        ensures { IsTrue result ↔ Meets (rows_in self.now.rows.now) number (row entry.now) }
    {
        match self.rows.entries().get(number) {
            Some(outer) => needs(name_of(outer.statement), entry.statement),
            None => false,
        }
    }

    // Whether a type leads to leafref.
    fn is_leafref(&self, bases: &[Option<usize>], number: usize) -> bool
        ensures { AreBased (files_in self.now.rows.now) (rows_in self.now.rows.now) bases.now
            → IsTrue result
            ↔ HasKind (files_in self.now.rows.now) (rows_in self.now.rows.now) number
            (codes "leafref") }
    {
        match self.kind(bases, number) {
            Some(kind) => kind == "leafref",
            None => false,
        }
    }

    /// Whether a type leads to leafref and is a member of a union, these being the bases.
    pub(crate) fn is_joined(
        &self,
        bases: &[Option<usize>],
        number: usize,
        entry: &Entry<'a, 'b>,
    ) -> bool
        ensures { AreBased (files_in self.now.rows.now) (rows_in self.now.rows.now) bases.now
            → IsTrue result
            ↔ IsJoined (files_in self.now.rows.now) (rows_in self.now.rows.now) number
            (row entry.now) }
    {
        let leafref = self.is_leafref(bases, number);
        leafref && self.is_union_at(entry.scope)
    }
}
