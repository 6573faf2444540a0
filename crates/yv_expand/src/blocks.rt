//! What is below items.
ghost use Rattle.std.specs.{Prelude.{◌≡◌, ◌<◌, ◌≤◌, ◌+◌, ◌++◌, ◌∷◌, [], ℕ, List, reverse, length, slice_get, vec_capacity, IfOk, OnErr, OnOk}, List.{flat_map}};
ghost use Rattle.yv_link_scopes.specs.Views.{lent_in, files_in, rows_in};
ghost use Rattle.yv_link_definitions.specs.Meanings.{AreNames};
ghost use Rattle.yv_expand.specs.InnerItems.{AreBlocks, StandBelow, items_below, numbers_at, origins};
ghost use Rattle.yv_expand_statements.specs.{declared.origin.Origin.{Origin}, declared.origin.Origin.TheVariants.{Statement, Input, Output}, StatementBlocks.{is_at, is_operation, part}};

use crate::item::Item;
use crate::lists::{WantedStatements, numbers_at, of_blocks};
use crate::own::is_operation;
use crate::stack::put;
use std::alloc::{AllocError, Global};
use yv_expand_statements::Origin;
use yv_link_definitions::Names;
use yv_link_scopes::Rows;

/// For each statement the items in its block, the inputs and outputs there, and the items that its
/// augments give.
#[derive(Drop)]
pub(crate) struct Blocks {
    own: Vec<Vec<usize>>,
    inputs: Vec<Vec<usize>>,
    outputs: Vec<Vec<usize>>,
    given: Vec<Vec<usize>>,
}

// The items in the blocks of augments, augment by augment.
#[inline(always)]
fn given_by(alloc: Global, own: &[Vec<usize>], augments: &[usize]) -> Result<Vec<usize>, AllocError>
    ensures { IfOk result (λ given. given.items ≡ flat_map (numbers_at own.now) augments.now) }
{
    let mut given = Vec::new(alloc);
    for augment in augments {
        given.extend_from_slice(numbers_at(own, *augment))?;
    }
    Ok(given)
}

// The same for each statement, whose augments these are. A uses is copied often, and its augments
// may be many and empty: what they give is gathered once.
fn all_given(
    alloc: Global,
    own: &[Vec<usize>],
    augments: &[Vec<usize>],
) -> Result<Vec<Vec<usize>>, AllocError>
    ensures { IfOk result
        (λ all. (k : ℕ) → numbers_at all.items k
        ≡ flat_map (numbers_at own.now) (numbers_at augments.now k)) }
{
    let mut all = Vec::new(alloc);
    for numbers in augments {
        all.push(given_by(alloc, own, numbers)?)?;
    }
    Ok(all)
}

// The input or output of an operation, of which these are written.
fn part(unwritten: Origin, written: &[usize]) -> Origin
    ensures { result ≡ part unwritten (slice_get written.now 0) }
{
    match written.first() {
        Some(number) => Origin::Statement(*number),
        None => unwritten,
    }
}

// Whether the statement of a number is an operation.
fn is_operation_at(rows: &Rows<'_, '_>, number: usize) -> bool
    ensures { result ≡ is_at is_operation (rows_in rows.now) number }
{
    match rows.entries().get(number) {
        Some(entry) => is_operation(entry),
        None => false,
    }
}

impl Blocks {
    /// The blocks of all statements. Takes time and memory linear in statements.
    pub(crate) fn read(alloc: Global, rows: &Rows<'_, '_>) -> Result<Blocks, AllocError>
        ensures { IfOk result (AreBlocks (rows_in rows.now)) }
    {
        let own = of_blocks(alloc, rows, WantedStatements::Items)?;
        let augments = of_blocks(alloc, rows, WantedStatements::Augments)?;
        let given = all_given(alloc, &own, &augments)?;
        Ok(Blocks {
            own,
            inputs: of_blocks(alloc, rows, WantedStatements::Inputs)?,
            outputs: of_blocks(alloc, rows, WantedStatements::Outputs)?,
            given,
        })
    }

    /// The items in the blocks of augments, augment by augment.
    pub(crate) fn items_given(
        &self,
        alloc: Global,
        augments: &[usize],
    ) -> Result<Vec<usize>, AllocError>
        ensures { IfOk result
            (λ given. given.items ≡ flat_map (numbers_at self.now.own.items) augments.now) }
    {
        given_by(alloc, &self.own, augments)
    }

    // Puts the two parts of an operation on a stack, the input on top.
    fn put_parts(
        &self,
        stack: &mut Vec<Item>,
        operation: usize,
        parent: Option<usize>,
    ) -> Result<(), AllocError>
        ensures full { OnErr result (vec_capacity stack.old < length stack.old.items + 2) }
        ensures grows { vec_capacity stack.old ≤ vec_capacity stack.new }
        ensures items { OnOk result
            (stack.new.items ≡ stack.old.items ++ reverse (items_below parent
            (part (Input operation) (slice_get (numbers_at self.now.inputs.items operation) 0)
            ∷ part (Output operation) (slice_get (numbers_at self.now.outputs.items operation) 0)
            ∷ []))) }
    {
        let output = part(
            Origin::Output(operation),
            numbers_at(&self.outputs, operation),
        );
        stack.push(Item {
            origin: output,
            parent,
        })?;
        let input = part(
            Origin::Input(operation),
            numbers_at(&self.inputs, operation),
        );
        stack.push(Item {
            origin: input,
            parent,
        })?;
        Ok(())
    }

    // Puts what a uses of a grouping gives on a stack, the first on top: what it copies comes
    // before what its augments give.
    fn put_uses(
        &self,
        stack: &mut Vec<Item>,
        uses: usize,
        grouping: usize,
        parent: Option<usize>,
    ) -> Result<(), AllocError>
        ensures full { OnErr result (vec_capacity stack.old < length stack.old.items
            +
            (length (numbers_at self.now.own.items grouping)
            + length (numbers_at self.now.given.items uses))) }
        ensures grows { vec_capacity stack.old ≤ vec_capacity stack.new }
        ensures items { OnOk result
            (stack.new.items ≡ stack.old.items ++ reverse (items_below parent
            (origins (numbers_at self.now.own.items grouping)
            ++ origins (numbers_at self.now.given.items uses)))) }
    {
        put(stack, numbers_at(&self.given, uses), parent)?;
        put(stack, numbers_at(&self.own, grouping), parent)
    }

    // Puts what is below a statement on a stack, the first on top.
    fn put_statement(
        &self,
        rows: &Rows<'_, '_>,
        names: &Names,
        stack: &mut Vec<Item>,
        statement: usize,
        parent: Option<usize>,
    ) -> Result<(), AllocError>
        ensures some { OnOk result
            ((these : List Origin)
            × (stack.new.items ≡ stack.old.items ++ reverse (items_below parent these))) }
        ensures below { (these : List Origin) → AreNames (lent_in rows.now) names.now
            → AreBlocks (rows_in rows.now) self.now
            → StandBelow (files_in rows.now) (rows_in rows.now) (Statement statement) these
            → OnOk result
            (stack.new.items ≡ stack.old.items ++ reverse (items_below parent these)) }
        ensures full { (these : List Origin) → AreNames (lent_in rows.now) names.now
            → AreBlocks (rows_in rows.now) self.now
            → StandBelow (files_in rows.now) (rows_in rows.now) (Statement statement) these
            → OnErr result (vec_capacity stack.old < length stack.old.items + length these) }
        ensures grows { vec_capacity stack.old ≤ vec_capacity stack.new }
    {
        if is_operation_at(rows, statement) {
            return self.put_parts(stack, statement, parent);
        }
        match names.meaning(statement) {
            Some(grouping) => self.put_uses(stack, statement, grouping, parent),
            None => put(stack, numbers_at(&self.own, statement), parent),
        }
    }

    /// Puts what is below an item on a stack, the first on top.
    pub(crate) fn put_below(
        &self,
        rows: &Rows<'_, '_>,
        names: &Names,
        stack: &mut Vec<Item>,
        origin: Origin,
        parent: Option<usize>,
    ) -> Result<(), AllocError>
        ensures some { OnOk result
            ((these : List Origin)
            × (stack.new.items ≡ stack.old.items ++ reverse (items_below parent these))) }
        ensures below { (these : List Origin) → AreNames (lent_in rows.now) names.now
            → AreBlocks (rows_in rows.now) self.now
            → StandBelow (files_in rows.now) (rows_in rows.now) origin these
            → OnOk result
            (stack.new.items ≡ stack.old.items ++ reverse (items_below parent these)) }
        ensures full { (these : List Origin) → AreNames (lent_in rows.now) names.now
            → AreBlocks (rows_in rows.now) self.now
            → StandBelow (files_in rows.now) (rows_in rows.now) origin these
            → OnErr result (vec_capacity stack.old < length stack.old.items + length these) }
        ensures grows { vec_capacity stack.old ≤ vec_capacity stack.new }
    {
        match origin {
            Origin::Statement(statement) => self.put_statement(
                rows, names, stack, statement, parent,
            ),
            Origin::Input(_) => Ok(()),
            Origin::Output(_) => Ok(()),
        }
    }
}
