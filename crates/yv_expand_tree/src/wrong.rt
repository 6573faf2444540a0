//! What is wrong with a final tree.
ghost use Rattle.std.specs.Prelude.{◌≡◌, None, IfOk};
ghost use Rattle.yv_text_statement.specs.Order.{IsLeast};
ghost use Rattle.yv_link_scopes.specs.Views.{lent_in, rows_in};
ghost use Rattle.yv_expand_refines.specs.Changes.{each};
ghost use Rattle.yv_expand_augments.specs.{Refusals.{BadTarget}, MandatoryNodes.{ImposesMandatory, nothing_around}, FinalItems.{AreAugmentedTree}};
ghost use Rattle.yv_expand_changes.specs.Properties.{told_of};
ghost use Rattle.yv_expand_tree.specs.{Refusals.{BadStanding}, Final.{Final, changes_of, said_of, spots_of, final_items, whole_of}};

use std::alloc::{AllocError, Global};
use yv_expand::Item;
use yv_expand_augments::{AugmentedTree, first_imposed, first_misplaced, first_too_deep};
use yv_expand_changes::{ItemProperties, first_wrong, said_of_all};
use yv_expand_refines::Changes;
use yv_link_scopes::Rows;
use yv_text_statement::{Refusal, lesser};

/// What is judged: the statements, the items, the augments of modules, the final tree, and what
/// refines change.
#[derive(Clone, Copy)]
pub(crate) struct Judgement<'j, 'a, 'b> {
    pub(crate) rows: &'j Rows<'a, 'b>,
    pub(crate) items: &'j [Item],
    pub(crate) augments: &'j [usize],
    pub(crate) full_tree: &'j AugmentedTree,
    pub(crate) changes: &'j Changes,
}

impl Judgement<'_, '_, '_> {
    // The least BadAugment of an augment that adds a mandatory node to another module's node.
    fn first_imposed(&self, alloc: Global) -> Result<Option<Refusal>, AllocError>
        ensures { (final : Final) → self.now.items.now ≡ final.items → self.now.augments.now
            ≡ final.augments
            → AreAugmentedTree (whole_of (lent_in self.now.rows.now) final) final.items final.state
            self.now.full_tree.now
            → self.now.full_tree.now.tree.items ≡ final_items final → each self.now.changes.now
            ≡ changes_of (lent_in self.now.rows.now) final
            → IfOk result
            (IsLeast
            (ImposesMandatory (rows_in self.now.rows.now)
            (spots_of (lent_in self.now.rows.now) final) final.augments
            (told_of (said_of (lent_in self.now.rows.now) final)) None nothing_around final.tree)) }
    {
        // Most files have no augments of modules, and then nothing need be known of items.
        if self.augments.is_empty() {
            return Ok(None);
        }
        let said = said_of_all(alloc, self.rows, self.items, self.changes)?;
        let properties = ItemProperties::of(alloc, &said)?;
        let marks = properties.marks();
        first_imposed(
            alloc,
            self.rows,
            &self.full_tree.spots,
            self.augments,
            &marks,
            &self.full_tree.tree,
        )
    }

    /// The least of what is wrong, where `missing` is the least refusal of an augment of a module
    /// that adds to no node.
    pub(crate) fn first_wrong(
        &self,
        alloc: Global,
        missing: Option<Refusal>,
    ) -> Result<Option<Refusal>, AllocError>
        ensures { (final : Final) → self.now.items.now ≡ final.items → self.now.augments.now
            ≡ final.augments
            → AreAugmentedTree (whole_of (lent_in self.now.rows.now) final) final.items final.state
            self.now.full_tree.now
            → self.now.full_tree.now.tree.items ≡ final_items final → each self.now.changes.now
            ≡ changes_of (lent_in self.now.rows.now) final
            → IsLeast
            (BadTarget (whole_of (lent_in self.now.rows.now) final) final.items final.state) missing
            → IfOk result (IsLeast (BadStanding (lent_in self.now.rows.now) final)) }
    {
        let full_tree = self.full_tree;
        let deep = first_too_deep(self.rows, &full_tree.spots, &full_tree.tree);
        let refine = first_wrong(
            alloc,
            self.rows,
            &full_tree.spots,
            &full_tree.refined,
            &full_tree.tree,
        )?;
        let missing = lesser(missing, full_tree.first_untargeted());
        let misplaced = first_misplaced(self.rows, &full_tree.spots, &full_tree.tree);
        let imposed = self.first_imposed(alloc)?;
        let augment = lesser(missing, lesser(misplaced, imposed));
        Ok(lesser(deep, lesser(refine, augment)))
    }
}
