//! What is known of files before their nodes are built.
ghost use Rattle.std.specs.Prelude.{◌≡◌, true, None, IfOk};
ghost use Rattle.yv_expand.specs.Tree.{item_list};
ghost use Rattle.yv_text_statement.specs.Selection.{ModuleChoice};
ghost use Rattle.yv_node_statements.specs.Context.{files_in, typing_in};
ghost use Rattle.yv_expand_tree.specs.FinalTree.{AreKept};
ghost use Rattle.yv_schema.specs.{InnerBasis.{NumberedBasis, module_file_of}, InnerContext.{IsRefinedOf, Tells}, InnerRows.{said_at}};

use std::alloc::{AllocError, Global};
use yv_expand::RemainingNode;
use yv_expand_tree::FinalTree;
use yv_node_content::Definition;
use yv_node_statements::{Definitions, RefinedDefinitions};
use yv_values::Matchers;

/// What the statements of files say of the nodes of a tree, once for each way in which refines
/// change one.
pub(crate) fn refined_definitions<'c, 'a, 'b>(
    alloc: Global,
    definitions: &'c Definitions<'c, 'a, 'b>,
    tree: &'c FinalTree,
) -> Result<RefinedDefinitions<'c, 'c, 'a, 'b>, AllocError>
    ensures { IfOk result (IsRefinedOf definitions.now tree.now) }
{
    let changes = tree.changes();
    let mut refined = RefinedDefinitions::new(alloc, definitions, changes);
    let mut matchers = Matchers::new(alloc);
    for item in 0..tree.len() as usize {
        if let Some(sequence) = changes.sequence(item) {
            refined.keep(&mut matchers, tree.origin(item), sequence)?;
        }
    }
    Ok(refined)
}

/// What the statements of files say of nodes, and the final tree of these.
#[derive(Clone, Copy)]
pub(crate) struct Context<'c, 'a, 'b> {
    definitions: &'c Definitions<'c, 'a, 'b>,
    refined: &'c RefinedDefinitions<'c, 'c, 'a, 'b>,
    pub(crate) tree: &'c FinalTree,
}

impl<'c, 'a, 'b> Context<'c, 'a, 'b> {
    /// What these say.
    pub(crate) fn new(
        definitions: &'c Definitions<'c, 'a, 'b>,
        refined: &'c RefinedDefinitions<'c, 'c, 'a, 'b>,
        tree: &'c FinalTree,
    ) -> Context<'c, 'a, 'b>
        ensures tree { result.tree.now ≡ tree.now }
        ensures tells { (b : NumberedBasis) (choice : ModuleChoice)
            → files_in definitions.now ≡ b.files
            → typing_in definitions.now ≡ b.typing
            → IsRefinedOf definitions.now tree.now refined.now
            → (k : AreKept choice b.files b.truth tree.now) → k.final ≡ b.final → k.nodes ≡ b.nodes
            → (tells : Tells b result) × (tells.choice ≡ choice) }
    {
        Context {
            definitions,
            refined,
            tree,
        }
    }

    /// The nodes that are left.
    pub(crate) fn remaining_nodes(&self) -> &'c [RemainingNode]
        ensures own { result.now ≡ self.now.tree.now.left }
        ensures tells { (b : NumberedBasis) → Tells b self.now → result.now
            ≡ item_list None 0 b.nodes }
    {
        self.tree.remaining_nodes()
    }

    /// What statements say of nodes.
    pub(crate) fn definitions(&self) -> &'c Definitions<'c, 'a, 'b>
        ensures { result.now ≡ self.now.definitions.now }
    {
        self.definitions
    }

    /// The number of the file of the module to which an item belongs.
    pub(crate) fn module_file(&self, item: usize) -> u32
        ensures { (b : NumberedBasis) → Tells b self.now → result ≡ module_file_of b item }
    {
        self.tree.module_file(item)
    }

    /// Whether the nodes of two items are copies of one statement that the same refines change.
    pub(crate) fn are_copies(&self, one: usize, other: usize) -> bool
        ensures { (b : NumberedBasis) → Tells b self.now → result ≡ true
            → said_at b one ≡ said_at b other }
    {
        let changes = self.tree.changes();
        self.tree.origin(one) == self.tree.origin(other)
            && changes.sequence(one) == changes.sequence(other)
    }

    /// Whether two items belong to one module.
    pub(crate) fn are_of_one_module(&self, one: usize, other: usize) -> bool
        ensures { (b : NumberedBasis) → Tells b self.now → result ≡ true
            → module_file_of b one ≡ module_file_of b other }
    {
        self.module_file(one) == self.module_file(other)
    }

    /// What is said of the node of an item.
    pub(crate) fn definition(&self, item: usize) -> Result<Definition, AllocError>
        ensures { (b : NumberedBasis) → Tells b self.now
            → IfOk result (λ d. d ≡ said_at b item) }
    {
        let sequence = self.tree.changes().sequence(item);
        self.refined.of(self.tree.origin(item), sequence)
    }
}
