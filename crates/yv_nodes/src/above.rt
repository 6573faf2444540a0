//! What is kept of the nodes above one.
ghost use Rattle.std.specs.{Prelude.{◌≡◌, [], ◌∷◌, ◌==◌, ◌||◌, ◌&&◌, if◌then◌else◌, true, false, ℕ, List, None, IfOk}, Rc.{rc_str_bytes}};
ghost use Rattle.yv_node_content.specs.{Kinds.{is_input, is_leaf, is_operation_or_notification}, Steps.{has_step}};
ghost use Rattle.yv_nodes.specs.{declared.node.NodeId.{NodeId}, Tree.{Label}, Member.{data_module_file, is_module_file, row_with}, Labels.{has_key_called, in_input, is_configuration, label_of}, Above.{seen_of}};

use crate::node::NodePlace;
use std::alloc::AllocError;
use std::marker::Model;
use std::rc::RcStr;
use yv_node_content::{Definition, NodeKind};

/// What the nodes above a schema node make of it. Contracts see it as what is seen of these nodes.
#[derive(Drop)]
pub struct Above {
    // The module of the nearest that isn't a choice or case, by the number of its file.
    around: Option<u32>,
    // The module of the node just above.
    module_file: u32,
    // Whether a node without a `config` statement is configuration here.
    is_config: bool,
    in_operation: bool,
    in_input: bool,
    // What is said of the node just above, if there is one.
    node: Option<Definition>,
}

impl Model for Above {
    ghost use Rattle.yv_nodes.specs.Above.{View, keys_of};

    ghost Value = { View };

    ghost view = { λ a. record {
      around = a.around;
      module_file = a.module_file;
      is_config = a.is_config;
      in_operation = a.in_operation;
      in_input = a.in_input;
      keys = keys_of a.node;
    } };
}

impl Above {
    /// No nodes: a node at the top has none above it.
    pub fn top() -> Above
        ensures { result ≡ seen_of [] }
    {
        Above {
            around: None,
            module_file: 0,
            is_config: true,
            in_operation: false,
            in_input: false,
            node: None,
        }
    }

    /// The place in the tree of the node that a statement defines, below these nodes. `module_file`
    /// is the number of the file of its module. Err only if memory runs out.
    pub fn place_of(
        &self,
        definition: &Definition,
        module_file: u32,
    ) -> Result<NodePlace, AllocError>
        ensures { (ls : List Label) → self.now ≡ seen_of ls → IfOk result (λ standing.
            (module_name : List ℕ) (parent : NodeId) (children : List NodeId)
            → (row_with definition.now module_file module_name standing parent children).label
            ≡ label_of definition.now module_file module_name ls) }
    {
        let is_key = self.is_key(definition, module_file)?;
        Ok(self.place_with(definition, module_file, is_key))
    }

    /// The same, where it is known whether the node is a key of the list just above. No name is
    /// read.
    pub fn place_with(&self, definition: &Definition, module_file: u32, is_key: bool) -> NodePlace
        ensures { (ls : List Label) → self.now ≡ seen_of ls → is_key
            ≡ (is_leaf definition.now.kind && has_key_called ls module_file definition.now.name)
            → (module_name : List ℕ) (parent : NodeId) (children : List NodeId)
            → (row_with definition.now module_file module_name result parent children).label
            ≡ label_of definition.now module_file module_name ls }
    {
        NodePlace {
            is_qualified: self.is_qualified(module_file),
            is_config: self.is_configuration(definition),
            is_key,
            is_input: self.is_input(definition),
        }
    }

    // Whether a JSON member of a node of this module has the module's name in front.
    fn is_qualified(&self, module_file: u32) -> bool
        ensures { (ls : List Label) → self.now ≡ seen_of ls
            → result ≡ (if is_module_file module_file (data_module_file ls) then false else true) }
    {
        match self.around {
            Some(around) => around != module_file,
            None => true,
        }
    }

    // Whether the node that a statement defines is an operation's input, or is in it.
    fn is_input(&self, definition: &Definition) -> bool
        ensures { (ls : List Label) → self.now ≡ seen_of ls → result
            ≡ (is_input definition.now.kind || in_input ls) }
    {
        definition.kind() == NodeKind::Input || self.in_input
    }

    // Whether the node that a statement defines is configuration.
    fn is_configuration(&self, definition: &Definition) -> bool
        ensures { (ls : List Label) → self.now ≡ seen_of ls → result
            ≡ is_configuration definition.now ls }
    {
        if self.in_operation || definition.kind().is_operation_or_notification() {
            return false;
        }
        definition.stated_config().unwrap_or(self.is_config)
    }

    // Whether it is a key of the list just above.
    fn is_key(&self, definition: &Definition, module_file: u32) -> Result<bool, AllocError>
        ensures { (ls : List Label) → self.now ≡ seen_of ls
            → IfOk result
            (λ is_key. is_key
            ≡ (is_leaf definition.now.kind && has_key_called ls module_file definition.now.name)) }
    {
        if !is_leaf(definition) {
            return Ok(false);
        }
        let bare = definition.shared_name()?;
        let name = definition.shared_name()?;
        Ok(self.has_bare_key(module_file, bare) || self.has_key_step(Some(module_file), name))
    }

    // Whether the list just above has a key of this name without a prefix, and is of this module.
    fn has_bare_key(&self, module_file: u32, name: RcStr) -> bool
        ensures { result
            ≡ (module_file == self.now.module_file
            && has_step None (rc_str_bytes name) self.now.keys) }
    {
        module_file == self.module_file && self.has_key_step(None, name)
    }

    // Whether the list just above has a key that is written with this module, or without one, and
    // this name.
    fn has_key_step(&self, module_file: Option<u32>, name: RcStr) -> bool
        ensures { result ≡ has_step module_file (rc_str_bytes name) self.now.keys }
    {
        match &self.node {
            Some(node) => node.has_key_step(module_file, name),
            None => false,
        }
    }

    /// These nodes and, just below them, the one that a statement defines, with the number of its
    /// module's file and its place.
    pub fn below(
        &self,
        definition: &Definition,
        module_file: u32,
        standing: NodePlace,
    ) -> Result<Above, AllocError>
        ensures { (ls : List Label) (l : Label) → self.now ≡ seen_of ls → l.defined ≡ definition.now
            → l.module_file ≡ module_file
            → l.is_config ≡ standing.is_config → l.is_input ≡ standing.is_input
            → IfOk result (λ above. above ≡ seen_of (l ∷ ls)) }
    {
        let kind = definition.kind();
        Ok(Above {
            around: if kind.is_passed() {
                self.around
            } else {
                Some(module_file)
            },
            module_file,
            is_config: standing.is_config,
            in_operation: kind.is_operation_or_notification() || self.in_operation,
            in_input: standing.is_input,
            node: Some(definition.share()?),
        })
    }
}

// Whether a statement defines a leaf.
fn is_leaf(definition: &Definition) -> bool
    ensures { result ≡ is_leaf definition.now.kind }
{
    definition.kind() == NodeKind::Leaf
}
