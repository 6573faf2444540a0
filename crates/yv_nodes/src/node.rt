//! A schema node, and its number.
ghost use Rattle.std.specs.{Prelude.{◌≡◌, ◌≤◌, ◌||◌, [], length, Some, None, IfOk, not, map, string_bytes, unwrap_or, if◌then◌else◌, IsTrue}, Option.{option_map}, Rc.{rc_slice_items, rc_str_bytes}};

use std::alloc::{AllocError, Global};
use std::marker::Model;
use std::rc::{RcSlice, RcStr};
use yv_node_content::{Definition, NodeKind, NodeStatus, PathPiece, PathStep};
use yv_text_statement::{Code, Refusal, WrittenText};
use yv_values::{Defaults, PlainType, Value};

/// The number of a schema node; the root, above the nodes at the top, has the last number of 32
/// bits.
#[derive(Clone, Copy, Debug, PartialEq, Eq, PartialOrd, Ord)]
pub struct NodeId(pub u32);

impl NodeId {
    /// The number itself.
    pub fn number(self) -> u32
        ensures { result ≡ self.0 }
    {
        self.0
    }
}

/// The place of a node in the schema tree: what the nodes above it make of it.
#[derive(Clone, Copy, Debug, PartialEq, Eq)]
pub struct NodePlace {
    /// Whether a JSON member of the node has the module's name in front.
    pub is_qualified: bool,
    /// Whether the node is configuration.
    pub is_config: bool,
    /// Whether it is a key of the list just above.
    pub is_key: bool,
    /// Whether it is an operation's input, or is inside it.
    pub is_input: bool,
}

/// A schema node. Contracts see its label and the numbers of its parent and its children.
#[derive(Drop)]
pub struct Node {
    definition: Definition,
    module_file: u32,
    module: RcStr,
    standing: NodePlace,
    parent: NodeId,
    children: Vec<NodeId>,
}

impl Model for Node {
    ghost use Rattle.std.specs.Rc.{rc_str_bytes};
    ghost use Rattle.yv_nodes.specs.{Rows.{Row}, Member.{row_with}};

    ghost Value = { Row };

    ghost view = { λ n. row_with n.definition n.module_file (rc_str_bytes n.module) n.standing n.parent n.children.items };
}

impl Node {
    ghost use Rattle.yv_values.specs.{Types.{plain_of}, Same.{has_same}};
    ghost use Rattle.yv_node_content.specs.Definition.{defaults_said, is_empty, own_default, paths_in};
    ghost use Rattle.yv_text_statement.specs.TextInFile.{written_of};
    ghost use Rattle.yv_nodes.specs.{Defaults.{defaults_of, width}, Refusals.{refusal_of}, Member.{behind, row_with}, NodeTypes.{typed_row}};

    /// The node that a statement defines, in the namespace of the module of this name, the number
    /// of whose file is `module_file`, which has this place in the tree, with these numbers of the
    /// node above it and of those below it.
    pub fn new(
        definition: Definition,
        module_file: u32,
        module_name: RcStr,
        standing: NodePlace,
        parent: NodeId,
        children: Vec<NodeId>,
    ) -> Node
        ensures { result
            ≡ row_with definition module_file (rc_str_bytes module_name) standing parent
            children.items }
    {
        Node {
            definition,
            module_file,
            module: module_name,
            standing,
            parent,
            children,
        }
    }

    /// The number of the file in which the node is defined.
    pub fn file(&self) -> u32
        ensures { result ≡ self.now.label.defined.file }
    {
        self.definition.file()
    }

    /// The offset in bytes of the keyword of the statement that defines it.
    pub fn offset(&self) -> u64
        ensures { result ≡ self.now.label.defined.offset }
    {
        self.definition.offset()
    }

    /// The line of that keyword, from 1.
    pub fn line(&self) -> u64
        ensures { result ≡ self.now.label.defined.line }
    {
        self.definition.line()
    }

    /// The refusal of this code at the statement that defines the node, where it is wrong.
    pub fn refusal_if(&self, is_wrong: bool, code: Code) -> Option<Refusal>
        ensures { result ≡ (if is_wrong then Some (refusal_of code self.now.label) else None) }
    {
        if is_wrong {
            Some(Refusal {
                code,
                file: self.definition.file(),
                offset: self.definition.offset(),
                line: self.definition.line(),
            })
        } else {
            None
        }
    }

    /// What the node is.
    pub fn kind(&self) -> NodeKind
        ensures { result ≡ self.now.label.defined.kind }
    {
        self.definition.kind()
    }

    /// The number of the file of the module whose namespace the node is in. Nodes of one module
    /// have one number.
    pub fn module_file(&self) -> u32
        ensures { result ≡ self.now.label.module_file }
    {
        self.module_file
    }

    /// The name of the module whose namespace the node is in.
    pub fn module(&self) -> &str
        ensures { result.now ≡ self.now.label.module_name }
    {
        self.module.as_str()
    }

    /// The node's name, without its module.
    pub fn name(&self) -> &str
        ensures { result.now ≡ self.now.label.defined.name }
    {
        self.definition.name()
    }

    /// The node's name, over the text that its copies share.
    pub fn shared_name(&self) -> Result<RcStr, AllocError>
        ensures { IfOk result (λ text. rc_str_bytes text ≡ self.now.label.defined.name) }
    {
        self.definition.shared_name()
    }

    /// The name of a JSON member that writes the node: its name, after the module's and a colon
    /// where that isn't the module of the parent (RFC 7951, section 4). The text is made anew,
    /// since a module's name may be as long as its file.
    pub fn member(&self, alloc: Global) -> Result<String, AllocError>
        ensures { IfOk result (λ text. string_bytes text ≡ self.now.label.member) }
    {
        let mut text = String::new(alloc);
        if self.standing.is_qualified {
            text.push_str(self.module.as_str())?;
            text.push(':')?;
        }
        text.push_str(self.definition.name())?;
        Ok(text)
    }

    /// The name of the module before the name of such a member, over the text that its nodes share,
    /// where there is one.
    pub fn shared_qualifier(&self) -> Result<Option<RcStr>, AllocError>
        ensures { IfOk result
            (λ module_file. self.now.label.member
            ≡ behind (option_map rc_str_bytes module_file) self.now.label.defined.name) }
    {
        if self.standing.is_qualified {
            Ok(Some(self.module.clone()?))
        } else {
            Ok(None)
        }
    }

    /// The types that its value may have, in order: none at a container.
    pub fn types(&self) -> &[PlainType]
        ensures { map plain_of result.now ≡ self.now.label.defined.types }
    {
        self.definition.types()
    }

    /// Whether the node being there says something by itself, as that of a presence container does,
    /// by its own statement or by a refine (RFC 7950, sections 7.5.5 and 7.13.2).
    pub fn presence(&self) -> bool
        ensures { result ≡ self.now.label.defined.has_presence }
    {
        self.definition.has_presence()
    }

    /// Whether the node is still to be used, by its own `status` statement (RFC 7950, section
    /// 7.21.2).
    pub fn status(&self) -> NodeStatus
        ensures { result ≡ self.now.label.defined.status }
    {
        self.definition.status()
    }

    /// The expressions of its `if-feature` statements and then those of its refines, separated by
    /// commas, to be shown to a reader. The text is empty without any.
    pub fn features(&self) -> &str
        ensures { result.now ≡ self.now.label.defined.features }
    {
        self.definition.features()
    }

    /// The name of its type as it is written. The text is empty without a type.
    pub fn type_text(&self) -> &str
        ensures { result.now ≡ self.now.label.defined.type_text }
    {
        self.definition.type_text()
    }

    /// The pieces of the path of its leafref, as it is written, between `/` (RFC 7950, section
    /// 9.9.2): nothing where its type isn't written as a leafref.
    pub fn path(&self) -> &[PathPiece]
        ensures { result.now ≡ self.now.label.defined.path }
    {
        self.definition.path()
    }

    /// What its `config` statement says, or the last of its refines with one.
    pub fn stated_config(&self) -> Option<bool>
        ensures { result ≡ self.now.label.defined.stated_config }
    {
        self.definition.stated_config()
    }

    /// Whether the node is configuration (RFC 7950, section 7.21.1): nothing in an operation or a
    /// notification is.
    pub fn config(&self) -> bool
        ensures { result ≡ self.now.label.is_config }
    {
        self.standing.is_config
    }

    /// Whether it is a key of the list just above (RFC 7950, section 7.8.2).
    pub fn is_key(&self) -> bool
        ensures { result ≡ self.now.label.is_key }
    {
        self.standing.is_key
    }

    /// Whether it is the input of an operation, or is inside it (RFC 7950, section 7.14.2).
    pub fn is_input(&self) -> bool
        ensures { result ≡ self.now.label.is_input }
    {
        self.standing.is_input
    }

    /// Whether its `mandatory` statement says true, or that of the last of its refines with one.
    pub fn mandatory(&self) -> bool
        ensures { result ≡ self.now.label.defined.is_mandatory }
    {
        self.definition.is_mandatory()
    }

    /// The fewest entries that a list or leaf-list has to have.
    pub fn min(&self) -> u32
        ensures { result ≡ self.now.label.defined.min }
    {
        self.definition.min()
    }

    /// The most entries that a list or leaf-list may have, where that is bounded.
    pub fn max(&self) -> Option<u32>
        ensures { result ≡ self.now.label.defined.max }
    {
        self.definition.max()
    }

    /// What the `key` statement of a list names, each name being the one step of a path, in order
    /// (RFC 7950, section 7.8.2). A step is None where its prefix identifies no module.
    pub fn keys(&self) -> &[Option<PathStep>]
        ensures { result.now ≡ self.now.label.defined.keys }
    {
        self.definition.keys()
    }

    /// Whether it has a `key` statement.
    pub fn has_key(&self) -> bool
        ensures { result ≡ not (is_empty self.now.label.defined.keys) }
    {
        self.definition.has_key()
    }

    /// The paths of each of its `unique` statements, in order (RFC 7950, section 7.8.3).
    pub fn uniques(&self) -> &[Vec<Vec<Option<PathStep>>>]
        ensures { map paths_in result.now ≡ self.now.label.defined.uniques }
    {
        self.definition.uniques()
    }

    /// The arguments of its `default` statements, or those of the last of its refines with one, and
    /// the files that contain them, in order: one at most where it isn't a leaf-list.
    pub fn own_defaults(&self) -> &[WrittenText]
        ensures { map written_of result.now ≡ self.now.label.defined.own_defaults }
    {
        self.definition.own_defaults()
    }

    /// The first of them.
    pub fn own_default(&self) -> Option<&WrittenText>
        ensures { option_map (λ written. written_of written.now) result
            ≡ own_default self.now.label.defined }
    {
        self.definition.own_default()
    }

    /// How many defaults are said of it: its own, or else that of its type, but not where entries
    /// are asked for (RFC 7950, sections
    /// 7.3.4, 7.6.1 and 7.7.2).
    pub fn count_defaults_said(&self) -> usize
        ensures { result ≡ length (defaults_said self.now.label.defined) }
    {
        self.definition.count_defaults_said()
    }

    /// Whether two of the values that these give it are the same.
    pub fn repeats_default(&self) -> bool
        ensures { result ≡ has_same self.now.label.defined.defaults }
    {
        self.definition.repeats_default()
    }

    /// The values that its defaults give it, one at most where it isn't a leaf-list (RFC 7950,
    /// sections 7.6.1 and 7.7.2): none of a key and of a mandatory leaf.
    pub fn defaults(&self) -> &[Value]
        // The values of its defaults, at most 1,024: none for a key leaf, and none if the node is
        // mandatory.
        ensures value { result.now ≡ defaults_of self.now.label }
        // There are at most 1,024.
        ensures few { length result.now ≤ 1024 }
    {
        if self.has_no_defaults() {
            return &[];
        }
        self.definition.defaults()
    }

    /// The same values, one of which is found in time log n. None of a key and of a mandatory leaf.
    pub fn default_values(&self) -> Option<&Defaults>
        ensures { unwrap_or (option_map (λ values. values.now) result) []
            ≡ defaults_of self.now.label }
    {
        if self.has_no_defaults() {
            return None;
        }
        Some(self.definition.default_values())
    }

    /// How many these values are, and 1 where there are fewer.
    pub fn width(&self) -> u64
        // The number of these values, or 1 if there are none.
        ensures value { result ≡ width self.now.label }
        // At most 1,024.
        ensures few { result ≤ 1024 }
    {
        (self.defaults().len() as u64).max(1)
    }

    fn has_no_defaults(&self) -> bool
        ensures { result ≡ (self.now.label.is_key || self.now.label.defined.is_mandatory) }
    {
        self.standing.is_key || self.definition.is_mandatory()
    }

    /// The list of its types, over the memory in which it is kept: to be shared by other nodes.
    pub(crate) fn shared_types(&self) -> Result<RcSlice<PlainType>, AllocError>
        ensures { IfOk result
            (λ types. map plain_of (rc_slice_items types) ≡ self.now.label.defined.types) }
    {
        self.definition.shared_types()
    }

    /// Gives it other types.
    pub(crate) fn set_types(&mut self, types: RcSlice<PlainType>)
        ensures { self.new ≡ typed_row (map plain_of (rc_slice_items types)) self.old }
    {
        self.definition.set_types(types);
    }

    /// Takes over the texts and lists of another node, of which the same is said, and drops its
    /// own. Answers false, and keeps its own, where as many nodes share those as can be counted.
    pub(crate) fn share_with(&mut self, other: &Node) -> bool
        ensures same { other.now.label.defined ≡ self.old.label.defined → self.new ≡ self.old }
        ensures said { IsTrue result → self.new.label.defined ≡ other.now.label.defined }
        ensures parent { self.new.parent ≡ self.old.parent }
    {
        match other.definition.share() {
            Ok(definition) => {
                self.definition = definition;
                true
            }
            Err(_) => false,
        }
    }

    /// The number of the node above it, or that of the root.
    pub fn parent(&self) -> NodeId
        ensures { result ≡ self.now.parent }
    {
        self.parent
    }

    /// The numbers of the nodes below it, in the order of their statements.
    pub fn children(&self) -> &[NodeId]
        ensures { result.now ≡ self.now.children }
    {
        self.children.as_slice()
    }
}
