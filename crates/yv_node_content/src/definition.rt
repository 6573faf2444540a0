//! What a statement says of the schema node that it defines.
ghost use Rattle.std.specs.{Prelude.{◌≡◌, ◌≤◌, length, not, map, IfOk}, Option.{option_map}, Rc.{rc_slice_items, rc_str_bytes}};
ghost use Rattle.yv_values.specs.{Types.{plain_of}, Same.{has_same}};
ghost use Rattle.yv_node_content.specs.{Definition.{defaults_said, is_empty, own_default, paths_in, with_types}, Steps.{has_step}};
ghost use Rattle.yv_text_statement.specs.TextInFile.{written_of};

use crate::keys::Keys;
use crate::kind::{NodeKind, NodeStatus};
use crate::piece::PathPiece;
use crate::step::PathStep;
use std::alloc::{AllocError, Global};
use std::marker::Model;
use std::rc::{Rc, RcSlice, RcStr};
use yv_text_statement::WrittenText;
use yv_values::{Defaults, PlainType, Value};

/// A draft of a definition, what a statement says of the schema node that it defines: each part
/// may still be changed. Contracts see it as the record `Definition`.
#[derive(Drop)]
pub struct DefinitionDraft {
    /// The offset in bytes of the statement's keyword.
    pub offset: u64,
    /// The line of that keyword, from 1.
    pub line: u64,
    /// The node's name, without its module.
    pub name: RcStr,
    /// The types that its value may have, in order: none at a container.
    pub types: RcSlice<PlainType>,
    /// The expressions of its `if-feature` statements, separated by commas.
    pub features: RcStr,
    /// The name of its type as it is written.
    pub type_text: RcStr,
    /// The pieces of the path of its leafref, as it is written: nothing where its type isn't
    /// written as a leafref.
    pub path: Rc<Vec<PathPiece>>,
    /// What its `key` statement names, in order: nothing without one.
    pub keys: Rc<Keys>,
    /// The paths of each of its `unique` statements, in order.
    pub uniques: Rc<Vec<Vec<Vec<Option<PathStep>>>>>,
    /// The arguments of its `default` statements, in order: one at most where it isn't a leaf-list.
    pub own_defaults: RcSlice<WrittenText>,
    /// The default that its type has by its typedefs.
    pub type_default: Option<WrittenText>,
    /// The values that these give it: one at most at a leaf.
    pub defaults: Rc<Defaults>,
    /// The number of the file that contains the statement.
    pub file: u32,
    /// The fewest entries that a list or leaf-list has to have: 0 where nothing is said.
    pub min: u32,
    /// The most entries that a list or leaf-list may have, where that is bounded.
    pub max: Option<u32>,
    /// What the node is.
    pub kind: NodeKind,
    /// Whether the node is still to be used.
    pub status: NodeStatus,
    /// Whether this is a presence container (RFC 7950, section 7.5.1).
    pub has_presence: bool,
    /// Whether its `mandatory` statement says true.
    pub is_mandatory: bool,
    /// What its `config` statement says.
    pub stated_config: Option<bool>,
}

impl Model for DefinitionDraft {
    ghost use Rattle.std.specs.{Prelude.{map}, Option.{option_map}, Rc.{rc_slice_items, rc_str_bytes}};
    ghost use Rattle.yv_values.specs.Types.{plain_of};
    ghost use Rattle.yv_node_content.specs.Definition.{Definition, paths_in};
    ghost use Rattle.yv_text_statement.specs.TextInFile.{written_of};

    ghost Value = { Definition };

    ghost view = { λ d. record {
      file = d.file;
      offset = d.offset;
      line = d.line;
      kind = d.kind;
      name = rc_str_bytes d.name;
      types = map plain_of (rc_slice_items d.types);
      has_presence = d.has_presence;
      status = d.status;
      features = rc_str_bytes d.features;
      type_text = rc_str_bytes d.type_text;
      path = d.path.value.items;
      stated_config = d.stated_config;
      is_mandatory = d.is_mandatory;
      min = d.min;
      max = d.max;
      keys = d.keys.value;
      uniques = map paths_in d.uniques.value.items;
      own_defaults = map written_of (rc_slice_items d.own_defaults);
      type_default = option_map written_of d.type_default;
      defaults = d.defaults.value;
    } };
}

impl DefinitionDraft {
    /// The definition that was put together. It takes no more memory where it is shared.
    pub fn finish(self, alloc: Global) -> Result<Definition, AllocError>
        ensures { IfOk result (λ d. d ≡ self) }
    {
        let types = self.types.clone()?;
        Ok(Definition {
            said: Rc::new(alloc, self)?,
            types,
        })
    }

    /// How many defaults are said of it: its own, or else that of its type, but not where entries
    /// are asked for (RFC 7950, sections
    /// 7.3.4, 7.6.1 and 7.7.2).
    pub fn count_defaults_said(&self) -> usize
        ensures { result ≡ length (defaults_said self.now) }
    {
        match self.own_defaults.len() {
            0 if self.min == 0 && self.type_default.is_some() => 1,
            count => count,
        }
    }

    // The same once more, over the same texts and lists.
    fn copy(&self) -> Result<DefinitionDraft, AllocError>
        ensures { IfOk result (λ copy. copy ≡ self.now) }
    {
        Ok(DefinitionDraft {
            offset: self.offset,
            line: self.line,
            name: self.name.clone()?,
            types: self.types.clone()?,
            features: self.features.clone()?,
            type_text: self.type_text.clone()?,
            path: self.path.clone()?,
            keys: self.keys.clone()?,
            uniques: self.uniques.clone()?,
            own_defaults: self.own_defaults.clone()?,
            type_default: shared_default(&self.type_default)?,
            defaults: self.defaults.clone()?,
            file: self.file,
            min: self.min,
            max: self.max,
            kind: self.kind,
            status: self.status,
            has_presence: self.has_presence,
            is_mandatory: self.is_mandatory,
            stated_config: self.stated_config,
        })
    }
}

/// A definition: what a statement says of the schema node that it defines, whatever the place of
/// the node in the schema tree. All nodes that it defines share it; only its types may be others,
/// as those of a leafref are. Contracts see it as the record `Definition`.
#[derive(Drop)]
pub struct Definition {
    said: Rc<DefinitionDraft>,
    types: RcSlice<PlainType>,
}

impl Model for Definition {
    ghost use Rattle.std.specs.{Prelude.{map}, Rc.{rc_slice_items}};
    ghost use Rattle.yv_values.specs.Types.{plain_of};
    ghost use Rattle.yv_node_content.specs.Definition.{Definition, with_types};

    ghost Value = { Definition };

    ghost view = { λ d. with_types (map plain_of (rc_slice_items d.types)) d.said.value };
}

impl Definition {
    /// The number of the file that contains the statement.
    pub fn file(&self) -> u32
        ensures { result ≡ self.now.file }
    {
        self.said.file
    }

    /// The offset in bytes of the statement's keyword.
    pub fn offset(&self) -> u64
        ensures { result ≡ self.now.offset }
    {
        self.said.offset
    }

    /// The line of that keyword, from 1.
    pub fn line(&self) -> u64
        ensures { result ≡ self.now.line }
    {
        self.said.line
    }

    /// What the node is.
    pub fn kind(&self) -> NodeKind
        ensures { result ≡ self.now.kind }
    {
        self.said.kind
    }

    /// The node's name, without its module.
    pub fn name(&self) -> &str
        ensures { result.now ≡ self.now.name }
    {
        self.said.name.as_str()
    }

    /// The types that its value may have, in order: none at a container.
    pub fn types(&self) -> &[PlainType]
        ensures { map plain_of result.now ≡ self.now.types }
    {
        self.types.as_slice()
    }

    /// Whether the node being there says something by itself, as that of a presence container does
    /// (RFC 7950, section 7.5.5).
    pub fn has_presence(&self) -> bool
        ensures { result ≡ self.now.has_presence }
    {
        self.said.has_presence
    }

    /// Whether the node is still to be used.
    pub fn status(&self) -> NodeStatus
        ensures { result ≡ self.now.status }
    {
        self.said.status
    }

    /// The expressions of its `if-feature` statements, separated by commas, to be shown to a reader
    /// (RFC 7950, section
    /// 7.20.2). The text is empty without any.
    pub fn features(&self) -> &str
        ensures { result.now ≡ self.now.features }
    {
        self.said.features.as_str()
    }

    /// The name of its type as it is written, with a prefix where that has one. The text is empty
    /// without a type.
    pub fn type_text(&self) -> &str
        ensures { result.now ≡ self.now.type_text }
    {
        self.said.type_text.as_str()
    }

    /// The pieces of the path of its leafref, as it is written, between `/` (RFC 7950, section
    /// 9.9.2): nothing where its type isn't written as a leafref.
    pub fn path(&self) -> &[PathPiece]
        ensures { result.now ≡ self.now.path }
    {
        self.said.path.as_slice()
    }

    /// What its `config` statement says, where it has one (RFC 7950, section 7.21.1).
    pub fn stated_config(&self) -> Option<bool>
        ensures { result ≡ self.now.stated_config }
    {
        self.said.stated_config
    }

    /// Whether its `mandatory` statement says true (RFC 7950, sections 7.6.5 and 7.9.4).
    pub fn is_mandatory(&self) -> bool
        ensures { result ≡ self.now.is_mandatory }
    {
        self.said.is_mandatory
    }

    /// The fewest entries that a list or leaf-list has to have (RFC 7950, section 7.7.5): 0 where
    /// nothing is said.
    pub fn min(&self) -> u32
        ensures { result ≡ self.now.min }
    {
        self.said.min
    }

    /// The most entries that a list or leaf-list may have, where that is bounded (RFC 7950, section
    /// 7.7.6).
    pub fn max(&self) -> Option<u32>
        ensures { result ≡ self.now.max }
    {
        self.said.max
    }

    /// What its `key` statement names, each name being the one step of a path, in order: nothing
    /// without one (RFC 7950, section
    /// 7.8.2). A step is None where its prefix identifies no module.
    pub fn keys(&self) -> &[Option<PathStep>]
        ensures { result.now ≡ self.now.keys }
    {
        self.said.keys.steps()
    }

    /// Whether it has a key.
    pub fn has_key(&self) -> bool
        ensures { result ≡ not (is_empty self.now.keys) }
    {
        !self.said.keys.steps().is_empty()
    }

    /// Whether its `key` statement has a name that is written with this module, or without one.
    /// Takes time log n in its names.
    pub fn has_key_step(&self, module_file: Option<u32>, name: RcStr) -> bool
        ensures { result ≡ has_step module_file (rc_str_bytes name) self.now.keys }
    {
        self.said.keys.contains(module_file, name)
    }

    /// The paths of each of its `unique` statements, in order (RFC 7950, section 7.8.3). A step is
    /// None where its prefix identifies no module.
    pub fn uniques(&self) -> &[Vec<Vec<Option<PathStep>>>]
        ensures { map paths_in result.now ≡ self.now.uniques }
    {
        self.said.uniques.as_slice()
    }

    /// The arguments of its `default` statements, and the files that contain them, in order: one at
    /// most where it isn't a leaf-list.
    pub fn own_defaults(&self) -> &[WrittenText]
        ensures { map written_of result.now ≡ self.now.own_defaults }
    {
        self.said.own_defaults.as_slice()
    }

    /// The argument of its `default` statement, and the file that contains it: the first, where it
    /// has more.
    pub fn own_default(&self) -> Option<&WrittenText>
        ensures { option_map (λ written. written_of written.now) result ≡ own_default self.now }
    {
        self.own_defaults().first()
    }

    /// The default that its type has by its typedefs, and the file that contains it (RFC 7950,
    /// section 7.3.4).
    pub fn type_default(&self) -> Option<&WrittenText>
        ensures { option_map (λ written. written_of written.now) result ≡ self.now.type_default }
    {
        self.said.type_default.as_ref()
    }

    /// How many defaults are said of it: its own, or else that of its type, but not where entries
    /// are asked for (RFC 7950, sections
    /// 7.3.4, 7.6.1 and 7.7.2).
    pub fn count_defaults_said(&self) -> usize
        ensures { result ≡ length (defaults_said self.now) }
    {
        self.said.count_defaults_said()
    }

    /// The values that its defaults give it: one at most where it isn't a leaf-list (RFC 7950,
    /// sections 7.6.1 and 7.7.2).
    pub fn defaults(&self) -> &[Value]
        // The values of its defaults.
        ensures value { result.now ≡ self.now.defaults }
        // There are at most 1,024.
        ensures few { length result.now ≤ 1024 }
    {
        self.said.defaults.values()
    }

    /// The same values, one of which is found in time log n.
    pub fn default_values(&self) -> &Defaults
        ensures { result.now ≡ self.now.defaults }
    {
        &self.said.defaults
    }

    /// Whether two of these values are the same.
    pub fn repeats_default(&self) -> bool
        ensures { result ≡ has_same self.now.defaults }
    {
        self.said.defaults.repeats()
    }

    /// The same once more, over the same memory.
    pub fn share(&self) -> Result<Definition, AllocError>
        ensures { IfOk result (λ shared. shared ≡ self.now) }
    {
        Ok(Definition {
            said: self.said.clone()?,
            types: self.types.clone()?,
        })
    }

    /// A draft of the same, over the same texts and lists, so that the time and the memory that it
    /// takes don't grow with these.
    pub fn draft(&self) -> Result<DefinitionDraft, AllocError>
        ensures { IfOk result (λ draft. draft ≡ self.now) }
    {
        let mut draft = self.said.copy()?;
        draft.types = self.types.clone()?;
        Ok(draft)
    }

    /// The list of its types, over the memory in which it is kept.
    pub fn shared_types(&self) -> Result<RcSlice<PlainType>, AllocError>
        ensures { IfOk result (λ types. map plain_of (rc_slice_items types) ≡ self.now.types) }
    {
        self.types.clone()
    }

    /// Gives it other types. What it shares with others stays as it is.
    pub fn set_types(&mut self, types: RcSlice<PlainType>)
        ensures { self.new ≡ with_types (map plain_of (rc_slice_items types)) self.old }
    {
        self.types = types;
    }

    /// Its name, over the same text: the time and the memory that it takes don't grow with the
    /// name.
    pub fn shared_name(&self) -> Result<RcStr, AllocError>
        ensures { IfOk result (λ text. rc_str_bytes text ≡ self.now.name) }
    {
        self.said.name.clone()
    }

    /// Its features, over the same text.
    pub fn shared_features(&self) -> Result<RcStr, AllocError>
        ensures { IfOk result (λ text. rc_str_bytes text ≡ self.now.features) }
    {
        self.said.features.clone()
    }
}

// The same text once more, where there is one.
fn shared_default(text: &Option<WrittenText>) -> Result<Option<WrittenText>, AllocError>
    ensures { IfOk result
        (λ shared. option_map written_of shared ≡ option_map written_of text.now) }
{
    match text {
        Some(written) => Ok(Some(WrittenText {
            text: written.text.clone()?,
            file: written.file,
        })),
        None => Ok(None),
    }
}
