//! Reading what a statement says.
ghost use Rattle.std.specs.{Prelude.{◌≡◌, map, IfOk}, Option.{option_copied, option_map}, Rc.{rc_slice_items, rc_str_bytes}};
ghost use Rattle.yv_text_statement.specs.{Tree.{trees}, Keywords.{keyword_of}};
ghost use Rattle.yv_text_statement.specs.declared.keyword.Keyword.TheVariants as word;
ghost use Rattle.yv_link_scopes.specs.Files.{Files};
ghost use Rattle.yv_node_statements.specs.{InnerNames.{AreNamed}, KnownTypes.{kinds_of, typing_of}, Features.{if_features, expressions}, Definitions.{default_of_type, definition_of_tree, kind_of, node_kind, node_name, status_of, types_in, with_properties}};
ghost use Rattle.yv_values.specs.Types.{plain_of};
ghost use Rattle.yv_node_content.specs.Definition.{blank};
ghost use Rattle.yv_text_statement.specs.TextInFile.{written_of};
ghost use Rattle.yv_types.specs.Types.{default_at};
ghost use Rattle.yv_node_properties.specs.{Statements.{first_of}, Properties.{properties_of, substatements_of}};

use crate::changes::Changes;
use crate::features::push_expressions;
use crate::keys::BlockPaths;
use crate::nothing::Nothing;
use std::alloc::{AllocError, Global};
use std::rc::{RcSlice, RcStr};
use yv_node_content::{DefinitionDraft, NodeKind, NodeStatus};
use yv_node_properties::{argument_of, first_of, name_of};
use yv_text_grammar::Keyword;
use yv_text_statement::{Statement, WrittenText};
use yv_types::Types;
use yv_values::PlainType;

/// What the statements of a keyword define, where they define nodes (RFC 7950, sections 7.5 to
/// 7.16).
pub(crate) fn node_kind(keyword: Keyword) -> Option<NodeKind>
    ensures { result ≡ node_kind keyword }
{
    match keyword {
        Keyword::Container => Some(NodeKind::Container),
        Keyword::Leaf => Some(NodeKind::Leaf),
        Keyword::LeafList => Some(NodeKind::LeafList),
        Keyword::List => Some(NodeKind::List),
        Keyword::Choice => Some(NodeKind::Choice),
        Keyword::Case => Some(NodeKind::Case),
        Keyword::Anydata => Some(NodeKind::Anydata),
        Keyword::Anyxml => Some(NodeKind::Anyxml),
        Keyword::Rpc => Some(NodeKind::Rpc),
        Keyword::Action => Some(NodeKind::Action),
        Keyword::Notification => Some(NodeKind::Notification),
        Keyword::Input => Some(NodeKind::Input),
        Keyword::Output => Some(NodeKind::Output),
        _ => None,
    }
}

// The same. Of those that define none, a container.
fn kind_of(keyword: Keyword) -> NodeKind
    ensures { result ≡ kind_of keyword }
{
    node_kind(keyword).unwrap_or(NodeKind::Container)
}

/// The name of a node whose statement has this argument. The statements of inputs and outputs have
/// none.
pub(crate) fn node_name(kind: NodeKind, argument: &str) -> &str
    ensures { result.now ≡ node_name kind argument.now }
{
    match kind {
        NodeKind::Input => "input",
        NodeKind::Output => "output",
        _ => argument,
    }
}

// The status that a text names. Other texts than those of the three aren't statuses, and no file
// that conforms has one.
fn status_of(text: &str) -> NodeStatus
    ensures { result ≡ status_of text.now }
{
    match text {
        "deprecated" => NodeStatus::Deprecated,
        "obsolete" => NodeStatus::Obsolete,
        _ => NodeStatus::Current,
    }
}

// The plain types of the `type` statement at an offset of a file, over the list that those of its
// types share.
fn types_at(
    nothing: &Nothing,
    types: &Types,
    file: u32,
    offset: u64,
) -> Result<RcSlice<PlainType>, AllocError>
    ensures { IfOk result
        (λ list. map plain_of (rc_slice_items list) ≡ kinds_of types.now file offset) }
{
    match types.at(file, offset)? {
        Some(types) => Ok(types),
        None => nothing.types(),
    }
}

// What the `type` statement of its block means.
fn types_in(
    nothing: &Nothing,
    types: &Types,
    file: u32,
    statement: &Statement<'_>,
) -> Result<RcSlice<PlainType>, AllocError>
    ensures { IfOk result (λ list. map plain_of (rc_slice_items list)
        ≡ types_in (kinds_of types.now) file statement.now.children) }
{
    match first_of(Keyword::Type, statement) {
        Some(found) => types_at(nothing, types, file, found.offset()),
        None => nothing.types(),
    }
}

/// The same list, which lasts as long as the types of the files.
pub(crate) fn lasting_at<'t>(types: &'t Types, file: u32, offset: u64) -> &'t [PlainType]
    ensures { map plain_of result.now ≡ kinds_of types.now file offset }
{
    match types.plain(file, offset) {
        Some(found) => found,
        None => &[],
    }
}

/// The types that the `type` statement of its block means, as a list that lasts as long as the
/// types of the files.
pub(crate) fn lasting_types<'t>(
    types: &'t Types,
    file: u32,
    statement: &Statement<'_>,
) -> &'t [PlainType]
    ensures { map plain_of result.now ≡ types_in (kinds_of types.now) file statement.now.children }
{
    match first_of(Keyword::Type, statement) {
        Some(found) => lasting_at(types, file, found.offset()),
        None => &[],
    }
}

// The default that its type has by its typedefs, over the same text.
fn type_default(
    types: &Types,
    file: u32,
    statement: &Statement<'_>,
) -> Result<Option<WrittenText>, AllocError>
    ensures { IfOk result (λ text. option_map written_of text
        ≡ default_of_type (default_at types.now) file (first_of word.Type statement.now.children)) }
{
    match first_of(Keyword::Type, statement) {
        Some(found) => share_text(types.default_at(file, found.offset())),
        None => Ok(None),
    }
}

// A text that may be there, over the same memory.
fn share_text(text: Option<&WrittenText>) -> Result<Option<WrittenText>, AllocError>
    ensures { IfOk result
        (λ copy. option_map written_of copy ≡ option_map written_of (option_copied text.entry)) }
{
    match text {
        Some(written) => Ok(Some(WrittenText {
            text: written.text.clone()?,
            file: written.file,
        })),
        None => Ok(None),
    }
}

// The expressions of the `if-feature` statements of its block.
fn features_in(
    alloc: Global,
    nothing: &Nothing,
    statement: &Statement<'_>,
) -> Result<RcStr, AllocError>
    ensures { IfOk result
        (λ text. rc_str_bytes text ≡ if_features (expressions (trees statement.now.children))) }
{
    let mut text = String::new(alloc);
    push_expressions(&mut text, statement)?;
    nothing.or_text(alloc, text.as_str())
}

/// A definition that says nothing.
pub(crate) fn blank(nothing: &Nothing) -> Result<DefinitionDraft, AllocError>
    ensures { IfOk result (λ d. d ≡ blank) }
{
    Ok(DefinitionDraft {
        offset: 0,
        line: 0,
        name: nothing.text()?,
        types: nothing.types()?,
        features: nothing.text()?,
        type_text: nothing.text()?,
        path: nothing.path()?,
        keys: nothing.keys()?,
        uniques: nothing.uniques()?,
        own_defaults: nothing.defaults()?,
        type_default: None,
        defaults: nothing.values()?,
        file: 0,
        min: 0,
        max: None,
        kind: NodeKind::Leaf,
        status: NodeStatus::Current,
        has_presence: false,
        is_mandatory: false,
        stated_config: None,
    })
}

/// What a statement of a file says of the node that it defines, without the values of its defaults,
/// these being what its `key` and `unique` statements name.
pub(crate) fn define(
    alloc: Global,
    nothing: &Nothing,
    types: &Types,
    file: u32,
    statement: &Statement<'_>,
    names: BlockPaths,
) -> Result<DefinitionDraft, AllocError>
    ensures { (files : Files) → AreNamed files file statement.now.children names
        → IfOk result (λ d. d ≡ definition_of_tree (typing_of types.now) files file statement.now) }
{
    let kind = kind_of(statement.kind());
    let changes = Changes::read(alloc, nothing, file, statement)?;
    Ok(DefinitionDraft {
        offset: statement.offset(),
        line: statement.line(),
        name: RcStr::from_str(alloc, node_name(kind, name_of(statement)))?,
        types: types_in(nothing, types, file, statement)?,
        features: features_in(alloc, nothing, statement)?,
        type_text: nothing.type_text(alloc, argument_of(Keyword::Type, statement))?,
        path: names.path,
        keys: names.keys,
        uniques: names.uniques,
        own_defaults: changes.defaults,
        type_default: type_default(types, file, statement)?,
        defaults: nothing.values()?,
        file,
        min: changes.stated.min.unwrap_or(0),
        max: changes.max.unwrap_or(None),
        kind,
        status: status_of(argument_of(Keyword::Status, statement)),
        has_presence: changes.stated.presence,
        is_mandatory: changes.stated.mandatory.unwrap_or(false),
        stated_config: changes.stated.config,
    })
}
