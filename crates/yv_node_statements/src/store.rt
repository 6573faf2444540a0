//! What is kept of the numbered statements.
ghost use Rattle.std.specs.Prelude.{◌≡◌, map, IfOk};
ghost use Rattle.yv_link_scopes.specs.Views.{lent_in};
ghost use Rattle.yv_node_paths.specs.LeafPaths.{AreLeafPaths};
ghost use Rattle.yv_values.specs.Types.{plain_of};
ghost use Rattle.yv_node_content.specs.declared.kind.NodeKind.{NodeKind};
ghost use Rattle.yv_node_statements.specs.{KnownTypes.{typing_of}, Definitions.{defined_at, unwritten}, Values.{with_defaults}, InnerChanges.{change_at}, InnerStore.{IsKept}, InnerSharedValues.{IsReader}};
ghost use Rattle.yv_node_properties.specs.Statements.{file_at, statement_at};

use crate::changes::Changes;
use crate::keys::BlockPaths;
use crate::nothing::Nothing;
use crate::properties::{blank, define, lasting_types, node_kind, node_name};
use crate::reader::DefaultReader;
use crate::statements::{file_at, statement_at};
use crate::values::defaults_of;
use std::alloc::{AllocError, Global};
use std::rc::RcStr;
use yv_link_scopes::Rows;
use yv_node_content::{Definition, DefinitionDraft, NodeKind};
use yv_node_paths::LeafPaths;
use yv_text_grammar::Keyword;
use yv_text_statement::Statement;
use yv_types::Types;
use yv_values::{Matchers, PlainType};

/// What is kept of a statement.
#[derive(Drop)]
pub(crate) enum Store {
    /// What it says of the node that it defines.
    Node(Definition),
    /// What it changes of the node that it refines.
    Refine(Box<Changes>),
    /// It is neither.
    Nothing,
}

// What the numbered statement says of the node that it defines, without the values of its defaults.
fn define_at<'a>(
    alloc: Global,
    nothing: &Nothing,
    rows: &Rows<'a, '_>,
    types: &Types,
    paths: &LeafPaths<'a>,
    number: usize,
) -> Result<DefinitionDraft, AllocError>
    ensures { AreLeafPaths (lent_in rows.now) paths.now
        → IfOk result (λ d. d ≡ defined_at (typing_of types.now) (lent_in rows.now) number) }
{
    let file = file_at(rows, number);
    match statement_at(rows, number) {
        Some(statement) => {
            let names = BlockPaths::read(alloc, nothing, paths, file, statement)?;
            define(alloc, nothing, types, file, statement, names)
        }
        None => {
            let names = BlockPaths::none(nothing)?;
            let none = Statement::new(alloc, "", 0, 0);
            define(alloc, nothing, types, file, &none, names)
        }
    }
}

/// The types of the node that the numbered statement defines, as a list that lasts as long as the
/// types of the files.
pub(crate) fn types_at<'t>(rows: &Rows<'_, '_>, types: &'t Types, number: usize) -> &'t [PlainType]
    ensures { map plain_of result.now
        ≡ (defined_at (typing_of types.now) (lent_in rows.now) number).types }
{
    match statement_at(rows, number) {
        Some(statement) => lasting_types(types, file_at(rows, number), statement),
        None => &[],
    }
}

/// What the numbered statement says of the node that it defines. The matchers are kept of the
/// types' patterns from one default to the next.
pub(crate) fn stated_at<'a, 't>(
    alloc: Global,
    nothing: &Nothing,
    rows: &Rows<'a, '_>,
    types: &'t Types,
    paths: &LeafPaths<'a>,
    reader: &DefaultReader,
    matchers: &mut Matchers<'t>,
    number: usize,
) -> Result<Definition, AllocError>
    ensures { AreLeafPaths (lent_in rows.now) paths.now
        → IsReader types.now (lent_in rows.now) reader.now → IfOk result (λ d. d
        ≡ with_defaults (lent_in rows.now)
        (defined_at (typing_of types.now) (lent_in rows.now) number)) }
{
    let mut draft = define_at(alloc, nothing, rows, types, paths, number)?;
    let lasting = types_at(rows, types, number);
    let kept = reader.values_at(rows, types, number);
    draft.defaults = defaults_of(
        alloc,
        nothing,
        &reader.scopes,
        matchers,
        lasting,
        kept,
        &draft,
    )?;
    draft.finish(alloc)
}

/// What the numbered statement says of what a refine may change.
pub(crate) fn changes_at(
    alloc: Global,
    nothing: &Nothing,
    rows: &Rows<'_, '_>,
    number: usize,
) -> Result<Changes, AllocError>
    ensures { IfOk result (λ changes. changes ≡ change_at (lent_in rows.now) number) }
{
    let file = file_at(rows, number);
    match statement_at(rows, number) {
        Some(statement) => Changes::read(alloc, nothing, file, statement),
        None => Changes::read(alloc, nothing, file, &Statement::new(alloc, "", 0, 0)),
    }
}

/// An input or output that the operation of this number doesn't write.
pub(crate) fn unwritten_at(
    alloc: Global,
    nothing: &Nothing,
    rows: &Rows<'_, '_>,
    kind: NodeKind,
    number: usize,
) -> Result<Definition, AllocError>
    ensures { IfOk result (λ d. d ≡ unwritten kind (lent_in rows.now) number) }
{
    let mut draft = blank(nothing)?;
    draft.file = file_at(rows, number);
    if let Some(statement) = statement_at(rows, number) {
        draft.offset = statement.offset();
        draft.line = statement.line();
    }
    draft.kind = kind;
    draft.name = RcStr::from_str(alloc, node_name(kind, ""))?;
    draft.finish(alloc)
}

// The keyword of the numbered statement.
fn keyword_at(rows: &Rows<'_, '_>, number: usize) -> Keyword {
    match statement_at(rows, number) {
        Some(statement) => statement.kind(),
        None => Keyword::Unknown,
    }
}

/// What is kept of the numbered statement.
pub(crate) fn kept_at<'a, 't>(
    alloc: Global,
    nothing: &Nothing,
    rows: &Rows<'a, '_>,
    types: &'t Types,
    paths: &LeafPaths<'a>,
    reader: &DefaultReader,
    matchers: &mut Matchers<'t>,
    number: usize,
) -> Result<Store, AllocError>
    ensures { AreLeafPaths (lent_in rows.now) paths.now
        → IsReader types.now (lent_in rows.now) reader.now
        → IfOk result (λ kept. IsKept (typing_of types.now) (lent_in rows.now) number kept) }
{
    let keyword = keyword_at(rows, number);
    if node_kind(keyword).is_some() {
        let node = stated_at(alloc, nothing, rows, types, paths, reader, matchers, number)?;
        Ok(Store::Node(node))
    } else if keyword == Keyword::Refine {
        let changes = changes_at(alloc, nothing, rows, number)?;
        Ok(Store::Refine(Box::new(alloc, changes)?))
    } else {
        Ok(Store::Nothing)
    }
}
