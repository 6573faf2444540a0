//! The values of defaults.
ghost use Rattle.std.specs.{Prelude.{◌≡◌, ◌+◌, ◌≤◌, ◌++◌, map, length, IfOk, IfSome, OnOk}, Option.{option_copied}};
ghost use Rattle.yv_link_scopes.specs.Files.{Files};
ghost use Rattle.yv_values.specs.Types.{plain_of};
ghost use Rattle.yv_node_content.specs.Definition.{defaults_said};
ghost use Rattle.yv_text_statement.specs.TextInFile.{written_of};
ghost use Rattle.yv_types.specs.Scopes.{AreScopes};
ghost use Rattle.yv_node_statements.specs.{Values.{alone, defaults_of, value_of, values_of}, InnerSharedValues.{IsByType, has_type_default}};
ghost use Rattle.yv_node_content.specs.Kinds.{has_values};

use crate::nothing::Nothing;
use std::alloc::{AllocError, Global};
use std::rc::Rc;
use yv_node_content::{DefinitionDraft, NodeKind};
use yv_text_statement::WrittenText;
use yv_types::default_value;
use yv_values::{Defaults, Matchers, PlainType, Scope, Value};

/// The values of the defaults that are said of a node of these types, these being the scopes of the
/// files, and these being kept of the values of its type's default, if any are kept. Of more
/// defaults than a node may have none is read.
pub(crate) fn defaults_of<'t>(
    alloc: Global,
    nothing: &Nothing,
    scopes: &[Scope],
    matchers: &mut Matchers<'t>,
    types: &'t [PlainType],
    kept: Option<&Rc<Defaults>>,
    definition: &DefinitionDraft,
) -> Result<Rc<Defaults>, AllocError>
    ensures { (files : Files) → AreScopes files scopes.now → map plain_of types.now
        ≡ definition.now.types
        → IfSome (option_copied kept.entry) (λ values. IsByType files definition.now values.value)
        → IfOk result (λ defaults. defaults.value ≡ defaults_of files definition.now) }
{
    if has_type_default(definition)
        && let Some(values) = kept
    {
        return values.clone();
    }
    read_defaults(alloc, nothing, scopes, matchers, types, definition)
}

// Whether only the default of its type is said of a node.
fn has_type_default(definition: &DefinitionDraft) -> bool
    ensures { result ≡ has_type_default definition.now }
{
    has_values(definition.kind) && definition.own_defaults.is_empty() && definition.min == 0
}

// The same values, read anew.
fn read_defaults<'t>(
    alloc: Global,
    nothing: &Nothing,
    scopes: &[Scope],
    matchers: &mut Matchers<'t>,
    types: &'t [PlainType],
    definition: &DefinitionDraft,
) -> Result<Rc<Defaults>, AllocError>
    ensures { (files : Files) → AreScopes files scopes.now → map plain_of types.now
        ≡ definition.now.types
        → IfOk result (λ defaults. defaults.value ≡ defaults_of files definition.now) }
{
    if !has_values(definition.kind) || definition.own_defaults.len() > Defaults::MOST {
        return nothing.values();
    }
    let values = said_values(alloc, scopes, matchers, types, definition)?;
    if values.is_empty() {
        return nothing.values();
    }
    Ok(Rc::new(alloc, Defaults::of(alloc, values)?)?)
}

/// Whether a node of this kind may have values by defaults.
pub(crate) fn has_values(kind: NodeKind) -> bool
    ensures { result ≡ has_values kind }
{
    matches!(kind, NodeKind::Leaf | NodeKind::LeafList)
}

// The values of the defaults that are said of a node.
fn said_values<'t>(
    alloc: Global,
    scopes: &[Scope],
    matchers: &mut Matchers<'t>,
    types: &'t [PlainType],
    definition: &DefinitionDraft,
) -> Result<Vec<Value>, AllocError>
    ensures values { (files : Files) → AreScopes files scopes.now
        → IfOk result (λ values. values.items
        ≡ values_of files (map plain_of types.now) (defaults_said definition.now)) }
    ensures few { IfOk result
        (λ values. length values.items ≤ length (defaults_said definition.now)) }
{
    let own = definition.own_defaults.as_slice();
    if !own.is_empty() {
        return values_of(alloc, scopes, matchers, types, own);
    }
    let mut values = Vec::new(alloc);
    if definition.min == 0
        && let Some(written) = &definition.type_default
    {
        push_value(alloc, scopes, matchers, types, written, &mut values)?;
    }
    Ok(values)
}

// The values of texts, in order: those that are not read have none.
fn values_of<'t>(
    alloc: Global,
    scopes: &[Scope],
    matchers: &mut Matchers<'t>,
    types: &'t [PlainType],
    texts: &[WrittenText],
) -> Result<Vec<Value>, AllocError>
    ensures values { (files : Files) → AreScopes files scopes.now
        → IfOk result (λ values. values.items
        ≡ values_of files (map plain_of types.now) (map written_of texts.now)) }
    ensures few { IfOk result (λ values. length values.items ≤ length texts.now) }
{
    let mut values = Vec::new(alloc);
    for written in texts {
        push_value(alloc, scopes, matchers, types, written, &mut values)?;
    }
    Ok(values)
}

/// Adds the value of a text, if these types read it.
pub(crate) fn push_value<'t>(
    alloc: Global,
    scopes: &[Scope],
    matchers: &mut Matchers<'t>,
    types: &'t [PlainType],
    written: &WrittenText,
    values: &mut Vec<Value>,
) -> Result<(), AllocError>
    ensures values { (files : Files) → AreScopes files scopes.now → OnOk result (values.new.items
        ≡ values.old.items
        ++ alone (value_of files (map plain_of types.now) (written_of written.now))) }
    ensures few { OnOk result (length values.new.items ≤ length values.old.items + 1) }
{
    if let Some(value) = value_of(alloc, scopes, matchers, types, written)? {
        values.push(value)?;
    }
    Ok(())
}

// The value of a text by the first of these types that reads it, in the file in which it is
// written.
fn value_of<'t>(
    alloc: Global,
    scopes: &[Scope],
    matchers: &mut Matchers<'t>,
    types: &'t [PlainType],
    written: &WrittenText,
) -> Result<Option<Value>, AllocError>
    ensures { (files : Files) → AreScopes files scopes.now
        → IfOk result
        (λ found. found ≡ value_of files (map plain_of types.now) (written_of written.now)) }
{
    match scopes.get(written.file as usize) {
        Some(scope) => default_value(alloc, matchers, types, written.text.as_str(), scope),
        None => Ok(None),
    }
}
