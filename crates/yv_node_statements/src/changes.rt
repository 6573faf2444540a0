//! The properties of nodes that refines may change.
ghost use Rattle.std.specs.{Prelude.{◌≡◌, ℕ, [], ◌∷◌, ◌++◌, map, IfOk, OnOk}, Option.{option_map}, Rc.{rc_slice_items}};
ghost use Rattle.yv_text_statement.specs.declared.keyword.Keyword.TheVariants as word;
ghost use Rattle.yv_text_statement.specs.TextInFile.{written_of};
ghost use Rattle.yv_node_statements.specs.InnerChanges.{change_of, apply_change, defaults_among};
ghost use Rattle.yv_node_properties.specs.Properties.{defaults_of, elements_of, substatements_of, written_in};

use crate::nothing::Nothing;
use std::alloc::{AllocError, Global};
use std::marker::Model;
use std::rc::{RcSlice, RcStr};
use yv_node_content::DefinitionDraft;
use yv_node_properties::{StatedProperties, elements, first_of, is_of, name_of};
use yv_text_grammar::Keyword;
use yv_text_statement::{Statement, WrittenText};

/// What a statement says of the properties of a node that a refine may change, each where the
/// statement says it, and its defaults (RFC 7950, section 7.13.2).
#[derive(Drop)]
pub(crate) struct Changes {
    pub(crate) stated: StatedProperties,
    // None within it is `unbounded`.
    pub(crate) max: Option<Option<u32>>,
    // Nothing where it gives none.
    pub(crate) defaults: RcSlice<WrittenText>,
}

impl Model for Changes {
    ghost use Rattle.std.specs.{Prelude.{map}, Rc.{rc_slice_items}};
    ghost use Rattle.yv_text_statement.specs.TextInFile.{written_of};
    ghost use Rattle.yv_node_statements.specs.InnerChanges.{Change};

    ghost Value = { Change };

    ghost view = { λ c. record {
      properties = record {
        config = c.stated.config;
        mandatory = c.stated.mandatory;
        presence = c.stated.presence;
        min = c.stated.min;
        max = c.max;
      };
      defaults = map written_of (rc_slice_items c.defaults);
    } };
}

impl Changes {
    /// What a statement of a file says.
    pub(crate) fn read(
        alloc: Global,
        nothing: &Nothing,
        file: u32,
        statement: &Statement<'_>,
    ) -> Result<Changes, AllocError>
        ensures { IfOk result (λ changes. changes ≡ change_of file statement.now) }
    {
        Ok(Changes {
            stated: StatedProperties::read(statement),
            max: most_in(statement),
            defaults: defaults_in(alloc, nothing, file, statement)?,
        })
    }

    /// Gives a definition what these say, in place of what it says.
    pub(crate) fn change(&self, definition: &mut DefinitionDraft) -> Result<(), AllocError>
        ensures { OnOk result (definition.new ≡ apply_change self.now definition.old) }
    {
        definition.stated_config = self.stated.config.or(definition.stated_config);
        definition.is_mandatory = self.stated.mandatory.unwrap_or(definition.is_mandatory);
        definition.has_presence = self.stated.presence || definition.has_presence;
        definition.min = self.stated.min.unwrap_or(definition.min);
        definition.max = self.max.unwrap_or(definition.max);
        if !self.defaults.is_empty() {
            definition.own_defaults = self.defaults.clone()?;
        }
        Ok(())
    }
}

// The greatest number of entries, where something is said of it: a number, or `unbounded`.
fn most_in(statement: &Statement<'_>) -> Option<Option<u32>>
    ensures { (file : ℕ) → result
        ≡ option_map elements_of (substatements_of file statement.now word.MaxElements) }
{
    match first_of(Keyword::MaxElements, statement) {
        Some(found) => Some(elements(name_of(found))),
        None => None,
    }
}

// The argument of a statement of a file.
fn written_in(
    alloc: Global,
    file: u32,
    statement: &Statement<'_>,
) -> Result<WrittenText, AllocError>
    ensures { IfOk result (λ written. written_of written ≡ written_in file statement.now) }
{
    Ok(WrittenText {
        text: RcStr::from_str(alloc, name_of(statement))?,
        file,
    })
}

// The arguments of its `default` statements, in order.
fn default_texts(
    alloc: Global,
    file: u32,
    statement: &Statement<'_>,
) -> Result<Vec<WrittenText>, AllocError>
    ensures { IfOk result (λ texts. map written_of texts.items ≡ defaults_of file statement.now) }
{
    let mut texts = Vec::new(alloc);
    for child in statement.children() {
        push_default(alloc, file, &mut texts, child)?;
    }
    Ok(texts)
}

// Adds the argument of a statement, where it is a `default` statement.
fn push_default(
    alloc: Global,
    file: u32,
    texts: &mut Vec<WrittenText>,
    statement: &Statement<'_>,
) -> Result<(), AllocError>
    ensures { OnOk result
        (map written_of texts.new.items ≡ map written_of texts.old.items
        ++ defaults_among file (statement.now ∷ [])) }
{
    if is_of(Keyword::Default, statement) {
        texts.push(written_in(alloc, file, statement)?)?;
    }
    Ok(())
}

// The same, over the memory of no defaults where there is none.
fn defaults_in(
    alloc: Global,
    nothing: &Nothing,
    file: u32,
    statement: &Statement<'_>,
) -> Result<RcSlice<WrittenText>, AllocError>
    ensures { IfOk result
        (λ list. map written_of (rc_slice_items list) ≡ defaults_of file statement.now) }
{
    let texts = default_texts(alloc, file, statement)?;
    if texts.is_empty() {
        nothing.defaults()
    } else {
        RcSlice::from_vec(texts)
    }
}
