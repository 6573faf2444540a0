//! What the numbered statements of files say of the nodes that they define.
ghost use Rattle.std.specs.{Prelude.{◌≡◌, ◌++◌, ℕ, List, [], map, slice_get, IfOk, IfSome, OnOk, string_bytes}, Option.{option_copied, option_map}, Rc.{rc_str_bytes}};
ghost use Rattle.yv_text_statement.specs.Tree.{trees};
ghost use Rattle.yv_link_scopes.specs.Views.{lent_in};
ghost use Rattle.yv_expand_statements.specs.declared.origin.Origin.{Origin};
ghost use Rattle.yv_values.specs.Types.{plain_of};
ghost use Rattle.yv_node_paths.specs.LeafPaths.{AreLeafPaths};
ghost use Rattle.yv_node_statements.specs.{KnownTypes.{typing_of}, Features.{all_expressions, expressions, with_expressions}, Definitions.{definition_of, defined_at, leafref_of, leafref_of_tree, refined_definition, unwritten}, Values.{with_defaults}, InnerStore.{AreKept, gives_features, has_features}, InnerSharedValues.{IsByType, IsReader}, InnerChanges.{change_at, apply_change, apply_statements}, InnerRefines.{give_default, gives_default, is_moved, is_swayed}};
ghost use Rattle.yv_text_statement.specs.declared.keyword.Keyword.TheVariants as word;
ghost use Rattle.yv_node_properties.specs.Statements.{file_at, first_of, statement_at};

use crate::features::push_expressions;
use crate::nothing::Nothing;
use crate::reader::DefaultReader;
use crate::statements::{file_at, statement_at};
use crate::store::{Store, changes_at, kept_at, stated_at, types_at, unwritten_at};
use crate::values::defaults_of;
use std::alloc::{AllocError, Global};
use std::rc::{Rc, RcStr};
use yv_expand_statements::Origin;
use yv_link_scopes::Rows;
use yv_node_content::{Definition, DefinitionDraft, NodeKind};
use yv_node_paths::LeafPaths;
use yv_node_properties::{first_of, has};
use yv_text_grammar::Keyword;
use yv_types::{TypeLeafref, Types};
use yv_values::{Defaults, Matchers, PlainType};

/// The definitions of files: what the numbered statements say of the nodes that they define,
/// each read once.
/// Contracts see the files, and what their `type` statements mean.
#[derive(Drop)]
pub struct Definitions<'r, 'a, 'b> {
    alloc: Global,
    rows: &'r Rows<'a, 'b>,
    types: &'r Types,
    // By which the paths in each file are read.
    paths: LeafPaths<'a>,
    // By which defaults are read.
    reader: DefaultReader,
    nothing: Nothing,
    // Of each statement, by its number.
    kept: Vec<Store>,
    ghost paths_so: { AreLeafPaths (lent_in rows.now) paths },
    ghost reader_so: { IsReader types.now (lent_in rows.now) reader },
    ghost kept_so: { AreKept (typing_of types.now) (lent_in rows.now) kept.items },
}

impl<'r, 'a, 'b> Definitions<'r, 'a, 'b> {
    ghost use Rattle.yv_node_statements.specs.Context.{files_in, typing_in};

    /// What the statements of files say, these being the types of the files.
    pub fn read(
        alloc: Global,
        rows: &'r Rows<'a, 'b>,
        types: &'r Types,
    ) -> Result<Definitions<'r, 'a, 'b>, AllocError>
        // They have these types.
        ensures typing { IfOk result (λ definitions. typing_in definitions ≡ typing_of types.now) }
        // They are of these files.
        ensures files { IfOk result (λ definitions. files_in definitions ≡ lent_in rows.now) }
    {
        let paths = LeafPaths::read(alloc, rows)?;
        let nothing = Nothing::new(alloc)?;
        let mut matchers = Matchers::new(alloc);
        let reader = DefaultReader::read(alloc, rows, types, &mut matchers)?;
        let count = rows.entries().len();
        let mut kept = Vec::with_capacity(alloc, count)?;
        for number in 0..count {
            kept.push(kept_at(
                alloc,
                &nothing,
                rows,
                types,
                &paths,
                &reader,
                &mut matchers,
                number,
            )?)?;
        }
        Ok(Definitions {
            alloc,
            rows,
            types,
            paths,
            reader,
            nothing,
            kept,
        })
    }

    /// What is said of a node of this origin, where no refine changes it. It is that of all other
    /// nodes of this origin, except for an input or output that isn't written.
    pub fn of(&self, origin: Origin) -> Result<Definition, AllocError>
        ensures { IfOk result
            (λ d. d ≡ refined_definition (typing_in self.now) (files_in self.now) origin []) }
    {
        match origin {
            Origin::Statement(number) => self.own_definition(number),
            Origin::Input(number) => self.unwritten(NodeKind::Input, number),
            Origin::Output(number) => self.unwritten(NodeKind::Output, number),
        }
    }

    /// What is said of a node of this origin, given what was said so far, once these refines
    /// (numbered statements) change it further, in order (RFC 7950, section 7.13.2). It shares with
    /// it what they don't change, and takes time and memory for what they do. The values of its
    /// defaults are read anew only where these become others; the matchers are kept of the types'
    /// patterns from one default to the next. Where memory runs out, some of them may be kept and
    /// others dropped: no answer depends on which are kept, so they serve the next call as well.
    pub fn more(
        &self,
        matchers: &mut Matchers<'r>,
        origin: Origin,
        said: &Definition,
        refines: &[usize],
    ) -> Result<Definition, AllocError>
        ensures { (before : List ℕ) → said.now
            ≡ refined_definition (typing_in self.now) (files_in self.now) origin before
            → IfOk result
            (λ d. d
            ≡ refined_definition (typing_in self.now) (files_in self.now) origin
            (before ++ refines.now)) }
    {
        let mut draft = said.draft()?;
        draft.features = self.features(said, refines)?;
        let mut changed = self.apply_refines(draft, refines)?;
        if self.is_moved(said, &changed, refines) {
            let types = self.types_of(origin);
            let kept = self.values_of(origin);
            changed.defaults = defaults_of(
                self.alloc,
                &self.nothing,
                &self.reader.scopes,
                matchers,
                types,
                kept,
                &changed,
            )?;
        }
        changed.finish(self.alloc)
    }

    /// What the type of a node of this origin says as a leafref (RFC 7950, section 9.9): None where
    /// it is not a leafref.
    pub fn leafref_of(&self, origin: Origin) -> Option<TypeLeafref>
        ensures { result ≡ leafref_of (typing_in self.now) (files_in self.now) origin }
    {
        match origin {
            Origin::Statement(number) => self.referring_at(number),
            _ => None,
        }
    }

    // What the type of the numbered statement says so.
    fn referring_at(&self, number: usize) -> Option<TypeLeafref>
        ensures { result
            ≡ leafref_of_tree (typing_in self.now).referrals (file_at (files_in self.now) number)
            (first_of word.Type (statement_at (files_in self.now) number).children) }
    {
        let found = first_of(Keyword::Type, statement_at(self.rows, number)?)?;
        self.types
            .referring_at(file_at(self.rows, number), found.offset())
    }

    // The types of a node of this origin, as a list that lasts as long as the types of the files.
    fn types_of(&self, origin: Origin) -> &'r [PlainType]
        ensures { map plain_of result.now
            ≡ (definition_of (typing_in self.now) (files_in self.now) origin).types }
    {
        match origin {
            Origin::Statement(number) => types_at(self.rows, self.types, number),
            _ => &[],
        }
    }

    // What is kept of the values that a node of this origin has by the default of its type.
    fn values_of(&self, origin: Origin) -> Option<&Rc<Defaults>>
        ensures { IfSome (option_copied result) (λ values. IsByType (files_in self.now)
            (definition_of (typing_in self.now) (files_in self.now) origin) values.value) }
    {
        match origin {
            Origin::Statement(number) => self.reader.values_at(self.rows, self.types, number),
            _ => None,
        }
    }

    // Whether the defaults that are said of a definition are others since these refines changed it.
    fn is_moved(&self, said: &Definition, changed: &DefinitionDraft, refines: &[usize]) -> bool
        ensures { result ≡ is_moved (files_in self.now) refines.now said.now changed.now }
    {
        self.gives_default(refines) || is_swayed(said, changed)
    }

    // Whether one of these numbered statements gives a default.
    fn gives_default(&self, numbers: &[usize]) -> bool
        ensures { result ≡ give_default (files_in self.now) numbers.now }
    {
        numbers.iter().any(|number| self.has_default(*number))
    }

    // Whether it has a `default` statement.
    fn has_default(&self, number: usize) -> bool
        ensures { result ≡ gives_default (files_in self.now) number }
    {
        match statement_at(self.rows, number) {
            Some(statement) => has(Keyword::Default, statement),
            None => false,
        }
    }

    // What the numbered statement says by itself.
    fn own_definition(&self, number: usize) -> Result<Definition, AllocError>
        ensures { IfOk result
            (λ d. d
            ≡ with_defaults (files_in self.now)
            (defined_at (typing_in self.now) (files_in self.now) number)) }
    {
        match self.kept_of(number) {
            Some(Store::Node(definition)) => definition.share(),
            _ => stated_at(
                self.alloc,
                &self.nothing,
                self.rows,
                self.types,
                &self.paths,
                &self.reader,
                &mut Matchers::none(self.alloc),
                number,
            ),
        }
    }

    // What is said of an input or output that the numbered operation doesn't write.
    fn unwritten(&self, kind: NodeKind, number: usize) -> Result<Definition, AllocError>
        ensures { IfOk result (λ d. d ≡ unwritten kind (files_in self.now) number) }
    {
        unwritten_at(self.alloc, &self.nothing, self.rows, kind, number)
    }

    // What is kept of the numbered statement.
    fn kept_of(&self, number: usize) -> Option<&Store>
        ensures { option_map (λ kept. kept.now) result ≡ slice_get self.now.kept.items number }
    {
        self.kept.get(number)
    }

    // A definition as these refines change its properties.
    fn apply_refines(
        &self,
        own: DefinitionDraft,
        refines: &[usize],
    ) -> Result<DefinitionDraft, AllocError>
        ensures { IfOk result (λ d. d ≡ apply_statements (files_in self.now) refines.now own) }
    {
        let mut definition = own;
        for refine in refines {
            self.change(&mut definition, *refine)?;
        }
        Ok(definition)
    }

    // Changes a definition as the numbered statement says.
    fn change(&self, definition: &mut DefinitionDraft, number: usize) -> Result<(), AllocError>
        ensures { OnOk result
            (definition.new ≡ apply_change (change_at (files_in self.now) number) definition.old) }
    {
        match self.kept_of(number) {
            Some(Store::Refine(changes)) => changes.change(definition),
            _ => changes_at(self.alloc, &self.nothing, self.rows, number)?.change(definition),
        }
    }

    // Whether one of these refines has an `if-feature` statement.
    fn gives_features(&self, refines: &[usize]) -> bool
        ensures { result ≡ gives_features (files_in self.now) refines.now }
    {
        refines.iter().any(|refine| self.has_features(*refine))
    }

    // Whether the numbered statement has an `if-feature` statement.
    fn has_features(&self, number: usize) -> bool
        ensures { result ≡ has_features (statement_at (files_in self.now) number).children }
    {
        match statement_at(self.rows, number) {
            Some(statement) => has(Keyword::IfFeature, statement),
            None => false,
        }
    }

    // The features of a definition, and after them those of these refines.
    fn features(&self, own: &Definition, refines: &[usize]) -> Result<RcStr, AllocError>
        ensures { IfOk result
            (λ text. rc_str_bytes text
            ≡ with_expressions own.now.features (all_expressions (files_in self.now) refines.now)) }
    {
        if !self.gives_features(refines) {
            return own.shared_features();
        }
        let mut text = String::from_str(self.alloc, own.features())?;
        for refine in refines {
            self.push_features(&mut text, *refine)?;
        }
        RcStr::from_string(text)
    }

    // Adds the expressions of the `if-feature` statements of the numbered statement.
    fn push_features(&self, text: &mut String, number: usize) -> Result<(), AllocError>
        ensures { OnOk result (string_bytes text.new
            ≡ with_expressions (string_bytes text.old)
            (expressions (trees (statement_at (files_in self.now) number).children))) }
    {
        match statement_at(self.rows, number) {
            Some(statement) => push_expressions(text, statement),
            None => Ok(()),
        }
    }
}

// Whether a definition without defaults of its own has that of its type where it had not, or the
// other way round: a leaf-list has it where it may be empty.
fn is_swayed(before: &Definition, after: &DefinitionDraft) -> bool
    ensures { result ≡ is_swayed before.now after.now }
{
    after.own_defaults.as_slice().is_empty() && (before.min() == 0) != (after.min == 0)
}
