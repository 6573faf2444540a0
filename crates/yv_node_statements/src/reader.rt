//! By which defaults are read: that of a typedef once for all nodes that have it by the same types.
ghost use Rattle.std.specs.{Prelude.{◌≡◌, ◌≤◌, length, IfOk, IfSome, OnOk}, Option.{option_copied}};
ghost use Rattle.yv_link_scopes.specs.{Files.{Files}, Views.{lent_in}};
ghost use Rattle.yv_types.specs.{Types.{default_at}, Scopes.{AreScopes}};
ghost use Rattle.yv_node_statements.specs.{KnownTypes.{kinds_of, typing_of}, Definitions.{defined_at}, InnerSharedValues.{IsByType, IsReader, type_values}};

use crate::properties::{lasting_at, node_kind};
use crate::statements::{file_at, statement_at, type_at};
use crate::values::{has_values, push_value};
use std::alloc::{AllocError, Global};
use std::collections::BTreeMap;
use std::rc::Rc;
use yv_link_scopes::Rows;
use yv_node_properties::has;
use yv_text_grammar::Keyword;
use yv_types::{Types, scopes_of};
use yv_values::{Defaults, Matchers, Scope, Value};

/// By which the defaults of files are read: what names in the texts of each file mean, and the
/// values of the defaults of typedefs. Such a default is read once for each list of plain types by
/// which leafs and leaf-lists have it, and all that have it by that list share the values: a long
/// text isn't read anew for each of them.
#[derive(Drop)]
pub(crate) struct DefaultReader {
    pub(crate) scopes: Vec<Scope>,
    // By the number of the list of plain types, and that of the typedef.
    shared: BTreeMap<(usize, usize), Rc<Defaults>>,
}

impl DefaultReader {
    /// That of these files, with the values of the defaults that leafs and leaf-lists may have by
    /// their types. The matchers are kept of the types' patterns from one default to the next.
    pub(crate) fn read<'t>(
        alloc: Global,
        rows: &Rows<'_, '_>,
        types: &'t Types,
        matchers: &mut Matchers<'t>,
    ) -> Result<DefaultReader, AllocError>
        ensures { IfOk result (IsReader types.now (lent_in rows.now)) }
    {
        let scopes = scopes_of(alloc, rows)?;
        let shared = BTreeMap::new(alloc);
        let mut reader = DefaultReader { scopes, shared };
        for number in 0..rows.entries().len() {
            reader.keep_at(alloc, rows, types, matchers, number)?;
        }
        Ok(reader)
    }

    /// What is kept of the values that the node that the numbered statement defines has by the
    /// default of its type.
    pub(crate) fn values_at(
        &self,
        rows: &Rows<'_, '_>,
        types: &Types,
        number: usize,
    ) -> Option<&Rc<Defaults>>
        ensures { IsReader types.now (lent_in rows.now) self.now
            → IfSome (option_copied result) (λ values. IsByType (lent_in rows.now)
            (defined_at (typing_of types.now) (lent_in rows.now) number) values.value) }
    {
        let found = type_at(rows, number)?;
        let file = file_at(rows, number);
        let numbers = types.sharing_at(file, found.offset())?;
        self.shared.get(&numbers)
    }

    // Keeps the values that the numbered statement may have by the default of its type.
    fn keep_at<'t>(
        &mut self,
        alloc: Global,
        rows: &Rows<'_, '_>,
        types: &'t Types,
        matchers: &mut Matchers<'t>,
        number: usize,
    ) -> Result<(), AllocError>
        ensures { (files : Files) → IsReader types.now files self.old
            → OnOk result (IsReader types.now files self.new) }
    {
        if !lacks_defaults(rows, number) {
            return Ok(());
        }
        match type_at(rows, number) {
            Some(found) => {
                let file = file_at(rows, number);
                self.keep(alloc, types, matchers, file, found.offset())
            }
            None => Ok(()),
        }
    }

    // Keeps the values of the default of the `type` statement at an offset of a file, unless they
    // are kept already.
    fn keep<'t>(
        &mut self,
        alloc: Global,
        types: &'t Types,
        matchers: &mut Matchers<'t>,
        file: u32,
        offset: u64,
    ) -> Result<(), AllocError>
        ensures { (files : Files) → IsReader types.now files self.old
            → OnOk result (IsReader types.now files self.new) }
    {
        let Some(numbers) = types.sharing_at(file, offset) else {
            return Ok(());
        };
        if self.shared.contains_key(&numbers) {
            return Ok(());
        }
        let values = shared_values(alloc, &self.scopes, matchers, types, file, offset)?;
        self.shared.insert(numbers, values)?;
        Ok(())
    }
}

// Whether the numbered statement defines a leaf or a leaf-list that has no defaults of its own.
fn lacks_defaults(rows: &Rows<'_, '_>, number: usize) -> bool {
    let Some(statement) = statement_at(rows, number) else {
        return false;
    };
    match node_kind(statement.kind()) {
        Some(kind) => has_values(kind) && !has(Keyword::Default, statement),
        None => false,
    }
}

// The values of the default of the `type` statement at an offset of a file, these being the scopes
// of the files.
fn type_values<'t>(
    alloc: Global,
    scopes: &[Scope],
    matchers: &mut Matchers<'t>,
    types: &'t Types,
    file: u32,
    offset: u64,
) -> Result<Vec<Value>, AllocError>
    ensures values { (files : Files) → AreScopes files scopes.now
        → IfOk result (λ values. values.items
        ≡ type_values files (kinds_of types.now file offset) (default_at types.now file offset)) }
    ensures few { IfOk result (λ values. length values.items ≤ 1) }
{
    let mut values = Vec::new(alloc);
    if let Some(written) = types.default_at(file, offset) {
        let plain = lasting_at(types, file, offset);
        push_value(alloc, scopes, matchers, plain, written, &mut values)?;
    }
    Ok(values)
}

// The same, to be shared.
fn shared_values<'t>(
    alloc: Global,
    scopes: &[Scope],
    matchers: &mut Matchers<'t>,
    types: &'t Types,
    file: u32,
    offset: u64,
) -> Result<Rc<Defaults>, AllocError>
    ensures { (files : Files) → AreScopes files scopes.now → IfOk result (λ shared. shared.value
        ≡ type_values files (kinds_of types.now file offset) (default_at types.now file offset)) }
{
    let values = type_values(alloc, scopes, matchers, types, file, offset)?;
    Ok(Rc::new(alloc, Defaults::of(alloc, values)?)?)
}
