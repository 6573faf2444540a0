//! A validator: a schema with the tables that serve all its documents.
ghost use Rattle.std.specs.Prelude.{◌≡◌, ◌≤◌, ◌+◌, ◌*◌, IfOk};
ghost use Rattle.serde_json.specs.{Data.{depth as nesting}, View.{view}};
ghost use Rattle.yv_values.specs.Count.{count_up};
ghost use Rattle.yv_nodes.specs.Rows.{whole};
ghost use Rattle.yv_schema_tables.specs.Measures.{measures_of};
ghost use Rattle.yv_validate.specs.{Faults.{faults as all_faults}, Size.{size}, Work.{work}, InnerPromises.{most_work}};

use crate::laws::work_bound;
use crate::report::Report;
use crate::walk::Walk;
use serde_json::Value;
use std::alloc::{AllocError, Global};
use std::marker::Model;
use yv_data_quiet::{RunTable, known_nodes};
use yv_schema_tables::Schema;
use yv_text_statement::Kind;

/// A validator of documents against a schema. It holds what is known of the schema's nodes before
/// a document is read, so that it is found out once for any number of documents. Contracts see the
/// rows of the schema.
#[derive(Drop)]
pub struct Validator<'s> {
    schema: &'s Schema,
    known: Vec<Option<u64>>,
    runs: RunTable,
}

impl<'s> Model for Validator<'s> {
    ghost use Rattle.yv_nodes.specs.Rows.{Rows};
    ghost use Rattle.yv_validate.specs.InnerTables.{AreTables};

    ghost Value = { Rows };

    ghost view = { λ v. v.schema.now };

    ghost invariant = { λ v. AreTables v.schema.now v.known.items v.runs };
}

impl<'s> Validator<'s> {
    /// A validator against this schema. It takes time n log n and memory linear in the nodes.
    pub fn new(alloc: Global, schema: &'s Schema) -> Result<Validator<'s>, AllocError>
        // It validates against this schema.
        ensures { IfOk result (λ v. v ≡ schema.now) }
    {
        let known = known_nodes(alloc, schema)?;
        let runs = RunTable::read(alloc, schema, known.as_slice())?;
        Ok(Validator {
            schema,
            known,
            runs,
        })
    }

    /// The faults of a document of this kind, in order, as `validate` reports them.
    pub fn validate(
        &self,
        alloc: Global,
        document: &Value,
        kind: Kind,
    ) -> Result<Report, AllocError>
        // The document has at most 16,777,216 members and items.
        requires size { size (view document.now) ≤ 16777216 }
        // It nests at most 127 deep.
        requires nests { nesting (view document.now) ≤ 127 }
        // The list of faults equals the definition's for the validator's schema and this kind of
        // document, element by element: the errors in the data, followed by each value of a leafref
        // that equals none of those that its path reaches. A fault of an entry or item that repeats
        // others has the number of the first of these.
        ensures faults { IfOk result
            (λ r. r.faults.items ≡ all_faults kind self.now (view document.now)) }
        // The steps that are counted are those of the definition: one for each check and look-up.
        // The making of the validator takes none of them.
        ensures steps { IfOk result
            (λ r. r.steps ≡ count_up (work kind self.now (view document.now))) }
        // They are at most `(n + 1) * (m + u + w + 1)`, where n counts the members and items, and
        // m, u and w are the measures of the schema.
        ensures bound { IfOk result (λ r. r.steps ≤ (size (view document.now) + 1)
            *
            ((measures_of (whole self.now)).m + (measures_of (whole self.now)).u
            + (measures_of (whole self.now)).w + 1)) }
    {
        is_bounded(self.schema, document, kind);
        let walk = Walk {
            alloc,
            schema: self.schema,
            kind,
            known: self.known.as_slice(),
            runs: &self.runs,
        };
        match document {
            Value::Object(members) => walk.document(members),
            _ => walk.no_object(),
        }
    }
}

/// The faults of a document of this kind, in order (RFC 7950, section 8; RFC 7951): what is wrong
/// with its data, and after it the references that reach nothing, in the order in which their
/// values are met. For many documents of one schema, make a `Validator`.
pub fn validate(
    alloc: Global,
    schema: &Schema,
    document: &Value,
    kind: Kind,
) -> Result<Report, AllocError>
    // The document has at most 16,777,216 members and items.
    requires size { size (view document.now) ≤ 16777216 }
    // It nests at most 127 deep.
    requires nests { nesting (view document.now) ≤ 127 }
    // The list of faults equals the definition's for this kind of document, element by element: the
    // errors in the data, followed by each value of a leafref that equals none of those that its
    // path reaches. A fault of an entry or item that repeats others has the number of the first of
    // these.
    ensures faults { IfOk result
        (λ r. r.faults.items ≡ all_faults kind schema.now (view document.now)) }
    // The steps that are counted are those of the definition: one for each check and look-up.
    ensures steps { IfOk result
        (λ r. r.steps ≡ count_up (work kind schema.now (view document.now))) }
    // They are at most `(n + 1) * (m + u + w + 1)`, where n counts the members and items, and m, u
    // and w are the measures of the schema.
    ensures bound { IfOk result (λ r. r.steps ≤ (size (view document.now) + 1)
        *
        ((measures_of (whole schema.now)).m + (measures_of (whole schema.now)).u
        + (measures_of (whole schema.now)).w + 1)) }
{
    let validator = Validator::new(alloc, schema)?;
    validator.validate(alloc, document, kind)
}

// The law of the bound for this schema and document: what the law requires of the schema is known
// from reading it.
fn is_bounded(schema: &Schema, document: &Value, kind: Kind)
    ensures { work kind schema.now (view document.now) ≤ most_work schema.now (view document.now) }
{
    let _nodes = schema.children(Schema::ROOT);
    let _document = document;
    let _kind = kind;
    work_bound();
}
