//! A validator that tells what a validation costs.
ghost use Rattle.std.specs.Prelude.{◌≡◌, ◌≤◌, IfOk};
ghost use Rattle.serde_json.specs.{Data.{depth as nesting}, View.{view}};
ghost use Rattle.yv_values.specs.Count.{count_up};
ghost use Rattle.yv_validate.specs.{Faults.{faults as all_faults}, Size.{size as data_size}};
ghost use Rattle.yv_documents.specs.Steps.{cost_with, steps_of};

use crate::costs::{weighed_cost, weight};
use serde_json::Value;
use std::alloc::{AllocError, Global};
use std::marker::Model;
use yv_json_lines::ValidationCost;
use yv_schema_tables::Schema;
use yv_validate::{Kind, Report, Validator};

// A validator, and the weight of its schema, which is found out once for all documents. Contracts
// see the rows of the schema.
#[derive(Drop)]
pub(crate) struct MeasuredValidator<'s> {
    validator: Validator<'s>,
    weight: u64,
}

impl<'s> Model for MeasuredValidator<'s> {
    ghost use Rattle.std.specs.Prelude.{◌≡◌};
    ghost use Rattle.yv_nodes.specs.Rows.{Rows};
    ghost use Rattle.yv_values.specs.Count.{count_up};
    ghost use Rattle.yv_documents.specs.Steps.{weight_of};

    ghost Value = { Rows };

    ghost view = { λ v. v.validator };

    ghost invariant = { λ v. v.weight ≡ count_up (weight_of v.validator) };
}

impl<'s> MeasuredValidator<'s> {
    // A validator against this schema.
    pub(crate) fn new(
        alloc: Global,
        schema: &'s Schema,
    ) -> Result<MeasuredValidator<'s>, AllocError>
        ensures { IfOk result (λ v. v ≡ schema.now) }
    {
        let validator = Validator::new(alloc, schema)?;
        Ok(MeasuredValidator {
            validator,
            weight: weight(schema),
        })
    }

    // What a validation of a document of this kind reports.
    pub(crate) fn validate(
        &self,
        alloc: Global,
        document: &Value,
        kind: Kind,
    ) -> Result<Report, AllocError>
        requires size { data_size (view document.now) ≤ 16777216 }
        requires nests { nesting (view document.now) ≤ 127 }
        ensures faults { IfOk result
            (λ r. r.faults.items ≡ all_faults kind self.now (view document.now)) }
        ensures steps { IfOk result (λ r. r.steps ≡ steps_of kind self.now (view document.now)) }
    {
        self.validator.validate(alloc, document, kind)
    }

    // What it costs, where so many steps were counted.
    pub(crate) fn cost(&self, document: &Value, steps: u64) -> ValidationCost
        requires { data_size (view document.now) ≤ 16777216 }
        ensures { result ≡ cost_with self.now (view document.now) steps }
    {
        weighed_cost(self.weight, document, steps)
    }
}
