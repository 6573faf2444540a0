//! What advice on the faults of a document rests on.
use crate::advice::push_advice;
use crate::keys::push_keys;
use crate::spot::{Spot, node_at, target_of};
use serde_json::Value;
use std::alloc::{AllocError, Global};
use yv_base_streams::Input;
use yv_data_faults::{Fault, FaultKind};
use yv_job::Job;
use yv_nodes::NodeId;
use yv_note_values::YangFiles;
use yv_schema_tables::Schema;
use yv_text_statement::{Kind, Statement};
use yv_values::PlainType;

/// An advisor on the faults of one document: what the advice is made of.
#[derive(Clone, Copy)]
pub struct Advisor<'d, 's> {
    pub schema: &'d Schema,
    pub document: &'d Value,
    /// The job that checks the document.
    pub job: &'d Job,
    /// The files of the modules.
    pub inputs: &'d [Input],
    /// The statements of these files, one of each, where they were read again.
    pub(crate) statements: Option<&'s [Statement<'d>]>,
}

impl<'d, 's> Advisor<'d, 's> {
    /// An advisor without the statements of the modules.
    pub fn new(
        schema: &'d Schema,
        document: &'d Value,
        job: &'d Job,
        inputs: &'d [Input],
    ) -> Advisor<'d, 's> {
        Advisor {
            schema,
            document,
            job,
            inputs,
            statements: None,
        }
    }

    /// This advisor with the statements of the modules' files, one of each, in the same order.
    pub fn with_statements<'t>(&self, statements: &'t [Statement<'d>]) -> Advisor<'d, 't> {
        Advisor {
            schema: self.schema,
            document: self.document,
            job: self.job,
            inputs: self.inputs,
            statements: Some(statements),
        }
    }

    /// What is wrong at a fault, and what to do.
    pub fn advice(&self, alloc: Global, fault: &Fault) -> Result<String, AllocError> {
        let path = fault.path.steps().to_vec(alloc)?;
        let mut text = String::new(alloc);
        match path.last() {
            Some(step) => {
                let spot = Spot::find(alloc, self, path.as_slice())?;
                push_advice(&mut text, &spot, &step.name, fault)?;
            }
            None => text.push_str("the document needs to be an object in braces")?,
        }
        Ok(text)
    }

    /// The keys of the innermost list entry around a fault, with their values; empty where there is
    /// none.
    pub fn keys(&self, alloc: Global, fault: &Fault) -> Result<String, AllocError> {
        let path = fault.path.steps().to_vec(alloc)?;
        let mut text = String::new(alloc);
        push_keys(alloc, &mut text, self, path.as_slice())?;
        Ok(text)
    }

    /// The files of the modules, where their statements were read again.
    pub(crate) fn files(&self) -> Option<YangFiles<'d, 's>> {
        match self.statements {
            Some(statements) => Some(YangFiles::new(self.inputs, statements)),
            None => None,
        }
    }

    /// Whether advice on a fault needs the statements of the modules: for a string, which may fail
    /// a pattern, for a union, whose types have names, and for a member that the schema lacks.
    pub fn wants_statements(&self, fault: &Fault) -> bool {
        match fault.kind {
            FaultKind::Unknown => true,
            FaultKind::Value | FaultKind::Mandatory => self.has_named_types(fault.path.node()),
            _ => false,
        }
    }

    // Whether the statements of a node's type say more of it than the schema.
    fn has_named_types(&self, id: NodeId) -> bool {
        match node_at(self.schema, Some(target_of(self.schema, id))) {
            Some(node) => match node.types() {
                [plain] => matches!(plain, PlainType::Text(_)),
                types => !types.is_empty(),
            },
            None => false,
        }
    }

    /// Whether a fault is that state data is missing, which a configuration does not have.
    pub fn is_missing_state(&self, fault: &Fault) -> bool {
        matches!(fault.kind, FaultKind::Mandatory | FaultKind::Min)
            && self.job.kind == Kind::All
            && node_at(self.schema, Some(fault.path.node())).is_some_and(|node| !node.config())
    }
}
