//! The cause of a refusal at a statement.
use crate::found_files::{bare_module, say_bare_module, tell_missing_file, tell_second_file};
use std::alloc::AllocError;
use yv_job::Job;
use yv_link_scopes::Rows;
use yv_note_names::{
    tell_cycle, tell_feature_name, tell_grouping_name, tell_identity_name, tell_imports,
    tell_prefix, tell_revision, tell_second_name, tell_submodule, tell_type_name,
};
use yv_note_nodes::{
    tell_augment, tell_augment_target, tell_config, tell_default_case, tell_key, tell_mandatory,
    tell_operation, tell_path, tell_path_cycle, tell_refine, tell_refine_target, tell_second_node,
    tell_unique, tell_units,
};
use yv_note_patterns::tell_pattern;
use yv_note_statements::{Message, Site};
use yv_note_syntax::{tell_argument, tell_cardinality, tell_keyword, tell_unsupported};
use yv_note_types::{tell_default, tell_item, tell_restriction, tell_type};
use yv_text_statement::{Code, Keyword};

/// A refusal at a statement.
#[derive(Clone, Copy)]
pub(crate) struct Refused<'r, 's, 'a, 'b> {
    pub(crate) rows: &'r Rows<'a, 'b>,
    pub(crate) site: Site<'s, 'a>,
    pub(crate) job: &'a Job,
    pub(crate) code: Code,
}

impl<'a> Refused<'_, '_, 'a, '_> {
    /// Adds the cause; nothing, if the sentence on the code says all.
    pub(crate) fn tell_cause(&self, telling: &mut Message<'a>) -> Result<(), AllocError> {
        match self.code.phase() {
            1 | 2 => self.tell_form(telling),
            3 => return self.tell_module(telling),
            4..=6 => return self.tell_name(telling),
            7 => return self.tell_units(telling),
            _ => return self.tell_schema(telling),
        }
        Ok(())
    }

    // The same, of keywords and arguments.
    fn tell_form(&self, telling: &mut Message<'a>) {
        let site = &self.site;
        match self.code {
            Code::Unsupported => tell_unsupported(telling, site),
            Code::UnknownStatement => tell_keyword(telling, site),
            Code::Cardinality => tell_cardinality(telling, site),
            Code::BadArgument => tell_argument(telling, site),
            _ => {}
        }
    }

    // The same, of modules.
    fn tell_module(&self, telling: &mut Message<'a>) -> Result<(), AllocError> {
        let site = &self.site;
        match self.code {
            Code::DuplicateModule => tell_second_file(telling, site, self.job),
            Code::MissingModule => tell_missing_file(telling, site, self.job),
            Code::Revision => tell_revision(telling, site),
            Code::Submodule => tell_submodule(telling, site),
            Code::ImportCycle => return tell_imports(telling, self.rows, site),
            Code::UnknownPrefix => return tell_prefix(telling, site),
            _ => {}
        }
        Ok(())
    }

    // The same, of names.
    fn tell_name(&self, telling: &mut Message<'a>) -> Result<(), AllocError> {
        let site = &self.site;
        match self.code {
            Code::UnknownFeature => return tell_feature_name(telling, site),
            Code::UnknownIdentity => tell_identity_name(telling, site),
            Code::DuplicateName => tell_second_name(telling, site),
            Code::UnknownType => tell_type_name(telling, site),
            Code::UnknownGrouping => tell_grouping_name(telling, site),
            _ => return self.tell_definition_cycle(telling),
        }
        Ok(())
    }

    // The same, of definitions that lead to themselves.
    fn tell_definition_cycle(&self, telling: &mut Message<'a>) -> Result<(), AllocError> {
        let keyword = match self.code {
            Code::FeatureCycle => Keyword::IfFeature,
            Code::IdentityCycle => Keyword::Base,
            Code::TypeCycle => Keyword::Type,
            _ => Keyword::Uses,
        };
        telling.sentence(self.code);
        tell_cycle(telling, self.rows, &self.site, keyword)
    }

    // The same, of the number of nodes.
    fn tell_units(&self, telling: &mut Message<'a>) -> Result<(), AllocError> {
        let Job {
            selection,
            limit,
            ..
        } = self.job;
        tell_units(telling, self.rows, selection, *limit, self.site.entries)
    }

    // The same, of refines and augments, of types, and of the nodes of the schema.
    fn tell_schema(&self, telling: &mut Message<'a>) -> Result<(), AllocError> {
        let site = &self.site;
        match self.code {
            Code::RefineTarget => return tell_refine_target(telling, site),
            Code::BadRefine => return tell_refine(telling, site),
            Code::AugmentTarget => return self.tell_target(telling),
            Code::BadAugment => return tell_augment(telling, site),
            Code::BadRestriction => return tell_restriction(telling, site),
            Code::BadNumbering => return tell_item(telling, site),
            Code::BadType => return tell_type(telling, site),
            Code::BadPattern => return tell_pattern(telling, site.argument()),
            Code::DuplicateNode => return tell_second_node(telling, site),
            Code::BadKey => return tell_key(telling, site),
            Code::BadUnique => return tell_unique(telling, site),
            Code::BadDefault if site.is(Keyword::Choice) => return tell_default_case(telling, site),
            Code::BadDefault => return tell_default(telling, site),
            Code::BadMandatory => return tell_mandatory(telling, site),
            Code::BadPath => return self.tell_leafref(telling),
            Code::PathCycle => return tell_path_cycle(telling, site),
            Code::BadConfig => tell_config(telling, site),
            Code::BadOperation => return tell_operation(telling, site),
            _ => {}
        }
        Ok(())
    }

    // The same, of the target of an `augment`.
    fn tell_target(&self, telling: &mut Message<'a>) -> Result<(), AllocError> {
        let site = &self.site;
        match bare_module(site, site.argument(), self.job) {
            Some(module) => {
                telling.sentence(self.code);
                say_bare_module(telling, module, self.job);
                Ok(())
            }
            None => tell_augment_target(telling, site),
        }
    }

    // The same, of the path of a leafref.
    fn tell_leafref(&self, telling: &mut Message<'a>) -> Result<(), AllocError> {
        let site = &self.site;
        let path = match site.child(Keyword::Type) {
            Some(kind) => kind.child(Keyword::Path),
            None => None,
        };
        let Some(path) = path else {
            return tell_path(telling, site);
        };
        match bare_module(&path, path.argument(), self.job) {
            Some(module) => {
                telling.subject("The path of ", " is wrong: ");
                telling.quote("", path.argument(), ".");
                say_bare_module(telling, module, self.job);
                Ok(())
            }
            None => tell_path(telling, site),
        }
    }
}
