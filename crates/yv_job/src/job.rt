//! A job, for files that were read.

use crate::folder_search::FolderSearch;
use yv_text_statement::{Kind, Selection};
use yv_tree_drawing::TreeOptions;

/// The command: what is to be done with the modules.
#[derive(Debug, Drop)]
pub enum Command {
    /// Count the nodes of the schema.
    Compile,
    /// Draw the trees of modules (RFC 8340).
    Tree(TreeOptions),
    /// Check the document of this file's name, which is `-` for standard input (RFC 7951).
    Validate(String),
}

/// The form of standard output, by the word of `--format`.
#[derive(Clone, Copy, PartialEq, Eq, Debug)]
pub enum OutputForm {
    /// Lines of text, as people read them.
    Text,
    /// A JSON object on each line, as programs read them.
    Json,
}

/// The options of standard output.
#[derive(Clone, Copy, PartialEq, Eq, Debug)]
pub struct OutputOptions {
    /// Its form.
    pub form: OutputForm,
    /// Whether it says what bounds the steps of a validation: the measures of the schema, or the
    /// steps of each document.
    pub measures: bool,
}

impl OutputOptions {
    /// Text without measures: what there is without an option.
    pub const USUAL: OutputOptions = OutputOptions {
        form: OutputForm::Text,
        measures: false,
    };
}

/// A job: a command over files that were named, or found in folders.
#[derive(Debug, Drop)]
pub struct Job {
    pub command: Command,
    /// The names of the files of modules and submodules, in the order in which they were given.
    pub files: Vec<String>,
    /// The most schema nodes that the modules may expand to.
    pub limit: u32,
    pub selection: Selection,
    /// What a document is checked as. It is all data for a job that checks none.
    pub kind: Kind,
    /// Of how many faults of a document standard error has a line. It is 20 for a job that
    /// checks none.
    pub explain: u32,
    /// What standard output is like. Diagrams are always text, and so is what a run over one
    /// document writes of it.
    pub output: OutputOptions,
    /// How the files were found, where folders were searched. Only notes for a person depend on it.
    pub search: Option<FolderSearch>,
}
