//! The texts of `--help`.

pub const VERSION: &str = "0.2.0 (rattle-kit-13f logic dac8208d650f15bf)";

/// What `--help` says of the program or of one of its commands: in a line, before the options, and
/// after them.
#[derive(Clone, Copy)]
pub(crate) struct CommandHelp {
    pub(crate) about: &'static str,
    pub(crate) details: &'static str,
    pub(crate) closing: &'static str,
}

pub(crate) const PROGRAM: CommandHelp = CommandHelp {
    about: "Compiles YANG modules, draws their trees and validates JSON documents",
    details: "\
Compiles YANG 1.1 modules (RFC 7950), draws their tree diagrams (RFC 8340),
validates JSON documents (RFC 7951) against them, and lists what to mend in modules
before they are published.

Invalid modules are rejected with one line, FILE:LINE: NAME, for the first error.
Modules that expand to more than 100000 nodes are rejected too; --max-nodes N sets
another limit, from 1 to 1000000. Each fault of a document is reported on one line,
KIND PATH. With --path DIR, the files of imported modules are found in the folder DIR.",
    closing: "\
Examples:
  yangcheck compile --path models example.yang
  yangcheck tree --path models example.yang
  yangcheck validate --data config.json --path models example.yang
  yangcheck lint --path models example.yang
  yangcheck files --path models example.yang

Exit status:
  0  compiled, drawn, valid, no findings, or files listed
  1  modules rejected, no such module or node, faults found, or findings
  2  usage error, document too large, or not JSON
  3  out of memory, pattern not built, cannot read, or cannot write",
};

pub(crate) const COMPILE: CommandHelp = CommandHelp {
    about: "Compile modules and count the nodes of their schema",
    details: "\
Compiles YANG 1.1 modules (RFC 7950) and prints `nodes: N`, the number of nodes
in their schema. Each `uses` is expanded, and nodes that an if-feature removes are
not counted. If the modules are invalid, one line, FILE:LINE: NAME, reports the
first error. Every module or submodule that a module imports or includes must be
among the files, or in a folder that --path names. No document is read.

With --measures, lines `m: M`, `u: U` and `w: W` follow: a validation of a document
with N members and items takes at most (N + 1) * (M + U + W + 1) steps. With
--format json the result is a JSON object on one line.",
    closing: "\
Examples:
  yangcheck compile example.yang types.yang
  yangcheck compile --path models --max-nodes 5000 example.yang
  yangcheck compile --format json --measures --path models example.yang

Exit status:
  0  compiled
  1  modules rejected
  2  usage error
  3  out of memory, pattern not built, cannot read, or cannot write",
};

pub(crate) const TREE: CommandHelp = CommandHelp {
    about: "Draw the tree diagrams of modules",
    details: "\
Draws the tree diagrams (RFC 8340) of YANG 1.1 modules (RFC 7950).

The modules are compiled first. If they are invalid, one line, FILE:LINE: NAME,
reports the first error. Otherwise each module that --module names is drawn, and
without --module each implemented module whose own file is named: its data nodes,
then what it adds to other modules, its operations and its notifications. An empty
line comes between two diagrams. If no file has a module of a name, or the module is
imported but not implemented, the output is `tree: no such module`. Every module or
submodule that a module imports or includes must be among the files, or in a folder
that --path names. No document is read.

With --depth N, nodes below level N are left out; `...` marks where. With --below
/MODULE:NAME/NAME only a node is drawn, with the nodes on the way to it and all below
it. Each name is that of a node, from the top of the schema, choices and cases too; a
name has its module in front where the node above is of another module. If the names
lead to no node, the output is `tree: no such node`. Without --module, the module that
P begins with is drawn. With --columns types begin in columns, and cases are drawn
that a choice leaves out, as other tools do.",
    closing: "\
Examples:
  yangcheck tree example.yang types.yang
  yangcheck tree --module example --support example: --path models example.yang
  yangcheck tree --depth 2 --path models example.yang
  yangcheck tree --below /example:top/servers --columns --path models example.yang

Exit status:
  0  drawn
  1  modules rejected, or no such module or node
  2  usage error
  3  out of memory, pattern not built, cannot read, or cannot write",
};

pub(crate) const VALIDATE: CommandHelp = CommandHelp {
    about: "Validate JSON documents against modules",
    details: "\
Validates JSON documents (RFC 7951) against YANG 1.1 modules (RFC 7950).

The modules are compiled first. If they are invalid, one line, FILE:LINE: NAME,
reports the first error, and the document is not read. Otherwise each fault has
one line, KIND PATH, and the last line is `valid` or `faults: N`. With --kind config
the document is checked as configuration alone: state data that is written is a
fault, and none is required. Every module or submodule that a module imports or
includes must be among the files, or in a folder that --path names.

The modules are compiled once for any number of documents. With two --data output
has labels, with one it has none; --each file asks for labels. A label is the name of
a document, and with --each line also the number of its line. Each line begins with
one, and the last line is `valid: V of N`. The exit status is the greatest of the
documents'. A document that cannot be read does not keep the others from being
validated.

Standard error says what is wrong and what to do: of a document a line on each of its
first 20 faults, or as many as --explain N says.

With --measures, a line `steps: S of B` follows `valid` or `faults: N`: the steps
that were taken, and the most that a document of this size may take. With
--format json each line is a JSON object.",
    closing: "\
Examples:
  yangcheck validate --data config.json example.yang types.yang
  yangcheck validate --data config.json --path models example.yang
  yangcheck validate --data a.json --data b.json --path models example.yang
  yangcheck validate --each line --data log.ndjson --path models example.yang
  yangcheck validate --format json --data config.json --path models example.yang

Exit status:
  0  valid
  1  modules rejected, or faults found
  2  usage error, document too large, or not JSON
  3  out of memory, pattern not built, cannot read, or cannot write",
};

pub(crate) const LINT: CommandHelp = CommandHelp {
    about: "List what to mend in modules before they are published",
    details: "\
Compiles the modules, and then lists findings: facts about single statements that
are not errors, but that an author should mend before publishing.

If the modules are invalid, one line, FILE:LINE: NAME, reports the first error, as
`compile` does. Otherwise each finding has one line, FILE:LINE: RULE, and the last
line is `findings: N`. Standard error shows the line of each finding, and says how
to mend it. Only files that are named have findings, and only if their module is
implemented. With --format json each line is a JSON object.

The rules, in the order of findings at one place:
  FileName           the name of the file is not that of the module
  NoRevision         there is no revision
  IncompleteHeader   there is no organization, contact or description
  StatementOrder     a statement comes after one of a later group (RFC 7950, 14)
  UnusedImport       the file does not use the prefix of an import
  VersionMix         versions of YANG do not go together (RFC 7950, 12)
  NoSuchDate         the date of a revision is no day of the calendar
  RevisionOrder      a revision is not older than the one before it
  Version11          YANG 1.1 is used in a file of version 1
  MinAboveMax        min-elements is above max-elements
  UnusedTypedef      a typedef inside a statement is not used there
  UnusedGrouping     a grouping inside a statement is not used there
  PatternAnchor      a pattern begins with ^ or ends with $
  NoDescription      a definition has no description",
    closing: "\
Examples:
  yangcheck lint --path models example.yang
  yangcheck lint --rules UnusedImport,NoRevision --path models example.yang

Exit status:
  0  no findings
  1  modules rejected, or findings
  2  usage error
  3  out of memory, pattern not built, cannot read, or cannot write",
};

pub(crate) const FILES: CommandHelp = CommandHelp {
    about: "Show which files --path finds, and which modules are implemented",
    details: "\
Prints a line for each file that the other commands would read with the same
options: the files that are named, and then those that --path finds. Nothing is
compiled.

  implemented FILE  a file of a module whose nodes are in the schema
  imported FILE     a file of a module that only gives types, groupings, features,
                    identities or extensions to others
  unread FILE       a file that is not legal YANG, or holds no module

A module is implemented if its file is named, or if an augment or the path of a
leafref leads into it. Name a file to implement its module; use --import-only to
keep a module from being implemented.",
    closing: "\
Example:
  yangcheck files --path models example.yang

Exit status:
  0  listed
  2  usage error, or too many files
  3  out of memory, cannot read, or cannot write",
};

pub const DATA: &str = "The JSON document, or - for standard input; may be repeated";

pub const EACH: &str = "\
What F holds: file (a document), line (documents on lines), name (file names on lines) or name0 (names ended by NUL) [default: file]";

pub const KIND: &str = "\
What the document holds: data (configuration and state) or config (configuration alone) [default: data]";

pub const EXPLAIN: &str = "\
Of how many faults of a document standard error has a line, from 0 to 10000 [default: 20]";

pub const FORMAT: &str = "\
The form of standard output: text or json (a JSON object on each line) [default: text]";

pub const MEASURES: &str = "\
Print what bounds the work of a validation: m, u and w of the schema, or the steps of each document";

pub const RULES: &str = "The rules whose findings are listed: RULE,RULE [default: all]";

pub const FILE: &str = "The files of the YANG modules and submodules (at most 256)";

pub const MODULE: &str = "\
The name of a module to draw; may be repeated [default: the modules of the named files]";

pub const DEPTH: &str = "How many levels of nodes are drawn, from 1 to 128 [default: all]";

pub const BELOW: &str = "\
The node to draw with all below it: /MODULE:NAME/NAME, names of nodes from the top";

pub const COLUMNS: &str = "Write types in columns, and cases that a choice leaves out";

pub const MAX_NODES: &str = "\
The limit on nodes and expanded `uses`, from 1 to 1000000 [default: 100000]";

pub const SUPPORT: &str = "\
The features supported in the named modules (all in others): MODULE:FEATURE,FEATURE/MODULE:";

pub const IMPORT_ONLY: &str = "Modules that are imported but not implemented: MODULE,MODULE";

pub const PATH: &str = "\
A folder in which the files of imported modules are found, with its subfolders; may be repeated";
