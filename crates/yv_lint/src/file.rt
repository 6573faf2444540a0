//! One file, and what is asked of its statements.
ghost use Rattle.std.specs.Prelude.{◌≡◌, ℕ, ◌&&◌, not, List, IfOk};
ghost use Rattle.yv_text_statement.specs.{Tree.{Tree, Then, End}, Words.{is_among}};
ghost use Rattle.yv_link_scopes.specs.Files.{tree_name};
ghost use Rattle.yv_lint.specs.{RuleChoice.{asked_in}, Definitions.{own_prefix}, Findings.{finding_at}, InnerPlaces.{IsEarlier, place_of}, InnerUsed.{has_prefix}, InnerUses.{AreUses, KnowsBlock}, InnerVersions.{version_in}, Newer.{is_too_new}, Rules.{is_unused_import, stands_at, stands_at_root}, Used.{used_prefixes}, Versions.{is_newer_file, is_newer_version, mixes_versions, version_named}};

use crate::arguments::{asks_too_many, has_anchor};
use crate::dates::is_no_day;
use crate::definitions::{is_unused, lacks_description, lacks_header, own_prefix};
use crate::file_names::is_misnamed;
use crate::finding::Finding;
use crate::place::Place;
use crate::prefixes::Prefixes;
use crate::rule::Rule;
use crate::rules::Rules;
use crate::statements::{child_name, has_child};
use crate::uses::Uses;
use crate::versions::{Versions, differs_from, is_dated_import, is_newer_file, is_newer_version};
use std::alloc::{AllocError, Global};
use yv_link_scopes::name_of;
use yv_text_statement::{Keyword, Selection, Statement};

/// What is asked, of all files alike.
#[derive(Drop)]
pub struct Question<'a, 'b> {
    /// The rules that are asked.
    pub rules: &'a Rules,
    /// The modules that are implemented.
    pub selection: &'a Selection,
    /// The roots of all files.
    pub roots: &'a [Statement<'b>],
    /// The versions of these files.
    pub versions: Versions<'a>,
    ghost versions_so: { (name : List ℕ)
        → version_in versions name ≡ version_named roots.now name },
}

/// A file, and what its statements are compared with.
#[derive(Drop)]
pub struct File<'a, 'b, 'c> {
    question: &'c Question<'a, 'b>,
    pub(crate) number: usize,
    pub(crate) root: &'a Statement<'b>,
    is_newer: bool,
    prefixes: Prefixes<'a>,
    pub(crate) uses: Uses<'a>,
    ghost newer_so: { is_newer ≡ is_newer_file root.now },
    ghost prefixes_so: { (prefix : List ℕ) → has_prefix prefixes prefix ≡ is_among (used_prefixes root.now) prefix },
    ghost uses_so: { AreUses (own_prefix root.now) uses 0 (Then root.now.head root.now.children End) },
}

/// The finding of a rule at a statement of a numbered file.
pub fn finding_at(file: usize, statement: &Statement<'_>, rule: Rule) -> Finding
    ensures { result ≡ finding_at file statement.now.head rule }
{
    Finding {
        file,
        offset: statement.offset(),
        line: statement.line(),
        rule,
    }
}

impl<'a, 'b, 'c> File<'a, 'b, 'c> {
    /// A numbered file with this root.
    pub fn read(
        alloc: Global,
        question: &'c Question<'a, 'b>,
        number: usize,
        root: &'a Statement<'b>,
    ) -> Result<File<'a, 'b, 'c>, AllocError>
        // It is asked this.
        ensures question { IfOk result (λ file. file.question.now ≡ question.now) }
        // It has the number.
        ensures number { IfOk result (λ file. file.number ≡ number) }
        // It has the root.
        ensures root { IfOk result (λ file. file.root.now ≡ root.now) }
    {
        let is_newer = is_newer_file(root);
        let prefixes = Prefixes::read(alloc, root)?;
        let uses = Uses::read(alloc, own_prefix(root), root)?;
        Ok(File {
            question,
            number,
            root,
            is_newer,
            prefixes,
            uses,
        })
    }

    // Whether a statement is an import whose prefix the file doesn't use.
    fn is_unused_import(&self, statement: &'a Statement<'b>) -> bool
        ensures { result ≡ is_unused_import self.now.root.now statement.now }
    {
        statement.is(Keyword::Import) && !self.prefixes.has(child_name(statement, Keyword::Prefix))
    }

    // Whether the file is of version 1, and one that a statement names of 1.1.
    fn names_newer(&self, statement: &'a Statement<'b>) -> bool
        ensures { result ≡ (not (is_newer_file self.now.root.now)
            && is_newer_version
            (version_named self.now.question.now.roots.now (tree_name statement.now))) }
    {
        !self.is_newer && is_newer_version(self.question.versions.get(name_of(statement)))
    }

    // Whether a statement mixes versions that may not be mixed.
    fn mixes_versions(&self, statement: &'a Statement<'b>) -> bool
        ensures { result
            ≡ mixes_versions self.now.question.now.roots.now self.now.root.now statement.now }
    {
        if statement.is(Keyword::Include) {
            let other = self.question.versions.get(name_of(statement));
            return differs_from(self.is_newer, other);
        }
        is_dated_import(statement) && self.names_newer(statement)
    }

    // Whether the statement at a place is newer than the file.
    fn is_too_new(&self, place: &Place<'a, 'b>) -> bool
        ensures { (before : List Tree) → IsEarlier before place.now.earlier
            → result ≡ is_too_new self.now.root.now (place_of before place.now) }
    {
        !self.is_newer && place.is_newer()
    }

    /// Whether a rule is asked.
    pub fn is_asked(&self, rule: Rule) -> bool
        ensures { result ≡ asked_in self.now.question.now.rules.now rule }
    {
        self.question.rules.has(rule)
    }

    /// Whether a rule finds something at a place.
    pub fn stands(&self, place: &Place<'a, 'b>, rule: Rule) -> bool
        requires { KnowsBlock (own_prefix self.now.root.now) self.now.uses place.now.start
            place.now.end place.now.parent.now.children }
        ensures { (before : List Tree) → IsEarlier before place.now.earlier
            → result ≡ stands_at self.now.question.now.roots.now self.now.root.now
            (place_of before place.now) rule }
    {
        match rule {
            Rule::StatementOrder => place.is_out_of_order(),
            Rule::UnusedImport => self.is_unused_import(place.statement),
            Rule::VersionMix => self.mixes_versions(place.statement),
            Rule::NoSuchDate => is_no_day(place.statement),
            Rule::RevisionOrder => place.is_unsorted(),
            Rule::Version11 => self.is_too_new(place),
            Rule::MinAboveMax => asks_too_many(place.statement),
            Rule::UnusedTypedef => is_unused(place, Keyword::Typedef, &self.uses.types),
            Rule::UnusedGrouping => is_unused(place, Keyword::Grouping, &self.uses.groupings),
            Rule::PatternAnchor => has_anchor(place.statement),
            Rule::NoDescription => lacks_description(place.statement),
            _ => false,
        }
    }

    /// Whether a rule finds something at the root; the file has this path.
    pub fn stands_at_root(&self, path: &str, rule: Rule) -> bool
        ensures { result ≡ stands_at_root path.now self.now.root.now rule }
    {
        match rule {
            Rule::FileName => is_misnamed(path, self.root),
            Rule::NoRevision => !has_child(self.root, Keyword::Revision),
            Rule::IncompleteHeader => lacks_header(self.root),
            _ => false,
        }
    }
}
