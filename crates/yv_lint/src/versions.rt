//! The versions of YANG in which files are written.
ghost use Rattle.std.specs.{Prelude.{◌≡◌, ℕ, List, Some, None, if◌then◌else◌, IfOk, OnOk}, Option.{option_or}, Str.{bytes_eq}};
ghost use Rattle.yv_lint.specs.{InnerVersions.{version_in}, Versions.{differs_from, is_dated_import, is_newer_file, is_newer_version, says_newer, version_named}};

use crate::statements::has_child;
use std::alloc::{AllocError, Global};
use std::collections::BTreeMap;
use yv_link_scopes::name_of;
use yv_text_statement::{Keyword, Statement};

// Whether a statement is `yang-version 1.1`.
fn says_newer(statement: &Statement<'_>) -> bool
    ensures { result ≡ says_newer statement.now }
{
    statement.is(Keyword::YangVersion) && name_of(statement) == "1.1"
}

/// Whether a file is of version 1.1.
pub fn is_newer_file(root: &Statement<'_>) -> bool
    ensures { result ≡ is_newer_file root.now }
{
    for one in root.children() {
        if says_newer(one) {
            return true;
        }
    }
    false
}

/// Whether a version that may be there is the other one.
pub fn differs_from(is_newer: bool, other: Option<bool>) -> bool
    ensures { result ≡ differs_from is_newer other }
{
    match other {
        None => false,
        Some(other) => is_newer != other,
    }
}

/// Whether a version that may be there is 1.1.
pub fn is_newer_version(other: Option<bool>) -> bool
    ensures { result ≡ is_newer_version other }
{
    matches!(other, Some(true))
}

/// Whether a statement is an import that asks for a revision.
pub fn is_dated_import(statement: &Statement<'_>) -> bool
    ensures { result ≡ is_dated_import statement.now }
{
    statement.is(Keyword::Import) && has_child(statement, Keyword::RevisionDate)
}

/// For the name of each file whether it is of version 1.1.
#[derive(Drop)]
pub struct Versions<'a> {
    map: BTreeMap<&'a str, bool>,
}

impl<'a> Versions<'a> {
    /// The versions of the files with these roots.
    pub fn read(alloc: Global, roots: &'a [Statement<'_>]) -> Result<Versions<'a>, AllocError>
        ensures { IfOk result (λ versions. (name : List ℕ)
            → version_in versions name ≡ version_named roots.now name) }
    {
        let mut versions = Versions {
            map: BTreeMap::new(alloc),
        };
        for root in roots {
            versions.keep(name_of(root), is_newer_file(root))?;
        }
        Ok(versions)
    }

    // Keeps a version for a name, where there is none yet.
    fn keep(&mut self, name: &'a str, is_newer: bool) -> Result<(), AllocError>
        ensures { OnOk result ((other : List ℕ) → version_in self.new other
            ≡ option_or (version_in self.old other)
            (if bytes_eq name.now other then Some is_newer else None)) }
    {
        if !self.map.contains_key(name) {
            self.map.insert(name, is_newer)?;
        }
        Ok(())
    }

    /// Whether the file with this name is of version 1.1, where it is there.
    pub fn get(&self, name: &'a str) -> Option<bool>
        ensures { result ≡ version_in self.now name.now }
    {
        self.map.get(name).copied()
    }
}
