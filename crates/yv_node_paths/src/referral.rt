//! The paths of leafrefs.
ghost use Rattle.std.specs.{Prelude.{◌≡◌, ◌≤◌, true, false, Some, None, drop, length, map, IfOk, MatchOption}, List.{prefix_len}};
ghost use Rattle.yv_link_scopes.specs.Files.{Files};
ghost use Rattle.yv_node_paths.specs.{InnerPrefixes.{IsPrefixTable}, Referral.{climbs_of, is_absolute, is_up, names_behind, steps_in, ups_of}, Steps.{path_of, step_of}};

use crate::steps::{PathReader, texts_of};
use std::alloc::AllocError;
use yv_node_content::PathStep;

/// The path of a leafref (RFC 7950, section 9.9.2).
#[derive(Drop)]
pub struct LeafrefPath {
    /// How many `../` it begins with. None where it is absolute.
    pub climbs: Option<usize>,
    /// The names after these, in order: None where a prefix identifies no module.
    pub steps: Vec<Option<PathStep>>,
}

// What comes after the '/' with which an absolute path begins.
fn behind_root(text: &str) -> Option<&str>
    ensures { MatchOption result (is_absolute text.now ≡ false)
        (λ names. (is_absolute text.now ≡ true) × (names.now ≡ drop 1 text.now)) }
{
    text.strip_prefix('/')
}

// How many texts at the front are `..`.
fn ups(texts: &[&str]) -> usize
    ensures count { result ≡ prefix_len is_up (map (λ t. t.now) texts.now) }
    ensures within { result ≤ length texts.now }
{
    texts.iter().take_while(|text| **text == "..").count()
}

impl<'a> PathReader<'_, 'a> {
    // The absolute path with these names.
    fn absolute(&self, names: &'a str) -> Result<LeafrefPath, AllocError>
        ensures climbs { IfOk result (λ path. path.climbs ≡ None) }
        ensures steps { (files : Files) → IsPrefixTable files self.now.module_files.now
            → IfOk result (λ path. path.steps.items ≡ path_of files self.now.file names.now) }
    {
        Ok(LeafrefPath {
            climbs: None,
            steps: self.path(names)?,
        })
    }

    // The relative path that is written so.
    fn relative(&self, text: &'a str) -> Result<LeafrefPath, AllocError>
        ensures climbs { IfOk result (λ path. path.climbs ≡ Some (ups_of text.now)) }
        ensures steps { (files : Files) → IsPrefixTable files self.now.module_files.now
            → IfOk result
            (λ path. path.steps.items ≡ map (step_of files self.now.file) (names_behind text.now)) }
    {
        let texts = texts_of(self.alloc, text)?;
        let ups = ups(&texts);
        let steps = self.steps(&texts[ups..])?;
        Ok(LeafrefPath {
            climbs: Some(ups),
            steps,
        })
    }

    /// The path of a leafref that is written so.
    pub(crate) fn referral(&self, text: &'a str) -> Result<LeafrefPath, AllocError>
        ensures climbs { IfOk result (λ path. path.climbs ≡ climbs_of text.now) }
        ensures steps { (files : Files) → IsPrefixTable files self.now.module_files.now
            → IfOk result (λ path. path.steps.items ≡ steps_in files self.now.file text.now) }
    {
        match behind_root(text) {
            Some(names) => self.absolute(names),
            None => self.relative(text),
        }
    }
}
