//! The paths of arguments.
ghost use Rattle.std.specs.Prelude.{◌≡◌, ◌++◌, map, IfOk, OnOk};
ghost use Rattle.yv_link_scopes.specs.{Files.{Files}, Views.{lent_in}};
ghost use Rattle.yv_node_paths.specs.{InnerPrefixes.{IsPrefixTable}, InnerFirstWord.{name_in, path_in}, Steps.{names_of, paths_of}};

use crate::first_word::cut;
use crate::referral::LeafrefPath;
use crate::steps::PathReader;
use std::alloc::{AllocError, Global};
use yv_link_scopes::{PrefixTable, Rows};
use yv_node_content::{PathPiece, PathStep};

impl<'a> PathReader<'_, 'a> {
    // Adds the path that a text without blanks spells. An empty text is not one.
    fn push_path(
        &self,
        paths: &mut Vec<Vec<Option<PathStep>>>,
        piece: &'a str,
    ) -> Result<(), AllocError>
        ensures { (files : Files) → IsPrefixTable files self.now.module_files.now
            → OnOk result (map (λ path. path.items) paths.new.items
            ≡ map (λ path. path.items) paths.old.items ++ path_in files self.now.file piece.now) }
    {
        if !piece.is_empty() {
            paths.push(self.path(piece)?)?;
        }
        Ok(())
    }

    // Adds the name that a text without blanks spells. An empty text is not one.
    fn push_name(&self, names: &mut Vec<Option<PathStep>>, piece: &'a str) -> Result<(), AllocError>
        ensures { (files : Files) → IsPrefixTable files self.now.module_files.now
            → OnOk result
            (names.new.items ≡ names.old.items ++ name_in files self.now.file piece.now) }
    {
        if !piece.is_empty() {
            names.push(self.step(piece)?)?;
        }
        Ok(())
    }

    // The paths in a text with blanks between.
    fn paths(&self, text: &'a str) -> Result<Vec<Vec<Option<PathStep>>>, AllocError>
        ensures { (files : Files) → IsPrefixTable files self.now.module_files.now
            → IfOk result (λ paths. map (λ path. path.items) paths.items
            ≡ paths_of files self.now.file text.now) }
    {
        let mut paths = Vec::new(self.alloc);
        let mut rest = text;
        while let Some((word, behind)) = cut(rest) {
            self.push_path(&mut paths, word)?;
            rest = behind;
        }
        self.push_path(&mut paths, rest)?;
        Ok(paths)
    }

    // The names in a text with blanks between, each as the one step of a path.
    fn names(&self, text: &'a str) -> Result<Vec<Option<PathStep>>, AllocError>
        ensures { (files : Files) → IsPrefixTable files self.now.module_files.now
            → IfOk result (λ names. names.items ≡ names_of files self.now.file text.now) }
    {
        let mut names = Vec::new(self.alloc);
        let mut rest = text;
        while let Some((word, behind)) = cut(rest) {
            self.push_name(&mut names, word)?;
            rest = behind;
        }
        self.push_name(&mut names, rest)?;
        Ok(names)
    }
}

/// Reads the paths of arguments: which modules the prefixes in files identify is found once for all
/// of them.
#[derive(Drop)]
pub struct LeafPaths<'a> {
    module_files: PrefixTable<'a>,
}

impl<'a> LeafPaths<'a> {
    ghost use Rattle.yv_node_paths.specs.{LeafPaths.{AreLeafPaths}, Referral.{climbs_of, pieces_of, steps_in}};

    /// The prefixes that files declare, in time n log n and memory linear in the text. Err only if
    /// memory runs out.
    pub fn read(alloc: Global, rows: &Rows<'a, '_>) -> Result<LeafPaths<'a>, AllocError>
        ensures { IfOk result (AreLeafPaths (lent_in rows.now)) }
    {
        let module_files = PrefixTable::read(alloc, rows)?;
        Ok(LeafPaths { module_files })
    }

    // The reader of paths in this file.
    fn reader(&self, alloc: Global, file: usize) -> PathReader<'_, 'a>
        ensures table { result.module_files.now ≡ self.now.module_files }
        ensures file { result.file ≡ file }
    {
        PathReader {
            alloc,
            module_files: &self.module_files,
            file,
        }
    }

    /// The paths that the argument of a `unique` statement in a file has, with blanks between (RFC
    /// 7950, section 7.8.3). A step is None where its prefix identifies no module. Err only if
    /// memory runs out.
    pub fn paths(
        &self,
        alloc: Global,
        file: usize,
        text: &'a str,
    ) -> Result<Vec<Vec<Option<PathStep>>>, AllocError>
        ensures { (files : Files) → AreLeafPaths files self.now
            → IfOk result
            (λ paths. map (λ path. path.items) paths.items ≡ paths_of files file text.now) }
    {
        self.reader(alloc, file).paths(text)
    }

    /// The names that the argument of a `key` statement in a file has, with blanks between, each as
    /// the one step of a path (RFC 7950, section 7.8.2). One is None where its prefix identifies no
    /// module. Err only if memory runs out.
    pub fn names(
        &self,
        alloc: Global,
        file: usize,
        text: &'a str,
    ) -> Result<Vec<Option<PathStep>>, AllocError>
        ensures { (files : Files) → AreLeafPaths files self.now
            → IfOk result (λ names. names.items ≡ names_of files file text.now) }
    {
        self.reader(alloc, file).names(text)
    }

    /// The path that the argument of a `path` statement in a file is, in time and memory linear in
    /// the text (RFC 7950, section 9.9.2). A step is None where its prefix identifies no module.
    /// Err only if memory runs out.
    pub fn referral(
        &self,
        alloc: Global,
        file: usize,
        text: &'a str,
    ) -> Result<LeafrefPath, AllocError>
        // How many `..` a leafref's path begins with; none if it is absolute.
        ensures climbs { IfOk result (λ path. path.climbs ≡ climbs_of text.now) }
        // The steps of the path, each with its module.
        ensures steps { (files : Files) → AreLeafPaths files self.now
            → IfOk result (λ path. path.steps.items ≡ steps_in files file text.now) }
    {
        self.reader(alloc, file).referral(text)
    }

    /// The pieces of the path that the argument of a `path` statement in a file is, as it is
    /// written, for callers that print it (RFC 7950, section 9.9.2). It takes time and memory
    /// linear in the text. Err only if memory runs out.
    pub fn pieces(
        &self,
        alloc: Global,
        file: usize,
        text: &'a str,
    ) -> Result<Vec<PathPiece>, AllocError>
        ensures { (files : Files) → AreLeafPaths files self.now
            → IfOk result (λ pieces. pieces.items ≡ pieces_of files file text.now) }
    {
        self.reader(alloc, file).pieces(text)
    }
}
