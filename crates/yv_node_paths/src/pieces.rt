//! The paths of leafrefs as they are written.
ghost use Rattle.std.specs.Prelude.{◌≡◌, map, IfOk};
ghost use Rattle.yv_link_scopes.specs.Files.{Files};
ghost use Rattle.yv_node_paths.specs.{InnerPrefixes.{IsPrefixTable}, Referral.{piece_of, pieces_of}};

use crate::steps::{PathReader, texts_of};
use std::alloc::AllocError;
use std::rc::RcStr;
use yv_link_scopes::{local, prefix_of};
use yv_node_content::PathPiece;

impl<'a> PathReader<'_, 'a> {
    // The piece that is written so.
    fn piece(&self, text: &'a str) -> Result<PathPiece, AllocError>
        ensures { (files : Files) → IsPrefixTable files self.now.module_files.now
            → IfOk result (λ piece. piece ≡ piece_of files self.now.file text.now) }
    {
        let name = RcStr::from_str(self.alloc, local(text))?;
        match prefix_of(text) {
            Some(prefix) => Ok(PathPiece {
                prefix: Some(RcStr::from_str(self.alloc, prefix)?),
                module_file: self.module_files.get(self.file, prefix),
                name,
            }),
            None => Ok(PathPiece {
                prefix: None,
                module_file: None,
                name,
            }),
        }
    }

    // The pieces that are written so.
    fn pieces_in(&self, texts: &[&'a str]) -> Result<Vec<PathPiece>, AllocError>
        ensures { (files : Files) → IsPrefixTable files self.now.module_files.now
            → IfOk result
            (λ pieces. pieces.items
            ≡ map (piece_of files self.now.file) (map (λ t. t.now) texts.now)) }
    {
        let mut pieces = Vec::new(self.alloc);
        for text in texts {
            pieces.push(self.piece(text)?)?;
        }
        Ok(pieces)
    }

    /// The pieces of the path that is written so.
    pub(crate) fn pieces(&self, text: &'a str) -> Result<Vec<PathPiece>, AllocError>
        ensures { (files : Files) → IsPrefixTable files self.now.module_files.now
            → IfOk result (λ pieces. pieces.items ≡ pieces_of files self.now.file text.now) }
    {
        self.pieces_in(&texts_of(self.alloc, text)?)
    }
}
