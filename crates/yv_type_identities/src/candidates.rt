//! The identities that are values wherever they are derived from the bases.
ghost use Rattle.std.specs.{Prelude.{◌≡◌, map, slice_get, IfOk}, Rc.{rc_str_bytes}};
ghost use Rattle.yv_text_statement.specs.Selection.{ModuleChoice};
ghost use Rattle.yv_link_scopes.specs.{Files.{Files, brief_of}, RowList.{rows_of}, Rows.{row}};
ghost use Rattle.yv_link_features.specs.On.{module_name_in};
ghost use Rattle.yv_link_identities.specs.{Names.{is_identity}, References.{ref_of}};
ghost use Rattle.yv_link.specs.LinkedFiles.{AreLinked, truth_in};
ghost use Rattle.yv_type_identities.specs.{Values.{names_implemented}, InnerCandidates.{AreCandidates, AreModuleNames, IsOf, passes}};

use crate::if_features::off;
use std::alloc::{AllocError, Global};
use std::collections::BTreeSet;
use std::rc::RcStr;
use yv_link::{IdentityRef, Linked};
use yv_link_scopes::{Entry, name_of};
use yv_text_statement::Keyword;
use yv_values::Member;

/// An identity with its module, and where it is.
#[derive(Drop)]
pub(crate) struct Candidate {
    pub identity: IdentityRef,
    pub member: Member,
}

// What is asked of each statement: the files, the names of their modules, and the statements that
// aren't on.
#[derive(Drop)]
struct Draft<'r, 'a, 'b> {
    linked: &'r Linked<'a, 'b>,
    module_files: Vec<RcStr>,
    off: BTreeSet<usize>,
}

/// Whether a statement is an identity.
pub(crate) fn is_identity(entry: &Entry<'_, '_>) -> bool
    ensures { result ≡ is_identity (row entry.now) }
{
    entry.is(Keyword::Identity)
}

/// The reference to a statement.
pub(crate) fn reference(entry: &Entry<'_, '_>) -> IdentityRef
    ensures { result ≡ ref_of (row entry.now) }
{
    IdentityRef {
        file: entry.file,
        offset: entry.statement.offset(),
    }
}

// The name of the module to which a file belongs.
fn module_name_of<'a>(linked: &Linked<'a, '_>, file: u32) -> &'a str
    ensures { (files : Files) (choice : ModuleChoice) → AreLinked files choice linked.now
        → result.now ≡ module_name_in (slice_get (map brief_of files) file) }
{
    match linked.rows().files().get(file as usize) {
        Some(file) => file.module_name,
        None => "",
    }
}

// Whether the module of a name is there and implemented.
fn names_implemented<'a>(linked: &Linked<'a, '_>, name: &'a str) -> bool
    ensures { (files : Files) (choice : ModuleChoice) → AreLinked files choice linked.now
        → result ≡ names_implemented choice (map brief_of files) name.now }
{
    match linked.module(name) {
        Some(module) => module.implemented,
        None => false,
    }
}

// The names of the modules to which the files belong, once for each file.
fn module_names(alloc: Global, linked: &Linked<'_, '_>) -> Result<Vec<RcStr>, AllocError>
    ensures { IfOk result
        (λ module_files. (files : Files) (choice : ModuleChoice) → AreLinked files choice linked.now
        → AreModuleNames (map brief_of files) module_files.items) }
{
    let mut module_files = Vec::new(alloc);
    for file in 0..count(linked) {
        module_files.push(RcStr::from_str(alloc, module_name_of(linked, file))?)?;
    }
    Ok(module_files)
}

// How many files there are, of which no more than a `u32` counts are told apart.
fn count(linked: &Linked<'_, '_>) -> u32 {
    u32::try_from(linked.rows().files().len()).unwrap_or(0)
}

impl<'a, 'b> Draft<'_, 'a, 'b> {
    // Whether a numbered statement is an identity of an implemented module, and on.
    fn passes(&self, number: usize, entry: &Entry<'a, 'b>) -> bool
        ensures { (files : Files) (choice : ModuleChoice)
            → AreLinked files choice self.now.linked.now
            → result ≡ passes choice (map brief_of files) self.now.off number (row entry.now) }
    {
        is_identity(entry)
            && names_implemented(self.linked, module_name_of(self.linked, entry.file))
            && !self.off.contains(&number)
    }

    // The name of the module to which a file belongs, shared by all that ask.
    fn module_name(&self, alloc: Global, file: u32) -> Result<RcStr, AllocError>
        ensures { IfOk result
            (λ module_name. (files : Files) (choice : ModuleChoice)
            → AreLinked files choice self.now.linked.now
            → AreModuleNames (map brief_of files) self.now.module_files.items
            → rc_str_bytes module_name ≡ module_name_in (slice_get (map brief_of files) file)) }
    {
        match self.module_files.get(file as usize) {
            Some(module_name) => module_name.clone(),
            None => RcStr::from_str(alloc, module_name_of(self.linked, file)),
        }
    }

    // The identity of a statement, with its module.
    fn candidate(&self, alloc: Global, entry: &Entry<'a, 'b>) -> Result<Candidate, AllocError>
        ensures { IfOk result
            (λ c. (files : Files) (choice : ModuleChoice)
            → AreLinked files choice self.now.linked.now
            → AreModuleNames (map brief_of files) self.now.module_files.items
            → IsOf (map brief_of files) (row entry.now) c) }
    {
        let module = self.module_name(alloc, entry.file)?;
        let name = RcStr::from_str(alloc, name_of(entry.statement))?;
        Ok(Candidate {
            identity: reference(entry),
            member: Member { module, name },
        })
    }
}

/// The identities of implemented modules whose own conditions hold.
pub(crate) fn candidates(
    alloc: Global,
    linked: &Linked<'_, '_>,
) -> Result<Vec<Candidate>, AllocError>
    ensures { IfOk result
        (λ candidates. (files : Files) (choice : ModuleChoice) → AreLinked files choice linked.now
        → AreCandidates (truth_in linked.now) choice files candidates.items) }
{
    let module_files = module_names(alloc, linked)?;
    let off = off(alloc, linked)?;
    let draft = Draft {
        linked,
        module_files,
        off,
    };
    let mut candidates = Vec::new(alloc);
    for (at, entry) in linked.rows().entries().iter().enumerate() {
        if draft.passes(at, entry) {
            candidates.push(draft.candidate(alloc, entry)?)?;
        }
    }
    Ok(candidates)
}
