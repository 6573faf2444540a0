//! What a run on the files of a search is, and what becomes of each file.
ghost use Rattle.std.specs.{Prelude.{slice_get, Some, length, ◌<◌, ◌≡◌, ◌++◌, ℕ, List, map, drop, string_bytes, nat_lt, IfOk, OnOk}};
ghost use Rattle.yv_base_streams.specs.Files.{File, file_of};
ghost use Rattle.yv_search.specs.{PlainJob.{IsImportOnly, IsFilesText, AreRoots, with_modules, use_of, word_for, line_of, lines_from}, InnerRoles.{is_required}, InnerPlainJob.{AreTexts, AreKnown, AddsModule}};

use crate::modules::{Names, module_at, names_in, root_module};
use crate::roles::Requirements;
use crate::roots::{file_root, file_text};
use std::alloc::{AllocError, Global};
use yv_base_streams::Input;
use yv_source::Source;
use yv_text_statement::Statement;

// The texts of files.
fn texts(alloc: Global, files: &[Input]) -> Result<Vec<Option<Source>>, AllocError>
    ensures { IfOk result (λ texts. AreTexts (map file_of files.now) texts.items) }
{
    let mut texts = Vec::new(alloc);
    for file in files {
        texts.push(file_text(alloc, &file.bytes)?)?;
    }
    Ok(texts)
}

// The roots of files with these texts.
fn roots<'a>(
    alloc: Global,
    texts: &'a [Option<Source>],
) -> Result<Vec<Option<Statement<'a>>>, AllocError>
    ensures { IfOk result (λ roots. (files : List File) → AreTexts files texts.now
        → AreRoots files roots.items) }
{
    let mut roots = Vec::new(alloc);
    for text in texts {
        roots.push(file_root(alloc, text)?)?;
    }
    Ok(roots)
}

// The roots after so many.
fn roots_after<'r, 'a>(
    roots: &'r [Option<Statement<'a>>],
    count: usize,
) -> &'r [Option<Statement<'a>>]
    ensures { result.now ≡ drop count roots.now }
{
    if count < roots.len() {
        &roots[count..]
    } else {
        &[]
    }
}

// The same names.
fn copies(alloc: Global, given: &[String]) -> Result<Vec<String>, AllocError>
    ensures { IfOk result (λ names. map string_bytes names.items ≡ map string_bytes given.now) }
{
    let mut names = Vec::new(alloc);
    for name in given {
        names.push(String::from_str(alloc, name.as_str())?)?;
    }
    Ok(names)
}

// One more name, for a module that isn't required and not among the names.
fn add_module<'a>(
    alloc: Global,
    requirements: &Requirements<'_>,
    names: &mut Vec<String>,
    known: &mut Names<'a>,
    name: &'a str,
) -> Result<(), AllocError>
    ensures { OnOk result (AreKnown known.old names.old.items
        → AddsModule (is_required requirements.now) name.now names.old.items
        known.new names.new.items) }
{
    if requirements.has(name) || known.has(name) {
        return Ok(());
    }
    names.push(String::from_str(alloc, name)?)?;
    known.add(name)?;
    Ok(())
}

// The given names, and then the modules of these roots that aren't required.
fn names_with(
    alloc: Global,
    requirements: &Requirements<'_>,
    given: &[String],
    roots: &[Option<Statement<'_>>],
) -> Result<Vec<String>, AllocError>
    ensures { IfOk result (λ names. map string_bytes names.items
        ≡ with_modules (is_required requirements.now) (map string_bytes given.now) roots.now) }
{
    let mut names = copies(alloc, given)?;
    let mut known = names_in(alloc, given)?;
    for root in roots {
        if let Some(name) = root_module(root) {
            add_module(alloc, requirements, &mut names, &mut known, name)?;
        }
    }
    Ok(names)
}

/// The names of `--import-only` with which a run of these files, listed, is that of the search: the
/// given names, and then the modules of found files that aren't required. The first files are the
/// named ones.
pub fn import_only(
    alloc: Global,
    files: &[Input],
    named: usize,
    given: &[String],
) -> Result<Vec<String>, AllocError>
    // Exactly those names, in this order.
    ensures { IfOk result (λ names. IsImportOnly (map file_of files.now) named
        (map string_bytes given.now) (map string_bytes names.items)) }
{
    let texts = texts(alloc, files)?;
    let roots = roots(alloc, &texts)?;
    let requirements = Requirements::read(alloc, &roots, named, given)?;
    let names = names_with(alloc, &requirements, given, roots_after(&roots, named))?;
    Ok(names)
}

// Implemented if required, else imported.
fn use_of(is_required: bool) -> &'static str
    ensures { result.now ≡ use_of is_required }
{
    if is_required {
        "implemented"
    } else {
        "imported"
    }
}

// What becomes of a file with this root.
fn word_for(
    requirements: &Requirements<'_>,
    is_named: bool,
    root: &Option<Statement<'_>>,
) -> &'static str
    ensures { result.now ≡ word_for (is_required requirements.now) is_named root.now }
{
    if root.is_none() {
        return "unread";
    }
    match module_at(root) {
        Some(module) => use_of(requirements.has(module)),
        None => use_of(is_named),
    }
}

// Adds a line: a word, a blank and a file's name.
fn add_line(text: &mut String, word: &str, name: &str) -> Result<(), AllocError>
    ensures { OnOk result
        (string_bytes text.new ≡ string_bytes text.old ++ line_of word.now name.now) }
{
    text.push_str(word)?;
    text.push_str(" ")?;
    text.push_str(name)?;
    text.push_str("\n")?;
    Ok(())
}

// The root of the file of this number.
fn root_at<'r, 'a>(roots: &'r [Option<Statement<'a>>], number: usize) -> &'r Option<Statement<'a>>
    requires { number < length roots.now }
    ensures { slice_get roots.now number ≡ Some result.now }
{
    &roots[number]
}

// The lines of files with these roots.
fn lines(
    alloc: Global,
    requirements: &Requirements<'_>,
    named: usize,
    files: &[Input],
    roots: &[Option<Statement<'_>>],
) -> Result<String, AllocError>
    requires { AreRoots (map file_of files.now) roots.now }
    ensures { IfOk result (λ text. string_bytes text
        ≡ lines_from (is_required requirements.now) named 0 (map file_of files.now) roots.now) }
{
    let mut text = String::new(alloc);
    for (number, file) in files.iter().enumerate() {
        let root = root_at(roots, number);
        let word = word_for(requirements, number < named, root);
        add_line(&mut text, word, file.name.as_str())?;
    }
    Ok(text)
}

/// What the command `files` writes: a line for each file, in order, with what becomes of it. The
/// first files are the named ones.
pub fn files_text(
    alloc: Global,
    files: &[Input],
    named: usize,
    given: &[String],
) -> Result<String, AllocError>
    // `unread` where a file has no root, else whether its module is implemented or only imported.
    ensures { IfOk result (λ text. IsFilesText (map file_of files.now) named
        (map string_bytes given.now) (string_bytes text)) }
{
    let texts = texts(alloc, files)?;
    let roots = roots(alloc, &texts)?;
    let requirements = Requirements::read(alloc, &roots, named, given)?;
    let text = lines(alloc, &requirements, named, files, &roots)?;
    Ok(text)
}
