//! Which of a type's names are values.
ghost use Rattle.std.specs.Prelude.{◌≡◌, ◌&&◌, ℕ, List, IfOk};
ghost use Rattle.yv_text_statement.specs.Tree.{name_of as name_at};
ghost use Rattle.yv_link.specs.LinkedFiles.{truth_in};
ghost use Rattle.yv_type_enums.specs.{Entries.{is_on, is_on_among}, InnerEntries.{base_has, counts, borrow}, Values.{has}};

use crate::entries::is_on;
use crate::values::Values;
use std::alloc::{AllocError, Global};
use yv_base_numbers::Numbering;
use yv_link::Linked;
use yv_link_scopes::name_of;
use yv_text_statement::Statement;

/// The conditions of a file.
#[derive(Clone, Copy)]
pub(crate) struct IfFeatures<'r, 'a, 'b> {
    pub linked: &'r Linked<'a, 'b>,
    pub file: u32,
}

impl<'r, 'a, 'b> IfFeatures<'r, 'a, 'b> {
    /// The names of entries that are on, among those with a number that are values of the base,
    /// where there is one.
    pub fn values(
        &self,
        alloc: Global,
        numbering: &Numbering<'a>,
        base: Option<&Values<'a>>,
        lines: &[&'a Statement<'_>],
    ) -> Result<Values<'a>, AllocError>
        ensures { IfOk result (λ values. (name : List ℕ) → has values name
            ≡ (counts numbering.now base.entry name
            && is_on_among (truth_in self.now.linked.now) self.now.file (borrow lines.now) name)) }
    {
        let mut values = Values::new(alloc);
        for line in lines {
            if self.is_value(numbering, base, line) {
                values.add(name_of(line))?;
            }
        }
        Ok(values)
    }

    // Whether an entry gives a value.
    fn is_value(
        &self,
        numbering: &Numbering<'a>,
        base: Option<&Values<'a>>,
        line: &'a Statement<'_>,
    ) -> bool
        ensures { result ≡ (counts numbering.now base.entry (name_at line.now.head)
            && is_on (truth_in self.now.linked.now) self.now.file line.now) }
    {
        counts(numbering, base, name_of(line)) && is_on(self.linked, self.file, line)
    }
}

// Whether a name has a number, and is a value of the base.
fn counts<'a>(numbering: &Numbering<'a>, base: Option<&Values<'a>>, name: &'a str) -> bool
    ensures { result ≡ counts numbering.now base.entry name.now }
{
    numbering.number(name).is_some() && base_has(base, name)
}

fn base_has<'a>(base: Option<&Values<'a>>, name: &'a str) -> bool
    ensures { result ≡ base_has base.entry name.now }
{
    match base {
        Some(base) => base.has(name),
        None => true,
    }
}
