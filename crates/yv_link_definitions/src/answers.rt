//! What is known of statements.
ghost use Rattle.std.specs.Prelude.{◌≡◌, ◌+◌, ◌<◌, ◌≤◌, Some, OnOk, IfOk, IfSome, length, slice_get};
ghost use Rattle.yv_link_scopes.specs.{Rows.{row}, Views.{files_in, rows_in}};
ghost use Rattle.yv_link_definitions.specs.InnerAnswers.{TellFirst};

use crate::draft::Draft;
use crate::place_list::PlaceList;
use crate::references::{DefRef, add_definition, add_place};
use std::alloc::{AllocError, Global};
use std::collections::BTreeMap;
use yv_link_scopes::Entry;
use yv_text_statement::Keyword;

/// What each statement means, and where definitions, types and uses are. All are read in one pass,
/// since statements are far apart in memory.
#[derive(Drop)]
pub(crate) struct Answers {
    pub meanings: Vec<Option<u32>>,
    pub definitions: BTreeMap<usize, DefRef>,
    pub types: PlaceList,
    pub uses: PlaceList,
}

// The number in 32 bits.
fn narrow(number: Option<usize>) -> Option<u32>
    requires { IfSome number (λ n. n < 4294967296) }
    ensures { result ≡ number }
{
    match number {
        Some(number) => Some(number as u32),
        None => None,
    }
}

impl Answers {
    // Adds what is known of the next statement.
    fn add<'a, 'b>(
        &mut self,
        draft: &Draft<'_, 'a, 'b>,
        number: usize,
        entry: &Entry<'a, 'b>,
    ) -> Result<(), AllocError>
        requires at { slice_get (rows_in draft.now.rows.now) number ≡ Some (row entry.now) }
        requires few { length (rows_in draft.now.rows.now) ≤ 4294967293 }
        requires first { let rows = draft.now.rows.now
            in TellFirst (files_in rows) (rows_in rows) number self.old }
        ensures { let rows = draft.now.rows.now
            in OnOk result (TellFirst (files_in rows) (rows_in rows) (number + 1) self.new) }
    {
        let meaning = draft.meaning(number, entry);
        self.meanings.push(narrow(meaning))?;
        add_definition(&mut self.definitions, number, entry)?;
        add_place(&mut self.types, Keyword::Type, number, entry)?;
        add_place(&mut self.uses, Keyword::Uses, number, entry)?;
        Ok(())
    }

    /// The answers on all statements.
    pub(crate) fn read(alloc: Global, draft: &Draft<'_, '_, '_>) -> Result<Answers, AllocError>
        ensures { let rows = draft.now.rows.now
            in IfOk result (TellFirst (files_in rows) (rows_in rows) (length (rows_in rows))) }
    {
        let count = draft.rows.len();
        let entries = draft.rows.entries();
        let mut answers = Answers {
            meanings: Vec::with_capacity(alloc, count)?,
            definitions: BTreeMap::new(alloc),
            types: PlaceList::new(alloc),
            uses: PlaceList::new(alloc),
        };
        for (number, entry) in entries.iter().enumerate() {
            answers.add(draft, number, entry)?;
        }
        Ok(answers)
    }
}
