//! Names of schema nodes as numbers.
ghost use Rattle.std.specs.Prelude.{◌≡◌, ◌≤◌, ℕ, List, None, Some, map, codes, length, slice_get, IfOk, OnOk};
ghost use Rattle.yv_link_scopes.specs.{Rows.{Row}, Views.{rows_in}};
ghost use Rattle.yv_expand_paths.specs.{InnerNameNumbers.{own_names, place_of, number_of, number_at}, InnerNames.{table_of}};
ghost use Rattle.yv_expand_statements.specs.Names.{node_name};

use crate::table::Table;
use std::alloc::{AllocError, Global};
use yv_link_scopes::{Rows, name_of};
use yv_text_statement::{Keyword, Statement};

/// The name of the node that a statement gives: its argument, or of an input or output, which has
/// none, its keyword (RFC 7950, section 7.14).
pub fn node_name<'a>(statement: &'a Statement<'_>) -> &'a str
    ensures { result.now ≡ node_name statement.now.head }
{
    if statement.is(Keyword::Input) || statement.is(Keyword::Output) {
        statement.keyword()
    } else {
        name_of(statement)
    }
}

// The number of each statement's name, its first place among them.
fn numbers<'a>(
    alloc: Global,
    rows: &Rows<'a, '_>,
    table: &mut Table<'a>,
) -> Result<Vec<u32>, AllocError>
    requires empty { (name : List ℕ) → table_of table.old name ≡ None }
    requires few { length (rows_in rows.now) ≤ 4294967293 }
    ensures tells { OnOk result
        ((name : List ℕ) → table_of table.new name ≡ place_of (own_names (rows_in rows.now)) name) }
    ensures numbers { IfOk result (λ numbers. map (λ n. Some n) numbers.items
        ≡ map (place_of (own_names (rows_in rows.now))) (own_names (rows_in rows.now))) }
{
    let mut numbers = Vec::new(alloc);
    for (number, entry) in rows.entries().iter().enumerate() {
        let given = table.keep(node_name(entry.statement), number as u32)?;
        numbers.push(given)?;
    }
    Ok(numbers)
}

// The number at a place of a list.
fn number_at(numbers: &[u32], place: usize) -> Option<u32>
    ensures { result ≡ slice_get numbers.now place }
{
    numbers.get(place).copied()
}

/// The names of the nodes that statements give, each with one number. They are kept once, in their
/// statements.
#[derive(Drop)]
pub struct NodeNames<'a> {
    table: Table<'a>,
    numbers: Vec<u32>,
    input: u32,
    output: u32,
}

impl<'a> NodeNames<'a> {
    ghost use Rattle.yv_expand_paths.specs.PathTables.{AreNames};

    /// Numbers the names of these statements, and those of an operation's input and output, which
    /// may be left out. Takes time n log n in the text. Err only if memory runs out.
    pub fn read(alloc: Global, rows: &Rows<'a, '_>) -> Result<NodeNames<'a>, AllocError>
        // These are the names of the statements' nodes, with their numbers.
        ensures names { IfOk result (AreNames (rows_in rows.now)) }
        // Of at most 2^32 - 3 statements.
        ensures few { OnOk result (length (rows_in rows.now) ≤ 4294967293) }
    {
        let count = rows.len();
        let mut table = Table::new(alloc);
        let numbers = numbers(alloc, rows, &mut table)?;
        let input = table.keep("input", count as u32)?;
        let output = table.keep("output", count as u32 + 1)?;
        Ok(NodeNames {
            table,
            numbers,
            input,
            output,
        })
    }

    /// The number of a name. None where no node has it.
    pub fn get(&self, name: &'a str) -> Option<u32>
        ensures { (rows : List Row) → AreNames rows self.now → result ≡ number_of rows name.now }
    {
        self.table.get(name)
    }

    /// The number of the name of the node that a numbered statement gives.
    pub fn of(&self, statement: usize) -> Option<u32>
        ensures { (rows : List Row) → AreNames rows self.now → result ≡ number_at rows statement }
    {
        number_at(&self.numbers, statement)
    }

    /// The number of the name of an operation's input.
    pub fn input(&self) -> u32
        ensures { (rows : List Row) → AreNames rows self.now → number_of rows (codes "input")
            ≡ Some result }
    {
        self.input
    }

    /// The number of the name of an operation's output.
    pub fn output(&self) -> u32
        ensures { (rows : List Row) → AreNames rows self.now → number_of rows (codes "output")
            ≡ Some result }
    {
        self.output
    }
}
