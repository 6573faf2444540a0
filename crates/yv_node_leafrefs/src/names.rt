//! The names of nodes as numbers.
ghost use Rattle.std.specs.Prelude.{◌≡◌, ◌==◌, ◌+◌, ◌<◌, ◌^◌, ℕ, List, None, Some, length, slice_get, IfOk, OnOk, if◌then◌else◌};
ghost use Rattle.yv_nodes.specs.Rows.{Row};
ghost use Rattle.yv_node_leafrefs.specs.{DefiningStatements.{AreNamed}, InnerNames.{told_of, given_to, keep_first, AreOfNodes, AreNumbers, AreNumbered}};

use std::alloc::{AllocError, Global};
use std::collections::BTreeMap;
use yv_nodes::Node;

/// For each name a number, and for each statement that of the name that its nodes have. The names
/// are borrowed, and one is compared once for a statement, however many nodes are copies of its
/// node.
#[derive(Drop)]
pub(crate) struct NameTable<'n> {
    map: BTreeMap<&'n [u8], u32>,
    given: BTreeMap<usize, u32>,
}

impl<'n> NameTable<'n> {
    /// No names.
    pub(crate) fn new(alloc: Global) -> NameTable<'n>
        ensures tells { (name : List ℕ) → told_of result name ≡ None }
        ensures gives { (statement : ℕ) → given_to result statement ≡ None }
    {
        NameTable {
            map: BTreeMap::new(alloc),
            given: BTreeMap::new(alloc),
        }
    }

    /// The number of a name.
    pub(crate) fn get(&self, name: &'n str) -> Option<u32>
        ensures { result ≡ told_of self.now name.now }
    {
        self.map.get(&name.as_bytes()).copied()
    }

    // Gives a name this number, where it has none yet, and answers the number that it has.
    fn keep(&mut self, name: &'n str, number: u32) -> Result<u32, AllocError>
        ensures tells { OnOk result
            ((n : List ℕ) → told_of self.new n ≡ keep_first (told_of self.old) name.now number n) }
        ensures number { IfOk result (λ given. told_of self.new name.now ≡ Some given) }
        ensures gives { (statement : ℕ) → given_to self.new statement
            ≡ given_to self.old statement }
    {
        if let Some(given) = self.get(name) {
            return Ok(given);
        }
        self.map.insert(name.as_bytes(), number)?;
        Ok(number)
    }

    // The number given to a statement.
    fn find(&self, statement: usize) -> Option<u32>
        ensures { result ≡ given_to self.now statement }
    {
        self.given.get(&statement).copied()
    }

    // Gives a statement a number.
    fn give(&mut self, statement: usize, number: u32) -> Result<(), AllocError>
        ensures tells { (name : List ℕ) → told_of self.new name ≡ told_of self.old name }
        ensures gives { OnOk result
            ((s : ℕ) → given_to self.new s
            ≡ (if statement == s then Some number else given_to self.old s)) }
    {
        self.given.insert(statement, number)?;
        Ok(())
    }

    // The number of the name of the node of a number, which a statement defines.
    fn of_node(&mut self, statement: usize, node: &'n Node, number: u32) -> Result<u32, AllocError>
        ensures numbers { (rows : List Row) (statements : List ℕ) → AreNamed rows statements
            → slice_get rows number ≡ Some node.now
            → slice_get statements number ≡ Some statement
            → AreNumbered rows statements number self.old
            → OnOk result (AreNumbered rows statements (number + 1) self.new) }
        ensures number { (rows : List Row) (statements : List ℕ) → AreNamed rows statements
            → slice_get rows number ≡ Some node.now
            → slice_get statements number ≡ Some statement
            → AreNumbered rows statements number self.old
            → IfOk result (λ given. told_of self.new node.now.label.defined.name ≡ Some given) }
        ensures tells { OnOk result
            ((name : List ℕ) (k : ℕ) → told_of self.old name ≡ Some k → told_of self.new name
            ≡ Some k) }
    {
        if let Some(given) = self.find(statement) {
            return Ok(given);
        }
        let given = self.keep(node.name(), number)?;
        self.give(statement, given)?;
        Ok(given)
    }
}

/// Numbers the names of all nodes, and answers the number of each.
pub(crate) fn number_names<'n>(
    alloc: Global,
    nodes: &'n [Node],
    statements: &[usize],
    names: &mut NameTable<'n>,
) -> Result<Vec<u32>, AllocError>
    requires few { length nodes.now < 2 ^ 32 }
    requires names { AreNamed nodes.now statements.now }
    requires empty { AreNumbered nodes.now statements.now 0 names.old }
    ensures tells { OnOk result (AreOfNodes nodes.now (length nodes.now) (told_of names.new)) }
    ensures each { IfOk result (λ numbers. length numbers.items ≡ length nodes.now) }
    ensures numbers { IfOk result
        (λ numbers. AreNumbers nodes.now (length nodes.now) (told_of names.new) numbers.items) }
{
    let mut numbers = Vec::new(alloc);
    for (number, node) in nodes.iter().enumerate() {
        let given = names.of_node(statements[number], node, number as u32)?;
        numbers.push(given)?;
    }
    Ok(numbers)
}
