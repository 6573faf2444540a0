//! The patterns of a string type.
ghost use Rattle.std.specs.{Prelude.{◌≡◌, ◌==◌, ◌++◌, ◌∷◌, [], true, length, map, IfOk, OnOk, MatchOption}, List.{list_all}};
ghost use Rattle.yv_values.specs.{Patterns.{test_of}, InnerPatterns.{tests_in, tests_of}, Texts.{passes}};

use std::alloc::{AllocError, Global};
use std::marker::Model;
use std::rc::{Rc, RcSlice};
use yv_pattern::{Matchers, Pattern};

/// A pattern that a string is to match, or not to match where it is inverted (`invert-match`).
#[derive(Drop)]
pub struct PatternTest {
    pub pattern: Rc<Pattern>,
    pub is_inverted: bool,
}

// Tests in order: those of one type statement, or those of two groups, one after the other.
#[derive(Drop)]
enum Group {
    Own(Vec<PatternTest>),
    Pair(Rc<Group>, Rc<Group>),
}

// A group of so many halvings.
#[derive(Drop)]
struct Block {
    height: u32,
    group: Rc<Group>,
}

/// The tests of a string type, those of the types that it narrows first. A chain of types shares
/// them: each has a list of blocks that are ever lower, as the digits of a binary number, so that a
/// type costs time and memory logarithmic in the chain that it continues, and no call nests deeper.
/// Contracts see them as a list.
#[derive(Drop)]
pub struct PatternTests {
    blocks: RcSlice<Block>,
}

impl Model for PatternTests {
    ghost use Rattle.std.specs.{Prelude.{List}, Rc.{rc_slice_items}};
    ghost use Rattle.yv_values.specs.Patterns.{Test};

    ghost Value = { List Test };

    ghost use Rattle.yv_values.specs.InnerPatterns.{tests_in};

    ghost view = { λ t. tests_in (rc_slice_items t.blocks) };
}

impl PatternTests {
    /// No tests.
    pub fn none(alloc: Global) -> Result<PatternTests, AllocError>
        ensures { IfOk result (λ tests. tests ≡ []) }
    {
        Ok(PatternTests {
            blocks: RcSlice::from_vec(Vec::new(alloc))?,
        })
    }

    /// These tests, and others after them.
    pub fn with(&self, alloc: Global, others: Vec<PatternTest>) -> Result<PatternTests, AllocError>
        ensures { IfOk result (λ all. all ≡ self.now ++ map test_of others.items) }
    {
        if others.is_empty() {
            return self.copy();
        }
        let mut blocks = copies(alloc, &self.blocks)?;
        let group = Rc::new(alloc, Group::Own(others))?;
        add(alloc, &mut blocks, Block { height: 0, group })?;
        Ok(PatternTests {
            blocks: RcSlice::from_vec(blocks)?,
        })
    }

    pub(crate) fn is_empty(&self) -> bool
        ensures { result ≡ (length self.now == 0) }
    {
        have_no_test(&self.blocks)
    }

    pub(crate) fn copy(&self) -> Result<PatternTests, AllocError>
        ensures { IfOk result (λ copy. copy ≡ self.now) }
    {
        Ok(PatternTests {
            blocks: self.blocks.clone()?,
        })
    }

    /// Whether a text passes all of them, by these matchers.
    pub(crate) fn pass<'t>(
        &'t self,
        alloc: Global,
        matchers: &mut Matchers<'t>,
        text: &str,
    ) -> Result<bool, AllocError>
        ensures { IfOk result (λ passed. passed ≡ list_all (passes text.now) self.now) }
    {
        blocks_pass(alloc, matchers, &self.blocks, text)
    }
}

// The same blocks once more, over the same groups.
fn copies(alloc: Global, blocks: &[Block]) -> Result<Vec<Block>, AllocError>
    ensures { IfOk result (λ copies. tests_in copies.items ≡ tests_in blocks.now) }
{
    let mut copies = Vec::new(alloc);
    for block in blocks {
        copies.push(Block {
            height: block.height,
            group: block.group.clone()?,
        })?;
    }
    Ok(copies)
}

// Whether there is no test in blocks.
fn have_no_test(blocks: &[Block]) -> bool
    ensures { result ≡ (length (tests_in blocks.now) == 0) }
{
    for block in blocks {
        if !has_no_test(&block.group) {
            return false;
        }
    }
    true
}

// Whether there is no test in a group. The calls nest as deep as the group is high.
fn has_no_test(group: &Group) -> bool
    ensures { result ≡ (length (tests_of group.now) == 0) }
{
    match group {
        Group::Own(tests) => tests.is_empty(),
        Group::Pair(first, second) => has_no_test(first) && has_no_test(second),
    }
}

// Puts a block after others, joined with each at the end that is as high as what is joined so far.
fn add(alloc: Global, blocks: &mut Vec<Block>, block: Block) -> Result<(), AllocError>
    ensures { OnOk result
        (tests_in blocks.new.items ≡ tests_in blocks.old.items ++ tests_of block.group.value) }
{
    let mut block = block;
    while let Some(before) = take_last(blocks, block.height) {
        block = join_blocks(alloc, before, block)?;
    }
    blocks.push(block)?;
    Ok(())
}

// Takes the last block where it is so high.
fn take_last(blocks: &mut Vec<Block>, height: u32) -> Option<Block>
    ensures { MatchOption result (blocks.new.items ≡ blocks.old.items)
        (λ last. blocks.old.items ≡ blocks.new.items ++ last ∷ []) }
{
    if ends_at(blocks, height) {
        blocks.pop()
    } else {
        None
    }
}

// Whether the last block is so high.
fn ends_at(blocks: &[Block], height: u32) -> bool {
    match blocks.last() {
        Some(last) => last.height == height,
        None => false,
    }
}

// One block of two.
fn join_blocks(alloc: Global, first: Block, second: Block) -> Result<Block, AllocError>
    ensures { IfOk result
        (λ both. tests_of both.group.value ≡ tests_of first.group.value
        ++ tests_of second.group.value) }
{
    let height = first.height.saturating_add(1);
    let group = Rc::new(alloc, Group::Pair(first.group, second.group))?;
    Ok(Block { height, group })
}

fn blocks_pass<'t>(
    alloc: Global,
    matchers: &mut Matchers<'t>,
    blocks: &'t [Block],
    text: &str,
) -> Result<bool, AllocError>
    ensures { IfOk result (λ passed. passed ≡ list_all (passes text.now) (tests_in blocks.now)) }
{
    for block in blocks {
        if !group_passes(alloc, matchers, &block.group, text)? {
            return Ok(false);
        }
    }
    Ok(true)
}

// The calls nest as deep as the group is high.
fn group_passes<'t>(
    alloc: Global,
    matchers: &mut Matchers<'t>,
    group: &'t Group,
    text: &str,
) -> Result<bool, AllocError>
    ensures { IfOk result (λ passed. passed ≡ list_all (passes text.now) (tests_of group.now)) }
{
    match group {
        Group::Own(tests) => passes_all(alloc, matchers, tests, text),
        Group::Pair(first, second) => {
            if !group_passes(alloc, matchers, first, text)? {
                return Ok(false);
            }
            group_passes(alloc, matchers, second, text)
        }
    }
}

fn passes_all<'t>(
    alloc: Global,
    matchers: &mut Matchers<'t>,
    tests: &'t [PatternTest],
    text: &str,
) -> Result<bool, AllocError>
    ensures { IfOk result (λ passed. passed ≡ list_all (passes text.now) (map test_of tests.now)) }
{
    for test in tests {
        if !passes(alloc, matchers, test, text)? {
            return Ok(false);
        }
    }
    Ok(true)
}

fn passes<'t>(
    alloc: Global,
    matchers: &mut Matchers<'t>,
    test: &'t PatternTest,
    text: &str,
) -> Result<bool, AllocError>
    ensures { IfOk result (λ passed. passed ≡ passes text.now (test_of test.now)) }
{
    let is_match = matchers.is_match(alloc, &test.pattern, text)?;
    if test.is_inverted {
        Ok(!is_match)
    } else {
        Ok(is_match)
    }
}
