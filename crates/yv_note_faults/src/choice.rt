//! Which faults have a line.
ghost use Rattle.std.specs.Prelude.{◌≡◌, true, false, map, slice_get, Some, IfOk, OnOk};
ghost use Rattle.yv_note_faults.specs.{Sentences.{chosen_faults, marked_faults}, InnerAdds.{AddsIf, PicksMarked}};

use std::alloc::{AllocError, Global};
use yv_data_faults::Fault;

/// The faults that have a line, at most so many: first those that lead, and then the others.
pub(crate) fn choose<'f>(
    alloc: Global,
    faults: &'f [Fault],
    leads: &[bool],
    most: usize,
) -> Result<Vec<&'f Fault>, AllocError>
    ensures { IfOk result
        (λ those. map (λ f. f.now) those.items ≡ chosen_faults most faults.now leads.now) }
{
    let mut those = Vec::new(alloc);
    push_marked(&mut those, faults, leads, true, most)?;
    push_marked(&mut those, faults, leads, false, most)?;
    Ok(those)
}

// Adds the faults whose marks are these, as long as there are fewer than so many.
fn push_marked<'f>(
    those: &mut Vec<&'f Fault>,
    faults: &'f [Fault],
    marks: &[bool],
    mark: bool,
    most: usize,
) -> Result<(), AllocError>
    ensures { OnOk result
        (PicksMarked most (map (λ f. f.now) those.old.items)
        (marked_faults mark faults.now marks.now)
        (map (λ f. f.now) those.new.items)) }
{
    for (number, fault) in faults.iter().enumerate() {
        push_if(those, fault, has_mark(marks, number, mark), most)?;
    }
    Ok(())
}

// Adds a fault if it is to be added, and there are fewer than so many.
fn push_if<'f>(
    those: &mut Vec<&'f Fault>,
    fault: &'f Fault,
    is_picked: bool,
    most: usize,
) -> Result<(), AllocError>
    ensures { OnOk result
        (AddsIf most is_picked fault.now (map (λ f. f.now) those.old.items)
        (map (λ f. f.now) those.new.items)) }
{
    if is_picked && those.len() < most {
        those.push(fault)?;
    }
    Ok(())
}

// Whether the mark of this number, from 0, is this one.
fn has_mark(marks: &[bool], number: usize, mark: bool) -> bool
    ensures has { result ≡ true → slice_get marks.now number ≡ Some mark }
    ensures lacks { result ≡ false → slice_get marks.now number ≡ Some mark → ⊥ }
{
    match marks.get(number) {
        Some(other) => *other == mark,
        None => false,
    }
}
