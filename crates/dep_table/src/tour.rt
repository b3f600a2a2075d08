// A tour of the references of formulas, with each formula after those to which it refers.
ghost use Rattle.std.specs.Prelude.{◌≡◌, ◌≢◌, ◌+◌, ◌<◌, ◌≤◌, IfOk, OnOk, [], false, length, slice_index, slice_index_or, true, vec_len, ℕ};
ghost use Rattle.dep_table.specs.Edges.{edge};
ghost use Rattle.dep_table.specs.Formulas.{AreSorted};
ghost use Rattle.dep_table.specs.Tour.{IsToured, IsUnderway, closed, left_to_do, mark_at};

use crate::find::{Cursor, next_reference};
use column_strips::Formula;
use sheet_model::Memory;
use std::alloc::Global;

/// How far the tour has come with a formula.
#[derive(Clone, Copy, Debug, PartialEq, Eq)]
pub(crate) enum Mark {
    New,
    Open,
    Done,
    Circular,
}

/// The marks after a tour, and the places of the formulas that are done, each after those to which it refers.
#[derive(Drop)]
pub(crate) struct Toured {
    pub(crate) marks: Vec<Mark>,
    pub(crate) order: Vec<usize>,
}

/// A tour of the formulas that are wanted, and of all to which they lead.
pub(crate) fn tour_wanted(
    alloc: Global,
    formulas: &[Formula],
    leaves: &[bool],
    wanted: &[bool],
) -> Result<Toured, Memory>
    requires sorted { AreSorted formulas.now }
    requires leaves { length leaves.now ≡ length formulas.now }
    requires wanted { length wanted.now ≡ length formulas.now }
    ensures { IfOk result (λ t. IsToured (edge formulas.now leaves.now)
        (length formulas.now) wanted.now t.marks.items t.order.items) }
{
    let count = formulas.len();
    let mut marks = vec![in alloc; Mark::New; count]?;
    let mut cursors = vec![in alloc; Cursor { area: 0, place: 0 }; count]?;
    let mut order = Vec::new(alloc);
    explore_wanted(
        formulas,
        leaves,
        wanted,
        &mut marks,
        &mut cursors,
        &mut order,
    )?;
    Ok(Toured { marks, order })
}

// A tour from each formula that is wanted in turn.
fn explore_wanted(
    formulas: &[Formula],
    leaves: &[bool],
    wanted: &[bool],
    marks: &mut [Mark],
    cursors: &mut [Cursor],
    order: &mut Vec<usize>,
) -> Result<(), Memory>
    requires sorted { AreSorted formulas.now }
    requires sound { IsUnderway formulas.now leaves.now marks.old cursors.old [] order.old.items }
    requires nodes { length marks.old ≡ length formulas.now }
    requires leaves { length leaves.now ≡ length formulas.now }
    requires wanted { length wanted.now ≡ length formulas.now }
    ensures sound { OnOk result
        (IsUnderway formulas.now leaves.now marks.new cursors.new [] order.new.items) }
    ensures visited { OnOk result ((k : ℕ) → k < length formulas.now
        → slice_index_or wanted.now k false ≡ true
        → mark_at marks.new k ≢ Mark.New) }
{
    for root in 0..formulas.len() {
        if !wanted[root] {
            continue;
        }
        explore(formulas, leaves, root, marks, cursors, order)?;
    }
    Ok(())
}

// A tour from one formula: after it, all to which it leads are done or circular.
fn explore(
    formulas: &[Formula],
    leaves: &[bool],
    root: usize,
    marks: &mut [Mark],
    cursors: &mut [Cursor],
    order: &mut Vec<usize>,
) -> Result<(), Memory>
    requires sorted { AreSorted formulas.now }
    requires sound { IsUnderway formulas.now leaves.now marks.old cursors.old [] order.old.items }
    requires nodes { length marks.old ≡ length formulas.now }
    requires leaves { length leaves.now ≡ length formulas.now }
    requires root { root < length formulas.now }
    ensures sound { OnOk result
        (IsUnderway formulas.now leaves.now marks.new cursors.new [] order.new.items) }
    ensures kept { OnOk result ((k : ℕ) → mark_at marks.old k ≢ Mark.New
        → mark_at marks.new k ≢ Mark.New) }
    ensures visited { OnOk result (mark_at marks.new root ≢ Mark.New) }
{
    let Mark::New = marks[root] else {
        return Ok(());
    };
    let mut stack = Vec::new(*order.allocator());
    stack.push(root)?;
    marks[root] = Mark::Open;
    while !stack.is_empty() {
        step(formulas, leaves, &mut stack, marks, cursors, order)?;
    }
    Ok(())
}

// One step of a tour: the last of the stack is done, or goes past one reference, or sends the tour to it, or is circular.
fn step(
    formulas: &[Formula],
    leaves: &[bool],
    stack: &mut Vec<usize>,
    marks: &mut [Mark],
    cursors: &mut [Cursor],
    order: &mut Vec<usize>,
) -> Result<(), Memory>
    requires sorted { AreSorted formulas.now }
    requires sound { IsUnderway formulas.now leaves.now
        marks.old cursors.old stack.old.items order.old.items }
    requires some { 0 < vec_len stack.old }
    requires nodes { length marks.old ≡ length formulas.now }
    requires leaves { length leaves.now ≡ length formulas.now }
    ensures sound { OnOk result
        (IsUnderway formulas.now leaves.now marks.new cursors.new stack.new.items order.new.items) }
    ensures less { OnOk result (left_to_do formulas.now marks.new cursors.new stack.new.items
        < left_to_do formulas.now marks.old cursors.old stack.old.items) }
    ensures kept { OnOk result ((k : ℕ) → mark_at marks.old k ≢ Mark.New
        → mark_at marks.new k ≢ Mark.New) }
{
    let node = stack[stack.len() - 1];
    let Some(found) = next_reference(formulas, leaves, node, cursors[node]) else {
        order.push(node)?;
        stack.pop();
        marks[node] = Mark::Done;
        return Ok(());
    };
    match marks[found.place] {
        Mark::Done => {
            cursors[node] = Cursor {
                area: found.area,
                place: found.place + 1,
            };
            Ok(())
        }
        Mark::New => {
            stack.push(found.place)?;
            marks[found.place] = Mark::Open;
            Ok(())
        }
        Mark::Open => {
            close(stack, marks);
            Ok(())
        }
        Mark::Circular => {
            close(stack, marks);
            Ok(())
        }
    }
}

// Marks all of the stack as circular.
fn close(stack: &mut Vec<usize>, marks: &mut [Mark])
    requires { (p : ℕ) → p < vec_len stack.old → slice_index stack.old.items p < length marks.old }
    ensures marked { marks.new ≡ closed marks.old stack.old.items }
    ensures empty { stack.new.items ≡ [] }
{
    for &node in stack.iter() {
        marks[node] = Mark::Circular;
    }
    stack.clear();
}
