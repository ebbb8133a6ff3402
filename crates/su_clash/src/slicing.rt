//! From a clash back to the steps that it rests on. Nothing rests on it.
use crate::forest::Forest;
use crate::searching::item;
use crate::steps::Step;
use std::alloc::Global;
use su_base::{List, NoMemory};
use su_fd::Fd;

/// Marks the steps between two items.
fn mark(
    alloc: Global,
    forest: &Forest,
    x: usize,
    y: usize,
    marks: &mut [bool],
) -> Result<(), NoMemory> {
    let path = forest.path(alloc, x, y)?;
    for step in path.as_slice() {
        if *step < marks.len() {
            marks[*step] = true;
        }
    }
    Ok(())
}

/// Marks the steps by which the two rows of a step agree on the left side.
fn mark_left(
    alloc: Global,
    fds: &[Fd],
    items: &[List<usize>],
    forest: &Forest,
    step: &Step,
    marks: &mut [bool],
) -> Result<(), NoMemory> {
    let Some(fd) = fds.get(step.fd) else {
        return Ok(());
    };
    for a in 0..128u8 {
        if fd.left.contains(a) {
            let x = item(items, step.first, a as usize);
            let y = item(items, step.second, a as usize);
            mark(alloc, forest, x, y, marks)?;
        }
    }
    Ok(())
}

/// The steps on which it rests that two items are joined. Those between two items that were joined before a
/// step came before it, so one way from the last step to the first marks all.
pub fn sliced(
    alloc: Global,
    fds: &[Fd],
    items: &[List<usize>],
    forest: &Forest,
    steps: &[Step],
    one: usize,
    other: usize,
) -> Result<List<Step>, NoMemory> {
    let mut marks = vec![in alloc; false; steps.len()]?;
    mark(alloc, forest, one, other, &mut marks)?;
    for i in (0..steps.len()).rev() {
        if i < marks.len() && marks[i] {
            mark_left(alloc, fds, items, forest, &steps[i], &mut marks)?;
        }
    }
    let mut left = List::new(alloc);
    for i in 0..steps.len() {
        left.push_if(i < marks.len() && marks[i], steps[i])?;
    }
    Ok(left)
}
