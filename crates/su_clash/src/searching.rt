//! A quick chase that keeps why symbols are equal. Nothing rests on it.
use crate::forest::{Forest, Joined};
use crate::slicing::sliced;
use crate::steps::Step;
use std::alloc::Global;
use std::collections::HashMap;
use su_base::{AttrSet, List, NoMemory};
use su_fd::Fd;
use su_reduce::Codes;
use su_tableau::Sym;

/// A clash of two items, if there is one, and whether anything was joined.
#[derive(Clone, Copy)]
struct Pass {
    joined: bool,
    clash: Option<(usize, usize)>,
}

/// The item of the symbol: even for a constant, odd for a variable.
fn item_of(alloc: Global, codes: &mut Codes, x: &Sym) -> Result<usize, NoMemory> {
    match x {
        Sym::Const(value) => {
            let code = codes.code(alloc, value)?;
            Ok(2 * code as usize)
        }
        Sym::Var(k) => Ok(2 * *k as usize + 1),
    }
}

/// The items of each row.
fn items_of(alloc: Global, rows: &[List<Sym>]) -> Result<List<List<usize>>, NoMemory> {
    let mut codes = Codes::new(alloc);
    let mut all = List::new(alloc);
    for row in rows {
        let mut items = List::new(alloc);
        for x in row.as_slice() {
            items.push(item_of(alloc, &mut codes, x)?)?;
        }
        all.push(items)?;
    }
    Ok(all)
}

/// The item of the row at the attribute.
pub fn item(items: &[List<usize>], row: usize, a: usize) -> usize {
    match items.get(row) {
        Some(cells) => match cells.as_slice().get(a) {
            Some(item) => *item,
            None => 0,
        },
        None => 0,
    }
}

/// A number above all items.
fn limit_of(items: &[List<usize>]) -> usize {
    let mut limit = 0;
    for row in items {
        for item in row.as_slice() {
            limit = limit.max(item.saturating_add(1));
        }
    }
    limit
}

/// The classes of the row's items at the attributes of the set.
fn key_of(
    alloc: Global,
    forest: &Forest,
    row: &[usize],
    set: AttrSet,
) -> Result<List<usize>, NoMemory> {
    let mut key = List::new(alloc);
    for a in 0..row.len().min(128) {
        key.push_if(set.contains(a as u8), forest.class(row[a]))?;
    }
    Ok(key)
}

/// Joins two rows at the attributes of the set, up to a clash.
fn join_rows(
    forest: &mut Forest,
    first: &[usize],
    second: &[usize],
    set: AttrSet,
    step: usize,
) -> Result<Pass, NoMemory> {
    let mut joined = false;
    for a in 0..first.len().min(second.len()).min(128) {
        if set.contains(a as u8) {
            match forest.join(first[a], second[a], step)? {
                Joined::Before => {}
                Joined::Now => joined = true,
                Joined::Clash { one, other } => {
                    return Ok(Pass {
                        joined: true,
                        clash: Some((one, other)),
                    });
                }
            }
        }
    }
    Ok(Pass {
        joined,
        clash: None,
    })
}

/// The first row that has the same classes on the left side as this one, which is noted.
fn first_with(
    seen: &mut HashMap<List<usize>, usize>,
    key: List<usize>,
    row: usize,
) -> Result<usize, NoMemory> {
    if let Some(first) = seen.get(&key) {
        return Ok(*first);
    }
    match seen.insert(key, row) {
        Ok(_) => Ok(row),
        Err(_) => Err(NoMemory),
    }
}

/// Joins each row with the first one that has the same left side.
fn pass_over(
    alloc: Global,
    dependency: &Fd,
    fd: usize,
    items: &[List<usize>],
    forest: &mut Forest,
    steps: &mut List<Step>,
) -> Result<Pass, NoMemory> {
    let mut seen = HashMap::new(alloc);
    let mut joined = false;
    for second in 0..items.len() {
        let row = items[second].as_slice();
        let key = key_of(alloc, forest, row, dependency.left)?;
        let first = first_with(&mut seen, key, second)?;
        let before = items[first.min(items.len() - 1)].as_slice();
        let pass = join_rows(forest, before, row, dependency.right, steps.len())?;
        if pass.joined {
            steps.push(Step { fd, first, second })?;
            joined = true;
        }
        if pass.clash.is_some() {
            return Ok(Pass {
                joined,
                clash: pass.clash,
            });
        }
    }
    Ok(Pass {
        joined,
        clash: None,
    })
}

/// One pass for each dependency, up to a clash.
fn pass_over_all(
    alloc: Global,
    fds: &[Fd],
    items: &[List<usize>],
    forest: &mut Forest,
    steps: &mut List<Step>,
) -> Result<Pass, NoMemory> {
    let mut joined = false;
    for fd in 0..fds.len() {
        let pass = pass_over(alloc, &fds[fd], fd, items, forest, steps)?;
        joined |= pass.joined;
        if pass.clash.is_some() {
            return Ok(Pass {
                joined,
                clash: pass.clash,
            });
        }
    }
    Ok(Pass {
        joined,
        clash: None,
    })
}

/// Steps that are likely to refute the rows, few of them in vain; maybe none.
pub fn searched(alloc: Global, fds: &[Fd], rows: &[List<Sym>]) -> Result<List<Step>, NoMemory> {
    let items = items_of(alloc, rows)?;
    let items = items.as_slice();
    let mut forest = Forest::new(alloc, limit_of(items))?;
    let mut steps = List::new(alloc);
    for _ in 0..limit_of(items) {
        let pass = pass_over_all(alloc, fds, items, &mut forest, &mut steps)?;
        if let Some((one, other)) = pass.clash {
            return sliced(alloc, fds, items, &forest, steps.as_slice(), one, other);
        }
        if !pass.joined {
            return Ok(List::new(alloc));
        }
    }
    Ok(List::new(alloc))
}
