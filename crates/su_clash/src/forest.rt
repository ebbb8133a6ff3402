//! Classes of items, in each a tree whose edges are steps. Nothing rests on it.
use std::alloc::Global;
use su_base::{List, NoMemory};

/// Stands where there is no item.
pub const NONE: usize = usize::MAX;

/// What became of two items that were to be joined.
#[derive(Clone, Copy, PartialEq, Eq, Debug)]
pub enum Joined {
    /// They were in one class already.
    Before,
    /// They are now.
    Now,
    /// They are now, and the class has these two constants.
    Clash { one: usize, other: usize },
}

/// Items are numbers from 0; those of constants are even.
#[derive(Drop)]
pub struct Forest {
    class: Vec<usize>,
    members: Vec<List<usize>>,
    constant: Vec<usize>,
    up: Vec<usize>,
    why: Vec<usize>,
}

/// The number at this place.
fn at(numbers: &[usize], i: usize) -> usize {
    match numbers.get(i) {
        Some(number) => *number,
        None => NONE,
    }
}

/// Writes the number at this place, if it is there.
fn put(numbers: &mut [usize], i: usize, number: usize) {
    if i < numbers.len() {
        numbers[i] = number;
    }
}

/// Takes an item out of the class, if it has one.
fn pop_from(members: &mut [List<usize>], class: usize) -> Option<usize> {
    if class < members.len() {
        members[class].pop()
    } else {
        None
    }
}

/// Puts the item into the class, if it is there.
fn push_to(members: &mut [List<usize>], class: usize, item: usize) -> Result<(), NoMemory> {
    if class < members.len() {
        members[class].push(item)?;
    }
    Ok(())
}

impl Forest {
    /// Each of so many items in a class of its own.
    pub fn new(alloc: Global, count: usize) -> Result<Forest, NoMemory> {
        let mut forest = Forest {
            class: Vec::new(alloc),
            members: Vec::new(alloc),
            constant: Vec::new(alloc),
            up: vec![in alloc; NONE; count]?,
            why: vec![in alloc; NONE; count]?,
        };
        for item in 0..count {
            let mut alone = List::new(alloc);
            alone.push(item)?;
            let Ok(()) = forest.members.push(alone) else {
                return Err(NoMemory);
            };
            let Ok(()) = forest.class.push(item) else {
                return Err(NoMemory);
            };
            let constant = if item % 2 == 0 { item } else { NONE };
            let Ok(()) = forest.constant.push(constant) else {
                return Err(NoMemory);
            };
        }
        Ok(forest)
    }

    /// The class of the item.
    pub fn class(&self, item: usize) -> usize {
        at(&self.class, item)
    }

    /// Turns the tree of the item, so that the item has no edge upwards.
    fn turn(&mut self, item: usize) {
        let mut node = item;
        let mut below = NONE;
        let mut reason = NONE;
        for _ in 0..self.up.len() {
            let next = at(&self.up, node);
            let why = at(&self.why, node);
            put(&mut self.up, node, below);
            put(&mut self.why, node, reason);
            if next == NONE {
                return;
            }
            below = node;
            reason = why;
            node = next;
        }
    }

    /// Moves the items of one class to another.
    fn pour(&mut self, from: usize, to: usize) -> Result<(), NoMemory> {
        for _ in 0..self.size(from) {
            if let Some(item) = pop_from(&mut self.members, from) {
                put(&mut self.class, item, to);
                push_to(&mut self.members, to, item)?;
            }
        }
        Ok(())
    }

    /// How many items the class has.
    fn size(&self, class: usize) -> usize {
        match self.members.get(class) {
            Some(members) => members.len(),
            None => 0,
        }
    }

    /// Joins the tree of `x`, whose class is the smaller one, to `y` by an edge for the step.
    fn hang(&mut self, x: usize, y: usize, step: usize) -> Result<Joined, NoMemory> {
        let from = self.class(x);
        let to = self.class(y);
        self.turn(x);
        put(&mut self.up, x, y);
        put(&mut self.why, x, step);
        let one = at(&self.constant, from);
        let other = at(&self.constant, to);
        if other == NONE {
            put(&mut self.constant, to, one);
        }
        self.pour(from, to)?;
        if one != NONE && other != NONE {
            return Ok(Joined::Clash { one, other });
        }
        Ok(Joined::Now)
    }

    /// Joins the classes of two items, for the step with this number.
    pub fn join(&mut self, x: usize, y: usize, step: usize) -> Result<Joined, NoMemory> {
        let from = self.class(x);
        let to = self.class(y);
        if from == to {
            return Ok(Joined::Before);
        }
        if self.size(from) <= self.size(to) {
            self.hang(x, y, step)
        } else {
            self.hang(y, x, step)
        }
    }

    /// The items from this one upwards.
    fn upwards(&self, alloc: Global, item: usize) -> Result<Vec<bool>, NoMemory> {
        let mut marks = vec![in alloc; false; self.up.len()]?;
        let mut node = item;
        for _ in 0..self.up.len() {
            if node >= marks.len() {
                return Ok(marks);
            }
            marks[node] = true;
            node = at(&self.up, node);
        }
        Ok(marks)
    }

    /// Adds the steps of the edges upwards from the item, as far as to a marked one, which is answered.
    fn climb(
        &self,
        item: usize,
        marks: &[bool],
        steps: &mut List<usize>,
    ) -> Result<usize, NoMemory> {
        let mut node = item;
        for _ in 0..self.up.len() {
            if node >= marks.len() || marks[node] {
                return Ok(node);
            }
            steps.push(at(&self.why, node))?;
            node = at(&self.up, node);
        }
        Ok(node)
    }

    /// The steps of the edges between two items of one class.
    pub fn path(&self, alloc: Global, x: usize, y: usize) -> Result<List<usize>, NoMemory> {
        let mut steps = List::new(alloc);
        let marks = self.upwards(alloc, x)?;
        let top = self.climb(y, &marks, &mut steps)?;
        let mut only = vec![in alloc; false; self.up.len()]?;
        if top < only.len() {
            only[top] = true;
        }
        self.climb(x, &only, &mut steps)?;
        Ok(steps)
    }
}
