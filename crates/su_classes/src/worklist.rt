//! The cells that are to be looked at again, and the marks of classes by which rows are found.
ghost use Rattle.std.specs.Prelude.{◌≡◌, ◌<◌, ◌++◌, ◌∷◌, [], All, Contains, length, IfOk, IfSome, OnOk};
ghost use Rattle.su_classes.specs.Items.{item_of, IsPlacedBelow};
ghost use Rattle.su_classes.specs.inside.Tables.{IsForest};
ghost use Rattle.su_classes.specs.inside.Worklists.{IsWell, IsSame, IsSpot, IsFor};

use crate::items::{Placed, item_at};
use std::alloc::Global;
use su_base::{List, NoMemory};

/// A cell: the position of its row, and its attribute.
#[derive(Clone, Copy)]
pub struct Spot {
    pub row: usize,
    pub attribute: u8,
}

/// Marks of classes, and what stands in each class.
///
/// Each item has the mark of its class. Of two classes that are merged the one with more members keeps its
/// mark, so an item's mark changes at most as often as its class doubles. Members are the items, by their
/// numbers, and after them the spots; those of a class are in a ring.
#[derive(Drop)]
pub struct Worklist {
    /// the mark of each item
    pub marks: Vec<usize>,
    /// for each mark how many members its class has
    pub sizes: Vec<usize>,
    /// for each member the next one of its class
    pub next: Vec<usize>,
    pub spots: List<Spot>,
    /// spots whose class got another mark
    pub pending: List<Spot>,
}

fn append(list: &mut Vec<usize>, number: usize) -> Result<(), NoMemory>
    ensures { OnOk result (list.new.items ≡ list.old.items ++ number ∷ []) }
{
    match list.push(number) {
        Ok(()) => Ok(()),
        Err(_) => Err(NoMemory),
    }
}

impl Worklist {
    /// Each item is a class, and stands nowhere.
    pub fn new(alloc: Global, items: usize) -> Result<Worklist, NoMemory>
        ensures well { IfOk result IsWell }
        ensures items { IfOk result (λ w. length w.marks.items ≡ items) }
        ensures spots { IfOk result (λ w. w.spots ≡ []) }
    {
        let mut marks = Vec::from_elem(alloc, 0, items)?;
        let mut next = Vec::from_elem(alloc, 0, items)?;
        for item in 0..items {
            marks[item] = item;
            next[item] = item;
        }
        Ok(Worklist {
            marks,
            sizes: Vec::from_elem(alloc, 1, items)?,
            next,
            spots: List::new(alloc),
            pending: List::new(alloc),
        })
    }

    /// The item stands at the spot.
    pub fn enter(&mut self, item: usize, spot: Spot) -> Result<(), NoMemory>
        requires well { IsWell self.old }
        requires item { item < length self.old.marks.items }
        ensures well { OnOk result (IsWell self.new) }
        ensures items { OnOk result (length self.new.marks.items ≡ length self.old.marks.items) }
        ensures spots { OnOk result (self.new.spots ≡ self.old.spots ++ spot ∷ []) }
    {
        let member = self.next.len();
        let after = self.next[item];
        append(&mut self.next, after)?;
        self.next[item] = member;
        self.spots.push(spot)?;
        let mark = self.marks[item];
        self.sizes[mark] = self.sizes[mark].saturating_add(1);
        Ok(())
    }

    /// Takes the spot whose class got another mark last.
    pub fn next_pending(&mut self) -> Option<Spot>
        requires { IsWell self.old }
        ensures spot { IfSome result (Contains self.old.spots) }
        ensures same { IsSame self.old self.new }
    {
        self.pending.pop()
    }

    /// Makes one class of those of the two items.
    pub fn unite(&mut self, x: usize, y: usize) -> Result<(), NoMemory>
        requires well { IsWell self.old }
        requires left { x < length self.old.marks.items }
        requires right { y < length self.old.marks.items }
        ensures { OnOk result (IsSame self.old self.new) }
    {
        let left = self.marks[x];
        let right = self.marks[y];
        if left == right {
            return Ok(());
        }
        if self.sizes[left] < self.sizes[right] {
            return self.absorb(y, x);
        }
        self.absorb(x, y)
    }

    /// The class of y goes into that of x.
    fn absorb(&mut self, x: usize, y: usize) -> Result<(), NoMemory>
        requires well { IsWell self.old }
        requires left { x < length self.old.marks.items }
        requires right { y < length self.old.marks.items }
        ensures { OnOk result (IsSame self.old self.new) }
    {
        let mark = self.marks[x];
        self.change_marks(y, mark)?;
        let after = self.next[x];
        self.next[x] = self.next[y];
        self.next[y] = after;
        Ok(())
    }

    /// The item's class gets that mark.
    fn change_marks(&mut self, item: usize, mark: usize) -> Result<(), NoMemory>
        requires well { IsWell self.old }
        requires item { item < length self.old.marks.items }
        requires mark { mark < length self.old.marks.items }
        ensures { OnOk result (IsSame self.old self.new) }
    {
        let size = self.sizes[self.marks[item]];
        let mut member = item;
        for _ in 0..size {
            self.change_mark(member, mark)?;
            member = self.next[member];
        }
        self.sizes[mark] = self.sizes[mark].saturating_add(size);
        Ok(())
    }

    fn change_mark(&mut self, member: usize, mark: usize) -> Result<(), NoMemory>
        requires well { IsWell self.old }
        requires member { member < length self.old.next.items }
        requires mark { mark < length self.old.marks.items }
        ensures { OnOk result (IsSame self.old self.new) }
    {
        let items = self.marks.len();
        if member < items {
            self.marks[member] = mark;
        } else {
            self.pending.push(*self.spots.get(member - items))?;
        }
        Ok(())
    }

    /// A number for the marks at these attributes: rows with the same marks have the same number, and others
    /// seldom.
    pub fn key(&self, attributes: &[u8], row: &Placed) -> u64
        requires { All (λ a. (a < length row.now.cells) × (item_of row.now a < length self.now.marks.items)) attributes.now }
    {
        let mut key = 0u64;
        for a in attributes {
            let mark = self.marks[item_at(row, *a)] as u64;
            key = key.wrapping_mul(0x9E37_79B9_7F4A_7C15).wrapping_add(mark);
        }
        key
    }
}

/// The row's cells at attributes that have readers.
fn enter_row(
    work: &mut Worklist,
    readers: &[List<usize>],
    rows: &[Placed],
    position: usize,
) -> Result<(), NoMemory>
    requires work { IsFor (length work.old.marks.items) (length rows.now) work.old }
    requires readers { length readers.now ≡ 128 }
    requires cells { All (IsPlacedBelow (length work.old.marks.items)) rows.now }
    requires position { position < length rows.now }
    ensures { OnOk result (IsFor (length work.old.marks.items) (length rows.now) work.new) }
{
    let row = &rows[position];
    for attribute in 0..128u8 {
        if row.has.contains(attribute) && !readers[attribute as usize].is_empty() {
            let item = item_at(row, attribute);
            let spot = Spot {
                row: position,
                attribute,
            };
            work.enter(item, spot)?;
        }
    }
    Ok(())
}

/// The classes of the table, and in them the rows' cells at attributes that have readers: no others are
/// looked at again.
pub fn worklist_of(
    alloc: Global,
    table: &[usize],
    readers: &[List<usize>],
    rows: &[Placed],
) -> Result<Worklist, NoMemory>
    requires ordered { IsForest table.now }
    requires readers { length readers.now ≡ 128 }
    requires cells { All (IsPlacedBelow (length table.now)) rows.now }
    ensures { IfOk result (IsFor (length table.now) (length rows.now)) }
{
    let mut work = Worklist::new(alloc, table.len())?;
    for item in 0..table.len() {
        work.unite(item, table[item])?;
    }
    for position in 0..rows.len() {
        enter_row(&mut work, readers, rows, position)?;
    }
    Ok(work)
}
