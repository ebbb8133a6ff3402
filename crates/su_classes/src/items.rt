//! Rows of items, and pairs of items.
ghost use Rattle.std.specs.Prelude.{◌≡◌, ◌<◌, length};
ghost use Rattle.su_classes.specs.Items.{item_of};

use su_base::{AttrSet, List};

/// A row: an item at each of its attributes. What the cells hold elsewhere tells nothing.
#[derive(Drop)]
pub struct Placed {
    pub has: AttrSet,
    pub cells: List<usize>,
}

/// Two items that are in one class.
#[derive(Clone, Copy)]
pub struct Together {
    pub left: usize,
    pub right: usize,
}

/// The item of a row at an attribute.
pub fn item_at(row: &Placed, a: u8) -> usize
    requires { a < length row.now.cells }
    ensures { result ≡ item_of row.now a }
{
    *row.cells.get(a as usize)
}
