//! A table of representatives: items in trees, each with its parent.
ghost use Rattle.std.specs.Prelude.{◌≡◌, ℕ, ◌<◌, ◌≤◌, All, length};
ghost use Rattle.su_classes.specs.Tables.{rep, IsTable, IsSound};
ghost use Rattle.su_classes.specs.inside.Tables.{IsForest, IsJoining, IsShortened, IsProgress};
ghost use Rattle.su_tableau.specs.declared.symbols.Sym.{Sym};

use crate::items::Together;

/// Each item is its own parent.
pub fn number(table: &mut [usize])
    ensures length { length table.new ≡ length table.old }
    ensures own { (i : ℕ) → i < length table.old → rep table.new i ≡ i }
{
    for i in 0..table.len() {
        table[i] = i;
    }
}

/// The root of the item's tree. Each item on the way to it gets its parent's parent for its own.
pub fn root(table: &mut [usize], item: usize) -> usize
    requires ordered { IsForest table.old }
    requires item { item < length table.old }
    ensures shortened { IsShortened table.old table.new }
    ensures root { rep table.new result ≡ result }
    ensures least { result ≤ item }
    ensures of { (label : ℕ → Sym) → IsSound table.new label → label item ≡ label result }
{
    let mut at = item;
    'path: loop {
        let parent = table[at];
        let above = table[parent];
        if above == parent {
            return parent;
        }
        table[at] = above;
        at = above;
    }
}

/// Merges the classes of the two items; whether they were two. The lesser of their roots stays.
pub fn join(table: &mut [usize], x: usize, y: usize) -> bool
    requires ordered { IsForest table.old }
    requires left { x < length table.old }
    requires right { y < length table.old }
    ensures joining { IsJoining (λ label. label x ≡ label y) table.old table.new }
    ensures progress { IsProgress table.old table.new result }
{
    let left = root(table, x);
    let right = root(table, y);
    if left == right {
        return false;
    }
    if left < right {
        table[right] = left;
    } else {
        table[left] = right;
    }
    true
}

/// Merges what the list puts together.
pub fn join_all(table: &mut [usize], equal: &[Together])
    requires ordered { IsForest table.old }
    requires within { All (λ e. (e.left < length table.old) × (e.right < length table.old)) equal.now }
    ensures { IsJoining (λ label. All (λ e. label e.left ≡ label e.right) equal.now) table.old table.new }
{
    for e in equal {
        join(table, e.left, e.right);
    }
}

/// Each item gets its root for its parent.
pub fn flatten(table: &mut [usize])
    requires { IsForest table.old }
    ensures shortened { IsShortened table.old table.new }
    ensures flat { IsTable table.new }
{
    for i in 0..table.len() {
        table[i] = table[table[i]];
    }
}
