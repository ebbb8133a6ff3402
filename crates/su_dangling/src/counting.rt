//! How many rows of a view take part in a join, and how many dangle.
ghost use Rattle.std.specs.Prelude.{◌≡◌, ◌<◌, IsTrue, length, take, IfOk};
ghost use Rattle.std.specs.List.Sorted.{IsStrictlySortedBy};
ghost use Rattle.std.specs.FinSet as set;
ghost use Rattle.su_base.specs.Value.{compare_lists};
ghost use Rattle.su_dangling.specs.Dangling.{IsCounted, AreCounted};
ghost use Rattle.su_dangling.specs.inside.Among.{is_one, without};

use crate::taking::{rows_of_view, taking_part};
use std::alloc::Global;
use su_base::{List, NoMemory, ObjSet, Row};
use su_state::Database;

/// How many rows an object's view has, how many of them take part in a join of views, how many dangle,
/// and the least three of those.
#[derive(Debug, Drop)]
pub struct Dangling {
    pub object: u8,
    pub rows: u64,
    pub joined: u64,
    pub dangling: u64,
    pub least: List<Row>,
}

/// So many rows are told.
const TOLD: usize = 3;

/// Whether the row is one of these, which ascend.
fn is_among(rows: &[Row], row: &Row) -> bool
    requires { IsStrictlySortedBy compare_lists rows.now }
    ensures { result ≡ is_one rows.now row.now }
{
    rows.binary_search(row).is_ok()
}

/// The rows that are none of the others, which ascend. It takes no memory.
fn left_of(rows: List<Row>, others: &[Row]) -> List<Row>
    requires { IsStrictlySortedBy compare_lists others.now }
    ensures { result ≡ without rows others.now }
{
    let mut left = rows.into_vec();
    left.retain(|row| !is_among(others, row));
    List::from_vec(left)
}

/// The first rows of the list.
fn first_few(rows: List<Row>) -> List<Row>
    ensures { result ≡ take 3 rows }
{
    let mut few = rows.into_vec();
    few.truncate(TOLD);
    List::from_vec(few)
}

/// What is counted of the object among these objects, of which it is one.
pub fn dangling_of(
    alloc: Global,
    db: &Database,
    objects: ObjSet,
    object: u8,
) -> Result<Dangling, NoMemory>
    requires in_range { object < length db.now.schema.objects }
    requires member { IsTrue (set.contains objects object) }
    ensures { IfOk result (IsCounted db.now objects object) }
{
    let view = rows_of_view(alloc, db, object)?;
    let taking = taking_part(alloc, db, objects, object)?;
    let rows = view.len() as u64;
    let left = left_of(view, taking.as_slice());
    let dangling = left.len() as u64;
    Ok(Dangling {
        object,
        rows,
        joined: taking.len() as u64,
        dangling,
        least: first_few(left),
    })
}

/// What is counted of each of these objects, whose views are joined: of a maximal object, or of the
/// core of a cyclic one. Rows ascend as those of an answer do.
pub fn dangling_in(
    alloc: Global,
    db: &Database,
    objects: ObjSet,
) -> Result<List<Dangling>, NoMemory>
    ensures { IfOk result (AreCounted db.now objects) }
{
    db.keeps_its_rules();
    let mut found = List::new(alloc);
    for o in 0..db.schema().objects() as u8 {
        if objects.contains(o) {
            let one = dangling_of(alloc, db, objects, o)?;
            found.push(one)?;
        }
    }
    Ok(found)
}
