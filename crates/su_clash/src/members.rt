//! The members of the views, each once.
ghost use Rattle.std.specs.Prelude.{◌≡◌, ◌↔◌, ◌⊎◌, ◌+◌, ◌<◌, ◌≤◌, ◌++◌, ◌∷◌, [], List as Items, length, map, Contains, IfOk, IfErr, OnOk};
ghost use Rattle.su_base.specs.declared.values.Value.{Value};
ghost use Rattle.su_window.specs.Padded.{AreReadings, IsReading, member_read, rows_under};
ghost use Rattle.su_window.specs.inside.Readings.{columns_of, all_columns, Sees, lists_before, AreSoFar};
ghost use Rattle.su_clash.specs.declared.faults.ClashFault.TheVariants.{Limit, NoMemory as OutOfMemory};
ghost use Rattle.su_clash.specs.Clash.{reading_of, IsClashRefusal};

use crate::columns::{columns_of, rows_under, values_in};
use crate::faults::ClashFault;
use std::alloc::Global;
use std::collections::HashSet;
use su_base::{List, NoMemory, Row};
use su_state::Database;

/// So many members may be looked at.
const MOST: usize = 20_000;

/// A list of an object's view: the object, and the position of the first row of its relation that gives it.
#[derive(Clone, Copy, PartialEq, Eq, Debug)]
pub struct Member {
    pub object: u8,
    pub position: usize,
}

/// Whether the values were not seen before; they are then.
fn is_new(seen: &mut HashSet<Row>, values: Row) -> Result<bool, NoMemory>
    ensures { IfOk result (Sees seen.old.keys seen.new.keys values) }
{
    match seen.insert(values) {
        Ok(added) => Ok(added),
        Err(_) => Err(NoMemory),
    }
}

/// Adds the member, unless there are as many as there may be.
fn add(members: &mut List<Member>, member: Member) -> Result<(), ClashFault>
    ensures added { OnOk result (members.new ≡ members.old ++ member ∷ []) }
    ensures few { OnOk result (length members.old < 20000) }
    ensures refused { IfErr result (λ fault. (fault ≡ OutOfMemory) ⊎ ((fault ≡ Limit) × (20000 ≤ length members.old))) }
{
    if members.len() >= MOST {
        return Err(ClashFault::Limit);
    }
    match members.push(member) {
        Ok(()) => Ok(()),
        Err(_) => Err(ClashFault::NoMemory),
    }
}

/// Adds the member, if its values are new.
fn read_row(
    alloc: Global,
    db: &Database,
    columns: &[Option<u8>],
    member: Member,
    seen: &mut HashSet<Row>,
    members: &mut List<Member>,
) -> Result<(), ClashFault>
    requires object { member.object < length db.now.schema.objects }
    requires position { member.position < length (rows_under db.now member.object) }
    requires columns { columns.now ≡ columns_of db.now.schema member.object }
    requires seen { (x : Items Value) → Contains seen.old.keys x ↔ Contains (lists_before db.now member.object member.position) x }
    requires so_far { AreSoFar db.now member.object member.position (map reading_of members.old) }
    requires few { length members.old ≤ 20000 }
    ensures seen { OnOk result ((x : Items Value) → Contains seen.new.keys x ↔ Contains (lists_before db.now member.object (member.position + 1)) x) }
    ensures so_far { OnOk result (AreSoFar db.now member.object (member.position + 1) (map reading_of members.new)) }
    ensures few { OnOk result (length members.new ≤ 20000) }
    ensures refused { IfErr result (λ fault. (fault ≡ OutOfMemory) ⊎ IsClashRefusal db.now fault) }
{
    db.keeps_its_rules();
    let rows = rows_under(db, member.object);
    let values = values_in(alloc, columns, &rows[member.position])?;
    if is_new(seen, values)? {
        add(members, member)?;
    }
    Ok(())
}

/// Adds the members of the object's view.
fn read_object(
    alloc: Global,
    db: &Database,
    columns: &[Option<u8>],
    object: u8,
    members: &mut List<Member>,
) -> Result<(), ClashFault>
    requires object { object < length db.now.schema.objects }
    requires columns { columns.now ≡ columns_of db.now.schema object }
    requires so_far { AreSoFar db.now object 0 (map reading_of members.old) }
    requires few { length members.old ≤ 20000 }
    ensures so_far { OnOk result (AreSoFar db.now (object + 1) 0 (map reading_of members.new)) }
    ensures few { OnOk result (length members.new ≤ 20000) }
    ensures refused { IfErr result (λ fault. (fault ≡ OutOfMemory) ⊎ IsClashRefusal db.now fault) }
{
    let mut seen = HashSet::new(alloc);
    let rows = rows_under(db, object);
    for position in 0..rows.len() {
        let member = Member { object, position };
        read_row(alloc, db, columns, member, &mut seen, members)?;
    }
    Ok(())
}

/// The members of all views, each once: the objects in order, each by the first row that gives the member.
pub fn members_of(
    alloc: Global,
    db: &Database,
    columns: &[List<Option<u8>>],
) -> Result<List<Member>, ClashFault>
    requires { columns.now ≡ all_columns db.now.schema }
    ensures members { IfOk result (λ members. AreReadings db.now (map reading_of members)) }
    ensures few { IfOk result (λ members. length members ≤ 20000) }
    ensures refused { IfErr result (λ fault. (fault ≡ OutOfMemory) ⊎ IsClashRefusal db.now fault) }
{
    db.keeps_its_rules();
    let mut members = List::new(alloc);
    for object in 0..db.schema().objects() as u8 {
        let columns = columns[object as usize].as_slice();
        read_object(alloc, db, columns, object, &mut members)?;
    }
    Ok(members)
}

/// The values of the member.
pub fn values_of(alloc: Global, db: &Database, member: &Member) -> Result<Row, NoMemory>
    requires { IsReading db.now (reading_of member.now) }
    ensures { IfOk result (λ values. values ≡ (member_read db.now (reading_of member.now)).values) }
{
    db.keeps_its_rules();
    let rows = rows_under(db, member.object);
    let columns = columns_of(alloc, db.schema(), member.object)?;
    let values = values_in(alloc, columns.as_slice(), &rows[member.position])?;
    Ok(values)
}
