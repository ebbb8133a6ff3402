//! The members of the views, each read once.
ghost use Rattle.std.specs.Prelude.{◌≡◌, ◌↔◌, ◌⊎◌, ◌+◌, ◌<◌, ◌≤◌, ◌++◌, ◌∷◌, [], List as Items, length, get_or, Contains, IfOk, IfErr, OnOk};
ghost use Rattle.su_base.specs.declared.values.Value.{Value};
ghost use Rattle.su_window.specs.declared.faults.WindowFault.TheVariants.{Limit, NoMemory as OutOfMemory};
ghost use Rattle.su_window.specs.Padded.{AreReadings, rows_under};
ghost use Rattle.su_window.specs.inside.Readings.{columns_of, all_columns, Sees, lists_before, AreSoFar};
ghost use Rattle.su_window.specs.Refusals.{IsWindowRefusal};

use crate::columns::{rows_under, values_in};
use crate::faults::WindowFault;
use std::alloc::Global;
use std::collections::HashSet;
use su_base::{List, NoMemory, Row};
use su_state::Database;

/// So many members may be chased.
pub const MOST: usize = 20_000;

/// An object and the position of a row of its relation.
#[derive(Clone, Copy)]
pub struct Reading {
    pub object: u8,
    pub position: usize,
}

/// Whether the values were not seen before; they are then.
fn is_new(seen: &mut HashSet<Row>, values: Row) -> Result<bool, NoMemory>
    ensures { IfOk result (Sees seen.old.keys seen.new.keys values) }
{
    match seen.insert(values) {
        Ok(added) => Ok(added),
        Err(_) => Err(NoMemory),
    }
}

/// Adds the reading, unless there are as many as there may be.
fn add(readings: &mut List<Reading>, reading: Reading) -> Result<(), WindowFault>
    ensures added { OnOk result (readings.new ≡ readings.old ++ reading ∷ []) }
    ensures few { OnOk result (length readings.old < 20000) }
    ensures refused { IfErr result (λ fault. (fault ≡ OutOfMemory) ⊎ ((fault ≡ Limit) × (20000 ≤ length readings.old))) }
{
    if readings.len() >= MOST {
        return Err(WindowFault::Limit);
    }
    match readings.push(reading) {
        Ok(()) => Ok(()),
        Err(_) => Err(WindowFault::NoMemory),
    }
}

/// Adds the reading, if its values are new.
fn read_row(
    alloc: Global,
    db: &Database,
    columns: &[Option<u8>],
    reading: Reading,
    seen: &mut HashSet<Row>,
    readings: &mut List<Reading>,
) -> Result<(), WindowFault>
    requires object { reading.object < length db.now.schema.objects }
    requires position { reading.position < length (rows_under db.now reading.object) }
    requires columns { columns.now ≡ columns_of db.now.schema reading.object }
    requires seen { (x : Items Value) → Contains seen.old.keys x ↔ Contains (lists_before db.now reading.object reading.position) x }
    requires so_far { AreSoFar db.now reading.object reading.position readings.old }
    requires few { length readings.old ≤ 20000 }
    ensures seen { OnOk result ((x : Items Value) → Contains seen.new.keys x ↔ Contains (lists_before db.now reading.object (reading.position + 1)) x) }
    ensures so_far { OnOk result (AreSoFar db.now reading.object (reading.position + 1) readings.new) }
    ensures few { OnOk result (length readings.new ≤ 20000) }
    ensures refused { IfErr result (λ fault. (fault ≡ OutOfMemory) ⊎ IsWindowRefusal db.now fault) }
{
    db.keeps_its_rules();
    let rows = rows_under(db, reading.object);
    let values = values_in(alloc, columns, &rows[reading.position])?;
    if is_new(seen, values)? {
        add(readings, reading)?;
    }
    Ok(())
}

/// Adds readings of the object's members.
fn read_object(
    alloc: Global,
    db: &Database,
    columns: &[Option<u8>],
    object: u8,
    readings: &mut List<Reading>,
) -> Result<(), WindowFault>
    requires object { object < length db.now.schema.objects }
    requires columns { columns.now ≡ columns_of db.now.schema object }
    requires so_far { AreSoFar db.now object 0 readings.old }
    requires few { length readings.old ≤ 20000 }
    ensures so_far { OnOk result (AreSoFar db.now (object + 1) 0 readings.new) }
    ensures few { OnOk result (length readings.new ≤ 20000) }
    ensures refused { IfErr result (λ fault. (fault ≡ OutOfMemory) ⊎ IsWindowRefusal db.now fault) }
{
    let mut seen = HashSet::new(alloc);
    let rows = rows_under(db, object);
    for position in 0..rows.len() {
        let reading = Reading { object, position };
        read_row(alloc, db, columns, reading, &mut seen, readings)?;
    }
    Ok(())
}

/// Readings of the members of all views, each once: the objects in order, each by the first row that
/// gives the member.
pub fn readings_of(
    alloc: Global,
    db: &Database,
    columns: &[List<Option<u8>>],
) -> Result<List<Reading>, WindowFault>
    requires { columns.now ≡ all_columns db.now.schema }
    ensures readings { IfOk result (AreReadings db.now) }
    ensures few { IfOk result (λ readings. length readings ≤ 20000) }
    ensures refused { IfErr result (λ fault. (fault ≡ OutOfMemory) ⊎ IsWindowRefusal db.now fault) }
{
    db.keeps_its_rules();
    let mut readings = List::new(alloc);
    for object in 0..db.schema().objects() as u8 {
        let columns = columns[object as usize].as_slice();
        read_object(alloc, db, columns, object, &mut readings)?;
    }
    Ok(readings)
}
