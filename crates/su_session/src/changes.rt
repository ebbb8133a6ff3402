//! The statements that change rows.
ghost use Rattle.std.specs.Prelude.{◌≡◌, ◌≤◌, true, length, IfOk, OnErr};
ghost use Rattle.su_where.specs.Truth.{comparisons_of};
ghost use Rattle.su_query.specs.Mentions.{are_columns};
ghost use Rattle.su_session.specs.RowStatements.{InRelation, InsertsRow, DeletesRow, DeletesRows, LoadsRows};

use crate::replies::{Reply, accepted, known, refused, unknown};
use std::alloc::Global;
use su_base::{NoMemory, Row, Str};
use su_csv::read;
use su_query::{NamedCond, resolve_columns};
use su_show::{Refusal, Room};
use su_state::{Database, LoadEnd};

pub(crate) fn insert(
    alloc: Global,
    db: &mut Database,
    name: &Str,
    row: Row,
) -> Result<Reply, NoMemory>
    ensures replied { IfOk result (λ reply. InRelation db.old name.now reply db.new (InsertsRow db.old row reply db.new)) }
    ensures schema { db.new.schema ≡ db.old.schema }
    ensures unchanged { OnErr result (db.new ≡ db.old) }
{
    let Some(relation) = known(db, name) else {
        return unknown(alloc, db, name);
    };
    let room = Room::new(alloc)?;
    match db.insert(relation, row) {
        Ok(true) => Ok(accepted(room.inserted(1))),
        Ok(false) => Ok(accepted(room.inserted(0))),
        Err(fault) => refused(alloc, db, Refusal::State(fault)),
    }
}

pub(crate) fn delete(
    alloc: Global,
    db: &mut Database,
    name: &Str,
    row: &Row,
) -> Result<Reply, NoMemory>
    ensures replied { IfOk result (λ reply. InRelation db.old name.now reply db.new (DeletesRow db.old row.now reply db.new)) }
    ensures schema { db.new.schema ≡ db.old.schema }
    ensures unchanged { OnErr result (db.new ≡ db.old) }
{
    let Some(relation) = known(db, name) else {
        return unknown(alloc, db, name);
    };
    let room = Room::new(alloc)?;
    match db.delete(relation, row) {
        Ok(true) => Ok(accepted(room.deleted(1))),
        Ok(false) => Ok(accepted(room.deleted(0))),
        Err(fault) => refused(alloc, db, Refusal::State(fault)),
    }
}

pub(crate) fn delete_where(
    alloc: Global,
    db: &mut Database,
    name: &Str,
    cond: &NamedCond,
) -> Result<Reply, NoMemory>
    requires few { length (comparisons_of cond.now) ≤ 256 }
    requires columns { are_columns cond.now ≡ true }
    ensures replied { IfOk result (λ reply. InRelation db.old name.now reply db.new (DeletesRows db.old cond.now reply db.new)) }
    ensures schema { db.new.schema ≡ db.old.schema }
    ensures unchanged { OnErr result (db.new ≡ db.old) }
{
    let Some(relation) = known(db, name) else {
        return unknown(alloc, db, name);
    };
    let cond = match resolve_columns(alloc, db.schema(), relation, cond) {
        Ok(cond) => cond,
        Err(fault) => return refused(alloc, db, Refusal::Query(fault)),
    };
    let room = Room::new(alloc)?;
    let count = db.delete_where(relation, &cond)?;
    Ok(accepted(room.deleted(count)))
}

pub(crate) fn load(
    alloc: Global,
    db: &mut Database,
    name: &Str,
    file: &[u8],
) -> Result<Reply, NoMemory>
    ensures replied { IfOk result (λ reply. InRelation db.old name.now reply db.new (LoadsRows db.old file.now reply db.new)) }
    ensures schema { db.new.schema ≡ db.old.schema }
    ensures unchanged { OnErr result (db.new ≡ db.old) }
{
    let Some(relation) = known(db, name) else {
        return unknown(alloc, db, name);
    };
    let rows = match read(alloc, file, db.schema().columns(relation)) {
        Ok(rows) => rows,
        Err(fault) => return refused(alloc, db, Refusal::Csv(relation, fault)),
    };
    let records = rows.len() as u64;
    let room = Room::new(alloc)?;
    match db.load(relation, rows) {
        Ok(count) => Ok(accepted(room.loaded(count, records))),
        Err(LoadEnd::Refused(fault)) => refused(alloc, db, Refusal::Record(fault)),
        Err(LoadEnd::NoMemory) => Err(NoMemory),
    }
}
