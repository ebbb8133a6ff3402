//! The whole report.
ghost use Rattle.std.specs.Prelude.{◌≡◌, ◌<◌, ◌≤◌, IfOk};
ghost use Rattle.su_report.specs.Report.{IsReport};

use crate::loose_ends::push_loose_ends;
use crate::maximal_parts::push_all_maximal;
use crate::notes::push_notes;
use crate::pair_parts::push_pairs;
use std::alloc::Global;
use su_advise::object_sets;
use su_base::{List, NoMemory};
use su_maxobj::maximal_objects;
use su_schema::Schema;

/// The lines of a schema's findings, and whether one of them is a fault.
#[derive(Drop)]
pub struct Report {
    pub fault: bool,
    pub bytes: List<u8>,
}

/// The report on the schema. Each finding is told exactly where its definition says.
pub fn report_on(alloc: Global, schema: &Schema) -> Result<Report, NoMemory>
    ensures { IfOk result (IsReport schema.now) }
{
    schema.keeps_its_rules();
    let objects = object_sets(alloc, schema)?;
    let maximal = maximal_objects(alloc, schema)?;
    let mut out = Vec::new(alloc);
    let loose = push_loose_ends(alloc, &mut out, schema, objects.as_slice())?;
    push_notes(
        alloc,
        &mut out,
        schema,
        objects.as_slice(),
        maximal.as_slice(),
    )?;
    let cycles = push_all_maximal(
        alloc,
        &mut out,
        schema,
        objects.as_slice(),
        maximal.as_slice(),
    )?;
    push_pairs(
        alloc,
        &mut out,
        schema,
        objects.as_slice(),
        maximal.as_slice(),
    )?;
    Ok(Report {
        fault: loose | cycles,
        bytes: List::from_vec(out),
    })
}
