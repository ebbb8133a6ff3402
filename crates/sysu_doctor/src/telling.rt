//! What a run writes.
ghost use Rattle.std.specs.Prelude.{◌≡◌, ◌≢◌};
ghost use Rattle.su_io.specs.Moments.{Moment};
ghost use Rattle.su_io.specs.Programs.{UsageEnds};
ghost use Rattle.sysu_doctor.specs.inside.Tellings.{ReportEnds, status_by};
ghost use Rattle.sysu_doctor.specs.Words.{usage_line};

use crate::findings::Findings;
use std::alloc::Global;
use su_io::{Outside, Shelf, Sink, Status};
use su_report::report_on;
use su_schema::Schema;

const USAGE: &str = "usage: sysu_doctor SCHEMA [SCRIPT]\n";

/// Writes the usage line.
pub(crate) fn tell_usage<H: Shelf, K: Sink>(outside: &mut Outside<H, K>) -> Status
    ensures files { outside.new.files ≡ outside.old.files }
    ensures ends { UsageEnds usage_line outside.old outside.new result }
{
    outside.tell(USAGE.as_bytes(), Status::Usage)
}

/// The status of a run, by whether there is a fault or a refused statement.
fn status_of(ill: bool) -> Status
    ensures by { result ≡ status_by ill }
    ensures own { result ≢ Status.WriteFault }
{
    if ill {
        return Status::SomeRefused;
    }
    Status::Done
}

/// Writes what was found, and behind it the report on the schema.
pub(crate) fn tell_report<H: Shelf, K: Sink>(
    alloc: Global,
    schema: &Schema,
    mut found: Findings,
    outside: &mut Outside<H, K>,
) -> Status
    ensures { ReportEnds schema.now found outside.old outside.new result }
{
    let Ok(report) = report_on(alloc, schema) else {
        return Status::NoMemory;
    };
    let Ok(()) = found.add(report.fault, report.bytes) else {
        return Status::NoMemory;
    };
    outside.tell(found.lines.as_slice(), status_of(found.fault))
}
