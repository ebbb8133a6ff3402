//! What a run writes.
ghost use Rattle.std.specs.Prelude.{◌≡◌, ◌≢◌, IfOk};
ghost use Rattle.su_io.specs.Moments.{Moment};
ghost use Rattle.su_io.specs.Programs.{UsageEnds};
ghost use Rattle.sysu_place.specs.Replies.{TellsOf, status_by};
ghost use Rattle.sysu_place.specs.Words.{usage_line};
ghost use Rattle.sysu_place.specs.inside.Tellings.{FoundEnds, ReplyEnds};

use crate::lines::reply;
use crate::words::Forms;
use std::alloc::Global;
use su_base::NoMemory;
use su_faults::{Fault, definition_fault, script_fault, statement_fault};
use su_io::{Outside, Shelf, Sink, Status};

const USAGE: &str = "usage: sysu_place schema|script|statement FILE\n";

/// Writes the usage line.
pub(crate) fn tell_usage<H: Shelf, K: Sink>(outside: &mut Outside<H, K>) -> Status
    ensures files { outside.new.files ≡ outside.old.files }
    ensures ends { UsageEnds usage_line outside.old outside.new result }
{
    outside.tell(USAGE.as_bytes(), Status::Usage)
}

/// Where the text goes wrong; none where it has one of these forms.
fn fault_of(alloc: Global, forms: Forms, text: &[u8]) -> Result<Option<Fault>, NoMemory>
    ensures { IfOk result (TellsOf forms text.now) }
{
    match forms {
        Forms::Definitions => definition_fault(alloc, text),
        Forms::Either => script_fault(alloc, text),
        Forms::Statements => statement_fault(alloc, text),
    }
}

/// The status with which it is told.
fn status_of(found: &Option<Fault>) -> Status
    ensures by { result ≡ status_by found.now }
    ensures own { result ≢ Status.WriteFault }
{
    match found {
        None => Status::Done,
        Some(_) => Status::SomeRefused,
    }
}

/// Writes what was found.
fn tell_found<H: Shelf, K: Sink>(
    alloc: Global,
    found: Option<Fault>,
    outside: &mut Outside<H, K>,
) -> Status
    ensures { FoundEnds found outside.old outside.new result }
{
    let status = status_of(&found);
    match reply(alloc, &found) {
        Ok(bytes) => outside.tell(bytes.as_slice(), status),
        Err(NoMemory) => Status::NoMemory,
    }
}

/// Writes where the text goes wrong, or that it is whole.
pub(crate) fn tell_place<H: Shelf, K: Sink>(
    alloc: Global,
    forms: Forms,
    text: &[u8],
    outside: &mut Outside<H, K>,
) -> Status
    ensures { ReplyEnds forms text.now outside.old outside.new result }
{
    match fault_of(alloc, forms, text) {
        Ok(found) => tell_found(alloc, found, outside),
        Err(NoMemory) => Status::NoMemory,
    }
}
