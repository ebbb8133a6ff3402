//! The check of a certificate.
ghost use Rattle.std.specs.Prelude.{◌≡◌, ◌≢◌};
ghost use Rattle.su_io.specs.Moments.{Moment};
ghost use Rattle.sysu.specs.inside.Lines.{LineEnds};
ghost use Rattle.su_show.specs.Verdicts.{verdict_line};
ghost use Rattle.sysu.specs.Checks.{CheckEnds, status_by};

use std::alloc::Global;
use su_base::Str;
use su_check::{Checked, check};
use su_io::{Outside, Shelf, Sink, Status};
use su_show::verdict;

/// How many bytes a certificate may have.
const CHECK_LIMIT: u64 = 1 << 24;

/// The status that a verdict is told with.
fn status_of(checked: &Checked) -> Status
    ensures by { result ≡ status_by checked.now }
    ensures own { result ≢ Status.WriteFault }
{
    match checked {
        Checked::Yes { .. } => Status::Done,
        Checked::No(_) => Status::SomeRefused,
    }
}

/// Writes the line of a verdict.
fn tell_verdict<H: Shelf, K: Sink>(
    alloc: Global,
    checked: Checked,
    outside: &mut Outside<H, K>,
) -> Status
    ensures { LineEnds (verdict_line checked) (status_by checked) outside.old outside.new result }
{
    let status = status_of(&checked);
    match verdict(alloc, checked) {
        Ok(line) => outside.tell(line.as_slice(), status),
        Err(_) => Status::NoMemory,
    }
}

/// Reads the file and tells the verdict on it.
fn check_named<H: Shelf, K: Sink>(alloc: Global, file: Str, outside: &mut Outside<H, K>) -> Status
    ensures files { outside.new.files ≡ outside.old.files }
    ensures ends { CheckEnds file outside.old outside.new result }
{
    let bytes = match outside.read(alloc, file, CHECK_LIMIT) {
        Ok(bytes) => bytes,
        Err(status) => return status,
    };
    match check(alloc, bytes.as_slice()) {
        Ok(checked) => tell_verdict(alloc, checked, outside),
        Err(_) => Status::NoMemory,
    }
}

/// The check of the certificate in the file.
pub(crate) fn check_file<H: Shelf, K: Sink>(
    alloc: Global,
    file: &Str,
    outside: &mut Outside<H, K>,
) -> Status
    ensures files { outside.new.files ≡ outside.old.files }
    ensures ends { CheckEnds file.now outside.old outside.new result }
{
    match file.copy(alloc) {
        Ok(name) => check_named(alloc, name, outside),
        Err(_) => Status::NoMemory,
    }
}
