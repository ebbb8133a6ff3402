//! The run of the program over any shelf and sink.
ghost use Rattle.std.specs.Prelude.{◌≡◌};
ghost use Rattle.su_io.specs.HandOver.{EndsHandedOver};
ghost use Rattle.su_io.specs.Moments.{Moment};
ghost use Rattle.sysu_place.specs.Ends.{Comes, PlaceEnds};

use crate::telling::{tell_place, tell_usage};
use crate::words::{Forms, asked_of};
use std::alloc::Global;
use su_base::Str;
use su_io::{Outside, Shelf, Sink, Status};

/// How many bytes a text may have.
const LIMIT: u64 = 1 << 24;

/// Tells where the file's text goes wrong.
fn place_file<H: Shelf, K: Sink>(
    alloc: Global,
    forms: Forms,
    path: Str,
    outside: &mut Outside<H, K>,
) -> Status
    ensures files { outside.new.files ≡ outside.old.files }
    ensures ends { PlaceEnds (record { forms = forms; path = path }) outside.old outside.new result }
{
    match outside.read(alloc, path, LIMIT) {
        Ok(text) => tell_place(alloc, forms, text.as_slice(), outside),
        Err(status) => status,
    }
}

/// What the words ask for, up to the hand-over at the end.
fn run_words<H: Shelf, K: Sink>(alloc: Global, words: &[Str], outside: &mut Outside<H, K>) -> Status
    ensures files { outside.new.files ≡ outside.old.files }
    ensures comes { Comes words.now outside.old outside.new result }
{
    let Some(asked) = asked_of(words) else {
        return tell_usage(outside);
    };
    let Ok(path) = asked.path.copy(alloc) else {
        return Status::NoMemory;
    };
    place_file(alloc, asked.forms, path, outside)
}

/// The whole program over any shelf and sink. The words, without the program's name, are `schema`,
/// `script` or `statement`, and the path of a file; for any others the usage line is written. The file holds the
/// text of one statement, as it stands between two `;`: of a schema file, of a script, or of a script without
/// definitions. It is read whole before anything is written: `whole` where it has a form, else the place where it
/// goes wrong, counted in bytes from 0, and the kinds of token that could have stood there. In the end the sink
/// hands over what it holds back, where the file was read and no write failed; where that fails the status is 5.
/// So with any other status all that was written is over.
pub fn run<H: Shelf, K: Sink>(alloc: Global, words: &[Str], outside: &mut Outside<H, K>) -> Status
    ensures files { outside.new.files ≡ outside.old.files }
    ensures ends { EndsHandedOver (Comes words.now) outside.old outside.new result }
{
    let came = run_words(alloc, words, outside);
    outside.hand_over(came)
}
