//! The run of the program over any shelf and sink.
ghost use Rattle.std.specs.Prelude.{◌≡◌};
ghost use Rattle.su_io.specs.HandOver.{EndsHandedOver};
ghost use Rattle.su_io.specs.Moments.{Moment};
ghost use Rattle.sysu_draw.specs.Ends.{Comes, DrawingEnds, FlagEnds, asks_kept};

use crate::replying::{draw_text, tell_usage};
use std::alloc::Global;
use su_base::Str;
use su_io::{Outside, Shelf, Sink, Status};

/// How many bytes a text may have.
const LIMIT: u64 = 1 << 24;

/// Draws the file's text, or of it the kept rows alone.
fn draw_file<H: Shelf, K: Sink>(
    alloc: Global,
    kept: bool,
    path: Str,
    outside: &mut Outside<H, K>,
) -> Status
    ensures files { outside.new.files ≡ outside.old.files }
    ensures ends { DrawingEnds kept path outside.old outside.new result }
{
    match outside.read(alloc, path, LIMIT) {
        Ok(text) => draw_text(alloc, kept, text.as_slice(), outside),
        Err(status) => status,
    }
}

/// Draws the file whose path this word is.
fn draw_path<H: Shelf, K: Sink>(
    alloc: Global,
    kept: bool,
    path: &Str,
    outside: &mut Outside<H, K>,
) -> Status
    ensures files { outside.new.files ≡ outside.old.files }
    ensures ends { DrawingEnds kept path.now outside.old outside.new result }
{
    match path.copy(alloc) {
        Ok(path) => draw_file(alloc, kept, path, outside),
        Err(_) => Status::NoMemory,
    }
}

/// Whether the word asks for kept rows alone.
fn is_flag(word: &Str) -> bool
    ensures { result ≡ asks_kept word.now }
{
    word.as_str().as_bytes() == "--kept".as_bytes()
}

/// Draws the kept rows of the file's text, where the word before its path asks for them.
fn draw_flagged<H: Shelf, K: Sink>(
    alloc: Global,
    flag: &Str,
    path: &Str,
    outside: &mut Outside<H, K>,
) -> Status
    ensures files { outside.new.files ≡ outside.old.files }
    ensures ends { FlagEnds (asks_kept flag.now) path.now outside.old outside.new result }
{
    if is_flag(flag) {
        return draw_path(alloc, true, path, outside);
    }
    tell_usage(outside)
}

/// What the words ask for, up to the hand-over at the end.
fn run_words<H: Shelf, K: Sink>(alloc: Global, words: &[Str], outside: &mut Outside<H, K>) -> Status
    ensures files { outside.new.files ≡ outside.old.files }
    ensures comes { Comes words.now outside.old outside.new result }
{
    match words {
        [path] => draw_path(alloc, false, path, outside),
        [flag, path] => draw_flagged(alloc, flag, path, outside),
        _ => tell_usage(outside),
    }
}

/// The whole program over any shelf and sink. The last word is the path of a file, which holds what `sysu`
/// writes for `schema` or for `explain`; `--kept` may stand before it, and then only kept rows are drawn;
/// for any other words the usage line is written. The file is read whole before anything is written. In the end the sink hands over
/// what it holds back, where the file was read and no write failed; where that fails the status is 5. So with any other
/// status all that was written is over.
pub fn run<H: Shelf, K: Sink>(alloc: Global, words: &[Str], outside: &mut Outside<H, K>) -> Status
    ensures files { outside.new.files ≡ outside.old.files }
    ensures ends { EndsHandedOver (Comes words.now) outside.old outside.new result }
{
    let came = run_words(alloc, words, outside);
    outside.hand_over(came)
}
