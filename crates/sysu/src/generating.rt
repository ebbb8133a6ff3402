//! The generator: what is told of a bank with so many rows in each relation.
ghost use Rattle.std.specs.Prelude.{◌≡◌, ◌≤◌, ℕ, MatchOption};
ghost use Rattle.su_io.specs.Moments.{Moment};
ghost use Rattle.sysu.specs.Banks.{BankEnds};
ghost use Rattle.sysu.specs.Words.{Generates};

use std::alloc::Global;
use std::thread::Threads;
use su_bank::{bank_text, row_count};
use su_base::Str;
use su_io::{Outside, Shelf, Sink, Status};
use su_par::Gate;

/// How many rows the words ask for, where they are `generate N`.
pub(crate) fn rows_asked(words: &[Str]) -> Option<u32>
    ensures { MatchOption result ((n : ℕ) → ¬ Generates words.now n) (Generates words.now) }
{
    match words {
        [word, digits] if word.as_str() == "generate" => row_count(digits.as_str()),
        _ => None,
    }
}

/// Makes a bank with n rows in each relation, and writes by one whole write how many terms, kept terms
/// and rows each of four queries has in it.
pub(crate) fn generate<R: Threads + Sync, H: Shelf, K: Sink, G: Gate>(
    rt: &R,
    alloc: Global,
    n: u32,
    outside: &mut Outside<H, K>,
    gate: &G,
) -> Status
    requires { n ≤ 1000 }
    ensures files { outside.new.files ≡ outside.old.files }
    ensures ends { BankEnds n outside.old outside.new result }
{
    match bank_text(rt, alloc, n, gate) {
        Ok(text) => outside.tell(text.as_slice(), Status::Done),
        Err(_) => Status::NoMemory,
    }
}
