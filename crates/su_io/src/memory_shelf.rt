//! A shelf in memory, some of whose calls fail.
ghost use Rattle.std.specs.Prelude.{min, ◌-◌, take, ◌++◌, OnOk, OnErr, option_map, is_err, IsErr, ◌⊎◌, ◌≡◌, ◌≤◌, ◌<◌, ◌^◌, drop, length, Some, None, false, true, IsTrue, ◌↔◌, Contains, IfSome, IfNone, [], IsSome, IfOk, ◌+◌};
ghost use Rattle.std.specs.Io.{ReadsAtMost};
ghost use Rattle.std.specs.Io.KnownBytes.{ReadConsumes};
ghost use Rattle.su_io.specs.Causes.{HasCause, Rose};
ghost use Rattle.su_io.specs.Files.{contents, has_file, bytes_at, left};

use crate::pieces::{find, rest_of, take_front};
use crate::{Failed, File, Shelf};
use su_base::{List, Str};

/// Files in memory. Calls are numbered from 0; those whose numbers were given fail, and so does the
/// `begin` of a name that no file has.
#[derive(Drop)]
pub struct MemoryShelf {
    files: List<File>,
    fails: List<u64>,
    piece: usize,
    calls: u64,
    faults: u64,
    place: usize,
    taken: usize,
    begun: Option<Str>,
    failed: bool,
    ghost positive: { 1 ≤ piece },
    ghost within: { taken ≤ length (bytes_at files place) },
}

impl MemoryShelf {
    /// The calls whose numbers, from 0, are in `fails` fail. A read takes at most `piece` bytes.
    pub fn new(files: List<File>, fails: List<u64>, piece: usize) -> MemoryShelf
        requires { 1 ≤ piece }
        ensures files { result.files ≡ files }
        ensures fails { result.fails ≡ fails }
        ensures piece { result.piece ≡ piece }
        ensures calls { result.calls ≡ 0 }
        ensures faults { result.faults ≡ 0 }
        ensures begun { result.begun ≡ None }
        ensures taken { result.taken ≡ 0 }
        ensures rest { bytes_at files result.place ≡ [] }
        ensures failed { result.failed ≡ false }
    {
        let place = files.len();
        MemoryShelf {
            files,
            fails,
            piece,
            calls: 0,
            faults: 0,
            place,
            taken: 0,
            begun: None,
            failed: false,
        }
    }

    /// The name that was begun last, whether or not it was accepted.
    pub fn begun(&self) -> Option<&Str>
        ensures { option_map (λ name. name.now) result ≡ self.now.begun }
    {
        self.begun.as_ref()
    }
}

impl MemoryShelf {
    /// Counts a fault.
    fn refuse(&mut self) -> Failed
        ensures rest { self.new ≡ record self.old { faults = self.new.faults; failed = true } }
        ensures later { self.old.faults ≤ self.new.faults }
        ensures rose { Rose self.old.faults self.new.faults }
    {
        self.faults = self.faults.saturating_add(1);
        self.failed = true;
        Failed
    }
}

impl Shelf for MemoryShelf {
    ghost files = { λ s. Some s.files };

    ghost rest = { λ s. left s.files s.place s.taken };

    ghost taken = { λ s. s.taken };

    ghost begun = { λ s. s.begun };

    ghost failed = { λ s. s.failed };

    ghost faults = { λ s. s.faults };

    /// The trait's clauses, and when the call fails.
    fn begin(&mut self, name: Str) -> Result<(), Failed>
        ensures files { self.new.files ≡ self.old.files }
        ensures begun { self.new.begun ≡ Some name }
        ensures rest { OnOk result (drop self.new.taken (bytes_at self.new.files self.new.place) ≡ contents self.old.files name) }
        ensures taken { OnOk result (self.new.taken ≡ 0) }
        ensures kept { OnErr result ((self.new.place ≡ self.old.place) × (self.new.taken ≡ self.old.taken)) }
        ensures failed { self.new.failed ≡ is_err result }
        ensures cause { HasCause self.old.faults self.new.faults result }
        ensures when { IsErr result ↔ Contains self.old.fails self.old.calls ⊎ (has_file self.old.files name ≡ false) }
        ensures counted { self.new.calls ≡ min (self.old.calls + 1) (2 ^ 64 - 1) }
        ensures settings { (self.new.fails ≡ self.old.fails) × (self.new.piece ≡ self.old.piece) }
    {
        let due = self.fails.as_slice().contains(&self.calls);
        let found = find(self.files.as_slice(), &name);
        self.calls = self.calls.saturating_add(1);
        self.begun = Some(name);
        if due {
            return Err(self.refuse());
        }
        match found {
            Some(place) => {
                self.place = place;
                self.taken = 0;
                self.failed = false;
                Ok(())
            }
            None => Err(self.refuse()),
        }
    }

    /// The trait's clauses, when the call fails, and how much it takes.
    fn read(&mut self, buf: &mut [u8]) -> Result<usize, Failed>
        ensures files { self.new.files ≡ self.old.files }
        ensures begun { self.new.begun ≡ self.old.begun }
        ensures bound { ReadsAtMost result buf.new }
        ensures bytes { ReadConsumes (left self.old.files self.old.place self.old.taken) (left self.new.files self.new.place self.new.taken) result buf.new }
        ensures taken { IfOk result (λ count. self.new.taken ≡ self.old.taken + count) }
        ensures kept { OnErr result ((self.new.place ≡ self.old.place) × (self.new.taken ≡ self.old.taken)) }
        ensures failed { self.new.failed ≡ is_err result }
        ensures cause { HasCause self.old.faults self.new.faults result }
        ensures when { IsErr result ↔ Contains self.old.fails self.old.calls }
        ensures counted { self.new.calls ≡ min (self.old.calls + 1) (2 ^ 64 - 1) }
        ensures piece { IfOk result (λ count. count ≤ self.old.piece) }
        ensures settings { (self.new.fails ≡ self.old.fails) × (self.new.piece ≡ self.old.piece) }
    {
        let due = self.fails.as_slice().contains(&self.calls);
        self.calls = self.calls.saturating_add(1);
        if due {
            return Err(self.refuse());
        }
        self.failed = false;
        let rest = rest_of(self.files.as_slice(), self.place, self.taken);
        let count = take_front(rest, buf, self.piece);
        self.taken += count;
        Ok(count)
    }
}
