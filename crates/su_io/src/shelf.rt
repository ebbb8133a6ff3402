//! Where files are read from.
ghost use Rattle.std.specs.Prelude.{◌≡◌, ◌+◌, ◌<◌, ◌≤◌, ℕ, Bool, List, Option, Some, option_map, is_err, take, drop, length, OnOk, OnErr, IfOk};
ghost use Rattle.std.specs.Io.{ReadsAtMost};
ghost use Rattle.std.specs.Io.KnownBytes.{ReadConsumes};
ghost use Rattle.su_io.specs.declared.files.File.{File};
ghost use Rattle.su_io.specs.Causes.{HasCause};
ghost use Rattle.su_io.specs.Files.{contents};

use crate::Failed;
use su_base::Str;

/// A shelf of files, of which one is read at a time.
///
/// No call changes the files or whether they are told, and none lowers the count of faults. A count
/// that stands at the end of its type, 2^64 - 1, stays there.
pub trait Shelf {
    /// The files, where they are told.
    ghost files: { Self → Option (List File) };

    /// What is left of the file begun, where it is told.
    ghost rest: { Self → Option (List ℕ) };

    /// How many bytes were taken since the last accepted `begin`.
    ghost taken: { Self → ℕ };

    /// The name last handed to `begin`, whether or not it was accepted.
    ghost begun: { Self → Option (List ℕ) };

    /// Whether the last call failed.
    ghost failed: { Self → Bool };

    /// How often the shelf has failed.
    ghost faults: { Self → ℕ };

    /// Begins the first file of a name.
    fn begin(&mut self, name: Str) -> Result<(), Failed>
        ensures files { files self.new ≡ files self.old }
        ensures begun { begun self.new ≡ Some name }
        ensures rest { OnOk result (rest self.new ≡ option_map (λ all. contents all name) (files self.old)) }
        ensures taken { OnOk result (taken self.new ≡ 0) }
        ensures kept { OnErr result ((rest self.new ≡ rest self.old) × (taken self.new ≡ taken self.old)) }
        ensures failed { failed self.new ≡ is_err result }
        ensures cause { HasCause (faults self.old) (faults self.new) result };

    /// Takes the next bytes into the front of `buf`. None for a buffer that isn't empty is the end of the file.
    fn read(&mut self, buf: &mut [u8]) -> Result<usize, Failed>
        ensures files { files self.new ≡ files self.old }
        ensures begun { begun self.new ≡ begun self.old }
        ensures bound { ReadsAtMost result buf.new }
        ensures bytes { ReadConsumes (rest self.old) (rest self.new) result buf.new }
        ensures taken { IfOk result (λ count. taken self.new ≡ taken self.old + count) }
        ensures kept { OnErr result ((rest self.new ≡ rest self.old) × (taken self.new ≡ taken self.old)) }
        ensures failed { failed self.new ≡ is_err result }
        ensures cause { HasCause (faults self.old) (faults self.new) result };
}
