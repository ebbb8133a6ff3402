//! Whom a program talks with.
ghost use Rattle.std.specs.Prelude.{◌≡◌, ◌⊎◌, ◌<◌, ◌^◌, List as Items, [], ◌∷◌, Option, take, IfOk, OnOk, OnErr, IsErr, length};
ghost use Rattle.std.specs.Io.{ReadsAtMost};
ghost use Rattle.su_io.specs.declared.files.File.{File};
ghost use Rattle.su_io.specs.Ends.{Grew, Stays};
ghost use Rattle.su_io.specs.FileEnds.{IsFile, IsOver};
ghost use Rattle.su_state.specs.DatabaseValue.{DatabaseValue};
ghost use Rattle.su_talk.specs.Answers.{IsThere, IsMissing};
ghost use Rattle.su_talk.specs.Events.{Event};
ghost use Rattle.su_talk.specs.Events.Event.{Asked, Came, NotRead, Kept, NotKept, Told, NotTold};
ghost use Rattle.su_talk.specs.Keeping.{LeadFromKept, KeepsAsBefore};

use std::alloc::Global;
use su_base::{List, Str};
use su_changes::Change;
use su_io::{Failed, ReadEnd};
use su_state::Database;

/// Input and output, the files of loads, and what keeps the database: one order of events.
///
/// No call changes the files of loads. What happened before is told after a call too, if anything is.
pub trait Company {
    /// The files of loads, where they are told.
    ghost files: { Self → Option (Items File) };

    /// What has happened, in order, where it is told.
    ghost events: { Self → Option (Items Event) };

    /// Whether this database is kept.
    ghost keeps: { Self → DatabaseValue → Type 0 };

    /// Whether nothing is kept any more, as a change couldn't be: what it keeps then has to be opened anew.
    ghost is_shut: { Self → Type 0 };

    /// Asks for input: some bytes, at the front of the buffer, or none at the end of the input.
    fn ask(&mut self, buf: &mut [u8]) -> Result<usize, Failed>
        requires { 0 < length buf.old }
        ensures files { files self.new ≡ files self.old }
        ensures keeps { KeepsAsBefore (keeps self.old) (keeps self.new) }
        ensures bound { ReadsAtMost result buf.new }
        ensures came { IfOk result (λ count. Grew (events self.old) (events self.new) (Asked ∷ Came (take count buf.new) ∷ [])) }
        ensures failed { OnErr result (Grew (events self.old) (events self.new) (Asked ∷ NotRead ∷ [])) };

    /// The file of a load, where it has at most `limit` bytes. It fails where no such file is there.
    fn file(&mut self, alloc: Global, path: Str, limit: u64) -> Result<List<u8>, ReadEnd>
        requires { limit < 2 ^ 40 }
        ensures files { files self.new ≡ files self.old }
        ensures keeps { KeepsAsBefore (keeps self.old) (keeps self.new) }
        ensures events { Stays (events self.old) (events self.new) }
        ensures file { IfOk result (λ bytes. IsThere (files self.old) path × IsFile (files self.old) path limit bytes) }
        ensures over { result ≡ Err ReadEnd.TooLong → IsThere (files self.old) path × IsOver (files self.old) path limit }
        ensures missing { result ≡ Err ReadEnd.Failed → IsMissing (files self.old) path };

    /// Keeps what a group changed, in one commit. `db` is the database after it. Where that fails, nothing
    /// is kept any more, or what was kept, or `db`.
    fn keep(&mut self, db: &Database, changes: List<Change>) -> Result<(), Failed>
        requires { LeadFromKept (keeps self.old) changes db.now }
        ensures files { files self.new ≡ files self.old }
        ensures kept { OnOk result (keeps self.new db.now) }
        ensures either { OnErr result (is_shut self.new ⊎ ((before : DatabaseValue) → keeps self.old before → keeps self.new before ⊎ keeps self.new db.now)) }
        ensures shut { is_shut self.old → IsErr result × is_shut self.new }
        ensures event { OnOk result (Grew (events self.old) (events self.new) (Kept db.now ∷ [])) }
        ensures failed { OnErr result (Grew (events self.old) (events self.new) (NotKept db.now ∷ [])) };

    /// Hands a text over, whole. Where that fails, a front of it may have been handed over.
    fn tell(&mut self, text: &[u8]) -> Result<(), Failed>
        ensures files { files self.new ≡ files self.old }
        ensures keeps { KeepsAsBefore (keeps self.old) (keeps self.new) }
        ensures told { OnOk result (Grew (events self.old) (events self.new) (Told text.now ∷ [])) }
        ensures failed { OnErr result (Grew (events self.old) (events self.new) (NotTold text.now ∷ [])) };
}
