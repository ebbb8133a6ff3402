//! Where the database of a talk is kept.
ghost use Rattle.std.specs.Prelude.{◌≡◌, ◌⊎◌, true, false, OnOk, OnErr, IsErr, IsTrue, ⊤};
ghost use Rattle.sqlite_store.specs.FileStore.{log_frames, HasSpilled};
ghost use Rattle.su_state.specs.DatabaseValue.{DatabaseValue};
ghost use Rattle.su_talk.specs.Keeping.{LeadFromKept, KeepsAsBefore};
ghost use Rattle.sysu_shell.specs.Keeping.{IsKept};

use sqlite_std_file::File;
use sqlite_store::FileStore;
use su_base::List;
use su_changes::Change;
use su_io::Failed;
use su_keep::Keeper;
use su_state::Database;

/// The file that keeps a database.
pub type OpenFile = Keeper<FileStore<File>>;

/// Where a database is kept.
pub trait Home {
    /// Whether this database is kept here.
    ghost keeps: { Self → DatabaseValue → Type 0 };

    /// Whether nothing is kept any more: a change wasn't.
    ghost is_shut: { Self → Type 0 };

    /// What settling makes of it.
    ghost settles: { Self → Self → Type 0 };

    /// Keeps the changes that lead to the database, in one commit.
    fn keep(&mut self, db: &Database, changes: List<Change>) -> Result<(), Failed>
        requires { LeadFromKept (keeps self.old) changes db.now }
        ensures kept { OnOk result (keeps self.new db.now) }
        ensures either { OnErr result (is_shut self.new ⊎ KeepsAsBefore (keeps self.old) (keeps self.new)) }
        ensures shut { is_shut self.old → IsErr result × is_shut self.new };

    /// Brings what is kept to where it stands alone; whether it could.
    fn settle(&mut self) -> bool
        ensures keeps { result ≡ true → KeepsAsBefore (keeps self.old) (keeps self.new) }
        ensures settled { result ≡ true → settles self.old self.new }
        ensures shut { result ≡ false → is_shut self.new };
}

/// Nothing is kept beyond the talk.
#[derive(Drop)]
pub struct Memory;

impl Home for Memory {
    ghost keeps = { λ m db. ⊤ };

    ghost is_shut = { λ m. ⊥ };

    ghost settles = { λ old new. ⊤ };

    fn keep(&mut self, _db: &Database, _changes: List<Change>) -> Result<(), Failed> {
        Ok(())
    }

    fn settle(&mut self) -> bool {
        true
    }
}

impl Home for OpenFile {
    /// The database that the file shows, where its disk answers what was written.
    ghost keeps = { λ keeper db. IsKept keeper db };

    ghost is_shut = { λ keeper. IsTrue keeper.has_failed };

    /// What was kept stands in the file, and nothing of it in the log.
    ghost settles = { λ old new. ¬ (HasSpilled old.store) → log_frames new.store ≡ 0 };

    fn keep(&mut self, db: &Database, changes: List<Change>) -> Result<(), Failed> {
        match Keeper::keep(self, db, changes) {
            Ok(()) => Ok(()),
            Err(_) => Err(Failed),
        }
    }

    fn settle(&mut self) -> bool {
        match self.checkpoint() {
            Ok(()) => true,
            Err(_) => false,
        }
    }
}
