//! The file is copied whole, and given back.
ghost use Rattle.std.specs.Prelude.{◌≡◌, IfErr, OnErr, OnOk, IsTrue, Option as Maybe};
ghost use Rattle.sqlite_trees.specs.Tree.{Trees};
ghost use Rattle.sqlite_trees.specs.View.{IsClean};
ghost use Rattle.sqlite_store.specs.FileStore.{files, recovers, log_frames, HasSpilled};
ghost use Rattle.su_state.specs.DatabaseValue.{DatabaseValue};
ghost use Rattle.su_keep.specs.Causes.{HasKeepCause};
ghost use Rattle.su_keep.specs.Kept.{HasCleanDisk, HasMoreFaults, IsAt};

use crate::faults::KeepFault;
use crate::keeping::Keeper;
use sqlite_disk::{Disk, Files};
use sqlite_store::FileStore;

impl<D: Disk + Drop> Keeper<FileStore<D>> {
    /// Gives the log and the file back, with no IO.
    pub fn into_files(self) -> Files<D>
        ensures { (result.log, result.db) ≡ files self.store }
    {
        let Keeper {
            alloc: _,
            store,
            relations: _,
            text: _,
            entry: _,
            has_failed: _,
        } = self;
        store.close()
    }

    /// Copies what was kept into the one file, so that it stands there alone. After a fault nothing is
    /// kept any more, and all that was kept is in the two files.
    pub fn checkpoint(&mut self) -> Result<(), KeepFault>
        ensures same { (kept : Maybe DatabaseValue) → IsAt self.old kept → OnOk result (HasCleanDisk self.new → IsAt self.new kept) }
        ensures outcomes { (trees : Trees) → recovers self.new.store trees → recovers self.old.store trees }
        ensures moved { OnOk result (¬ HasSpilled self.old.store → log_frames self.new.store ≡ 0) }
        ensures clean { HasCleanDisk self.new → HasCleanDisk self.old }
        ensures kept { OnOk result (self.new.has_failed ≡ self.old.has_failed) }
        ensures fails { OnErr result (IsTrue self.new.has_failed) }
        ensures cause { IfErr result (λ fault. HasCleanDisk self.new → HasKeepCause (HasMoreFaults self.old self.new) fault) }
    {
        match self.store.checkpoint() {
            Ok(()) => Ok(()),
            Err(error) => {
                self.has_failed = true;
                Err(KeepFault::from(error))
            }
        }
    }
}
