//! What is left of the files where an open is refused.
ghost use Rattle.std.specs.Prelude.{◌≡◌};
ghost use Rattle.su_keep.specs.Opened.{files_left};

use crate::faults::OpenFault;
use sqlite_disk::{Disk, Files};
use sqlite_store::{FileStore, Unopened};

/// The files, as far as the open came.
pub enum Leftover<D: Disk> {
    Files(Files<D>),
    Unopened(Unopened<D>),
    Store(FileStore<D>),
}

impl<D: Disk + Drop> Drop for Leftover<D> {
    fn drop(self) {
        match self {
            Leftover::Files(_files) => {}
            Leftover::Unopened(_files) => {}
            Leftover::Store(_store) => {}
        }
    }
}

impl<D: Disk> Leftover<D> {
    /// Gives the log and the file back, with no IO.
    pub fn into_files(self) -> Files<D>
        ensures { (result.log, result.db) ≡ files_left self }
    {
        match self {
            Leftover::Files(files) => files,
            Leftover::Unopened(files) => files.close(),
            Leftover::Store(store) => store.close(),
        }
    }
}

/// Why an open is refused, and what is left of the files.
#[derive(Drop)]
pub struct Refusal<D: Disk> {
    pub fault: OpenFault,
    pub left: Leftover<D>,
}
