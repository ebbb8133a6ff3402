//! The file at a path.
ghost use Rattle.std.specs.Prelude.{◌≡◌, IfOk};
ghost use Rattle.sqlite_wal.specs.Files.{image_at};
ghost use Rattle.su_keep.specs.Kept.{HasCleanDisk, IsAt};
ghost use Rattle.su_keep.specs.Opened.{IsFoundIn};

use crate::faults::{OpenFault, files_fault};
use crate::keeping::Keeper;
use crate::opening::open_over;
use sqlite_std_file::{FileFrom, Start};
use sqlite_store::FileStore;
use std::hash::{BuildHasher, RandomState};
use su_state::Database;

/// Opens the file at the path as a database. A missing or an empty file is a new one: there is no
/// database in it until a first group is kept. `start` stands for what the files hold, and how a crash
/// is read.
pub fn open<S: Start>(
    rt: &HostRuntime,
    path: &str,
    start: S,
) -> Result<(Keeper<FileStore<FileFrom<S>>>, Option<Database>), OpenFault>
    ensures at { IfOk result (λ it. HasCleanDisk it.0 → IsAt it.0 it.1) }
    ensures found { IfOk result (λ it. HasCleanDisk it.0 → IsFoundIn (image_at S.Start) it.1) }
{
    let seed = match RandomState::new(rt) {
        Ok(state) => state.hash_one(&0u8),
        Err(_) => return Err(OpenFault::Io),
    };
    let files = match sqlite_std_file::open(rt, path, start) {
        Ok(files) => files,
        Err(error) => return Err(files_fault(error)),
    };
    match open_over(rt.alloc(), files, seed) {
        Ok(opened) => Ok(opened),
        Err(refusal) => Err(refusal.fault),
    }
}
