//! The files of the system: the trusted edge, which tells nothing of content.
ghost use Rattle.std.specs.Prelude.{◌≡◌, Some, None, false};

use crate::{Failed, Shelf};
use std::fs;
use std::io::Read;
use su_base::Str;

/// The files of the system by their paths. A missing file is a failure, and so is want of memory that
/// the system reports.
#[derive(Drop)]
pub struct FileShelf {
    rt: HostRuntime,
    file: Option<fs::File>,
    taken: u64,
    begun: Option<Str>,
    failed: bool,
    faults: u64,
}

impl FileShelf {
    /// A shelf on which no file is begun.
    pub fn new(rt: HostRuntime) -> FileShelf
        ensures begun { result.begun ≡ None }
        ensures taken { result.taken ≡ 0 }
        ensures failed { result.failed ≡ false }
        ensures faults { result.faults ≡ 0 }
    {
        FileShelf {
            rt,
            file: None,
            taken: 0,
            begun: None,
            failed: false,
            faults: 0,
        }
    }
}

impl Shelf for FileShelf {
    ghost files = { λ s. None };

    ghost rest = { λ s. None };

    ghost taken = { λ s. s.taken };

    ghost begun = { λ s. s.begun };

    ghost failed = { λ s. s.failed };

    ghost faults = { λ s. s.faults };

    fn begin(&mut self, name: Str) -> Result<(), Failed> {
        let opened = fs::open(&self.rt, name.as_str());
        self.begun = Some(name);
        match opened {
            Ok(file) => {
                self.file = Some(file);
                self.taken = 0;
                self.failed = false;
                Ok(())
            }
            Err(_) => {
                self.faults = self.faults.saturating_add(1);
                self.failed = true;
                Err(Failed)
            }
        }
    }

    fn read(&mut self, buf: &mut [u8]) -> Result<usize, Failed> {
        let most = self.taken.checked_add(buf.len() as u64);
        let answer = match (&mut self.file, most) {
            (Some(file), Some(_)) => file.read(buf).ok(),
            _ => None,
        };
        match answer {
            Some(count) => {
                self.taken += count as u64;
                self.failed = false;
                Ok(count)
            }
            None => {
                self.faults = self.faults.saturating_add(1);
                self.failed = true;
                Err(Failed)
            }
        }
    }
}
