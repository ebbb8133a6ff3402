//! A shelf in memory whose calls never fail.
ghost use Rattle.std.specs.Prelude.{option_map, ◌≡◌, ◌≤◌, [], length, Some, None, false};
ghost use Rattle.su_io.specs.Files.{bytes_at, left};

use crate::pieces::{find, rest_of, take_front};
use crate::{Failed, File, Shelf};
use su_base::{List, Str};

/// Files in memory whose reads never fail: a name that no file has is an empty file.
#[derive(Drop)]
pub struct SteadyShelf {
    files: List<File>,
    place: usize,
    taken: usize,
    begun: Option<Str>,
    ghost within: { taken ≤ length (bytes_at files place) },
}

impl SteadyShelf {
    /// A shelf on which no file is begun.
    pub fn new(files: List<File>) -> SteadyShelf
        ensures files { result.files ≡ files }
        ensures begun { result.begun ≡ None }
        ensures taken { result.taken ≡ 0 }
        ensures rest { bytes_at files result.place ≡ [] }
    {
        let place = files.len();
        SteadyShelf {
            files,
            place,
            taken: 0,
            begun: None,
        }
    }

    /// The name that was begun last, whether or not it was accepted.
    pub fn begun(&self) -> Option<&Str>
        ensures { option_map (λ name. name.now) result ≡ self.now.begun }
    {
        self.begun.as_ref()
    }
}

impl Shelf for SteadyShelf {
    ghost files = { λ s. Some s.files };

    ghost rest = { λ s. left s.files s.place s.taken };

    ghost taken = { λ s. s.taken };

    ghost begun = { λ s. s.begun };

    ghost failed = { λ s. false };

    ghost faults = { λ s. 0 };

    fn begin(&mut self, name: Str) -> Result<(), Failed> {
        let found = find(self.files.as_slice(), &name);
        self.begun = Some(name);
        self.place = match found {
            Some(place) => place,
            None => self.files.len(),
        };
        self.taken = 0;
        Ok(())
    }

    fn read(&mut self, buf: &mut [u8]) -> Result<usize, Failed> {
        let rest = rest_of(self.files.as_slice(), self.place, self.taken);
        let count = take_front(rest, buf, usize::MAX);
        self.taken += count;
        Ok(count)
    }
}
