//! The system as company: standard input and output, its files, and where the database is kept.
ghost use Rattle.std.specs.Prelude.{◌≡◌, true, false, None};
ghost use Rattle.su_talk.specs.Keeping.{KeepsAsBefore};

use crate::folders::below;
use crate::homes::Home;
use std::alloc::Global;
use std::io::{ErrorKind, Print, Read, Write};
use su_base::{List, NoMemory, Str};
use su_changes::Change;
use su_io::{Failed, FileShelf, ReadEnd, read_all};
use su_state::Database;
use su_talk::Company;

/// How often a read that was interrupted is tried again.
const TRIES: u32 = 1000;

/// The system.
#[derive(Drop)]
pub struct System<H: Home + Drop> {
    rt: HostRuntime,
    shelf: FileShelf,
    /// The folder below which the files of loads are.
    folder: Option<Str>,
    /// What keeps the database.
    home: H,
}

impl<H: Home + Drop> System<H> {
    pub fn new(rt: HostRuntime, folder: Option<Str>, home: H) -> System<H>
        ensures { result.home ≡ home }
    {
        System {
            rt,
            shelf: FileShelf::new(rt),
            folder,
            home,
        }
    }

    /// Brings what is kept to where it stands alone; whether it could.
    pub fn settle(&mut self) -> bool
        ensures keeps { result ≡ true → KeepsAsBefore (H.keeps self.old.home) (H.keeps self.new.home) }
        ensures settled { result ≡ true → H.settles self.old.home self.new.home }
        ensures shut { result ≡ false → H.is_shut self.new.home }
    {
        self.home.settle()
    }
}

impl<H: Home + Drop> Company for System<H> {
    /// Nothing is told of the system's files.
    ghost files = { λ s. None };

    /// Nor of what happens.
    ghost events = { λ s. None };

    ghost keeps = { λ s db. H.keeps s.home db };

    ghost is_shut = { λ s. H.is_shut s.home };

    fn ask(&mut self, buf: &mut [u8]) -> Result<usize, Failed> {
        let mut input = self.rt.stdin();
        for _ in 0..TRIES {
            match input.read(buf) {
                Ok(count) => return Ok(count),
                Err(fault) if fault.kind() == ErrorKind::Interrupted => {}
                Err(_) => return Err(Failed),
            }
        }
        Err(Failed)
    }

    fn file(&mut self, alloc: Global, path: Str, limit: u64) -> Result<List<u8>, ReadEnd> {
        let path = match &self.folder {
            None => path,
            Some(folder) => match below(self.rt, folder, &path) {
                Ok(Some(real)) => real,
                Ok(None) => return Err(ReadEnd::Failed),
                Err(NoMemory) => return Err(ReadEnd::NoMemory),
            },
        };
        read_all(alloc, &mut self.shelf, path, limit)
    }

    fn keep(&mut self, db: &Database, changes: List<Change>) -> Result<(), Failed> {
        self.home.keep(db, changes)
    }

    fn tell(&mut self, text: &[u8]) -> Result<(), Failed> {
        let mut out = self.rt.stdout();
        match out.write_all(text) {
            Ok(()) => Ok(()),
            Err(_) => Err(Failed),
        }
    }
}
