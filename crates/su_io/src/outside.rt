//! All that a program reads and writes.
ghost use Rattle.std.specs.Prelude.{◌≡◌, ◌≢◌, ◌<◌, ◌^◌, [], ◌∷◌, Some, OnOk, OnErr};
ghost use Rattle.su_io.specs.Moments.{Moment};
ghost use Rattle.su_io.specs.Causes.{Rose};
ghost use Rattle.su_io.specs.Ends.{IsFrontOf};
ghost use Rattle.su_io.specs.HandOver.{HandOverEnds, HandsAllOver, FailsToHandOver};
ghost use Rattle.su_io.specs.FileEnds.{FileEnds};
ghost use Rattle.su_io.specs.WrittenTexts.{Wrote, WroteFront, IsTold};

use crate::{Failed, ReadEnd, Shelf, Sink, Status, read_all, write_all};
use std::alloc::Global;
use std::marker::Model;
use su_base::{List, Str};

/// A shelf and a sink. Contracts see what the two tell of themselves.
#[derive(Drop)]
pub struct Outside<H: Shelf, K: Sink> {
    pub shelf: H,
    pub sink: K,
}

impl<H: Shelf, K: Sink> Model for Outside<H, K> {
    ghost use Rattle.su_io.specs.Moments.{Moment};

    ghost Value = { Moment };

    ghost view = { λ o. record {
      files = H.files o.shelf;
      begun = H.begun o.shelf;
      taken = H.taken o.shelf;
      failed = H.failed o.shelf;
      reads = H.faults o.shelf;
      told = record { written = K.written o.sink; handed = K.handed o.sink; over = K.over o.sink };
      writes = K.faults o.sink;
    } };
}

impl<H: Shelf, K: Sink> Outside<H, K> {
    /// Reads a file whole, where it has at most `limit` bytes.
    pub fn read(&mut self, alloc: Global, name: Str, limit: u64) -> Result<List<u8>, Status>
        requires { limit < 2 ^ 40 }
        ensures rest { self.new ≡ record self.old { begun = Some name; taken = self.new.taken; failed = self.new.failed; reads = self.new.reads } }
        ensures ends { FileEnds name limit self.old self.new result }
    {
        match read_all(alloc, &mut self.shelf, name, limit) {
            Ok(bytes) => Ok(bytes),
            Err(ReadEnd::Failed) => Err(Status::ReadFault),
            Err(ReadEnd::TooLong) => Err(Status::TooLong),
            Err(ReadEnd::NoMemory) => Err(Status::NoMemory),
        }
    }

    /// Writes a text whole.
    pub fn write(&mut self, text: &[u8]) -> Result<(), Failed>
        ensures rest { self.new ≡ record self.old { told = self.new.told; writes = self.new.writes } }
        ensures ok { OnOk result ((self.new.writes ≡ self.old.writes) × Wrote self.old.told self.new.told (text.now ∷ [])) }
        ensures err { OnErr result (Rose self.old.writes self.new.writes × WroteFront self.old.told self.new.told (text.now ∷ [])) }
    {
        write_all(&mut self.sink, text)
    }

    /// Writes a text whole, and gives the status that it is told with, or that of a failed write.
    pub fn tell(&mut self, text: &[u8], status: Status) -> Status
        requires { status ≢ Status.WriteFault }
        ensures { IsTold text.now status self.old self.new result }
    {
        match self.write(text) {
            Ok(()) => status,
            Err(_) => Status::WriteFault,
        }
    }

    /// Hands over what the sink holds back.
    pub fn flush(&mut self) -> Result<(), Failed>
        ensures ok { OnOk result (HandsAllOver self.old self.new) }
        ensures err { OnErr result (FailsToHandOver self.old self.new) }
    {
        self.sink.flush()
    }

    /// Hands over what the sink holds back, where a program that came to this status does.
    fn flush_after(&mut self, came: Status) -> Status
        ensures { HandOverEnds came self.old self.new result }
    {
        match came {
            Status::ReadFault | Status::WriteFault | Status::TooLong => came,
            _ => match self.flush() {
                Ok(()) => came,
                Err(_) => Status::WriteFault,
            },
        }
    }

    /// Hands over what the sink holds back at the end of a program, and gives its status: that which it came
    /// to, or that of a failed write. After a failed write nothing more is handed over; where a file was not read, all is
    /// over that was written before it was begun.
    pub fn hand_over(&mut self, came: Status) -> Status
        ensures ends { HandOverEnds came self.old self.new result }
        ensures front { IsFrontOf self.new.told.over self.new.told.written }
    {
        let status = self.flush_after(came);
        // For the proof: what is over is a front of what was written.
        let _sink = &self.sink;
        status
    }
}
