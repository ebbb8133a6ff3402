//! A sink in memory whose calls never fail.
ghost use Rattle.std.specs.Prelude.{◌≡◌, ◌≤◌, ◌<◌, ◌+◌, ◌++◌, ◌&&◌, nat_le, take, length, OnErr, [], None, true, IfOk, vec_len, vec_capacity};
ghost use Rattle.su_io.specs.Causes.{HasCause};
ghost use Rattle.su_io.specs.Ends.{Grew, Stays, Extends, says};
ghost use Rattle.su_io.specs.Fronts.{says_front};

use crate::rooms::keep;
use crate::{Failed, Sink};
use std::alloc::Global;
use su_base::NoMemory;

/// Bytes in memory, up to a room that is taken when it is made. It holds nothing back: what was written
/// is over. Past its room it tells nothing of what was written.
#[derive(Drop)]
pub struct SteadySink {
    bytes: Vec<u8>,
    told: bool,
    room: usize,
    ghost within: { vec_len bytes ≤ room },
    ghost roomy: { room ≤ vec_capacity bytes },
}

impl SteadySink {
    /// A sink with room for that many bytes.
    pub fn new(alloc: Global, room: usize) -> Result<SteadySink, NoMemory>
        ensures { IfOk result (λ sink. (sink.bytes.items ≡ []) × (sink.told ≡ true) × (sink.room ≡ room)) }
    {
        Ok(SteadySink {
            bytes: Vec::with_capacity(alloc, room)?,
            told: true,
            room,
        })
    }

    /// What was written, up to the room.
    pub fn written(&self) -> &[u8]
        ensures { result.now ≡ self.now.bytes.items }
    {
        self.bytes.as_slice()
    }
}

impl Sink for SteadySink {
    ghost written = { λ s. says s.told s.bytes.items };

    ghost handed = { λ s. None };

    ghost over = { λ s. says s.told s.bytes.items };

    ghost faults = { λ s. 0 };

    /// The trait's clauses, and what it stores and tells of the bytes, all of which it takes.
    fn write(&mut self, bytes: &[u8]) -> Result<usize, Failed>
        ensures bound { IfOk result (λ count. count ≤ length bytes.now) }
        ensures progress { IfOk result (λ count. 0 < length bytes.now → 0 < count) }
        ensures grew { IfOk result (λ count. Grew (says self.old.told self.old.bytes.items) (says self.new.told self.new.bytes.items) (take count bytes.now)) }
        ensures kept { OnErr result ((self.new.bytes ≡ self.old.bytes) × (self.new.told ≡ self.old.told)) }
        ensures stays { OnErr result (Stays (says self.old.told self.old.bytes.items) (says self.new.told self.new.bytes.items)) }
        ensures over { Extends (says self.old.told self.old.bytes.items) (says self.new.told self.new.bytes.items) }
        ensures cause { HasCause 0 0 result }
        ensures whole { IfOk result (λ count. count ≡ length bytes.now) }
        ensures stored { IfOk result (λ count. self.new.bytes.items ≡ take self.old.room (self.old.bytes.items ++ take count bytes.now)) }
        ensures told { IfOk result (λ count. self.new.told ≡ (self.old.told && nat_le (length self.old.bytes.items + count) self.old.room)) }
        ensures room { self.new.room ≡ self.old.room }
    {
        let all = keep(&mut self.bytes, self.room, bytes);
        self.told &= all;
        Ok(bytes.len())
    }

    fn flush(&mut self) -> Result<(), Failed> {
        Ok(())
    }

    ghost front = { λ s. says_front s.told s.bytes.items };
}
