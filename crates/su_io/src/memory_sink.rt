//! A sink in memory, some of whose calls fail.
ghost use Rattle.std.specs.Prelude.{◌++◌, ◌&&◌, nat_le, ◌^◌, min, ◌-◌, ◌≡◌, ◌≤◌, ◌<◌, ◌+◌, ◌↔◌, IsErr, OnErr, Contains, take, length, [], None, true, IfOk, vec_len, vec_capacity};
ghost use Rattle.su_io.specs.Causes.{HasCause};
ghost use Rattle.su_io.specs.Ends.{Grew, Stays, Extends, says};
ghost use Rattle.su_io.specs.Fronts.{says_front};

use crate::rooms::keep;
use crate::{Failed, Sink};
use std::alloc::Global;
use su_base::{List, NoMemory};

/// Bytes in memory, up to a room that is taken when it is made. It holds nothing back: what was written
/// is over. Its calls, flushes among them, are numbered from 0, and those whose numbers were given fail. Past its
/// room it tells nothing of what was written.
#[derive(Drop)]
pub struct MemorySink {
    bytes: Vec<u8>,
    told: bool,
    room: usize,
    fails: List<u64>,
    piece: usize,
    calls: u64,
    faults: u64,
    ghost positive: { 1 ≤ piece },
    ghost within: { vec_len bytes ≤ room },
    ghost roomy: { room ≤ vec_capacity bytes },
}

impl MemorySink {
    /// The calls whose numbers, from 0, are in `fails` fail. A write takes at most `piece` bytes.
    pub fn new(
        alloc: Global,
        fails: List<u64>,
        piece: usize,
        room: usize,
    ) -> Result<MemorySink, NoMemory>
        requires { 1 ≤ piece }
        ensures empty { IfOk result (λ sink. (sink.bytes.items ≡ []) × (sink.told ≡ true)) }
        ensures made { IfOk result (λ sink. (sink.fails ≡ fails) × (sink.piece ≡ piece) × (sink.room ≡ room) × (sink.calls ≡ 0) × (sink.faults ≡ 0)) }
    {
        Ok(MemorySink {
            bytes: Vec::with_capacity(alloc, room)?,
            told: true,
            room,
            fails,
            piece,
            calls: 0,
            faults: 0,
        })
    }

    /// Counts a call, and its fault where it is one of those that fail.
    fn next_call(&mut self) -> Result<(), Failed>
        ensures rest { self.new ≡ record self.old { calls = self.new.calls; faults = self.new.faults } }
        ensures when { IsErr result ↔ Contains self.old.fails self.old.calls }
        ensures counted { self.new.calls ≡ min (self.old.calls + 1) (2 ^ 64 - 1) }
        ensures cause { HasCause self.old.faults self.new.faults result }
    {
        let due = self.fails.as_slice().contains(&self.calls);
        self.calls = self.calls.saturating_add(1);
        if due {
            self.faults = self.faults.saturating_add(1);
            return Err(Failed);
        }
        Ok(())
    }

    /// What was written, up to the room.
    pub fn written(&self) -> &[u8]
        ensures { result.now ≡ self.now.bytes.items }
    {
        self.bytes.as_slice()
    }
}

impl Sink for MemorySink {
    ghost written = { λ s. says s.told s.bytes.items };

    ghost handed = { λ s. None };

    ghost over = { λ s. says s.told s.bytes.items };

    ghost faults = { λ s. s.faults };

    /// The trait's clauses, when the call fails, how much it takes, and what it stores and tells of that.
    fn write(&mut self, bytes: &[u8]) -> Result<usize, Failed>
        ensures bound { IfOk result (λ count. count ≤ length bytes.now) }
        ensures progress { IfOk result (λ count. 0 < length bytes.now → 0 < count) }
        ensures grew { IfOk result (λ count. Grew (says self.old.told self.old.bytes.items) (says self.new.told self.new.bytes.items) (take count bytes.now)) }
        ensures kept { OnErr result ((self.new.bytes ≡ self.old.bytes) × (self.new.told ≡ self.old.told)) }
        ensures stays { OnErr result (Stays (says self.old.told self.old.bytes.items) (says self.new.told self.new.bytes.items)) }
        ensures over { Extends (says self.old.told self.old.bytes.items) (says self.new.told self.new.bytes.items) }
        ensures cause { HasCause self.old.faults self.new.faults result }
        ensures when { IsErr result ↔ Contains self.old.fails self.old.calls }
        ensures counted { self.new.calls ≡ min (self.old.calls + 1) (2 ^ 64 - 1) }
        ensures piece { IfOk result (λ count. count ≤ self.old.piece) }
        ensures stored { IfOk result (λ count. self.new.bytes.items ≡ take self.old.room (self.old.bytes.items ++ take count bytes.now)) }
        ensures told { IfOk result (λ count. self.new.told ≡ (self.old.told && nat_le (length self.old.bytes.items + count) self.old.room)) }
        ensures room { self.new.room ≡ self.old.room }
        ensures settings { (self.new.fails ≡ self.old.fails) × (self.new.piece ≡ self.old.piece) }
    {
        self.next_call()?;
        let count = bytes.len().min(self.piece);
        let all = keep(&mut self.bytes, self.room, &bytes[..count]);
        self.told &= all;
        Ok(count)
    }

    /// The trait's clauses, and when the call fails.
    fn flush(&mut self) -> Result<(), Failed>
        ensures written { (self.new.bytes ≡ self.old.bytes) × (self.new.told ≡ self.old.told) }
        ensures kept { Stays (says self.old.told self.old.bytes.items) (says self.new.told self.new.bytes.items) }
        ensures over { Extends (says self.old.told self.old.bytes.items) (says self.new.told self.new.bytes.items) }
        ensures cause { HasCause self.old.faults self.new.faults result }
        ensures when { IsErr result ↔ Contains self.old.fails self.old.calls }
        ensures counted { self.new.calls ≡ min (self.old.calls + 1) (2 ^ 64 - 1) }
        ensures room { self.new.room ≡ self.old.room }
        ensures settings { (self.new.fails ≡ self.old.fails) × (self.new.piece ≡ self.old.piece) }
    {
        self.next_call()
    }

    ghost front = { λ s. says_front s.told s.bytes.items };
}
