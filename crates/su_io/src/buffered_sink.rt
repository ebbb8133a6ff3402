//! A sink that holds short pieces back, so that the sink below it is handed large ones.
ghost use Rattle.std.specs.Prelude.{◌≡◌, ◌≤◌, ◌++◌, [], OnOk, None, cond, vec_len};
ghost use Rattle.su_io.specs.Causes.{HasCause};
ghost use Rattle.su_io.specs.Ends.{Stays, Extends, held_behind};
ghost use Rattle.su_io.specs.Fronts.{front_behind};

use crate::{Failed, Sink};
use std::alloc::Global;

/// A sink over another. Bytes are held as long as they fit its room; those that don't fit are handed on
/// at once, behind what is held. What was written is what the sink below was written and then what is
/// held; what is over is what the sink below says so, and its faults are the faults of this one. What is held
/// when the sink is let go is lost.
#[derive(Drop)]
pub struct BufferedSink<K: Sink> {
    sink: K,
    /// Bytes of which the first `taken` were handed on, and the others are held.
    bytes: Vec<u8>,
    taken: usize,
    room: usize,
    ghost within: { taken ≤ vec_len bytes },
}

impl<K: Sink> BufferedSink<K> {
    /// A sink over this one that holds up to `room` bytes.
    pub fn new(alloc: Global, sink: K, room: usize) -> BufferedSink<K>
        ensures below { result.sink ≡ sink }
        ensures empty { (result.bytes.items ≡ []) × (result.taken ≡ 0) }
        ensures room { result.room ≡ room }
    {
        BufferedSink {
            sink,
            bytes: Vec::new(alloc),
            taken: 0,
            room,
        }
    }

    /// The sink below.
    pub fn below(&self) -> &K
        ensures { result.now ≡ self.now.sink }
    {
        &self.sink
    }

    /// Holds the bytes, where they fit and there is memory.
    fn hold(&mut self, bytes: &[u8]) -> bool
        ensures rest { (self.new.sink ≡ self.old.sink) × (self.new.taken ≡ self.old.taken) × (self.new.room ≡ self.old.room) }
        ensures held { self.new.bytes.items ≡ cond result (self.old.bytes.items ++ bytes.now) self.old.bytes.items }
    {
        let free = self.room.saturating_sub(self.bytes.len());
        bytes.len() <= free && self.bytes.extend_from_slice(bytes).is_ok()
    }

    /// Hands on what is held. After a failure what was not taken is held.
    fn hand_on(&mut self) -> Result<(), Failed>
        ensures kept { Stays (held_behind (K.written self.old.sink) self.old.taken self.old.bytes.items) (held_behind (K.written self.new.sink) self.new.taken self.new.bytes.items) }
        ensures over { Extends (K.over self.old.sink) (K.over self.new.sink) }
        ensures none { OnOk result ((self.new.bytes.items ≡ []) × (self.new.taken ≡ 0)) }
        ensures cause { HasCause (K.faults self.old.sink) (K.faults self.new.sink) result }
    {
        while self.taken < self.bytes.len() {
            self.taken += self.sink.write(&self.bytes.as_slice()[self.taken..])?;
        }
        self.bytes.clear();
        self.taken = 0;
        Ok(())
    }
}

impl<K: Sink> Sink for BufferedSink<K> {
    ghost written = { λ s. held_behind (K.written s.sink) s.taken s.bytes.items };

    ghost handed = { λ s. None };

    ghost over = { λ s. K.over s.sink };

    ghost faults = { λ s. K.faults s.sink };

    /// Bytes that don't fit are handed on by one write.
    fn write(&mut self, bytes: &[u8]) -> Result<usize, Failed> {
        if self.hold(bytes) {
            return Ok(bytes.len());
        }
        self.hand_on()?;
        self.sink.write(bytes)
    }

    fn flush(&mut self) -> Result<(), Failed> {
        self.hand_on()?;
        self.sink.flush()
    }

    ghost front = { λ s. front_behind (K.over s.sink) (K.written s.sink) s.taken s.bytes.items (K.front s.sink) };
}
