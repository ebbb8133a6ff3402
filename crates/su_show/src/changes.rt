//! What is told of a change. Its room is taken before the change is made, so that nothing fails behind it.
ghost use Rattle.std.specs.Prelude.{◌≡◌, ◌≤◌, ◌+◌, ◌++◌, [], length, IfOk, vec_len, vec_capacity};
ghost use Rattle.su_show.specs.Changes.{inserted_text, deleted_text, loaded_text, defined_text};

use itoa::Buffer;
use std::alloc::Global;
use su_base::{List, NoMemory};

/// Room for the longest of these texts.
#[derive(Drop)]
pub struct Room {
    bytes: Vec<u8>,
    ghost empty: { bytes.items ≡ [] },
    ghost roomy: { 96 ≤ vec_capacity bytes },
}

fn put(room: &mut Vec<u8>, part: &[u8])
    requires { vec_len room.old + length part.now ≤ vec_capacity room.old }
    ensures items { room.new.items ≡ room.old.items ++ part.now }
    ensures length { vec_len room.new ≡ vec_len room.old + length part.now }
    ensures capacity { vec_capacity room.old ≤ vec_capacity room.new }
{
    let _ = room.extend_from_slice(part);
}

impl Room {
    /// Taken before the change.
    pub fn new(alloc: Global) -> Result<Room, NoMemory>
        ensures { IfOk result (λ room. room.bytes.items ≡ []) }
    {
        Ok(Room {
            bytes: Vec::with_capacity(alloc, 96)?,
        })
    }

    /// How many rows were put in.
    pub fn inserted(self, count: u64) -> List<u8>
        ensures { result ≡ inserted_text count }
    {
        let Room { mut bytes } = self;
        let mut buffer = Buffer::new();
        put(&mut bytes, b"inserted ");
        put(&mut bytes, buffer.format(count).as_bytes());
        put(&mut bytes, b"\n");
        List::from_vec(bytes)
    }

    /// How many rows were taken out.
    pub fn deleted(self, count: u64) -> List<u8>
        ensures { result ≡ deleted_text count }
    {
        let Room { mut bytes } = self;
        let mut buffer = Buffer::new();
        put(&mut bytes, b"deleted ");
        put(&mut bytes, buffer.format(count).as_bytes());
        put(&mut bytes, b"\n");
        List::from_vec(bytes)
    }

    /// How many rows of so many records were put in.
    pub fn loaded(self, count: u64, records: u64) -> List<u8>
        ensures { result ≡ loaded_text count records }
    {
        let Room { mut bytes } = self;
        let mut buffer = Buffer::new();
        put(&mut bytes, b"loaded ");
        put(&mut bytes, buffer.format(count).as_bytes());
        put(&mut bytes, b" of ");
        put(&mut bytes, buffer.format(records).as_bytes());
        put(&mut bytes, b"\n");
        List::from_vec(bytes)
    }

    /// A definition was added.
    pub fn defined(self) -> List<u8>
        ensures { result ≡ defined_text }
    {
        let Room { mut bytes } = self;
        put(&mut bytes, b"defined\n");
        List::from_vec(bytes)
    }
}
