//! What the sinks in memory share: bytes are kept up to a room.
ghost use Rattle.std.specs.Prelude.{◌≡◌, ◌≤◌, ◌+◌, ◌++◌, nat_le, take, length, vec_len, vec_capacity};

/// Appends what there is room for, and tells whether that was all.
pub(crate) fn keep(kept: &mut Vec<u8>, room: usize, bytes: &[u8]) -> bool
    requires within { vec_len kept.old ≤ room }
    requires roomy { room ≤ vec_capacity kept.old }
    ensures within { vec_len kept.new ≤ room }
    ensures roomy { room ≤ vec_capacity kept.new }
    ensures stored { kept.new.items ≡ take room (kept.old.items ++ bytes.now) }
    ensures all { result ≡ nat_le (length kept.old.items + length bytes.now) room }
{
    let count = bytes.len().min(room - kept.len());
    let stored = kept.extend_from_slice(&bytes[..count]).is_ok();
    stored && count == bytes.len()
}
