//! A whole file read, and a whole piece written.
ghost use Rattle.std.specs.Prelude.{◌≡◌, ◌<◌, ◌≤◌, ◌^◌, Some, ℕ, List, take, length, OnOk, OnErr, IfOk};
ghost use Rattle.su_io.specs.Causes.{HasCause};
ghost use Rattle.su_io.specs.Ends.{Grew, Extends, OfFile, Ended};
ghost use Rattle.su_io.specs.Wholes.{IsWhole, WasCut};

use crate::{Failed, ReadEnd, Shelf, Sink};
use std::alloc::Global;
use su_base::{List, Str};

/// How many bytes a read asks for.
const PIECE: usize = 4096;

/// Reads a file whole, where it has at most `limit` bytes. A longer one is read up to the first piece
/// past the limit. Each turn takes at least one byte or ends. It answers `Failed` where a call of the
/// shelf has failed, so exactly where the shelf's count of faults has risen (one at its type's end
/// stays there).
pub fn read_all<H: Shelf>(
    alloc: Global,
    shelf: &mut H,
    name: Str,
    limit: u64,
) -> Result<List<u8>, ReadEnd>
    requires { limit < 2 ^ 40 }
    ensures files { H.files shelf.new ≡ H.files shelf.old }
    ensures begun { H.begun shelf.new ≡ Some name }
    ensures whole { IfOk result (λ bytes. OfFile (H.files shelf.old) name (λ file. bytes ≡ file)) }
    ensures too_long { result ≡ Err ReadEnd.TooLong → OfFile (H.files shelf.old) name (λ file. limit < length file) }
    ensures ended { Ended limit (record { before = H.faults shelf.old; after = H.faults shelf.new; taken = H.taken shelf.new; failed = H.failed shelf.new }) result }
{
    if shelf.begin(name).is_err() {
        return Err(ReadEnd::Failed);
    }
    let mut bytes = Vec::new(alloc);
    let mut taken: u64 = 0;
    let mut buf = [0u8; PIECE];
    loop {
        match shelf.read(&mut buf) {
            Err(_) => return Err(ReadEnd::Failed),
            Ok(0) => return Ok(List::from_vec(bytes)),
            Ok(count) => {
                taken += count as u64;
                if taken > limit {
                    return Err(ReadEnd::TooLong);
                }
                if bytes.extend_from_slice(&buf[..count]).is_err() {
                    return Err(ReadEnd::NoMemory);
                }
            }
        }
    }
}

/// Writes all the bytes, in as few calls as the sink allows: each is handed all that is left of them.
/// After a failure a front of them is written. It takes no memory. It answers `Failed` where a call of the sink has failed, so exactly
/// where the sink's count of faults has risen (one at its type's end stays there).
pub fn write_all<K: Sink>(sink: &mut K, bytes: &[u8]) -> Result<(), Failed>
    ensures ok { OnOk result (Grew (K.written sink.old) (K.written sink.new) bytes.now) }
    ensures err { OnErr result ((count : ℕ) × (count ≤ length bytes.now) × Grew (K.written sink.old) (K.written sink.new) (take count bytes.now)) }
    ensures whole { OnOk result ((pieces : List (List ℕ)) × IsWhole bytes.now pieces × Grew (K.handed sink.old) (K.handed sink.new) pieces) }
    ensures cut { OnErr result (WasCut bytes.now (K.handed sink.old) (K.handed sink.new)) }
    ensures over { Extends (K.over sink.old) (K.over sink.new) }
    ensures cause { HasCause (K.faults sink.old) (K.faults sink.new) result }
{
    let mut done = 0;
    while done < bytes.len() {
        done += sink.write(&bytes[done..])?;
    }
    Ok(())
}
