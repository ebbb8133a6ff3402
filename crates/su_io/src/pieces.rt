//! What the shelves in memory share: the place of a file, and the next piece of it.
ghost use Rattle.std.specs.Prelude.{take, ◌++◌, ◌≡◌, ◌≤◌, ◌<◌, ◌^◌, drop, length, true, IsTrue, ◌↔◌, IfSome, IfNone, [], IsSome};
ghost use Rattle.su_io.specs.Files.{contents, has_file, bytes_at};

use crate::File;
use su_base::Str;

/// The place of the first file of a name.
pub(crate) fn find(files: &[File], name: &Str) -> Option<usize>
    ensures found { IfSome result (λ place. bytes_at files.now place ≡ contents files.now name.now) }
    ensures none { IfNone result (contents files.now name.now ≡ []) }
    ensures some { IsTrue (has_file files.now name.now) ↔ IsSome result }
{
    for (place, file) in files.iter().enumerate() {
        if file.name.as_str() == name.as_str() {
            return Some(place);
        }
    }
    None
}

/// What is left of the file at a place.
pub(crate) fn rest_of(files: &[File], place: usize, taken: usize) -> &[u8]
    requires { taken ≤ length (bytes_at files.now place) }
    ensures rest { result.now ≡ drop taken (bytes_at files.now place) }
    ensures fits { length (bytes_at files.now place) < 2 ^ 64 }
{
    match files.get(place) {
        Some(file) => &file.bytes.as_slice()[taken..],
        None => &[],
    }
}

/// Takes the front of `rest` into the front of `buf`, at most `piece` bytes.
pub(crate) fn take_front(rest: &[u8], buf: &mut [u8], piece: usize) -> usize
    requires { 1 ≤ piece }
    ensures within { result ≤ length rest.now }
    ensures bound { result ≤ length buf.old }
    ensures bytes { rest.now ≡ take result buf.new ++ drop result rest.now }
    ensures small { result ≤ piece }
    ensures end { result ≡ 0 → 0 < length buf.old → rest.now ≡ [] }
{
    let count = rest.len().min(buf.len()).min(piece);
    buf[..count].copy_from_slice(&rest[..count]);
    count
}
