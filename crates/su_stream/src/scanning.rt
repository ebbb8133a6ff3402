//! The bytes of an open text, gone over once.
ghost use Rattle.std.specs.Prelude.{◌≡◌, ◌≤◌, ◌<◌, ◌++◌, ℕ, List as Items, length, take, get_or, true};
ghost use Rattle.su_stream.specs.inside.OpenTexts.{IsAt};
ghost use Rattle.su_stream.specs.inside.Steps.{ends_at};

use crate::states::State;

/// Where an open text stands behind some of the bytes that follow it.
#[derive(Clone, Copy, Debug)]
pub struct Scanned {
    pub state: State,
    pub count: usize,
}

/// Goes over the bytes behind an open text, up to the `;` that ends it or to their end.
pub fn scan(start: State, bytes: &[u8]) -> Scanned
    ensures within { result.count ≤ length bytes.now }
    ensures at { (text : Items ℕ) → IsAt start text → IsAt result.state (text ++ take result.count bytes.now) }
    ensures ends { result.count < length bytes.now → ends_at result.state (get_or bytes.now result.count 0) ≡ true }
{
    let mut state = start;
    let mut count = 0;
    while count < bytes.len() {
        let byte = bytes[count];
        if state.ends(byte) {
            return Scanned { state, count };
        }
        state = state.after(byte);
        count += 1;
    }
    Scanned { state, count }
}
