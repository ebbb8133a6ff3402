//! Where bytes are written to.
ghost use Rattle.std.specs.Prelude.{◌≡◌, ◌<◌, ◌≤◌, ℕ, List, [], ◌∷◌, Option, take, length, OnOk, OnErr, IfOk};
ghost use Rattle.su_io.specs.Causes.{HasCause};
ghost use Rattle.su_io.specs.Ends.{Grew, Stays, Extends, IsFrontOf};

use crate::Failed;

/// Takes bytes in order, may hold some of them back, and hands those over at a flush. What it tells
/// after a call it told before that call too, and no call lowers the count of faults.
pub trait Sink {
    /// What was written, where it is told.
    ghost written: { Self → Option (List ℕ) };

    /// The pieces that its calls were handed, where they are told.
    ghost handed: { Self → Option (List (List ℕ)) };

    /// What of it the sink has handed over, where it is told.
    ghost over: { Self → Option (List ℕ) };

    /// How often the sink has failed.
    ghost faults: { Self → ℕ };

    /// Takes a front of the bytes, and some of a piece that isn't empty.
    fn write(&mut self, bytes: &[u8]) -> Result<usize, Failed>
        ensures bound { IfOk result (λ count. count ≤ length bytes.now) }
        ensures progress { IfOk result (λ count. 0 < length bytes.now → 0 < count) }
        ensures grew { IfOk result (λ count. Grew (written self.old) (written self.new) (take count bytes.now)) }
        ensures kept { OnErr result (Stays (written self.old) (written self.new)) }
        ensures handed { Grew (handed self.old) (handed self.new) (bytes.now ∷ []) }
        ensures over { Extends (over self.old) (over self.new) }
        ensures cause { HasCause (faults self.old) (faults self.new) result };

    /// Hands over what the sink holds back: behind an accepted call it holds nothing.
    fn flush(&mut self) -> Result<(), Failed>
        ensures kept { Stays (written self.old) (written self.new) }
        ensures handed { handed self.new ≡ handed self.old }
        ensures over { Extends (over self.old) (over self.new) }
        ensures all { OnOk result (over self.new ≡ written self.new) }
        ensures cause { HasCause (faults self.old) (faults self.new) result };

    /// At any time, what was handed over is a front of what was written.
    ghost front: { (s : Self) → IsFrontOf (over s) (written s) };
}
