//! Work that is done once.
ghost use Rattle.std.specs.Prelude.{IfOk};

use std::alloc::Global;
use su_base::NoMemory;

/// Work that is done once, in any thread. A job may borrow what no thread changes, and owns what
/// it makes.
pub trait Job: Send + Drop + Sized {
    type Out: Send + Drop;

    // The answers that the job may give.
    ghost gives: { Self → Self.Out → Type 0 };

    /// Does the work.
    fn run(self, alloc: Global) -> Result<Self::Out, NoMemory>
        ensures { IfOk result (gives self) };
}
