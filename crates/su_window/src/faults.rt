//! Why a window is refused.
ghost use Rattle.std.specs.Prelude.{◌≡◌};
ghost use Rattle.su_window.specs.declared.faults.WindowFault.TheVariants.{NoMemory as OutOfMemory};

use su_base::{NoMemory, Value};

/// A refusal, in the order of the causes.
#[derive(Debug, Drop)]
pub enum WindowFault {
    /// The views of the objects have more than 20,000 members together.
    Limit,
    /// No universal relation meets the dependencies and includes the stored rows: in the padded rows
    /// these two constants meet, the least that meets another one and the least such other.
    Inconsistent { less: Value, greater: Value },
    /// Memory could not be had.
    NoMemory,
}

impl From<NoMemory> for WindowFault {
    ghost from_gives = { λ _ fault. fault ≡ OutOfMemory };

    fn from(_: NoMemory) -> WindowFault {
        WindowFault::NoMemory
    }
}
