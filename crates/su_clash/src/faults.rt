//! Why it isn't told whether some universal relation fits.
ghost use Rattle.std.specs.Prelude.{◌≡◌};
ghost use Rattle.su_clash.specs.declared.faults.ClashFault.TheVariants.{NoMemory as OutOfMemory};

use su_base::NoMemory;

/// A refusal.
#[derive(Debug, Drop)]
pub enum ClashFault {
    /// The views of the objects have more than 20,000 members together.
    Limit,
    /// Memory could not be had.
    NoMemory,
}

impl From<NoMemory> for ClashFault {
    ghost from_gives = { λ _ fault. fault ≡ OutOfMemory };

    fn from(_: NoMemory) -> ClashFault {
        ClashFault::NoMemory
    }
}
