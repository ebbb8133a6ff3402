//! Why a tree isn't made.
ghost use Rattle.std.specs.Prelude.{◌≡◌};
ghost use Rattle.su_refute.specs.declared.faults.RefuteFault.TheVariants.{NoMemory as OutOfMemory};

use su_base::NoMemory;

/// Why a tree isn't made.
#[derive(Clone, Copy, PartialEq, Eq, Debug)]
pub enum RefuteFault {
    /// There are more nodes than the budget allows.
    Nodes,
    NoMemory,
}

impl From<NoMemory> for RefuteFault {
    ghost from_gives = { λ _ fault. fault ≡ OutOfMemory };

    fn from(_: NoMemory) -> RefuteFault {
        RefuteFault::NoMemory
    }
}

impl<T: Drop> From<(T, NoMemory)> for RefuteFault {
    ghost from_gives = { λ _ fault. fault ≡ OutOfMemory };

    fn from(_: (T, NoMemory)) -> RefuteFault {
        RefuteFault::NoMemory
    }
}
