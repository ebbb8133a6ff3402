//! Why a text gives no tokens.
ghost use Rattle.std.specs.Prelude.{◌≡◌};
ghost use Rattle.su_lex.specs.declared.ends.LexEnd.TheVariants.{NoMemory as OutOfMemory};

use std::alloc::{AllocError, AllocFailed};
use su_base::NoMemory;

/// Why a text gives no tokens.
#[derive(Clone, Copy, PartialEq, Eq, Debug)]
pub enum LexEnd {
    /// The text is no list of tokens.
    Syntax,
    NoMemory,
}

impl From<NoMemory> for LexEnd {
    ghost from_gives = { λ _ e. e ≡ OutOfMemory };

    fn from(_: NoMemory) -> LexEnd {
        LexEnd::NoMemory
    }
}

impl From<AllocError> for LexEnd {
    ghost from_gives = { λ _ e. e ≡ OutOfMemory };

    fn from(_: AllocError) -> LexEnd {
        LexEnd::NoMemory
    }
}

impl<T: Drop> From<AllocFailed<T>> for LexEnd {
    ghost from_gives = { λ _ e. e ≡ OutOfMemory };

    fn from(_: AllocFailed<T>) -> LexEnd {
        LexEnd::NoMemory
    }
}

impl<T: Drop> From<(T, NoMemory)> for LexEnd {
    ghost from_gives = { λ _ e. e ≡ OutOfMemory };

    fn from(_: (T, NoMemory)) -> LexEnd {
        LexEnd::NoMemory
    }
}
