//! What tells of sets of numbers whether they fail.
ghost use Rattle.std.specs.Prelude.{◌≡◌, ◌↔◌, ℕ, List, Contains, IsTrue, IfOk};
ghost use Rattle.su_blame.specs.Sets.{AreRising};

use std::alloc::Global;
use su_base::NoMemory;

/// A trial of sets of the numbers below a size. A set is handed over as its numbers, ascending.
pub trait Trial {
    ghost size: { Self → ℕ };

    ghost Fails: { Self → List ℕ → Type 0 };

    /// How many numbers there are.
    fn size(&self) -> usize
        ensures { result ≡ size self.now };

    /// Whether the set fails.
    fn fails(&self, alloc: Global, set: &[usize]) -> Result<bool, NoMemory>
        requires { AreRising (size self.now) 0 set.now }
        ensures { IfOk result (λ fails. IsTrue fails ↔ Fails self.now set.now) };

    // What fails goes on to fail with more of the numbers.
    ghost grows: { (x : Self) (s t : List ℕ) → AreRising (size x) 0 s → AreRising (size x) 0 t → ((i : ℕ) → Contains s i → Contains t i) → Fails x s → Fails x t };
}
