//! A certificate checked, by su_check.
ghost use Rattle.std.specs.Prelude.{◌≡◌, ◌<◌, ◌^◌, ◌⊎◌, ℕ, IfOk, IfSome, None, length};
ghost use Rattle.su_check.specs.declared.verdicts.Checked.TheVariants.{Yes};
ghost use Rattle.su_check.specs.Verdict.{IsVerdict};
ghost use Rattle.library_certificate.specs.Shown.{Shows};

use std::alloc::Global;
use su_base::NoMemory;
use su_check::laws::bytes_have_one_verdict;
use su_check::{Checked, check};

/// How many terms the certificate has, where it is good and so shows that the kept rows of each are the
/// fewest; none where it isn't good, whoever made it.
pub fn least_terms(alloc: Global, bytes: &[u8]) -> Result<Option<u32>, NoMemory>
    requires short { length bytes.now < 2 ^ 32 }
    ensures shows { IfOk result (λ found. IfSome found (Shows bytes.now)) }
    ensures none { IfOk result (λ found. found ≡ None → (n : ℕ) → IsVerdict bytes.now (Yes n) → ⊥) }
{
    bytes_have_one_verdict();
    match check(alloc, bytes)? {
        Checked::Yes { terms } => Ok(Some(terms)),
        Checked::No(_) => Ok(None),
    }
}
