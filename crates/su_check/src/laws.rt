//! Theorems on certificates: each is the contract of a function that does nothing.
ghost use Rattle.std.specs.Prelude.{◌≡◌, ℕ, List};
ghost use Rattle.su_tableau.specs.Kinds.{Kinds};
ghost use Rattle.su_check.specs.declared.certificates.StatedTerm.{StatedTerm};
ghost use Rattle.su_check.specs.declared.verdicts.Checked.{Checked};
ghost use Rattle.su_check.specs.Certificate.{tableau_of, IsGood};
ghost use Rattle.su_check.specs.LeastParts.{IsLeastListed};
ghost use Rattle.su_check.specs.Verdict.{IsVerdict};

/// The part of the kept rows of a good term is valid, has the answers of the whole, and has the
/// fewest rows of all tableaux that have them.
pub fn a_good_term_is_least()
    ensures { (kinds : Kinds) (i : ℕ) (x : StatedTerm) → IsGood kinds i x → IsLeastListed kinds (tableau_of kinds x) x.kept }
{}

/// The bytes of a file have one verdict.
pub fn bytes_have_one_verdict()
    ensures { (bytes : List ℕ) (v w : Checked) → IsVerdict bytes v → IsVerdict bytes w → v ≡ w }
{}
