//! Comparisons of codes, and where a pair of rows has what they compare.
ghost use Rattle.std.specs.Prelude.{◌≡◌, ℕ, true, false, [], ◌∷◌, length, All, IfSome, IfNone, IfOk};
ghost use Rattle.su_exec.specs.inside.Edges.{has};
ghost use Rattle.su_exec.specs.inside.Checks.{all_pass, check_vars, vars_of, spot_code, test_passes, AreOver, AreTestsIn, HasTerm, IsSpotIn, IsTestIn, IsTestFor, TakesAll, TakesOne};

use crate::places::place_of;
use std::alloc::{AllocError, Global};
use su_reduce::Codes;
use su_where::Op;

/// The code of a constant, or a variable.
#[derive(Clone, Copy)]
pub enum CodedSymbol {
    Code(u32),
    Variable(u32),
}

/// A comparison of two terms.
#[derive(Clone, Copy)]
pub struct Check {
    pub left: CodedSymbol,
    pub op: Op,
    pub right: CodedSymbol,
}

/// Where a pair of rows has a term: it is a code, or stands at a place of the left or of the right row.
#[derive(Clone, Copy)]
pub enum Spot {
    Code(u32),
    Left(usize),
    Right(usize),
}

/// A comparison of two spots.
#[derive(Clone, Copy)]
pub struct Test {
    pub left: Spot,
    pub op: Op,
    pub right: Spot,
}

/// The spot of the term in pairs of rows over these variables, if it has one.
pub fn spot_of(term: CodedSymbol, left: &[u32], right: &[u32]) -> Option<Spot>
    ensures spot { IfSome result (λ spot. HasTerm left.now right.now term spot) }
    ensures within { IfSome result (λ spot. IsSpotIn (length left.now) (length right.now) spot) }
    ensures none { IfNone result ((k : ℕ) × (vars_of term ≡ k ∷ []) × (has left.now k ≡ false) × (has right.now k ≡ false)) }
{
    match term {
        CodedSymbol::Code(code) => Some(Spot::Code(code)),
        CodedSymbol::Variable(k) => match place_of(left, k) {
            Some(p) => Some(Spot::Left(p)),
            None => match place_of(right, k) {
                Some(p) => Some(Spot::Right(p)),
                None => None,
            },
        },
    }
}

/// The test of the check in pairs of rows over these variables, if both its terms have a spot.
fn test_of(check: Check, left: &[u32], right: &[u32]) -> Option<Test>
    ensures test { IfSome result (IsTestFor left.now right.now check) }
    ensures within { IfSome result (λ test. IsTestIn (length left.now) (length right.now) test) }
    ensures none { IfNone result ((k : ℕ) × (has (check_vars (check ∷ [])) k ≡ true) × (has left.now k ≡ false) × (has right.now k ≡ false)) }
{
    let spot = spot_of(check.left, left, right)?;
    let other = spot_of(check.right, left, right)?;
    Some(Test {
        left: spot,
        op: check.op,
        right: other,
    })
}

/// Takes the check as a test of such pairs, or leaves it for later.
fn take_one(
    check: Check,
    left: &[u32],
    right: &[u32],
    tests: &mut Vec<Test>,
    later: &mut Vec<Check>,
) -> Result<(), AllocError>
    ensures same { IfOk result (λ _. TakesOne left.now right.now check tests.old.items later.old.items tests.new.items later.new.items) }
    ensures within { IfOk result (λ _. AreTestsIn left.now right.now tests.old.items → AreTestsIn left.now right.now tests.new.items) }
    ensures vars { IfOk result (λ _. AreOver (check_vars later.old.items) (check_vars (check ∷ [])) later.new.items) }
    ensures all { IfOk result (λ _. AreOver left.now right.now (check ∷ []) → later.new.items ≡ later.old.items) }
{
    match test_of(check, left, right) {
        Some(test) => {
            tests.push(test)?;
            Ok(())
        }
        None => {
            later.push(check)?;
            Ok(())
        }
    }
}

/// Takes the checks that pairs of rows over these variables decide, as tests of such pairs.
pub fn take_tests(
    alloc: Global,
    checks: &mut Vec<Check>,
    left: &[u32],
    right: &[u32],
) -> Result<Vec<Test>, AllocError>
    ensures same { IfOk result (λ tests. TakesAll left.now right.now checks.old.items tests.items checks.new.items) }
    ensures within { IfOk result (λ tests. AreTestsIn left.now right.now tests.items) }
    ensures vars { IfOk result (λ _. (k : ℕ) → has (check_vars checks.new.items) k ≡ true → has (check_vars checks.old.items) k ≡ true) }
    ensures all { IfOk result (λ _. AreOver left.now right.now checks.old.items → checks.new.items ≡ []) }
{
    let mut tests = Vec::new(alloc);
    let mut later = Vec::new(alloc);
    for check in checks.iter() {
        take_one(*check, left, right, &mut tests, &mut later)?;
    }
    *checks = later;
    Ok(tests)
}

/// The code at the spot.
pub fn code_at(spot: Spot, row: &[u32], other: &[u32]) -> u32
    requires { IsSpotIn (length row.now) (length other.now) spot }
    ensures { result ≡ spot_code spot row.now other.now }
{
    match spot {
        Spot::Code(code) => code,
        Spot::Left(p) => row[p],
        Spot::Right(p) => other[p],
    }
}

/// Whether the pair of rows passes the test.
pub fn passes_one(codes: &Codes, test: Test, row: &[u32], other: &[u32]) -> bool
    requires { IsTestIn (length row.now) (length other.now) test }
    ensures { result ≡ test_passes codes.now row.now other.now test }
{
    let left = codes.value(code_at(test.left, row, other));
    let right = codes.value(code_at(test.right, row, other));
    test.op.compares(left, right)
}

/// Whether the pair of rows passes all tests.
pub fn passes(codes: &Codes, tests: &[Test], row: &[u32], other: &[u32]) -> bool
    requires { All (IsTestIn (length row.now) (length other.now)) tests.now }
    ensures { result ≡ all_pass codes.now tests.now row.now other.now }
{
    for test in tests {
        if !passes_one(codes, *test, row, other) {
            return false;
        }
    }
    true
}
