//! Places of variables, and of what is in lists.
ghost use Rattle.std.specs.Prelude.{◌≡◌, ◌≢◌, ◌↔◌, ℕ, ◌+◌, ◌<◌, true, false, List, [], ◌∷◌, length, get_or, MatchOption, IfOk};
ghost use Rattle.su_exec.specs.inside.Edges.{has};
ghost use Rattle.su_reduce.specs.Sheets.{pick, AreBelow};

use std::alloc::{AllocError, Global};

/// Whether the variable is one of these.
pub fn is_in(vars: &[u32], x: u32) -> bool
    ensures { result ≡ has vars.now x }
{
    vars.iter().any(|y| *y == x)
}

/// A place of the variable.
pub fn place_of(vars: &[u32], x: u32) -> Option<usize>
    ensures { MatchOption result (has vars.now x ≡ false) (λ p. (p < length vars.now) × (get_or vars.now p 0 ≡ x)) }
{
    for (p, y) in vars.iter().enumerate() {
        if *y == x {
            return Some(p);
        }
    }
    None
}

/// For each variable of both its places.
pub fn shared_places(
    xs: &[u32],
    ys: &[u32],
    left: &mut Vec<usize>,
    right: &mut Vec<usize>,
) -> Result<(), AllocError>
    requires { (left.old.items ≡ []) × (right.old.items ≡ []) }
    ensures left { AreBelow left.new.items (length xs.now) }
    ensures right { AreBelow right.new.items (length ys.now) }
    ensures same { IfOk result (λ _. (pick left.new.items xs.now ≡ pick right.new.items ys.now) × (length left.new.items ≡ length right.new.items)) }
    ensures all { IfOk result (λ _. (k : ℕ) → has xs.now k ≡ true → has ys.now k ≡ true → has (pick left.new.items xs.now) k ≡ true) }
{
    for (p, x) in xs.iter().enumerate() {
        if let Some(q) = place_of(ys, *x) {
            left.push(p)?;
            right.push(q)?;
        }
    }
    Ok(())
}

/// The places of the wanted variables that aren't among those to skip.
pub fn wanted_places(
    alloc: Global,
    xs: &[u32],
    skip: &[u32],
    wanted: &[u32],
) -> Result<Vec<usize>, AllocError>
    ensures below { IfOk result (λ ps. AreBelow ps.items (length xs.now)) }
    ensures all { IfOk result (λ ps. (k : ℕ) → has xs.now k ≡ true → has skip.now k ≡ false → has wanted.now k ≡ true → has (pick ps.items xs.now) k ≡ true) }
    ensures only { IfOk result (λ ps. (k : ℕ) → has (pick ps.items xs.now) k ≡ true → has wanted.now k ≡ true) }
{
    let mut places = Vec::new(alloc);
    for (p, x) in xs.iter().enumerate() {
        if !is_in(skip, *x) && is_in(wanted, *x) {
            places.push(p)?;
        }
    }
    Ok(places)
}

/// Where the j-th stands once the i-th is taken out.
pub fn after(i: usize, j: usize) -> usize
    requires { i ≢ j }
    ensures before { j < i → result ≡ j }
    ensures behind { i < j → result + 1 ≡ j }
    ensures within { (count : ℕ) → i < count → j < count → result + 1 < count }
{
    if i < j { j - 1 } else { j }
}
