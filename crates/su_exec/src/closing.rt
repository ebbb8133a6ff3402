//! Three edges of a cycle are joined at once. Each row of the first meets the one of the two others in
//! which it has fewer matches, and what they make is tried against the third before it is kept; so a
//! pair of edges is never joined whole.
ghost use Rattle.std.specs.Prelude.{◌≡◌, ◌↔◌, ◌⊎◌, ◌<◌, ℕ, true, List, [], ◌∷◌, length, slice_index_or, All, Contains, IfOk, IsTrue};
ghost use Rattle.su_exec.specs.inside.Additions.{AddsOnly, HasEach};
ghost use Rattle.su_exec.specs.inside.Bodies.{IsGiven};
ghost use Rattle.su_exec.specs.inside.Edges.{Fits, Keeps, always, among, has};
ghost use Rattle.su_reduce.specs.Sheets.{AreBelow, pick};
ghost use Rattle.su_exec.specs.inside.Threes.{IsBlock, edges_of};

use crate::candidates::{Candidates, join_all};
use crate::joins::add_cells;
use crate::places::{is_in, place_of};
use crate::threes::{BLOCKS, blocks_of};
use std::alloc::{AllocError, Global};
use su_reduce::{Codes, Distinct, Sheet};

/// Three that close a cycle.
#[derive(Clone, Copy)]
struct Three<'a> {
    first: &'a Candidates,
    second: &'a Candidates,
    third: &'a Candidates,
}

/// The natural join.
fn natural_join(
    alloc: Global,
    codes: &Codes,
    a: &Candidates,
    b: &Candidates,
) -> Result<Candidates, AllocError>
    ensures same { IfOk result (λ g. (v : ℕ → ℕ) → (Fits v a.now × Fits v b.now) ↔ Fits v g) }
    ensures vars { IfOk result (λ g. (k : ℕ) → among (a.now ∷ b.now ∷ []) k ≡ true → has g.vars k ≡ true) }
{
    let mut all = Vec::from_slice(alloc, a.vars())?;
    all.extend_from_slice(b.vars())?;
    let joined = join_all(alloc, codes, a, b, Vec::new(alloc), &all, None)?;
    Ok(joined)
}

/// Where the first list has each of the second.
fn places_of(alloc: Global, xs: &[u32], ys: &[u32]) -> Result<Vec<usize>, AllocError>
    requires { (k : ℕ) → has ys.now k ≡ true → has xs.now k ≡ true }
    ensures below { IfOk result (λ places. AreBelow places.items (length xs.now)) }
    ensures is { IfOk result (λ places. pick places.items xs.now ≡ ys.now) }
{
    let mut places = Vec::with_capacity(alloc, ys.len())?;
    for y in ys {
        let place = match place_of(xs, *y) {
            Some(place) => place,
            None => unreachable!(),
        };
        places.push(place)?;
    }
    Ok(places)
}

/// Adds what the candidates give the variables.
fn add_given(
    alloc: Global,
    g: &Candidates,
    vars: &[u32],
    out: &mut Distinct,
) -> Result<(), AllocError>
    requires within { (k : ℕ) → has vars.now k ≡ true → has g.now.vars k ≡ true }
    requires width { out.old.width ≡ length vars.now }
    ensures width { IfOk result (λ _. out.new.width ≡ out.old.width) }
    ensures kept { IfOk result (λ _. (r : List ℕ) → Contains out.old.rows r → Contains out.new.rows r) }
    ensures only { IfOk result (λ _. AddsOnly (IsGiven vars.now (g.now ∷ []) always) out.old.rows out.new.rows) }
    ensures all { IfOk result (λ _. HasEach (IsGiven vars.now (g.now ∷ []) always) out.new.rows) }
{
    let places = places_of(alloc, g.vars(), vars)?;
    let rows = g.rows();
    let mut cells = Vec::new(alloc);
    for i in 0..rows.len() {
        cells.clear();
        add_cells(&mut cells, rows.row(i), &places)?;
        out.add(alloc, &cells)?;
    }
    Ok(())
}

/// Adds what the three give the variables: the first meets the second, and the pairs the third.
fn add_three(
    alloc: Global,
    codes: &Codes,
    a: &Candidates,
    b: &Candidates,
    c: &Candidates,
    vars: &[u32],
    out: &mut Distinct,
) -> Result<(), AllocError>
    requires within { (k : ℕ) → has vars.now k ≡ true → among (a.now ∷ b.now ∷ c.now ∷ []) k ≡ true }
    requires width { out.old.width ≡ length vars.now }
    ensures width { IfOk result (λ _. out.new.width ≡ out.old.width) }
    ensures kept { IfOk result (λ _. (r : List ℕ) → Contains out.old.rows r → Contains out.new.rows r) }
    ensures only { IfOk result (λ _. AddsOnly (IsGiven vars.now (a.now ∷ b.now ∷ c.now ∷ []) always) out.old.rows out.new.rows) }
    ensures all { IfOk result (λ _. HasEach (IsGiven vars.now (a.now ∷ b.now ∷ c.now ∷ []) always) out.new.rows) }
{
    let pairs = natural_join(alloc, codes, a, b)?;
    let closed = join_all(alloc, codes, &pairs, c, Vec::new(alloc), vars, None)?;
    add_given(alloc, &closed, vars, out)?;
    Ok(())
}

/// Whether the i-th row is in the block.
fn is_in_block(blocks: &[usize], i: usize, n: usize) -> bool
    requires { i < length blocks.now }
    ensures { IsTrue result ↔ (slice_index_or blocks.now i 0 ≡ n) }
{
    blocks[i] == n
}

/// The rows of the block.
fn block(
    alloc: Global,
    a: &Candidates,
    blocks: &[usize],
    n: usize,
) -> Result<Candidates, AllocError>
    requires { length blocks.now ≡ length a.now.rows }
    ensures { IfOk result (λ part. IsBlock a.now blocks.now n part) }
{
    let rows = a.rows();
    let mut some = Sheet::new(alloc, rows.width());
    for i in 0..rows.len() {
        let here = is_in_block(blocks, i, n);
        some.push_if(here, rows.row(i))?;
    }
    let part = a.with_rows(alloc, some)?;
    Ok(part)
}

/// Adds what the three give the variables: the first meets the second where the number is even, else
/// the third.
fn add_block(
    alloc: Global,
    codes: &Codes,
    three: &Three,
    n: usize,
    vars: &[u32],
    out: &mut Distinct,
) -> Result<(), AllocError>
    requires within { (k : ℕ) → has vars.now k ≡ true → among (edges_of three.now) k ≡ true }
    requires width { out.old.width ≡ length vars.now }
    ensures width { IfOk result (λ _. out.new.width ≡ out.old.width) }
    ensures kept { IfOk result (λ _. (r : List ℕ) → Contains out.old.rows r → Contains out.new.rows r) }
    ensures only { IfOk result (λ _. AddsOnly (IsGiven vars.now (edges_of three.now) always) out.old.rows out.new.rows) }
    ensures all { IfOk result (λ _. HasEach (IsGiven vars.now (edges_of three.now) always) out.new.rows) }
{
    let (a, b, c) = (three.first, three.second, three.third);
    if a.len() == 0 {
        return Ok(());
    }
    if n % 2 == 0 {
        add_three(alloc, codes, a, b, c, vars, out)?;
        return Ok(());
    }
    add_three(alloc, codes, a, c, b, vars, out)?;
    Ok(())
}

/// Adds the variable if it is wanted and isn't there.
fn add_one(vars: &mut Vec<u32>, x: u32, wanted: &[u32]) -> Result<(), AllocError>
    ensures kept { IfOk result (λ _. (k : ℕ) → has vars.old.items k ≡ true → has vars.new.items k ≡ true) }
    ensures had { IfOk result (λ _. has wanted.now x ≡ true → has vars.new.items x ≡ true) }
    ensures only { IfOk result (λ _. (k : ℕ) → has vars.new.items k ≡ true → (has vars.old.items k ≡ true) ⊎ (x ≡ k)) }
{
    if !is_in(wanted, x) {
        return Ok(());
    }
    if is_in(vars, x) {
        return Ok(());
    }
    vars.push(x)?;
    Ok(())
}

/// Adds the wanted ones of some variables that aren't there.
fn add_wanted(vars: &mut Vec<u32>, some: &[u32], wanted: &[u32]) -> Result<(), AllocError>
    ensures kept { IfOk result (λ _. (k : ℕ) → has vars.old.items k ≡ true → has vars.new.items k ≡ true) }
    ensures all { IfOk result (λ _. (k : ℕ) → has some.now k ≡ true → has wanted.now k ≡ true → has vars.new.items k ≡ true) }
    ensures only { IfOk result (λ _. (k : ℕ) → has vars.new.items k ≡ true → (has vars.old.items k ≡ true) ⊎ (has some.now k ≡ true)) }
{
    for x in some {
        add_one(vars, *x, wanted)?;
    }
    Ok(())
}

/// The wanted variables of the three.
fn wanted_of(
    alloc: Global,
    a: &Candidates,
    b: &Candidates,
    c: &Candidates,
    wanted: &[u32],
) -> Result<Vec<u32>, AllocError>
    ensures all { IfOk result (λ vars. (k : ℕ) → among (a.now ∷ b.now ∷ c.now ∷ []) k ≡ true → has wanted.now k ≡ true → has vars.items k ≡ true) }
    ensures only { IfOk result (λ vars. (k : ℕ) → has vars.items k ≡ true → among (a.now ∷ b.now ∷ c.now ∷ []) k ≡ true) }
{
    let mut vars = Vec::new(alloc);
    add_wanted(&mut vars, a.vars(), wanted)?;
    add_wanted(&mut vars, b.vars(), wanted)?;
    add_wanted(&mut vars, c.vars(), wanted)?;
    Ok(vars)
}

/// Adds what the three give the variables, block by block.
fn add_blocks(
    alloc: Global,
    codes: &Codes,
    three: &Three,
    blocks: &[usize],
    vars: &[u32],
    out: &mut Distinct,
) -> Result<(), AllocError>
    requires blocks { length blocks.now ≡ length three.now.first.now.rows }
    requires below { All (λ n. n < 64) blocks.now }
    requires within { (k : ℕ) → has vars.now k ≡ true → among (edges_of three.now) k ≡ true }
    requires width { out.old.width ≡ length vars.now }
    ensures width { IfOk result (λ _. out.new.width ≡ out.old.width) }
    ensures only { IfOk result (λ _. AddsOnly (IsGiven vars.now (edges_of three.now) always) out.old.rows out.new.rows) }
    ensures all { IfOk result (λ _. HasEach (IsGiven vars.now (edges_of three.now) always) out.new.rows) }
{
    for n in 0..BLOCKS {
        let part = block(alloc, three.first, blocks, n)?;
        let some = Three {
            first: &part,
            second: three.second,
            third: three.third,
        };
        add_block(alloc, codes, &some, n, vars, out)?;
    }
    Ok(())
}

/// What the three give the wanted variables, each list of values once.
pub fn join_three(
    alloc: Global,
    codes: &Codes,
    a: &Candidates,
    b: &Candidates,
    c: &Candidates,
    wanted: &[u32],
) -> Result<Candidates, AllocError>
    ensures keeps { IfOk result (λ g. Keeps g.vars (a.now ∷ b.now ∷ c.now ∷ []) always (g ∷ []) always) }
    ensures wanted { IfOk result (λ g. (k : ℕ) → among (a.now ∷ b.now ∷ c.now ∷ []) k ≡ true → has wanted.now k ≡ true → has g.vars k ≡ true) }
{
    let vars = wanted_of(alloc, a, b, c, wanted)?;
    let blocks = blocks_of(alloc, a, b, c)?;
    let mut out = Distinct::new(alloc, vars.len())?;
    let three = Three {
        first: a,
        second: b,
        third: c,
    };
    add_blocks(alloc, codes, &three, &blocks, &vars, &mut out)?;
    Ok(Candidates::new(vars, out.into_rows()))
}
