//! A body: candidates that are to agree, and checks that are to hold. It is merged to one.
ghost use Rattle.std.specs.Prelude.{◌≡◌, ◌<◌, ◌+◌, ◌++◌, ◌⊎◌, ℕ, true, [], ◌∷◌, length, All, None, IfOk, IsTrue, MatchBool};
ghost use Rattle.su_exec.specs.inside.Bodies.{AreAlone, AreThere, IsMerged, IsRest, IsTold, IsWanted, gone, still};
ghost use Rattle.su_exec.specs.inside.Checks.{IsTestIn, all_hold, all_pass, check_vars, vars_of};
ghost use Rattle.su_exec.specs.inside.Edges.{Fits, Keeps, always, among, has};
ghost use Rattle.su_exec.specs.inside.Kept.{AreStillThere, GivesNone, GivesSome, IsEndOf, IsStepOf, KeepsBody, KeepsShrunk};
ghost use Rattle.su_exec.specs.inside.Sifts.{AreMarks, IsSifted};

use crate::candidates::{Candidates, join_all};
use crate::checks::{Check, CodedSymbol, Test, passes, take_tests};
use crate::cycles::close_cycles;
use crate::joins::is_past;
use crate::narrowing::narrow;
use crate::order::choose;
use crate::places::is_in;
use crate::reducing::{has_empty, reduce};
use crate::threes::cyclic_count;
use std::alloc::{AllocError, Global};
use su_reduce::Codes;

/// Candidates that are to agree, and checks that are to hold.
#[derive(Drop)]
pub struct Body {
    pub edges: Vec<Candidates>,
    pub checks: Vec<Check>,
}

/// Two that are taken out of a body, to be joined.
struct Pair {
    first: Candidates,
    second: Candidates,
}

/// Not derived, so that it is a single call wherever a pair goes out of scope.
impl Drop for Pair {
    fn drop(self) {
        let Pair {
            first: _,
            second: _,
        } = self;
    }
}

/// What a body comes to.
#[derive(Drop)]
pub enum Merged {
    /// What it gives the needed variables.
    Whole(Candidates),
    /// It gives them more lists of values than were asked for.
    Over,
    /// It gives nothing.
    Nothing,
}

/// What a step makes of a body.
#[derive(Clone, Copy)]
pub enum Step {
    /// Two are merged into one.
    Joined,
    /// Two are taken out that have nothing to do with the rest, and give more lists of needed values
    /// than were asked for.
    Past,
}

/// How the merging of a body ends.
#[derive(Clone, Copy)]
pub enum End {
    /// One is left.
    One,
    /// Two were past what was asked for, and the rest is left.
    Past,
    /// One of them has no rows.
    Empty,
}

/// Puts the term's variable after what is there.
pub fn add_variable(vars: &mut Vec<u32>, term: CodedSymbol) -> Result<(), AllocError>
    ensures { IfOk result (λ _. vars.new.items ≡ vars.old.items ++ vars_of term) }
{
    if let CodedSymbol::Variable(k) = term {
        vars.push(k)?;
    }
    Ok(())
}

/// The needed variables and those of the body.
#[tactic(auto, using(crate::proofs::CheckTests::check_steps))]
pub fn wanted_by(alloc: Global, body: &Body, needed: &[u32]) -> Result<Vec<u32>, AllocError>
    ensures needed { IfOk result (λ wanted. (k : ℕ) → has needed.now k ≡ true → has wanted.items k ≡ true) }
    ensures edges { IfOk result (λ wanted. (k : ℕ) → among body.now.edges.items k ≡ true → has wanted.items k ≡ true) }
    ensures checks { IfOk result (λ wanted. (k : ℕ) → has (check_vars body.now.checks.items) k ≡ true → has wanted.items k ≡ true) }
    ensures only { IfOk result (λ wanted. (k : ℕ) → has wanted.items k ≡ true → IsWanted needed.now body.now.edges.items body.now.checks.items k) }
{
    let mut wanted = Vec::from_slice(alloc, needed)?;
    for edge in &body.edges {
        wanted.extend_from_slice(edge.vars())?;
    }
    for check in &body.checks {
        add_variable(&mut wanted, check.left)?;
        add_variable(&mut wanted, check.right)?;
    }
    Ok(wanted)
}

/// The pairs of variables that checks compare.
fn compared_by(alloc: Global, checks: &[Check]) -> Result<Vec<(u32, u32)>, AllocError> {
    let mut compared = Vec::new(alloc);
    for check in checks {
        if let (CodedSymbol::Variable(x), CodedSymbol::Variable(y)) = (check.left, check.right) {
            compared.push((x, y))?;
        }
    }
    Ok(compared)
}

/// The pair to join next.
fn chosen(alloc: Global, body: &Body) -> Result<(usize, usize), AllocError>
    requires { 1 < length body.now.edges.items }
    ensures { IfOk result (λ p. (p.0 < p.1) × (p.1 < length body.now.edges.items)) }
{
    let compared = compared_by(alloc, &body.checks)?;
    let pair = choose(alloc, &body.edges, &compared)?;
    Ok(pair)
}

/// Whether none of the variables is another's.
fn are_alone(vars: &[u32], others: &[u32]) -> bool
    ensures { IsTrue result → AreAlone vars.now others.now }
{
    for x in vars {
        if is_in(others, *x) {
            return false;
        }
    }
    true
}

/// The bound, where none of the variables is another's; else none.
fn bound_of(left: &[u32], right: &[u32], others: &[u32], most: Option<usize>) -> Option<usize>
    ensures { (result ≡ None) ⊎ ((result ≡ most) × AreAlone left.now others.now × AreAlone right.now others.now) }
{
    if are_alone(left, others) && are_alone(right, others) {
        return most;
    }
    None
}

/// Whether each variable is wanted.
fn are_wanted(vars: &[u32], wanted: &[u32]) -> bool {
    vars.iter().all(|x| is_in(wanted, *x))
}

/// Which rows pass the tests, each beside itself.
fn passing_marks(
    alloc: Global,
    codes: &Codes,
    a: &Candidates,
    tests: &[Test],
) -> Result<Vec<bool>, AllocError>
    requires { All (IsTestIn (length a.now.vars) (length a.now.vars)) tests.now }
    ensures length { IfOk result (λ marks. length marks.items ≡ length a.now.rows) }
    ensures exact { IfOk result (λ marks. AreMarks (all_pass codes.now tests.now) a.now.rows (length a.now.rows) marks.items) }
{
    let mut marks = Vec::with_capacity(alloc, a.len())?;
    for i in 0..a.len() {
        let row = a.rows().row(i);
        marks.push(passes(codes, tests, row, row))?;
    }
    Ok(marks)
}

/// Takes the rows out that fail the tests.
fn sift(alloc: Global, codes: &Codes, a: &mut Candidates, tests: &[Test]) -> Result<(), AllocError>
    requires { All (IsTestIn (length a.old.vars) (length a.old.vars)) tests.now }
    ensures { IfOk result (λ _. IsSifted (all_pass codes.now tests.now) a.old a.new) }
{
    if tests.is_empty() {
        return Ok(());
    }
    let marks = passing_marks(alloc, codes, a, tests)?;
    a.keep(&marks);
    Ok(())
}

/// The candidates that meet the checks on them alone, without the columns that nothing needs.
fn shrunk(
    alloc: Global,
    codes: &Codes,
    a: Candidates,
    rest: &mut Body,
    needed: &[u32],
) -> Result<Candidates, AllocError>
    ensures keeps { IfOk result (λ g. KeepsShrunk needed.now codes.now a rest.old g rest.new) }
    ensures edges { rest.new.edges.items ≡ rest.old.edges.items }
    ensures there { IfOk result (λ g. AreStillThere needed.now a rest.old g rest.new) }
    ensures settled { IfOk result (λ _. rest.old.edges.items ≡ [] → AreThere needed.now rest.old.checks.items (a ∷ []) → rest.new.checks.items ≡ []) }
{
    let tests = take_tests(alloc, &mut rest.checks, a.vars(), a.vars())?;
    let wanted = wanted_by(alloc, rest, needed)?;
    if are_wanted(a.vars(), &wanted) {
        let mut sifted = a;
        sift(alloc, codes, &mut sifted, &tests)?;
        return Ok(sifted);
    }
    let joined = join_all(alloc, codes, &a, &a, tests, &wanted, None)?;
    Ok(joined)
}

/// Each checked and shrunk by itself.
fn shrink_all(
    alloc: Global,
    codes: &Codes,
    body: &mut Body,
    needed: &[u32],
) -> Result<(), AllocError>
    requires { AreThere needed.now body.old.checks.items body.old.edges.items }
    ensures keeps { IfOk result (λ _. KeepsBody needed.now codes.now body.old body.new) }
    ensures there { IfOk result (λ _. AreThere needed.now body.new.checks.items body.new.edges.items) }
    ensures length { IfOk result (λ _. length body.new.edges.items ≡ length body.old.edges.items) }
{
    for _ in 0..body.edges.len() {
        let a = body.edges.remove(0);
        let joined = shrunk(alloc, codes, a, body, needed)?;
        body.edges.push(joined)?;
    }
    Ok(())
}

/// Merges two into one; or takes them out, where they have nothing to do with the rest, and give more
/// lists than the bound of needed values.
fn merge_next(
    alloc: Global,
    codes: &Codes,
    body: &mut Body,
    needed: &[u32],
    most: Option<usize>,
) -> Result<Step, AllocError>
    requires some { 1 < length body.old.edges.items }
    requires there { AreThere needed.now body.old.checks.items body.old.edges.items }
    ensures merged { IfOk result (IsStepOf needed.now most codes.now body.old body.new) }
    ensures there { IfOk result (λ step. AreThere (still needed.now step) body.new.checks.items body.new.edges.items) }
    ensures length { IfOk result (λ step. length body.new.edges.items + gone step ≡ length body.old.edges.items) }
    ensures last { IfOk result (λ _. body.new.edges.items ≡ [] → body.new.checks.items ≡ []) }
{
    let (i, j) = chosen(alloc, body)?;
    let b = body.edges.remove(j);
    let a = body.edges.remove(i);
    let pair = Pair {
        first: a,
        second: b,
    };
    let tests = take_tests(
        alloc,
        &mut body.checks,
        pair.first.vars(),
        pair.second.vars(),
    )?;
    let others = wanted_by(alloc, body, &[])?;
    let bound = bound_of(pair.first.vars(), pair.second.vars(), &others, most);
    let wanted = wanted_by(alloc, body, needed)?;
    let joined = join_all(
        alloc,
        codes,
        &pair.first,
        &pair.second,
        tests,
        &wanted,
        bound,
    )?;
    if is_past(joined.rows().len(), bound) {
        return Ok(Step::Past);
    }
    body.edges.push(joined)?;
    Ok(Step::Joined)
}

/// Merges two after two, and closes cycles first and in between, until one is left, or two are past the
/// bound, or one has no rows.
fn merge_down(
    alloc: Global,
    codes: &Codes,
    body: &mut Body,
    needed: &[u32],
    most: Option<usize>,
) -> Result<End, AllocError>
    requires some { 0 < length body.old.edges.items }
    requires there { AreThere needed.now body.old.checks.items body.old.edges.items }
    ensures end { IfOk result (IsEndOf needed.now most codes.now body.old body.new) }
    ensures there { IfOk result (IsRest needed.now body.new.edges.items body.new.checks.items) }
{
    let times = cyclic_count(alloc, &body.edges)?;
    close_cycles(alloc, codes, body, needed, times)?;
    while body.edges.len() > 1 {
        if has_empty(&body.edges) {
            return Ok(End::Empty);
        }
        let step = merge_next(alloc, codes, body, needed, most)?;
        match step {
            Step::Past => return Ok(End::Past),
            Step::Joined => {}
        }
        close_cycles(alloc, codes, body, needed, times)?;
    }
    Ok(End::One)
}

/// What the one that is left gives the needed variables.
fn last_of(
    alloc: Global,
    codes: &Codes,
    body: Body,
    needed: &[u32],
) -> Result<Candidates, AllocError>
    requires one { length body.edges.items ≡ 1 }
    requires there { AreThere needed.now body.checks.items body.edges.items }
    ensures keeps { IfOk result (λ g. Keeps needed.now body.edges.items (all_hold codes.now body.checks.items) (g ∷ []) always) }
    ensures vars { IfOk result (λ g. (k : ℕ) → has needed.now k ≡ true → has g.vars k ≡ true) }
{
    let mut body = body;
    let last = body.edges.remove(0);
    let whole = shrunk(alloc, codes, last, &mut body, needed)?;
    Ok(whole)
}

/// Whether there are candidates.
fn has_rows(edge: &Candidates) -> bool
    ensures { MatchBool result ((v : ℕ → ℕ) × Fits v edge.now) ((v : ℕ → ℕ) → ¬ Fits v edge.now) }
{
    edge.rows().len() > 0
}

/// Whether the body gives anything.
fn exists(alloc: Global, codes: &Codes, body: Body) -> Result<bool, AllocError>
    requires there { AreThere [] body.checks.items body.edges.items }
    requires last { body.edges.items ≡ [] → body.checks.items ≡ [] }
    ensures { IfOk result (λ some. MatchBool some (GivesSome codes.now body) (GivesNone codes.now body)) }
{
    if body.edges.is_empty() {
        return Ok(true);
    }
    let mut rest = body;
    let end = merge_down(alloc, codes, &mut rest, &[], None)?;
    match end {
        End::Empty => Ok(false),
        End::Past => unreachable!(),
        End::One => {
            let last = last_of(alloc, codes, rest, &[])?;
            Ok(has_rows(&last))
        }
    }
}

/// What is said of a body where a part of it is past the bound, by whether the rest gives anything.
fn told(alloc: Global, codes: &Codes, rest: Body) -> Result<Merged, AllocError>
    requires there { AreThere [] rest.checks.items rest.edges.items }
    requires last { rest.edges.items ≡ [] → rest.checks.items ≡ [] }
    ensures { IfOk result (IsTold rest.edges.items (all_hold codes.now rest.checks.items)) }
{
    let some = exists(alloc, codes, rest)?;
    if some {
        return Ok(Merged::Over);
    }
    Ok(Merged::Nothing)
}

/// The body shrunk: without rows that its checks or the lack of a partner exclude, and without ears of
/// which nothing more is wanted.
fn cut_down(alloc: Global, codes: &Codes, body: Body, needed: &[u32]) -> Result<Body, AllocError>
    requires some { 0 < length body.edges.items }
    requires there { AreThere needed.now body.checks.items body.edges.items }
    ensures some { IfOk result (λ rest. 0 < length rest.edges.items) }
    ensures there { IfOk result (λ rest. AreThere needed.now rest.checks.items rest.edges.items) }
    ensures keeps { IfOk result (KeepsBody needed.now codes.now body) }
{
    let mut body = body;
    shrink_all(alloc, codes, &mut body, needed)?;
    let Body { mut edges, checks } = body;
    narrow(alloc, codes, &mut edges, &checks)?;
    let rest = reduce(alloc, Body { edges, checks }, needed)?;
    Ok(rest)
}

/// What the body gives the needed variables, or that it gives them more lists than the bound of values.
pub fn run(
    alloc: Global,
    codes: &Codes,
    body: Body,
    needed: &[u32],
    most: Option<usize>,
) -> Result<Merged, AllocError>
    requires some { 0 < length body.edges.items }
    requires there { AreThere needed.now body.checks.items body.edges.items }
    ensures { IfOk result (IsMerged needed.now most body.edges.items (all_hold codes.now body.checks.items)) }
{
    let mut rest = cut_down(alloc, codes, body, needed)?;
    let end = merge_down(alloc, codes, &mut rest, needed, most)?;
    match end {
        End::Empty => Ok(Merged::Nothing),
        End::Past => {
            let merged = told(alloc, codes, rest)?;
            Ok(merged)
        }
        End::One => {
            let whole = last_of(alloc, codes, rest, needed)?;
            Ok(Merged::Whole(whole))
        }
    }
}
