//! Candidates: variables, and the values that they may have together.
ghost use Rattle.std.specs.Prelude.{◌≡◌, ℕ, true, List, [], ◌∷◌, ◌++◌, length, All, Contains, IfOk};
ghost use Rattle.su_exec.specs.inside.Checks.{IsTestIn, all_pass};
ghost use Rattle.su_exec.specs.inside.Edges.{has, among};
ghost use Rattle.su_reduce.specs.Left.{marked};
ghost use Rattle.su_exec.specs.inside.Joins.{FitColumns, IsApart, IsJoinOf, IsReal, out_vars};
ghost use Rattle.su_exec.specs.inside.Semijoins.{IsSemijoin};
ghost use Rattle.su_exec.specs.inside.Plans.{FitsPlan, columns_of, passes_of};

use crate::checks::Test;
use crate::joins::{Plan, add_cells, join};
use crate::places::{shared_places, wanted_places};
use crate::semijoins::with_partners;
use std::alloc::{AllocError, Global};
use std::marker::Model;
use su_reduce::{Codes, Sheet};

/// Variables, and the lists of codes that they may have together.
pub struct Candidates {
    vars: Vec<u32>,
    rows: Sheet,
}

/// Not derived, so that it is a single call wherever candidates go out of scope.
impl Drop for Candidates {
    fn drop(self) {
        let Candidates { vars: _, rows: _ } = self;
    }
}

impl Model for Candidates {
    ghost use Rattle.std.specs.Prelude.{◌≡◌, ℕ, length};
    ghost use Rattle.su_exec.specs.inside.Edges.{Edge};
    ghost use Rattle.su_exec.specs.inside.Joins.{IsReal};

    ghost Value = { Edge ℕ };

    ghost view = { λ e. record { vars = e.vars.items; rows = e.rows.rows } };

    ghost invariant = { λ e. (e.rows.width ≡ length e.vars.items) × IsReal (record { vars = e.vars.items; rows = e.rows.rows }) };
}

impl Candidates {
    /// These rows.
    pub fn new(vars: Vec<u32>, rows: Sheet) -> Candidates
        requires width { rows.width ≡ length vars.items }
        requires real { IsReal (record { vars = vars.items; rows = rows.rows }) }
        ensures { result ≡ record { vars = vars.items; rows = rows.rows } }
    {
        Candidates { vars, rows }
    }

    /// These rows, over variables that differ.
    pub fn apart(vars: Vec<u32>, rows: Sheet) -> Candidates
        requires width { rows.width ≡ length vars.items }
        requires apart { IsApart vars.items }
        ensures { result ≡ record { vars = vars.items; rows = rows.rows } }
    {
        rows.keeps_its_rules();
        Candidates::new(vars, rows)
    }

    /// No variables, and the list of no values.
    pub fn unit(alloc: Global) -> Result<Candidates, AllocError>
        ensures { IfOk result (λ e. e ≡ record { vars = []; rows = [] ∷ [] }) }
    {
        let mut rows = Sheet::new(alloc, 0);
        rows.push(&[])?;
        Ok(Candidates::apart(Vec::new(alloc), rows))
    }

    /// Some of these rows, over the same variables.
    pub fn with_rows(&self, alloc: Global, rows: Sheet) -> Result<Candidates, AllocError>
        requires width { rows.width ≡ length self.now.vars }
        requires some { (r : List ℕ) → Contains rows.rows r → Contains self.now.rows r }
        ensures { IfOk result (λ e. e ≡ record { vars = self.now.vars; rows = rows.rows }) }
    {
        // For the proof: the rows are real.
        let _rows = self.rows();
        let vars = Vec::from_slice(alloc, &self.vars)?;
        Ok(Candidates::new(vars, rows))
    }

    /// Keeps the marked rows. It takes no memory.
    pub fn keep(&mut self, marks: &[bool])
        requires { length marks.now ≡ length self.old.rows }
        ensures { self.new ≡ record { vars = self.old.vars; rows = marked marks.now self.old.rows } }
    {
        self.rows.keep(marks);
    }

    /// The variables.
    pub fn vars(&self) -> &[u32]
        ensures { result.now ≡ self.now.vars }
    {
        &self.vars
    }

    /// How many rows there are.
    pub fn len(&self) -> usize
        ensures { result ≡ length self.now.rows }
    {
        self.rows.len()
    }

    /// The rows.
    pub fn rows(&self) -> &Sheet
        ensures rows { result.now.rows ≡ self.now.rows }
        ensures width { result.now.width ≡ length self.now.vars }
        ensures real { IsReal self.now }
    {
        &self.rows
    }
}

/// Which rows of the first have a partner in the second.
pub fn partners(alloc: Global, a: &Candidates, b: &Candidates) -> Result<Vec<bool>, AllocError>
    ensures length { IfOk result (λ marks. length marks.items ≡ length a.now.rows) }
    ensures semijoin { IfOk result (λ marks. IsSemijoin a.now b.now (record { vars = a.now.vars; rows = marked marks.items a.now.rows })) }
{
    let mut left = Vec::new(alloc);
    let mut right = Vec::new(alloc);
    shared_places(a.vars(), b.vars(), &mut left, &mut right)?;
    let marks = with_partners(alloc, a.rows(), &left, b.rows(), &right)?;
    Ok(marks)
}

/// The variables of the join by the plan.
fn vars_by(alloc: Global, plan: &Plan, a: &[u32], b: &[u32]) -> Result<Vec<u32>, AllocError>
    requires { FitColumns (columns_of plan.now) a.now b.now }
    ensures { IfOk result (λ vars. vars.items ≡ out_vars (columns_of plan.now) a.now b.now) }
{
    let mut vars = Vec::new(alloc);
    add_cells(&mut vars, a, &plan.left_out)?;
    add_cells(&mut vars, b, &plan.right_out)?;
    Ok(vars)
}

/// The join by the plan.
fn join_by(
    alloc: Global,
    codes: &Codes,
    plan: &Plan,
    a: &Candidates,
    b: &Candidates,
    most: Option<usize>,
) -> Result<Candidates, AllocError>
    requires fit { FitColumns (columns_of plan.now) a.now.vars b.now.vars }
    requires plan { FitsPlan plan.now (length a.now.vars) (length b.now.vars) }
    ensures vars { IfOk result (λ g. g.vars ≡ out_vars (columns_of plan.now) a.now.vars b.now.vars) }
    ensures joined { IfOk result (IsJoinOf a.now b.now (passes_of codes.now plan.now) most) }
{
    let vars = vars_by(alloc, plan, a.vars(), b.vars())?;
    let rows = join(alloc, codes, plan, a.rows(), b.rows(), most)?;
    Ok(Candidates::new(vars, rows))
}

/// The join of the pairs that pass the tests, of which only wanted variables are kept. Where there
/// are more than the bound, only some of them, but more than the bound.
pub fn join_all(
    alloc: Global,
    codes: &Codes,
    a: &Candidates,
    b: &Candidates,
    tests: Vec<Test>,
    wanted: &[u32],
    most: Option<usize>,
) -> Result<Candidates, AllocError>
    requires { All (IsTestIn (length a.now.vars) (length b.now.vars)) tests.items }
    ensures joined { IfOk result (IsJoinOf a.now b.now (all_pass codes.now tests.items) most) }
    ensures wanted { IfOk result (λ g. (k : ℕ) → among (a.now ∷ b.now ∷ []) k ≡ true → has wanted.now k ≡ true → has g.vars k ≡ true) }
    ensures only { IfOk result (λ g. (k : ℕ) → has g.vars k ≡ true → (has wanted.now k ≡ true) × (among (a.now ∷ b.now ∷ []) k ≡ true)) }
{
    let mut left_key = Vec::new(alloc);
    let mut right_key = Vec::new(alloc);
    shared_places(a.vars(), b.vars(), &mut left_key, &mut right_key)?;
    let left_out = wanted_places(alloc, a.vars(), &[], wanted)?;
    let right_out = wanted_places(alloc, b.vars(), a.vars(), wanted)?;
    let plan = Plan {
        left_key,
        right_key,
        left_out,
        right_out,
        tests,
    };
    let joined = join_by(alloc, codes, &plan, a, b, most)?;
    Ok(joined)
}
