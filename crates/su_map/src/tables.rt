//! Which rows share a variable, and which of their targets agree.
ghost use Rattle.std.specs.Prelude.{◌≡◌, ◌≢◌, ◌≤◌, ◌<◌, ◌+◌, ◌*◌, ◌↔◌, ℕ, IsTrue, IsFalse, IfSome, length, get_or, Contains, Some, None};
ghost use Rattle.std.specs.Int.{bit_at};
ghost use Rattle.su_tableau.specs.declared.symbols.Sym.{Sym as ASym};
ghost use Rattle.su_tableau.specs.declared.symbols.Sym.TheVariants.{Var};
ghost use Rattle.su_tableau.specs.Tableaux.{AreBelow, AreVarsBelow};
ghost use Rattle.su_map.specs.Lists.{row_of};
ghost use Rattle.su_map.specs.inside.Nets.{HasNear};
ghost use Rattle.su_tableau.specs.Parts.{Cell};
ghost use Rattle.su_map.specs.inside.Targets.{IsPlain, AreNoted, AreShared, AreAlike, AreSides, AreTold, IsToldAt, AreToldAt, IsTold, IsRowTold, AreAllTold, HasNearby};
ghost use Rattle.su_map.specs.inside.Sendings.{AreRows};

use crate::bits::either;
use crate::columns::{column_of, holding};
use crate::sides::Sides;
use su_tableau::{Sym, Tableau, both, has, with, without};

/// Notes the row at the symbol's variable; whether it was noted there before.
fn note(rows_of: &mut [u64], x: &Sym, i: usize) -> bool
    requires below { (k : ℕ) → x.now ≡ Var k → k < length rows_of.old }
    requires small { i < 64 }
    ensures kept { (k q : ℕ) → bit_at (get_or rows_of.old k 0) q ≡ 1 → bit_at (get_or rows_of.new k 0) q ≡ 1 }
    ensures noted { (k : ℕ) → x.now ≡ Var k → bit_at (get_or rows_of.new k 0) i ≡ 1 }
    ensures again { (k : ℕ) → x.now ≡ Var k → bit_at (get_or rows_of.old k 0) i ≡ 1 → IsTrue result }
{
    let mut again = false;
    if let Sym::Var(k) = x {
        again = has(rows_of[*k as usize], i);
        let noted = with(rows_of[*k as usize], i);
        rows_of[*k as usize] = noted;
    }
    again
}

/// Notes the row at each of its variables; false where none of them stands at two columns.
fn note_row(rows_of: &mut [u64], row: &[Sym], i: usize) -> bool
    requires below { AreBelow (length rows_of.old) row.now }
    requires small { i < 64 }
    ensures kept { (k q : ℕ) → bit_at (get_or rows_of.old k 0) q ≡ 1 → bit_at (get_or rows_of.new k 0) q ≡ 1 }
    ensures noted { (k : ℕ) → Contains row.now (Var k) → bit_at (get_or rows_of.new k 0) i ≡ 1 }
    ensures plain { IsFalse result → IsPlain row.now }
{
    let mut repeats = false;
    for x in row {
        let again = note(rows_of, x, i);
        repeats = repeats || again;
    }
    repeats
}

/// Notes the row at each of its variables if it is in the mask.
fn note_masked(rows_of: &mut [u64], from: &Tableau, mask: u64, i: usize) -> bool
    requires row { i < length from.now.rows }
    requires symbols { AreVarsBelow (length rows_of.old) from.now }
    ensures kept { (k q : ℕ) → bit_at (get_or rows_of.old k 0) q ≡ 1 → bit_at (get_or rows_of.new k 0) q ≡ 1 }
    ensures noted { bit_at mask i ≡ 1 → (k : ℕ) → Contains (row_of from.now i) (Var k) → bit_at (get_or rows_of.new k 0) i ≡ 1 }
    ensures plain { bit_at mask i ≡ 1 → IsFalse result → IsPlain (row_of from.now i) }
{
    from.keeps_its_rules();
    if !has(mask, i) {
        return false;
    }
    note_row(rows_of, from.row(i), i)
}

/// Notes each row of the mask at its variables. The rows of which some variable stands at two
/// columns, and maybe others.
pub fn note_rows(rows_of: &mut [u64], from: &Tableau, mask: u64) -> u64
    requires { AreVarsBelow (length rows_of.old) from.now }
    ensures noted { AreNoted from.now mask rows_of.new }
    ensures plain { (i : ℕ) → i < length from.now.rows → bit_at mask i ≡ 1 → (bit_at result i ≡ 1 → ⊥) → IsPlain (row_of from.now i) }
{
    rows_of.fill(0);
    let mut repeating = 0;
    for i in 0..from.row_count() {
        let repeats = note_masked(rows_of, from, mask, i);
        if repeats {
            repeating = with(repeating, i);
        }
    }
    repeating
}

/// The rows noted at the variable if there is another than row i, and the head does not have it.
fn rows_besides(rows: u64, head: &[Sym], k: u32, i: usize) -> u64
    requires { i < 64 }
    ensures { (q : ℕ) → (Contains head.now (Var k) → ⊥) → i ≢ q → bit_at rows q ≡ 1 → bit_at result q ≡ 1 }
{
    let others = without(rows, i);
    if others == 0 {
        return 0;
    }
    match column_of(head, k) {
        Some(_) => 0,
        None => rows,
    }
}

/// The rows besides row i noted at the symbol's variable if it is not in the head, and maybe row i.
fn rows_at(rows_of: &[u64], head: &[Sym], x: &Sym, i: usize) -> u64
    requires below { (k : ℕ) → x.now ≡ Var k → k < length rows_of.now }
    requires small { i < 64 }
    ensures { (k q : ℕ) → x.now ≡ Var k → (Contains head.now (Var k) → ⊥) → i ≢ q → bit_at (get_or rows_of.now k 0) q ≡ 1 → bit_at result q ≡ 1 }
{
    match x {
        Sym::Var(k) => rows_besides(rows_of[*k as usize], head, *k, i),
        Sym::Const(_) => 0,
    }
}

/// The rows besides row i that were noted at the row's variables which are not in the head.
fn rows_near(rows_of: &[u64], head: &[Sym], row: &[Sym], i: usize) -> u64
    requires small { i < 64 }
    requires below { AreBelow (length rows_of.now) row.now }
    ensures { (k q : ℕ) → Contains row.now (Var k) → (Contains head.now (Var k) → ⊥) → i ≢ q → bit_at (get_or rows_of.now k 0) q ≡ 1 → bit_at result q ≡ 1 }
{
    let mut rows = 0;
    for x in row {
        rows = either(rows, rows_at(rows_of, head, x, i));
    }
    rows
}

/// The other rows that were noted at the variables of a masked row which are not in the head.
fn nearby(rows_of: &[u64], from: &Tableau, mask: u64, i: usize) -> u64
    requires row { i < length from.now.rows }
    requires symbols { AreVarsBelow (length rows_of.now) from.now }
    ensures { HasNearby from.now mask rows_of.now i result }
{
    from.keeps_its_rules();
    if !has(mask, i) {
        return 0;
    }
    rows_near(rows_of, from.head(), from.row(i), i)
}

/// For each masked row the masked rows that share a variable with it.
pub fn fill_near(near: &mut [u64], rows_of: &[u64], from: &Tableau, mask: u64)
    requires room { length from.now.rows ≤ length near.old }
    requires symbols { AreVarsBelow (length rows_of.now) from.now }
    requires noted { AreNoted from.now mask rows_of.now }
    ensures { HasNear from.now mask near.new }
{
    for i in 0..from.row_count() {
        let rows = nearby(rows_of, from, mask, i);
        near[i] = rows;
    }
}

/// The symbol's column in the other row, whose number is i; none for a constant and a head variable.
fn shared_at(rows_of: &[u64], i: usize, head: &[Sym], other: &[Sym], x: &Sym) -> Option<usize>
    requires small { i < 64 }
    requires below { (k : ℕ) → x.now ≡ Var k → k < length rows_of.now }
    requires noted { (k : ℕ) → Contains other.now (Var k) → bit_at (get_or rows_of.now k 0) i ≡ 1 }
    ensures some { IfSome result (λ c. (k : ℕ) × (x.now ≡ Var k) × Cell other.now c (Var k)) }
    ensures none { result ≡ None → (k : ℕ) → x.now ≡ Var k → Contains other.now (Var k) → Contains head.now (Var k) }
{
    let Sym::Var(k) = x else {
        return None;
    };
    if !has(rows_of[*k as usize], i) {
        return None;
    }
    match column_of(head, *k) {
        Some(_) => None,
        None => column_of(other, *k),
    }
}

/// For each column of the row its variable's column in the other row, whose number is i.
pub fn fill_shared(
    columns: &mut [Option<usize>],
    rows_of: &[u64],
    i: usize,
    head: &[Sym],
    other: &[Sym],
    row: &[Sym],
)
    requires room { length row.now ≤ length columns.old }
    requires small { i < 64 }
    requires below { AreBelow (length rows_of.now) row.now }
    requires noted { (k : ℕ) → Contains other.now (Var k) → bit_at (get_or rows_of.now k 0) i ≡ 1 }
    ensures { AreShared head.now other.now row.now columns.new }
{
    for c in 0..row.len() {
        let at = shared_at(rows_of, i, head, other, &row[c]);
        columns[c] = at;
    }
}

/// The targets in the set that hold at the column what the target holds at the column shared.
fn agreeing_at(
    shared: Option<usize>,
    column: usize,
    alike: &[u64],
    to: &Tableau,
    target: usize,
    set: u64,
) -> u64
    requires room { 8192 ≤ length alike.now }
    requires alike { AreAlike to.now alike.now }
    requires column { column < to.now.width }
    requires target { target < length to.now.rows }
    requires shared { (c : ℕ) → shared ≡ Some c → c < to.now.width }
    requires within { (j : ℕ) → bit_at set j ≡ 1 → j < length to.now.rows }
    ensures { IsToldAt to.now shared column target set result }
{
    to.keeps_its_rules();
    match shared {
        Some(c) => {
            if c == column {
                return both(set, alike[column * 64 + target]);
            }
            holding(to, column, &to.row(target)[c], set)
        }
        None => set,
    }
}

/// The targets in the set that hold what the target holds at the columns shared.
pub fn agreeing(
    columns: &[Option<usize>],
    alike: &[u64],
    to: &Tableau,
    target: usize,
    set: u64,
) -> u64
    requires table { 8192 ≤ length alike.now }
    requires alike { AreAlike to.now alike.now }
    requires target { target < length to.now.rows }
    requires columns { (e c : ℕ) → e < to.now.width → get_or columns.now e None ≡ Some c → c < to.now.width }
    requires room { to.now.width ≤ length columns.now }
    requires within { (j : ℕ) → bit_at set j ≡ 1 → j < length to.now.rows }
    ensures { AreTold to.now columns.now target set result }
{
    let mut left = set;
    for e in 0..to.width() as usize {
        left = agreeing_at(columns[e], e, alike, to, target, left);
    }
    left
}

/// Begins the table of a pair: for each target of row i all of row q.
fn begin_pair(agree: &mut [u64], to: &Tableau, start: usize, others: u64)
    requires room { start + 64 ≤ length agree.old }
    ensures before { (x : ℕ) → x < start → get_or agree.new x 0 ≡ get_or agree.old x 0 }
    ensures begun { (p : ℕ) → p < length to.now.rows → get_or agree.new (start + p) 0 ≡ others }
{
    for p in 0..to.row_count() {
        agree[start + p] = others;
    }
}

/// Takes from the sets of the targets what does not hold at the column what the target holds at the
/// column shared.
fn agree_at(
    agree: &mut [u64],
    shared: Option<usize>,
    column: usize,
    alike: &[u64],
    to: &Tableau,
    start: usize,
    targets: u64,
)
    requires room { start + 64 ≤ length agree.old }
    requires table { 8192 ≤ length alike.now }
    requires alike { AreAlike to.now alike.now }
    requires column { column < to.now.width }
    requires shared { (c : ℕ) → shared ≡ Some c → c < to.now.width }
    requires within { (p j : ℕ) → p < length to.now.rows → bit_at targets p ≡ 1 → bit_at (get_or agree.old (start + p) 0) j ≡ 1 → j < length to.now.rows }
    ensures before { (x : ℕ) → x < start → get_or agree.new x 0 ≡ get_or agree.old x 0 }
    ensures told { AreToldAt to.now targets shared column start agree.old agree.new }
{
    match shared {
        None => return,
        Some(_) => {}
    }
    for p in 0..to.row_count() {
        if has(targets, p) {
            let told = agreeing_at(shared, column, alike, to, p, agree[start + p]);
            agree[start + p] = told;
        }
    }
}

/// For each target of row i the targets of row q that agree with it, column by column.
fn fill_pair(
    agree: &mut [u64],
    columns: &[Option<usize>],
    alike: &[u64],
    to: &Tableau,
    start: usize,
    targets: u64,
    others: u64,
)
    requires room { start + 64 ≤ length agree.old }
    requires table { 8192 ≤ length alike.now }
    requires alike { AreAlike to.now alike.now }
    requires columns { (e c : ℕ) → e < to.now.width → get_or columns.now e None ≡ Some c → c < to.now.width }
    requires width { to.now.width ≤ length columns.now }
    requires within { (j : ℕ) → bit_at others j ≡ 1 → j < length to.now.rows }
    ensures before { (x : ℕ) → x < start → get_or agree.new x 0 ≡ get_or agree.old x 0 }
    ensures filled { (p : ℕ) → p < length to.now.rows → bit_at targets p ≡ 1 → AreTold to.now columns.now p others (get_or agree.new (start + p) 0) }
{
    begin_pair(agree, to, start, others);
    for e in 0..to.width() as usize {
        agree_at(agree, columns[e], e, alike, to, start, targets);
    }
}

/// For each masked row that shares a variable with row i the targets that agree with those of row i.
fn fill_row(
    agree: &mut [u64],
    columns: &mut [Option<usize>],
    sides: &Sides,
    base: &[u64],
    near: u64,
    i: usize,
)
    requires room { (i + 1) * 4096 ≤ length agree.old }
    requires columns { sides.now.from.now.width ≤ length columns.old }
    requires sides { AreSides sides.now.from.now sides.now.mask sides.now.to.now sides.now.rows_of.now sides.now.alike.now }
    requires row { i < length sides.now.from.now.rows }
    requires in_mask { bit_at sides.now.mask i ≡ 1 }
    requires base { length sides.now.from.now.rows ≤ length base.now }
    requires within { AreRows sides.now.from.now sides.now.mask sides.now.to.now base.now }
    ensures before { (x : ℕ) → x < i * 4096 → get_or agree.new x 0 ≡ get_or agree.old x 0 }
    ensures filled { IsRowTold sides.now.from.now sides.now.mask sides.now.to.now base.now i near agree.new }
{
    let from = sides.from;
    for q in 0..from.row_count() {
        if q != i && has(sides.mask, q) && has(near, q) {
            fill_shared(
                columns,
                sides.rows_of,
                i,
                from.head(),
                from.row(i),
                from.row(q),
            );
            fill_pair(
                agree,
                columns,
                sides.alike,
                sides.to,
                i * 4096 + q * 64,
                base[i],
                base[q],
            );
        }
    }
}

/// For each pair of masked rows that share a variable the targets that agree.
pub fn fill_agree(
    agree: &mut [u64],
    columns: &mut [Option<usize>],
    sides: &Sides,
    base: &[u64],
    near: &[u64],
)
    requires room { length sides.now.from.now.rows * 4096 ≤ length agree.old }
    requires columns { sides.now.from.now.width ≤ length columns.old }
    requires sides { AreSides sides.now.from.now sides.now.mask sides.now.to.now sides.now.rows_of.now sides.now.alike.now }
    requires base { length sides.now.from.now.rows ≤ length base.now }
    requires near { length sides.now.from.now.rows ≤ length near.now }
    requires within { AreRows sides.now.from.now sides.now.mask sides.now.to.now base.now }
    ensures { AreAllTold sides.now.from.now sides.now.mask sides.now.to.now base.now near.now agree.new }
{
    for i in 0..sides.from.row_count() {
        if has(sides.mask, i) {
            fill_row(agree, columns, sides, base, near[i], i);
        }
    }
}
