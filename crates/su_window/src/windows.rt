//! The window of a database.
ghost use Rattle.std.specs.Prelude.{◌≡◌, ◌↔◌, ◌⊎◌, ◌<◌, ℕ, List as Items, length, All, Contains, IfOk, IfErr, OnOk, MatchOption};
ghost use Rattle.std.specs.List.Sorted.{IsStrictlySortedBy};
ghost use Rattle.su_base.specs.declared.values.Value.{Value as AValue};
ghost use Rattle.su_base.specs.Value.{compare_lists};
ghost use Rattle.su_tableau.specs.declared.symbols.Sym.{Sym as ASym};
ghost use Rattle.su_tableau.specs.declared.symbols.Sym.TheVariants.{Const, Var};
ghost use Rattle.su_tableau.specs.Tableaux.{AreBelow};
ghost use Rattle.su_chase.specs.inside.Rows.{name_by};
ghost use Rattle.su_schema.specs.Cuts.{width};
ghost use Rattle.su_window.specs.declared.faults.WindowFault.TheVariants.{NoMemory as OutOfMemory};
ghost use Rattle.su_window.specs.Window.{Fits, InWindow};
ghost use Rattle.su_window.specs.Members.{HasFew};
ghost use Rattle.su_window.specs.Refusals.{IsWindowRefusal};
ghost use Rattle.su_window.specs.Representative.{IsRepresentative, Represents};
ghost use Rattle.su_window.specs.inside.Readings.{AreConstants, AreConstantsIfAny, AreConstantsIn};

use crate::columns::all_columns;
use crate::faults::WindowFault;
use crate::padding::padded_rows;
use crate::readings::readings_of;
use std::alloc::Global;
use su_base::{List, NoMemory, Row, Value, sorted_rows};
use su_chase::{Closed, close};
use su_state::Database;
use su_tableau::Sym;

/// The constant that is the symbol's name, if it is one.
fn constant<'a>(names: &'a [Sym], x: &'a Sym) -> Option<&'a Value>
    requires { (k : ℕ) → x.now ≡ Var k → k < length names.now }
    ensures { MatchOption result ((c : AValue) → ¬ (name_by names.now x.now ≡ Const c)) (λ value. name_by names.now x.now ≡ Const value.now) }
{
    let name = match x {
        Sym::Const(_) => x,
        Sym::Var(k) => &names[*k as usize],
    };
    match name {
        Sym::Const(value) => Some(value),
        Sym::Var(_) => None,
    }
}

/// The constants that are the names of the row's symbols at the attributes, if all these are constants.
fn constants(
    alloc: Global,
    names: &[Sym],
    row: &[Sym],
    attributes: &[u8],
) -> Result<Option<Row>, NoMemory>
    requires below { AreBelow (length names.now) row.now }
    requires within { All (λ a. a < length row.now) attributes.now }
    ensures { IfOk result (AreConstantsIfAny names.now row.now attributes.now) }
{
    let mut values = List::new(alloc);
    for a in attributes {
        match constant(names, &row[*a as usize]) {
            Some(value) => values.push(value.copy(alloc)?)?,
            None => return Ok(None),
        }
    }
    Ok(Some(values))
}

/// Adds the constants of the row, if its names are constants at all the attributes.
fn push_constants(
    alloc: Global,
    names: &[Sym],
    row: &[Sym],
    attributes: &[u8],
    found: &mut List<Row>,
) -> Result<(), NoMemory>
    requires below { AreBelow (length names.now) row.now }
    requires within { All (λ a. a < length row.now) attributes.now }
    ensures { OnOk result ((h : Items AValue) → Contains found.new h ↔ (Contains found.old h ⊎ AreConstants names.now row.now attributes.now h)) }
{
    if let Some(values) = constants(alloc, names, row, attributes)? {
        found.push(values)?;
    }
    Ok(())
}

/// The constants of those rows whose names are constants at all the attributes.
fn constant_rows(
    alloc: Global,
    names: &[Sym],
    rows: &[List<Sym>],
    attributes: &[u8],
) -> Result<List<Row>, NoMemory>
    requires below { All (AreBelow (length names.now)) rows.now }
    requires within { All (λ row. All (λ a. a < length row) attributes.now) rows.now }
    ensures { IfOk result (λ found. (h : Items AValue) → Contains found h ↔ AreConstantsIn names.now rows.now attributes.now h) }
{
    let mut found = List::new(alloc);
    for row in rows {
        push_constants(alloc, names, row.as_slice(), attributes, &mut found)?;
    }
    Ok(found)
}

/// The representative instance of a database: the members of its views, padded, with the names that the
/// chase gives their symbols. It serves every window of the database until its rows or its schema change.
pub struct Representative {
    pub(crate) rows: List<List<Sym>>,
    pub(crate) names: List<Sym>,
}

/// Not derived, so that it is a single call wherever an instance goes out of scope above.
impl Drop for Representative {
    fn drop(self) {
        let Representative { rows: _, names: _ } = self;
    }
}

/// The representative instance, or why there is none. (Sagiv's; a weak instance as Honeyman has it is what
/// fits.) The time goes with the stored rows, and with the chase of at most 20,000 rows of the schema's width.
pub fn represent(alloc: Global, db: &Database) -> Result<Representative, WindowFault>
    ensures is { IfOk result (Represents db.now) }
    ensures refused { IfErr result (λ fault. (fault ≡ OutOfMemory) ⊎ IsWindowRefusal db.now fault) }
{
    db.keeps_its_rules();
    let columns = all_columns(alloc, db.schema())?;
    let readings = readings_of(alloc, db, columns.as_slice())?;
    let rows = padded_rows(alloc, db, columns.as_slice(), readings.as_slice())?;
    let Closed { names, clash } = close(alloc, db.schema().fds(), rows.as_slice())?;
    match clash {
        Some((less, greater)) => Err(WindowFault::Inconsistent { less, greater }),
        None => Ok(Representative { rows, names }),
    }
}

/// The window of the database that it represents on the attributes; an attribute may be given twice. (The
/// total projection of Maier, Ullman and Vardi.) The time goes with the members and the attributes.
pub fn window_of(
    alloc: Global,
    db: &Database,
    representative: &Representative,
    attributes: &[u8],
) -> Result<List<Row>, NoMemory>
    requires represents { Represents db.now representative.now }
    requires attributes { All (λ a. a < width db.now.schema) attributes.now }
    ensures exact { IfOk result (λ rows. (h : Items AValue) → Contains rows h ↔ InWindow db.now attributes.now h) }
    ensures ascending { IfOk result (λ rows. IsStrictlySortedBy compare_lists rows) }
    ensures fits { IfOk result (λ _. HasFew db.now × ((universe : Items (Items AValue)) × Fits db.now universe)) }
    ensures represented { IfOk result (λ _. (rows : Items (Items ASym)) × IsRepresentative db.now rows) }
{
    db.keeps_its_rules();
    let (rows, names) = (
        representative.rows.as_slice(),
        representative.names.as_slice(),
    );
    let found = constant_rows(alloc, names, rows, attributes)?;
    Ok(sorted_rows(found))
}

/// The rows over the attributes that every universal relation has which meets the dependencies and
/// includes the stored rows; an attribute may be given twice: `represent`, and then `window_of`.
pub fn window(alloc: Global, db: &Database, attributes: &[u8]) -> Result<List<Row>, WindowFault>
    requires attributes { All (λ a. a < width db.now.schema) attributes.now }
    ensures exact { IfOk result (λ rows. (h : Items AValue) → Contains rows h ↔ InWindow db.now attributes.now h) }
    ensures ascending { IfOk result (λ rows. IsStrictlySortedBy compare_lists rows) }
    ensures fits { IfOk result (λ _. HasFew db.now × ((universe : Items (Items AValue)) × Fits db.now universe)) }
    ensures represented { IfOk result (λ _. (rows : Items (Items ASym)) × IsRepresentative db.now rows) }
    ensures refused { IfErr result (λ fault. (fault ≡ OutOfMemory) ⊎ IsWindowRefusal db.now fault) }
{
    let representative = represent(alloc, db)?;
    Ok(window_of(alloc, db, &representative, attributes)?)
}
