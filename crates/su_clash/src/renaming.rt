//! What symbols are called once others are put in their place.
ghost use Rattle.std.specs.Prelude.{◌≡◌, IfOk, MatchOption};
ghost use Rattle.su_clash.specs.inside.Renames as naming;

use std::alloc::Global;
use su_base::{List, NoMemory, Value};
use su_tableau::Sym;

/// A symbol that goes, and the one that takes its place.
#[derive(Debug, Drop)]
pub struct Rename {
    pub from: Sym,
    pub to: Sym,
}

/// Two constants that are put together.
#[derive(Debug, Drop)]
pub struct Pair {
    pub one: Value,
    pub other: Value,
}

/// Equal renames of their own.
pub fn copy_renames(alloc: Global, renames: &[Rename]) -> Result<List<Rename>, NoMemory>
    ensures { IfOk result (λ copies. copies ≡ renames.now) }
{
    let mut copies = List::new(alloc);
    for rename in renames {
        copies.push(Rename {
            from: rename.from.copy(alloc)?,
            to: rename.to.copy(alloc)?,
        })?;
    }
    Ok(copies)
}

/// Whether the symbols are one.
pub fn is_same(x: &Sym, y: &Sym) -> bool
    ensures { result ≡ naming.is_same x.now y.now }
{
    match (x, y) {
        (Sym::Const(a), Sym::Const(b)) => a == b,
        (Sym::Var(j), Sym::Var(k)) => *j == *k,
        _ => false,
    }
}

/// What the symbol is called after this rename.
fn put<'a>(rename: &'a Rename, x: &'a Sym) -> &'a Sym
    ensures { result.now ≡ naming.put rename.now x.now }
{
    if is_same(&rename.from, x) {
        &rename.to
    } else {
        x
    }
}

/// What the symbol is called.
pub fn name_of<'a>(renames: &'a [Rename], x: &'a Sym) -> &'a Sym
    ensures { result.now ≡ naming.renamed renames.now x.now }
{
    let mut name = x;
    for rename in renames {
        name = put(rename, name);
    }
    name
}

/// Whether both are called the same.
pub fn are_equal(renames: &[Rename], x: &Sym, y: &Sym) -> bool
    ensures { result ≡ naming.is_same (naming.renamed renames.now x.now) (naming.renamed renames.now y.now) }
{
    is_same(name_of(renames, x), name_of(renames, y))
}

/// Puts a symbol in the place of another, a constant in that of a variable; two different constants
/// stay, and are answered.
fn put_together(renames: &mut List<Rename>, from: Sym, to: Sym) -> Result<Option<Pair>, NoMemory>
    requires from { naming.renamed renames.old from ≡ from }
    requires to { naming.renamed renames.old to ≡ to }
    ensures { IfOk result (λ met. MatchOption met (naming.Makes (naming.AreOne from to) renames.old renames.new) (naming.Meet (naming.AreOne from to) renames.old)) }
{
    match (from, to) {
        (Sym::Const(one), Sym::Const(other)) => {
            if one == other {
                return Ok(None);
            }
            Ok(Some(Pair { one, other }))
        }
        (Sym::Const(one), Sym::Var(k)) => {
            renames.push(Rename {
                from: Sym::Var(k),
                to: Sym::Const(one),
            })?;
            Ok(None)
        }
        (Sym::Var(k), to) => {
            renames.push(Rename {
                from: Sym::Var(k),
                to,
            })?;
            Ok(None)
        }
    }
}

/// Makes two symbols equal.
pub fn equate(
    alloc: Global,
    renames: &mut List<Rename>,
    x: &Sym,
    y: &Sym,
) -> Result<Option<Pair>, NoMemory>
    requires { naming.AreNames renames.old }
    ensures { IfOk result (λ met. MatchOption met (naming.Makes (naming.AreOne x.now y.now) renames.old renames.new) (naming.Meet (naming.AreOne x.now y.now) renames.old)) }
{
    if are_equal(renames.as_slice(), x, y) {
        return Ok(None);
    }
    let from = name_of(renames.as_slice(), x).copy(alloc)?;
    let to = name_of(renames.as_slice(), y).copy(alloc)?;
    put_together(renames, from, to)
}
