//! Partners of rows of codes: rows on the other side with the same key. A table of the keys on the one
//! side, and a pass over the other. Where a key is one code the table has a mark for each code up to the
//! greatest one, else it is a hash table.
ghost use Rattle.std.specs.Prelude.{◌≡◌, ◌↔◌, ◌<◌, ◌+◌, ℕ, false, List, [], IfOk, IsTrue, length, get_or};
ghost use Rattle.su_reduce.specs.Sheets.{pick, AreBelow};
ghost use Rattle.su_reduce.specs.inside.Partnered.{HasKey, width_of, AreKeysOf, AreCodesOf};
ghost use Rattle.su_reduce.specs.Sides.{IsKeyOf, IsMarkedWith, AreMarkedWith};

use crate::distinct::Distinct;
use crate::sheets::Sheet;
use std::alloc::{AllocError, Global};

/// Rows, which of them are marked, and the places of their keys.
#[derive(Clone, Copy)]
pub struct Side<'a> {
    pub rows: &'a Sheet,
    pub marks: &'a [bool],
    pub key: &'a [usize],
}

/// The keys of some rows: a mark for each code that is one, or each of them once.
#[derive(Drop)]
enum Keys {
    Codes(Vec<bool>),
    Rows(Distinct),
}

/// Puts the row's key in place of what is there.
fn put_key(cells: &mut Vec<u32>, row: &[u32], key: &[usize]) -> Result<(), AllocError>
    requires { AreBelow key.now (length row.now) }
    ensures { IfOk result (λ _. cells.new.items ≡ pick key.now row.now) }
{
    cells.clear();
    for p in key {
        cells.push(row[*p])?;
    }
    Ok(())
}

/// Adds the key of the i-th row, if that is marked.
fn add_key(
    alloc: Global,
    side: &Side,
    i: usize,
    keys: &mut Distinct,
    cells: &mut Vec<u32>,
) -> Result<(), AllocError>
    requires key { AreBelow side.now.key.now side.now.rows.now.width }
    requires marks { length side.now.marks.now ≡ length side.now.rows.now.rows }
    requires row { i < length side.now.rows.now.rows }
    requires width { keys.old.width ≡ length side.now.key.now }
    ensures width { IfOk result (λ _. keys.new.width ≡ keys.old.width) }
    ensures keys { IfOk result (λ _. AreKeysOf side.now i keys.old.rows → AreKeysOf side.now (i + 1) keys.new.rows) }
{
    if !side.marks[i] {
        return Ok(());
    }
    put_key(cells, side.rows.row(i), side.key)?;
    keys.add(alloc, cells)?;
    Ok(())
}

/// The keys of the marked rows, each once.
fn rows_of(alloc: Global, side: &Side) -> Result<Distinct, AllocError>
    requires key { AreBelow side.now.key.now side.now.rows.now.width }
    requires marks { length side.now.marks.now ≡ length side.now.rows.now.rows }
    ensures width { IfOk result (λ keys. keys.width ≡ length side.now.key.now) }
    ensures keys { IfOk result (λ keys. AreKeysOf side.now (length side.now.rows.now.rows) keys.rows) }
{
    let mut keys = Distinct::new(alloc, side.key.len())?;
    let mut cells = Vec::new(alloc);
    for i in 0..side.rows.len() {
        add_key(alloc, side, i, &mut keys, &mut cells)?;
    }
    Ok(keys)
}

/// A number past all codes at the place.
fn past_codes(rows: &Sheet, place: usize) -> usize
    requires { place < rows.now.width }
    ensures { (i : ℕ) → i < length rows.now.rows → get_or (get_or rows.now.rows i []) place 0 < result }
{
    let mut past = 0;
    for i in 0..rows.len() {
        past = past.max(rows.row(i)[place] as usize + 1);
    }
    past
}

/// Marks the i-th row's code at the key's one place, if the row is marked.
fn mark_code(side: &Side, i: usize, codes: &mut Vec<bool>)
    requires one { length side.now.key.now ≡ 1 }
    requires key { AreBelow side.now.key.now side.now.rows.now.width }
    requires marks { length side.now.marks.now ≡ length side.now.rows.now.rows }
    requires row { i < length side.now.rows.now.rows }
    requires room { get_or (get_or side.now.rows.now.rows i []) (get_or side.now.key.now 0 0) 0 < length codes.old.items }
    ensures length { length codes.new.items ≡ length codes.old.items }
    ensures codes { AreCodesOf side.now i codes.old.items → AreCodesOf side.now (i + 1) codes.new.items }
{
    let code = side.rows.row(i)[side.key[0]] as usize;
    if side.marks[i] {
        codes[code] = true;
    }
}

/// The codes that the marked rows have at the key's one place, each with a mark.
fn codes_of(alloc: Global, side: &Side) -> Result<Vec<bool>, AllocError>
    requires one { length side.now.key.now ≡ 1 }
    requires key { AreBelow side.now.key.now side.now.rows.now.width }
    requires marks { length side.now.marks.now ≡ length side.now.rows.now.rows }
    ensures { IfOk result (λ codes. AreCodesOf side.now (length side.now.rows.now.rows) codes.items) }
{
    let mut codes = vec![in alloc; false; past_codes(side.rows, side.key[0])]?;
    for i in 0..side.rows.len() {
        mark_code(side, i, &mut codes);
    }
    Ok(codes)
}

/// The keys of the marked rows.
fn keys_of(alloc: Global, side: &Side) -> Result<Keys, AllocError>
    requires key { AreBelow side.now.key.now side.now.rows.now.width }
    requires marks { length side.now.marks.now ≡ length side.now.rows.now.rows }
    ensures width { IfOk result (λ keys. width_of keys ≡ length side.now.key.now) }
    ensures keys { IfOk result (λ keys. (key : List ℕ) → HasKey keys key ↔ IsKeyOf side.now key) }
{
    if side.key.len() == 1 {
        let codes = codes_of(alloc, side)?;
        return Ok(Keys::Codes(codes));
    }
    let rows = rows_of(alloc, side)?;
    Ok(Keys::Rows(rows))
}

/// Whether the code is marked.
fn has_code(codes: &[bool], code: u32) -> bool
    ensures { result ≡ get_or codes.now code false }
{
    match codes.get(code as usize) {
        Some(mark) => *mark,
        None => false,
    }
}

/// Whether the key is one of these.
fn has_key(keys: &Keys, key: &[u32]) -> bool
    requires { length key.now ≡ width_of keys.now }
    ensures { IsTrue result ↔ HasKey keys.now key.now }
{
    match keys {
        Keys::Codes(codes) => has_code(codes, key[0]),
        Keys::Rows(rows) => rows.has(key),
    }
}

/// Whether the i-th row is marked, and its key is one of these.
fn has_partner(side: &Side, i: usize, keys: &Keys, cells: &mut Vec<u32>) -> Result<bool, AllocError>
    requires key { AreBelow side.now.key.now side.now.rows.now.width }
    requires marks { length side.now.marks.now ≡ length side.now.rows.now.rows }
    requires row { i < length side.now.rows.now.rows }
    requires width { width_of keys.now ≡ length side.now.key.now }
    ensures { IfOk result (λ has. IsTrue has ↔ IsMarkedWith side.now i (HasKey keys.now)) }
{
    if !side.marks[i] {
        return Ok(false);
    }
    put_key(cells, side.rows.row(i), side.key)?;
    Ok(has_key(keys, cells))
}

/// Which of the marked rows have one of these keys.
fn marks_by(alloc: Global, side: &Side, keys: &Keys) -> Result<Vec<bool>, AllocError>
    requires key { AreBelow side.now.key.now side.now.rows.now.width }
    requires marks { length side.now.marks.now ≡ length side.now.rows.now.rows }
    requires width { width_of keys.now ≡ length side.now.key.now }
    ensures length { IfOk result (λ marks. length marks.items ≡ length side.now.rows.now.rows) }
    ensures exact { IfOk result (λ marks. AreMarkedWith side.now (HasKey keys.now) marks.items) }
{
    let mut marks = Vec::with_capacity(alloc, side.rows.len())?;
    let mut cells = Vec::new(alloc);
    for i in 0..side.rows.len() {
        let has = has_partner(side, i, keys, &mut cells)?;
        marks.push(has)?;
    }
    Ok(marks)
}

/// Which of the marked rows on the left have a partner: a marked row on the right with their key.
pub fn partner_marks(alloc: Global, left: &Side, right: &Side) -> Result<Vec<bool>, AllocError>
    requires left_key { AreBelow left.now.key.now left.now.rows.now.width }
    requires left_marks { length left.now.marks.now ≡ length left.now.rows.now.rows }
    requires right_key { AreBelow right.now.key.now right.now.rows.now.width }
    requires right_marks { length right.now.marks.now ≡ length right.now.rows.now.rows }
    requires keys { length left.now.key.now ≡ length right.now.key.now }
    ensures length { IfOk result (λ marks. length marks.items ≡ length left.now.rows.now.rows) }
    ensures exact { IfOk result (λ marks. AreMarkedWith left.now (IsKeyOf right.now) marks.items) }
{
    let keys = keys_of(alloc, right)?;
    let marks = marks_by(alloc, left, &keys)?;
    Ok(marks)
}
