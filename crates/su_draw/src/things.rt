//! What is drawn for the words of a text.
ghost use Rattle.std.specs.Prelude.{◌≡◌, ◌-◌, ◌≤◌, ◌++◌, length, IfOk, OnOk};
ghost use Rattle.su_explained.specs.Checks.{is_decimal};
ghost use Rattle.su_draw.specs.Things.{symbol_of, text_shown, thing_of, things_in, things_of};
ghost use Rattle.su_draw.specs.Drawn.{drawn_from, drawn_at, drawn_in_row, drawn_in_fold, drawn_in_cover, drawn_in_object, drawn_in_maximal, drawn_as};
ghost use Rattle.su_draw.specs.Once.{StandOnce};

use std::alloc::Global;
use su_base::{List, NoMemory};
use su_explained::{Kind, Line, attribute_count, number_of};

/// What a word is drawn as.
#[derive(Clone, Copy, PartialEq, Eq)]
pub enum What {
    /// A word as it is.
    Label,
    /// A row of a term, by its number.
    Row,
    /// A symbol in a row.
    Symbol,
    /// An arrow from a row to the row that it folds to.
    Fold,
    /// An object that a kept row is read from, beside it.
    Source,
    /// An arrow from a dropped term to the one that covers it.
    Cover,
    /// An attribute of a schema, above its column.
    Attribute,
    /// An object of a schema, beside its line.
    Object,
    /// That an object has an attribute: a dot.
    Member,
    /// That an object is in a maximal object: a square.
    Part,
}

/// A thing that is drawn: the word with this number in the line with this number, both from 0, what
/// the word is drawn as, and what is written for it.
#[derive(Drop)]
pub struct Thing {
    pub line: usize,
    pub word: usize,
    pub what: What,
    pub text: List<u8>,
}

/// The words from this one on.
fn what_from(first: usize, what: What, k: usize) -> Option<What>
    ensures { result ≡ drawn_from first what k }
{
    if first <= k { Some(what) } else { None }
}

/// The word at this place alone.
fn what_at(place: usize, what: What, k: usize) -> Option<What>
    ensures { result ≡ drawn_at place what k }
{
    if k == place { Some(what) } else { None }
}

/// In a line of a row: its number, its variable and object, its cells.
fn what_in_row(k: usize) -> Option<What>
    ensures { result ≡ drawn_in_row k }
{
    if k == 3 {
        return Some(What::Row);
    }
    if k == 4 || k == 5 {
        return Some(What::Label);
    }
    what_from(6, What::Symbol, k)
}

/// Whether the word is the decimal of its place among the rows.
fn stays(k: usize, word: &[u8]) -> bool
    requires { 3 ≤ k }
    ensures { result ≡ is_decimal (k - 3) word.now }
{
    match number_of(word) {
        Some(target) => target == k - 3,
        None => false,
    }
}

/// In the line of a fold: the rows that go to another one.
pub(crate) fn what_in_fold(k: usize, word: &[u8]) -> Option<What>
    ensures { result ≡ drawn_in_fold k word.now }
{
    if k < 3 || stays(k, word) {
        return None;
    }
    Some(What::Fold)
}

/// In the line of a cover: the number of the covering term, and the words round it.
fn what_in_cover(k: usize) -> Option<What>
    ensures { result ≡ drawn_in_cover k }
{
    if k == 5 {
        return Some(What::Cover);
    }
    what_from(2, What::Label, k)
}

/// In the definition of an object with so many words: its name, its attributes.
fn what_in_object(words: usize, k: usize) -> Option<What>
    ensures { result ≡ drawn_in_object words k }
{
    if k == 1 {
        return Some(What::Object);
    }
    if 2 <= k && k - 2 < attribute_count(words) {
        return Some(What::Member);
    }
    None
}

/// In the line of a maximal object: its number, whether it is declared, its objects.
fn what_in_maximal(k: usize) -> Option<What>
    ensures { result ≡ drawn_in_maximal k }
{
    if k == 3 || k == 4 {
        return Some(What::Label);
    }
    what_from(5, What::Part, k)
}

/// What the word with number `k` of so many is drawn as, in a line of this kind.
pub fn what_of(kind: Kind, words: usize, k: usize, word: &[u8]) -> Option<What>
    ensures { result ≡ drawn_as kind words k word.now }
{
    match kind {
        Kind::Query | Kind::Variables | Kind::Term | Kind::Count => Some(What::Label),
        Kind::Head | Kind::Compare => what_from(2, What::Label, k),
        Kind::Row => what_in_row(k),
        Kind::Fold => what_in_fold(k, word),
        Kind::Sources => what_from(4, What::Source, k),
        Kind::Covered => what_in_cover(k),
        Kind::Attribute => what_at(1, What::Attribute, k),
        Kind::Object => what_in_object(words, k),
        Kind::Maximal => what_in_maximal(k),
        Kind::Kept | Kind::Relation | Kind::Dependency | Kind::Declared => None,
    }
}

/// What stands behind the first sign of equality; the whole word, if it has none.
pub(crate) fn behind(word: &[u8]) -> &[u8]
    ensures { result.now ≡ symbol_of word.now }
{
    for (i, byte) in word.iter().enumerate() {
        if *byte == b'=' {
            return &word[i + 1..];
        }
    }
    word
}

/// What is written for a word.
fn text_in(what: What, word: &[u8]) -> &[u8]
    ensures { result.now ≡ text_shown what word.now }
{
    match what {
        What::Symbol => behind(word),
        _ => word,
    }
}

/// Adds the thing of a word, if it is drawn.
fn add_thing(
    alloc: Global,
    things: &mut List<Thing>,
    line: usize,
    word: usize,
    of: &Line,
    bytes: &[u8],
) -> Result<(), NoMemory>
    ensures { OnOk result (things.new ≡ things.old ++ thing_of (drawn_as of.now.kind (length of.now.words) word bytes.now) line word bytes.now) }
{
    if let Some(what) = what_of(of.kind, of.words.len(), word, bytes) {
        let text = List::from_vec(text_in(what, bytes).to_vec(alloc)?);
        things.push(Thing {
            line,
            word,
            what,
            text,
        })?;
    }
    Ok(())
}

fn add_line(alloc: Global, things: &mut List<Thing>, line: usize, of: &Line) -> Result<(), NoMemory>
    ensures { OnOk result (things.new ≡ things.old ++ things_in line of.now) }
{
    for (word, bytes) in of.words.as_slice().iter().enumerate() {
        add_thing(alloc, things, line, word, of, bytes.as_slice())?;
    }
    Ok(())
}

/// The things that are drawn for a text, line by line and word by word.
pub fn all_things(alloc: Global, lines: &[Line]) -> Result<List<Thing>, NoMemory>
    ensures things { IfOk result (λ things. things ≡ things_of lines.now) }
    ensures once { IfOk result (StandOnce lines.now) }
{
    let mut things = List::new(alloc);
    for (line, of) in lines.iter().enumerate() {
        add_line(alloc, &mut things, line, of)?;
    }
    Ok(things)
}
