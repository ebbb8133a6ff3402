//! Where the things of a schema are drawn: the attributes are columns, the objects lines with a dot at
//! each of their attributes, or a ring in the core of a cycle, and the maximal objects columns with a square
//! at each of their objects.
ghost use Rattle.std.specs.Prelude.{◌≡◌};

use crate::cutting::shown_width;
use crate::ears::{attribute_words, name_in};
use crate::measures::{HIGH, WIDE, word_at, words_of};
use crate::shapes::{Help, Position};
use crate::things::{Thing, What};
use std::alloc::Global;
use su_base::{List, NoMemory};
use su_explained::{Kind, Line, are_same};

/// Where the first line of objects is, and how far apart they are.
const TOP: u32 = 80;

/// What is laid out: the attributes, the objects and the maximal objects, each with where it is.
pub(crate) struct Grid<'a> {
    lines: &'a [Line],
    left: u32,
    attributes: List<Spot<'a>>,
    objects: List<Spot<'a>>,
    maximal: List<Spot<'a>>,
}

/// Not derived, so that it is a single call wherever a grid goes out of scope.
impl Drop for Grid<'_> {
    fn drop(self) {
        let Grid {
            lines: _,
            left: _,
            attributes: _,
            objects: _,
            maximal: _,
        } = self;
    }
}

/// A name and where it is: how far from the left end or from the top, and how wide it is.
#[derive(Drop)]
struct Spot<'a> {
    name: &'a [u8],
    at: u32,
    width: u32,
}

/// Where the named one is.
fn spot_of<'s, 'a>(spots: &'s [Spot<'a>], name: &[u8]) -> Option<&'s Spot<'a>> {
    spots.iter().find(|spot| are_same(spot.name, name))
}

/// Where the middle of the named one is.
fn middle_of(spots: &[Spot], name: &[u8]) -> u32 {
    match spot_of(spots, name) {
        Some(spot) => spot.at.saturating_add(spot.width / 2),
        None => 0,
    }
}

/// A place with a mark.
fn at(x: u32, y: u32, mark: usize) -> Position
    ensures { result.mark ≡ mark }
{
    Position {
        x,
        y,
        edge: 0,
        lane: 0,
        to: 0,
        mark,
        light: false,
    }
}

impl<'a> Grid<'a> {
    /// The names of the objects, from the top down.
    fn add_objects(&mut self) -> Result<(), NoMemory> {
        let mut at = TOP;
        for line in self.lines.iter() {
            if line.kind == Kind::Object {
                let name = word_at(line.words.as_slice(), 1);
                let width = shown_width(name);
                self.objects.push(Spot { name, at, width })?;
                self.left = self.left.max(width.saturating_add(40));
                at = at.saturating_add(HIGH + 4);
            }
        }
        Ok(())
    }

    /// The name of an attribute at this place; where the next one stands.
    fn add_attribute(&mut self, name: &'a [u8], at: u32) -> Result<u32, NoMemory> {
        let width = shown_width(name);
        self.attributes.push(Spot { name, at, width })?;
        Ok(at.saturating_add(width).saturating_add(2 * WIDE))
    }

    /// The number of a maximal object behind this place; where the next one stands.
    fn add_maximal(&mut self, name: &'a [u8], behind: u32) -> Result<u32, NoMemory> {
        let width = 8 * WIDE;
        let at = behind.saturating_add(2 * WIDE);
        self.maximal.push(Spot { name, at, width })?;
        Ok(at.saturating_add(width))
    }

    /// The names of the attributes, and behind them the numbers of the maximal objects.
    fn add_columns(&mut self) -> Result<(), NoMemory> {
        let mut at = self.left;
        for line in self.lines.iter() {
            let words = line.words.as_slice();
            at = match line.kind {
                Kind::Attribute => self.add_attribute(word_at(words, 1), at)?,
                Kind::Maximal => self.add_maximal(word_at(words, 3), at)?,
                _ => at,
            };
        }
        Ok(())
    }

    pub(crate) fn new(alloc: Global, lines: &'a [Line]) -> Result<Grid<'a>, NoMemory> {
        let mut grid = Grid {
            lines,
            left: 40,
            attributes: List::new(alloc),
            objects: List::new(alloc),
            maximal: List::new(alloc),
        };
        grid.add_objects()?;
        grid.add_columns()?;
        Ok(grid)
    }

    /// Where the named object is.
    fn height_of(&self, name: &[u8]) -> u32 {
        match spot_of(self.objects.as_slice(), name) {
            Some(spot) => spot.at,
            None => 0,
        }
    }

    /// Where the column of a thing begins.
    fn left_of(&self, thing: &Thing) -> u32 {
        let words = words_of(self.lines, thing.line);
        let column = match thing.what {
            What::Attribute => spot_of(self.attributes.as_slice(), word_at(words, thing.word)),
            _ => spot_of(self.maximal.as_slice(), word_at(words, 3)),
        };
        match column {
            Some(spot) => spot.at,
            None => 0,
        }
    }

    /// Where a thing that is no dot is drawn.
    pub(crate) fn place(&self, thing: &Thing) -> Position {
        let word = word_at(words_of(self.lines, thing.line), thing.word);
        let left = self.left_of(thing);
        let (x, y) = match (thing.what, thing.word) {
            (What::Attribute, _) => (left, TOP - HIGH - 4),
            (What::Object, _) => (20, self.height_of(word)),
            (What::Part, _) => (
                left.saturating_add(4 * WIDE - 6),
                self.height_of(word).saturating_sub(10),
            ),
            (_, 3) => (left.saturating_add(4 * WIDE - 4), TOP - 2 * HIGH - 8),
            _ => (left, TOP - HIGH - 8),
        };
        at(x, y, 0)
    }

    /// Where a dot is drawn, with its mark.
    pub(crate) fn dot(&self, thing: &Thing, mark: usize) -> Position
        ensures { result.mark ≡ mark }
    {
        let words = words_of(self.lines, thing.line);
        let name = name_in(word_at(words, thing.word));
        let x = middle_of(self.attributes.as_slice(), name);
        let y = self.height_of(word_at(words, 1)).saturating_sub(4);
        at(x, y, mark)
    }

    /// The line of an object, from its first dot to its last one.
    fn object_rule(&self, line: &Line) -> Help {
        let words = line.words.as_slice();
        let y = self.height_of(word_at(words, 1)).saturating_sub(4);
        let (mut first, mut last) = (u32::MAX, 0);
        for word in attribute_words(words) {
            let x = middle_of(self.attributes.as_slice(), name_in(word.as_slice()));
            first = first.min(x);
            last = last.max(x);
        }
        Help::Rule {
            x: first,
            y,
            to_x: last,
            to_y: y,
        }
    }

    /// The line of a maximal object, from its first square to its last one.
    fn maximal_rule(&self, line: &Line) -> Help {
        let words = line.words.as_slice();
        let x = middle_of(self.maximal.as_slice(), word_at(words, 3));
        let (mut first, mut last) = (u32::MAX, 0);
        for word in words.iter().skip(5) {
            let y = self.height_of(word.as_slice()).saturating_sub(4);
            first = first.min(y);
            last = last.max(y);
        }
        Help::Rule {
            x,
            y: first,
            to_x: x,
            to_y: last,
        }
    }

    /// What stands for no word.
    pub(crate) fn helps(&self, alloc: Global) -> Result<List<Help>, NoMemory> {
        let mut helps = List::new(alloc);
        for line in self.lines.iter() {
            match line.kind {
                Kind::Object => helps.push(self.object_rule(line))?,
                Kind::Maximal => helps.push(self.maximal_rule(line))?,
                _ => {}
            }
        }
        if let Some(spot) = self.maximal.as_slice().first() {
            helps.push(Help::Heading {
                x: spot.at,
                y: TOP - 3 * HIGH - 4,
                text: List::from_vec(b"maximal".to_vec(alloc)?),
            })?;
        }
        Ok(helps)
    }

    /// How high the picture is.
    pub(crate) fn bottom(&self) -> u32 {
        match self.objects.as_slice().last() {
            Some(spot) => spot.at,
            None => TOP,
        }
    }
}
