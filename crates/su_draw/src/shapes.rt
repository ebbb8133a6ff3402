//! A picture as a list of what is drawn.

use crate::signs::Sign;
use crate::things::Thing;
use su_base::List;

/// Where a thing is drawn, in pixels from the upper left corner. A text begins at `x` and stands on the
/// base line `y`. An arrow begins at its edge a little above that line, goes sideways to its lane, up or
/// down to another base line, and back to the edge. The symbols of one class have a mark, and so have the dots
/// of a cycle's core, others 0; what is light is not kept.
#[derive(Clone, Copy)]
pub struct Position {
    pub x: u32,
    pub y: u32,
    pub edge: u32,
    pub lane: u32,
    pub to: u32,
    pub mark: usize,
    pub light: bool,
}

/// A thing at its place.
#[derive(Drop)]
pub struct Shape {
    pub thing: Thing,
    pub place: Position,
}

/// What helps the eye and stands for no word: the names above the columns of a table, the ground of a
/// kept row, and lines.
#[derive(Drop)]
pub enum Help {
    Heading {
        x: u32,
        y: u32,
        text: List<u8>,
    },
    Band {
        x: u32,
        y: u32,
        width: u32,
    },
    Rule {
        x: u32,
        y: u32,
        to_x: u32,
        to_y: u32,
    },
}

/// A line of the legend at its place.
#[derive(Drop)]
pub struct Note {
    pub x: u32,
    pub y: u32,
    pub sign: Sign,
}

/// A picture, with a title and a description for who doesn't see it.
pub struct Picture {
    pub title: List<u8>,
    pub about: List<u8>,
    pub width: u32,
    pub height: u32,
    pub helps: List<Help>,
    pub legend: List<Note>,
    pub shapes: List<Shape>,
}

/// Not derived, so that it is a single call wherever a picture goes out of scope.
impl Drop for Picture {
    fn drop(self) {
        let Picture {
            title: _,
            about: _,
            width: _,
            height: _,
            helps: _,
            legend: _,
            shapes: _,
        } = self;
    }
}
