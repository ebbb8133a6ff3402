//! A picture as SVG.
ghost use Rattle.std.specs.Prelude.{◌≡◌, ◌-◌, ◌++◌, flat_map, codes, decimal, [], OnOk, IfOk, string_bytes};
ghost use Rattle.su_draw.specs.Cutting.{shown_text};
ghost use Rattle.su_draw.specs.Svg.{heading_line, note_text, band_line, rule_line, help_text, ground_line, front_lines, svg_attributes, svg_inside, svg_text};
ghost use Rattle.su_draw.specs.Shapes.{element_line, mark_text, text_line, way_of, arrow_line, end_line, fold_lines, dot_class, dot_line, square_line, shape_text};
ghost use Rattle.su_draw.specs.Looks.{class_of, opacity_of, weight_of, style_text};
ghost use Rattle.su_draw.specs.Xml.{attribute_text, IsDocument};
ghost use Rattle.su_draw.specs.inside.Pairs.{attributes_of};

use crate::cutting::push_shown;
use crate::elements::Pair::{self, Number, Word};
use crate::elements::{close, element, number_element, number_inside, open, plain_element};
use crate::shapes::{Help, Note, Picture, Position, Shape};
use crate::signs::text_of;
use crate::things::What;
use std::alloc::Global;
use su_base::parts::push;
use su_base::{List, NoMemory};

/// The class of a mark, of seven in turn: the eighth mark has the colour of the first, and its own number.
fn class(mark: usize) -> &'static str
    ensures { result.now ≡ class_of mark }
{
    if mark == 0 {
        return "c0";
    }
    match mark % 7 {
        1 => "c1",
        2 => "c2",
        3 => "c3",
        4 => "c4",
        5 => "c5",
        6 => "c6",
        _ => "c7",
    }
}

fn opacity(light: bool) -> &'static str
    ensures { result.now ≡ opacity_of light }
{
    if light { "0.6" } else { "1" }
}

fn weight(what: What, light: bool) -> &'static str
    ensures { result.now ≡ weight_of what light }
{
    if light {
        return "normal";
    }
    match what {
        What::Row | What::Symbol => "bold",
        _ => "normal",
    }
}

/// A mark behind its symbol.
fn push_mark(alloc: Global, out: &mut Vec<u8>, mark: usize) -> Result<(), NoMemory>
    ensures { OnOk result (out.new.items ≡ out.old.items ++ mark_text mark) }
{
    if mark == 0 {
        return Ok(());
    }
    let pairs = [Word("dy", "-4"), Word("font-size", "9")];
    number_inside(alloc, out, "tspan", &pairs, mark)
}

/// A text as it is shown, with its mark.
fn marked_element(
    alloc: Global,
    out: &mut Vec<u8>,
    pairs: &[Pair],
    text: &[u8],
    mark: usize,
) -> Result<(), NoMemory>
    ensures { OnOk result (out.new.items ≡ out.old.items ++ element_line (codes "text") (attributes_of pairs.now) (shown_text text.now ++ mark_text mark)) }
{
    open(alloc, out, "text", pairs)?;
    push_shown(alloc, out, text)?;
    push_mark(alloc, out, mark)?;
    close(out, "text")
}

fn text_element(alloc: Global, out: &mut Vec<u8>, shape: &Shape) -> Result<(), NoMemory>
    ensures { OnOk result (out.new.items ≡ out.old.items ++ text_line shape.now) }
{
    let place = shape.place;
    let pairs = [
        Number("x", place.x),
        Number("y", place.y),
        Word("class", class(place.mark)),
        Word("fill-opacity", opacity(place.light)),
        Word("font-weight", weight(shape.thing.what, place.light)),
    ];
    marked_element(alloc, out, &pairs, shape.thing.text.as_slice(), place.mark)
}

fn add(text: &mut String, part: &str) -> Result<(), NoMemory>
    ensures { OnOk result (string_bytes text.new ≡ string_bytes text.old ++ part.now) }
{
    text.push_str(part)?;
    Ok(())
}

fn add_number(alloc: Global, text: &mut String, number: u32) -> Result<(), NoMemory>
    ensures { OnOk result (string_bytes text.new ≡ string_bytes text.old ++ decimal number) }
{
    let digits = number.to_string(alloc)?;
    add(text, digits.as_str())
}

/// The way of an arrow.
fn way(alloc: Global, place: Position, head: &str) -> Result<String, NoMemory>
    ensures { IfOk result (λ text. string_bytes text ≡ way_of place head.now) }
{
    let mut text = String::new(alloc);
    add(&mut text, "M")?;
    add_number(alloc, &mut text, place.edge)?;
    add(&mut text, " ")?;
    add_number(alloc, &mut text, place.y.saturating_sub(4))?;
    add(&mut text, "H")?;
    add_number(alloc, &mut text, place.lane)?;
    add(&mut text, "V")?;
    add_number(alloc, &mut text, place.to.saturating_sub(4))?;
    add(&mut text, "H")?;
    add_number(alloc, &mut text, place.edge)?;
    add(&mut text, head)?;
    Ok(text)
}

fn arrow_element(
    alloc: Global,
    out: &mut Vec<u8>,
    place: Position,
    head: &str,
) -> Result<(), NoMemory>
    ensures { OnOk result (out.new.items ≡ out.old.items ++ arrow_line place head.now) }
{
    let way = way(alloc, place, head)?;
    let pairs = [Word("d", way.as_str()), Word("class", "arrow")];
    element(alloc, out, "path", &pairs, &[])
}

/// The number of an arrow's row, at its lane above this height.
fn end_element(alloc: Global, out: &mut Vec<u8>, x: u32, y: u32, row: usize) -> Result<(), NoMemory>
    ensures { OnOk result (out.new.items ≡ out.old.items ++ end_line x y row) }
{
    let pairs = [
        Number("x", x.saturating_sub(2)),
        Number("y", y.saturating_sub(6)),
        Word("class", "c0"),
        Word("text-anchor", "end"),
        Word("font-size", "9"),
    ];
    number_element(alloc, out, "text", &pairs, row)
}

/// The arrow of a row, with its number at both ends.
fn fold_element(
    alloc: Global,
    out: &mut Vec<u8>,
    place: Position,
    row: usize,
) -> Result<(), NoMemory>
    ensures { OnOk result (out.new.items ≡ out.old.items ++ fold_lines place row) }
{
    arrow_element(alloc, out, place, "m7 -4l-7 4l7 4")?;
    end_element(alloc, out, place.lane, place.y, row)?;
    end_element(alloc, out, place.lane, place.to, row)
}

/// The class of a dot: without a mark full, else a ring.
fn dot(mark: usize) -> &'static str
    ensures { result.now ≡ dot_class mark }
{
    if mark == 0 { "c0" } else { "ring" }
}

fn dot_element(alloc: Global, out: &mut Vec<u8>, place: Position) -> Result<(), NoMemory>
    ensures { OnOk result (out.new.items ≡ out.old.items ++ dot_line place) }
{
    let pairs = [
        Number("cx", place.x),
        Number("cy", place.y),
        Word("r", "6"),
        Word("class", dot(place.mark)),
    ];
    element(alloc, out, "circle", &pairs, &[])
}

fn square_element(alloc: Global, out: &mut Vec<u8>, place: Position) -> Result<(), NoMemory>
    ensures { OnOk result (out.new.items ≡ out.old.items ++ square_line place) }
{
    let pairs = [
        Number("x", place.x),
        Number("y", place.y),
        Word("width", "12"),
        Word("height", "12"),
        Word("class", "c0"),
    ];
    element(alloc, out, "rect", &pairs, &[])
}

fn shape_element(alloc: Global, out: &mut Vec<u8>, shape: &Shape) -> Result<(), NoMemory>
    ensures { OnOk result (out.new.items ≡ out.old.items ++ shape_text shape.now) }
{
    match shape.thing.what {
        What::Fold => fold_element(alloc, out, shape.place, shape.thing.word.saturating_sub(3)),
        What::Cover => {
            arrow_element(alloc, out, shape.place, "m-7 -4l7 4l-7 4")?;
            text_element(alloc, out, shape)
        }
        What::Member => dot_element(alloc, out, shape.place),
        What::Part => square_element(alloc, out, shape.place),
        _ => text_element(alloc, out, shape),
    }
}

fn heading_element(
    alloc: Global,
    out: &mut Vec<u8>,
    x: u32,
    y: u32,
    text: &[u8],
) -> Result<(), NoMemory>
    ensures { OnOk result (out.new.items ≡ out.old.items ++ heading_line x y text.now) }
{
    let pairs = [
        Number("x", x),
        Number("y", y),
        Word("class", "c0"),
        Word("text-decoration", "underline"),
    ];
    open(alloc, out, "text", &pairs)?;
    push_shown(alloc, out, text)?;
    close(out, "text")
}

fn note_element(alloc: Global, out: &mut Vec<u8>, note: &Note) -> Result<(), NoMemory>
    ensures { OnOk result (out.new.items ≡ out.old.items ++ note_text note.now) }
{
    let pairs = [
        Number("x", note.x),
        Number("y", note.y),
        Word("class", "c0"),
        Word("font-size", "11"),
    ];
    element(alloc, out, "text", &pairs, text_of(note.sign).as_bytes())
}

fn band_element(
    alloc: Global,
    out: &mut Vec<u8>,
    x: u32,
    y: u32,
    width: u32,
) -> Result<(), NoMemory>
    ensures { OnOk result (out.new.items ≡ out.old.items ++ band_line x y width) }
{
    let pairs = [
        Number("x", x),
        Number("y", y),
        Number("width", width),
        Word("height", "20"),
        Word("class", "band"),
    ];
    element(alloc, out, "rect", &pairs, &[])
}

fn rule_element(
    alloc: Global,
    out: &mut Vec<u8>,
    from: (u32, u32),
    to: (u32, u32),
) -> Result<(), NoMemory>
    ensures { OnOk result (out.new.items ≡ out.old.items ++ rule_line from.0 from.1 to.0 to.1) }
{
    let pairs = [
        Number("x1", from.0),
        Number("y1", from.1),
        Number("x2", to.0),
        Number("y2", to.1),
        Word("class", "rule"),
    ];
    element(alloc, out, "line", &pairs, &[])
}

fn help_element(alloc: Global, out: &mut Vec<u8>, help: &Help) -> Result<(), NoMemory>
    ensures { OnOk result (out.new.items ≡ out.old.items ++ help_text help.now) }
{
    match help {
        Help::Heading { x, y, text } => heading_element(alloc, out, *x, *y, text.as_slice()),
        Help::Band { x, y, width } => band_element(alloc, out, *x, *y, *width),
        Help::Rule { x, y, to_x, to_y } => rule_element(alloc, out, (*x, *y), (*to_x, *to_y)),
    }
}

fn ground(alloc: Global, out: &mut Vec<u8>) -> Result<(), NoMemory>
    ensures { OnOk result (out.new.items ≡ out.old.items ++ ground_line) }
{
    let pairs = [
        Word("width", "100%"),
        Word("height", "100%"),
        Word("class", "ground"),
    ];
    element(alloc, out, "rect", &pairs, &[])
}

/// The part of the plane that the picture shows: all of it, so that it may be shown at any size.
fn view_box(alloc: Global, width: u32, height: u32) -> Result<String, NoMemory>
    ensures { IfOk result (λ text. string_bytes text ≡ codes "0 0 " ++ decimal width ++ codes " " ++ decimal height) }
{
    let mut text = String::new(alloc);
    add(&mut text, "0 0 ")?;
    add_number(alloc, &mut text, width)?;
    add(&mut text, " ")?;
    add_number(alloc, &mut text, height)?;
    Ok(text)
}

/// The beginning of the picture's element.
fn start(alloc: Global, out: &mut Vec<u8>, picture: &Picture) -> Result<(), NoMemory>
    ensures { OnOk result (out.new.items ≡ out.old.items ++ (codes "<svg" ++ flat_map attribute_text (svg_attributes picture.now) ++ codes ">")) }
{
    let seen = view_box(alloc, picture.width, picture.height)?;
    let pairs = [
        Word("xmlns", "http://www.w3.org/2000/svg"),
        Number("width", picture.width),
        Number("height", picture.height),
        Word("viewBox", seen.as_str()),
        Word("role", "img"),
        Word("font-family", "monospace"),
        Word("font-size", "13"),
        Word("style", "white-space:pre"),
    ];
    open(alloc, out, "svg", &pairs)
}

/// The colours of the classes, by the scheme of the page.
const STYLE: &str =
    ".ground{fill:#fff}.band{fill:#e4e4e4}.arrow{fill:none;stroke:#555}.rule{stroke:#999}.ring{fill:#fff;stroke:#a01818;stroke-width:3}.c0{fill:#000}.c1{fill:#0b4f9e}.c2{fill:#a01818}.c3{fill:#1b6b1b}.c4{fill:#7a3d9e}.c5{fill:#7a4f00}.c6{fill:#00666b}.c7{fill:#a0266b}@media(prefers-color-scheme:dark){.ground{fill:#161616}.band{fill:#383838}.arrow{stroke:#b8b8b8}.rule{stroke:#888}.ring{fill:#161616;stroke:#ff9d9d}.c0{fill:#f2f2f2}.c1{fill:#8fc1ff}.c2{fill:#ff9d9d}.c3{fill:#8fe08f}.c4{fill:#dcb0ff}.c5{fill:#f0c060}.c6{fill:#6fdfe4}.c7{fill:#ff9ccb}}";

fn style_element(alloc: Global, out: &mut Vec<u8>) -> Result<(), NoMemory>
    ensures { OnOk result (out.new.items ≡ out.old.items ++ element_line (codes "style") [] style_text) }
{
    plain_element(alloc, out, "style", STYLE)
}

/// The title, the description and the style.
fn front(alloc: Global, out: &mut Vec<u8>, picture: &Picture) -> Result<(), NoMemory>
    ensures { OnOk result (out.new.items ≡ out.old.items ++ front_lines picture.now) }
{
    element(alloc, out, "title", &[], picture.title.as_slice())?;
    element(alloc, out, "desc", &[], picture.about.as_slice())?;
    style_element(alloc, out)
}

fn help_elements(alloc: Global, out: &mut Vec<u8>, helps: &[Help]) -> Result<(), NoMemory>
    ensures { OnOk result (out.new.items ≡ out.old.items ++ flat_map help_text helps.now) }
{
    for help in helps {
        help_element(alloc, out, help)?;
    }
    Ok(())
}

fn note_elements(alloc: Global, out: &mut Vec<u8>, legend: &[Note]) -> Result<(), NoMemory>
    ensures { OnOk result (out.new.items ≡ out.old.items ++ flat_map note_text legend.now) }
{
    for note in legend {
        note_element(alloc, out, note)?;
    }
    Ok(())
}

fn shape_elements(alloc: Global, out: &mut Vec<u8>, shapes: &[Shape]) -> Result<(), NoMemory>
    ensures { OnOk result (out.new.items ≡ out.old.items ++ flat_map shape_text shapes.now) }
{
    for shape in shapes {
        shape_element(alloc, out, shape)?;
    }
    Ok(())
}

fn inside(alloc: Global, out: &mut Vec<u8>, picture: &Picture) -> Result<(), NoMemory>
    ensures { OnOk result (out.new.items ≡ out.old.items ++ svg_inside picture.now) }
{
    push(out, "\n")?;
    front(alloc, out, picture)?;
    ground(alloc, out)?;
    help_elements(alloc, out, picture.helps.as_slice())?;
    note_elements(alloc, out, picture.legend.as_slice())?;
    shape_elements(alloc, out, picture.shapes.as_slice())
}

/// The picture as SVG, in ASCII.
pub fn write(alloc: Global, picture: &Picture) -> Result<List<u8>, NoMemory>
    ensures text { IfOk result (λ text. text ≡ svg_text picture.now) }
    ensures well_formed { IfOk result IsDocument }
{
    let mut out = Vec::new(alloc);
    start(alloc, &mut out, picture)?;
    inside(alloc, &mut out, picture)?;
    close(&mut out, "svg")?;
    Ok(List::from_vec(out))
}
