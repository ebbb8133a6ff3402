//! A text drawn.
ghost use Rattle.std.specs.Prelude.{◌≡◌, ◌++◌, List as Items, All, slice_get, IfOk};
ghost use Rattle.su_draw.specs.declared.shapes.Help.{Help as AHelp};
ghost use Rattle.su_draw.specs.declared.things.What.TheVariants.{Member as MemberKind};
ghost use Rattle.su_draw.specs.Things.{things_of};
ghost use Rattle.su_draw.specs.Once.{StandOnce, things_in_shapes};
ghost use Rattle.su_draw.specs.Terms.{or_else, RowsStandBehind};
ghost use Rattle.su_draw.specs.Promises.{ArrowsJoin, KeepsPromises, HeadingsStand, SourcesStand, CoreIsRinged};
ghost use Rattle.su_draw.specs.Ears.{edges_from, IsCoreOf, ring_of};
ghost use Rattle.su_draw.specs.Signs.{signs_of, signs_in as signs_shown};
ghost use Rattle.su_draw.specs.inside.Lay.{StandsAs, IsLayoutOf, IsLaid, IsRinged, table_of, headings_from};

use crate::cells::copied;
use crate::cutting::shown_width;
use crate::ears::{Edge, core_of, edges_of, ring_in};
use crate::explaining::Layout;
use crate::gridding::Grid;
use crate::measures::{HIGH, width_of, words_of};
use crate::shapes::{Help, Note, Picture, Position, Shape};
use crate::signs::{signs_in, text_of};
use crate::tables::Table;
use crate::things::{Thing, What, all_things};
use std::alloc::Global;
use su_base::parts::push;
use su_base::{List, NoMemory};
use su_explained::{Kind, Line};

/// How a text is laid out: what explanations have in a layout, what schemas have in a grid, and the core of a
/// schema's objects.
struct Plan<'a> {
    layout: Layout<'a>,
    grid: Grid<'a>,
    core: List<Edge>,
}

/// Not derived, so that it is a single call wherever a plan goes out of scope.
impl Drop for Plan<'_> {
    fn drop(self) {
        let Plan {
            layout: _,
            grid: _,
            core: _,
        } = self;
    }
}

/// Whether the lines are those of an explanation.
fn is_explanation(lines: &[Line]) -> bool {
    match lines.first() {
        Some(line) => line.kind == Kind::Query,
        None => false,
    }
}

impl<'a> Plan<'a> {
    fn new(alloc: Global, lines: &'a [Line]) -> Result<Plan<'a>, NoMemory>
        ensures layout { IfOk result (λ plan. IsLayoutOf lines.now plan.layout) }
        ensures core { IfOk result (λ plan. IsCoreOf (edges_from 0 lines.now) plan.core) }
    {
        let core = core_of(edges_of(alloc, lines)?);
        let layout = Layout::new(alloc, lines)?;
        let grid = Grid::new(alloc, lines)?;
        Ok(Plan { layout, grid, core })
    }

    /// Whether the thing stands in the grid.
    fn is_in_grid(&self, thing: &Thing) -> bool {
        match self.layout.lines.get(thing.line) {
            Some(line) => line.kind == Kind::Maximal,
            None => false,
        }
    }

    /// Where a thing is drawn, by the table of its term.
    fn place(&self, table: &Table, thing: &Thing) -> Position
        ensures stands { StandsAs thing.now.what self.now.layout.lines.now self.now.layout.heights self.now.layout.lights self.now.layout.left table.now thing.now result }
        ensures ring { thing.now.what ≡ MemberKind → result.mark ≡ ring_of self.now.core thing.now.line }
    {
        match thing.what {
            What::Member => self
                .grid
                .dot(thing, ring_in(self.core.as_slice(), thing.line)),
            What::Attribute | What::Object | What::Part => self.grid.place(thing),
            What::Label if self.is_in_grid(thing) => self.grid.place(thing),
            _ => self.layout.place(table, thing),
        }
    }

    /// What stands for no word, but for the names of columns.
    fn others(&self, alloc: Global) -> Result<List<Help>, NoMemory> {
        if is_explanation(self.layout.lines) {
            return self.layout.others(alloc);
        }
        self.grid.helps(alloc)
    }

    /// What stands for no word: the names of columns, and the others.
    fn helps(&self, alloc: Global) -> Result<List<Help>, NoMemory>
        ensures { IfOk result (λ helps. (more : Items AHelp) × (helps ≡ headings_from self.now.layout.left self.now.layout.heights self.now.layout.lines.now 0 self.now.layout.lines.now ++ more)) }
    {
        let mut helps = self.layout.headings(alloc)?;
        let others = self.others(alloc)?;
        helps.append(others)?;
        Ok(helps)
    }

    fn bottom(&self) -> u32 {
        if is_explanation(self.layout.lines) {
            return self.layout.bottom();
        }
        self.grid.bottom()
    }
}

/// How far to the right a shape goes.
fn right_of(thing: &Thing, place: Position) -> u32 {
    match thing.what {
        What::Fold => place.edge.max(place.lane),
        What::Symbol => place
            .x
            .saturating_add(shown_width(thing.text.as_slice()))
            .saturating_add(20),
        _ => place.x.saturating_add(shown_width(thing.text.as_slice())),
    }
}

/// How far to the right a heading or a line goes.
fn end_of(help: &Help) -> u32 {
    match help {
        Help::Heading { x, text, .. } => x.saturating_add(shown_width(text.as_slice())),
        Help::Band { x, width, .. } => x.saturating_add(*width),
        Help::Rule { to_x, .. } => *to_x,
    }
}

/// The table of the term that begins with this line, which may be the one at hand.
fn table_for(alloc: Global, layout: &Layout, table: Table, term: usize) -> Result<Table, NoMemory>
    requires { table ≡ table_of layout.now.left layout.now.lines.now table.term }
    ensures { IfOk result (λ new. new ≡ table_of layout.now.left layout.now.lines.now term) }
{
    if table.term == term {
        return Ok(table);
    }
    Table::of(alloc, layout.left, layout.lines, term)
}

/// A thing at its place.
fn shape_of(plan: &Plan, table: &Table, thing: Thing) -> Shape
    requires { table.now ≡ table_of plan.now.layout.left plan.now.layout.lines.now (or_else 0 (slice_get plan.now.layout.terms thing.line)) }
    ensures thing { result.thing ≡ thing }
    ensures laid { IsLaid plan.now.layout result }
    ensures ringed { IsRinged plan.now.core result }
{
    let place = plan.place(table, &thing);
    Shape { thing, place }
}

/// The things at their places. The table of a term is made where the first thing of it comes.
fn shapes_of(alloc: Global, plan: &Plan, things: List<Thing>) -> Result<List<Shape>, NoMemory>
    ensures things { IfOk result (λ shapes. things_in_shapes shapes ≡ things) }
    ensures laid { IfOk result (λ shapes. All (IsLaid plan.now.layout) shapes) }
    ensures ringed { IfOk result (λ shapes. All (IsRinged plan.now.core) shapes) }
{
    let layout = &plan.layout;
    let mut shapes = List::new(alloc);
    let mut table = Table::of(alloc, layout.left, layout.lines, 0)?;
    for thing in things.into_vec() {
        table = table_for(alloc, layout, table, layout.term_at(thing.line))?;
        shapes.push(shape_of(plan, &table, thing))?;
    }
    Ok(shapes)
}

/// The title: the first line of an explanation.
fn title_of(alloc: Global, lines: &[Line]) -> Result<List<u8>, NoMemory> {
    let mut title = Vec::new(alloc);
    if !is_explanation(lines) {
        push(&mut title, "schema")?;
        return Ok(List::from_vec(title));
    }
    for (k, word) in words_of(lines, 0).iter().enumerate() {
        if 0 < k {
            push(&mut title, " ")?;
        }
        title.extend_from_slice(word.as_slice())?;
    }
    Ok(List::from_vec(title))
}

/// What the picture shows, for who doesn't see it.
fn about(lines: &[Line]) -> &'static str {
    if is_explanation(lines) {
        return "Each term of the query is a table: a column for each attribute, a line for each row. Kept rows are dark and bold, the others pale, with an arrow to the row that answers for them. Cells with one symbol have one mark. Beside a kept row stand the objects that it is read from.";
    }
    "Attributes are columns and objects are lines, with a dot where an object has an attribute. Maximal objects are columns behind them, with a square at each of their objects."
}

/// How far apart the lines of the legend are.
const NEXT: u32 = 16;

/// A line of the legend for each sign that is drawn, from this height down.
fn legend_of(alloc: Global, shapes: &[Shape], top: u32) -> Result<List<Note>, NoMemory>
    ensures { IfOk result (λ legend. signs_of legend ≡ signs_shown shapes.now) }
{
    let mut y = top;
    let mut legend = List::new(alloc);
    for sign in signs_in(alloc, shapes)?.into_vec() {
        legend.push(Note { x: 30, y, sign })?;
        y = y.saturating_add(NEXT);
    }
    Ok(legend)
}

/// How far to the right the legend goes.
fn legend_end(legend: &[Note]) -> u32 {
    let mut right: u32 = 0;
    for note in legend {
        let width = width_of(text_of(note.sign).as_bytes());
        right = right.max(note.x.saturating_add(width));
    }
    right
}

/// How high the picture is, with its legend.
fn height_of(top: u32, legend: &[Note]) -> u32 {
    match legend.last() {
        Some(note) => note.y.saturating_add(HIGH),
        None => top,
    }
}

/// How far to the right the picture goes.
fn right_end(helps: &[Help], shapes: &[Shape]) -> u32 {
    let mut right: u32 = 100;
    for help in helps {
        right = right.max(end_of(help));
    }
    for shape in shapes {
        right = right.max(right_of(&shape.thing, shape.place));
    }
    right
}

/// The picture of a text. It takes time for each word in proportion to the lines of its term, or of
/// the schema.
pub fn draw(alloc: Global, lines: &[Line]) -> Result<Picture, NoMemory>
    ensures things { IfOk result (λ picture. things_in_shapes picture.shapes ≡ things_of lines.now) }
    ensures once { IfOk result (λ picture. StandOnce lines.now (things_in_shapes picture.shapes)) }
    ensures arrows { IfOk result (λ picture. RowsStandBehind lines.now → ArrowsJoin lines.now picture.shapes) }
    ensures sources { IfOk result (λ picture. RowsStandBehind lines.now → SourcesStand lines.now picture.shapes) }
    ensures promises { IfOk result (λ picture. KeepsPromises lines.now picture.shapes) }
    ensures headings { IfOk result (λ picture. HeadingsStand lines.now picture.helps picture.shapes) }
    ensures core { IfOk result (λ picture. CoreIsRinged lines.now picture.shapes) }
    ensures legend { IfOk result (λ picture. signs_of picture.legend ≡ signs_shown picture.shapes) }
{
    let plan = Plan::new(alloc, lines)?;
    let things = all_things(alloc, lines)?;
    let shapes = shapes_of(alloc, &plan, things)?;
    let helps = plan.helps(alloc)?;
    let top = plan.bottom().saturating_add(2 * HIGH);
    let legend = legend_of(alloc, shapes.as_slice(), top)?;
    let right = right_end(helps.as_slice(), shapes.as_slice()).max(legend_end(legend.as_slice()));
    let title = title_of(alloc, lines)?;
    let about = copied(alloc, about(lines).as_bytes())?;
    Ok(Picture {
        title,
        about,
        width: right.saturating_add(20),
        height: height_of(top, legend.as_slice()),
        helps,
        legend,
        shapes,
    })
}
