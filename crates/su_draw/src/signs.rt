//! The legend: a line for each sign that stands in a picture.
ghost use Rattle.std.specs.Prelude.{◌≡◌, filter, IfOk};
ghost use Rattle.std.specs.List.{list_any};
ghost use Rattle.su_draw.specs.Signs.{is_number as number_thing, is_symbol as symbol_thing, is_fold as fold_thing, is_source as source_thing, is_cover as cover_thing, is_member as member_thing, is_part as part_thing, shows as shown_by, signs_in as signs_shown, text_of as line_for};

use crate::shapes::Shape;
use crate::things::What;
use std::alloc::Global;
use su_base::{List, NoMemory};

/// What a line of the legend explains.
#[derive(Clone, Copy)]
pub enum Sign {
    /// A kept row.
    Kept,
    /// A row that isn't kept.
    Pale,
    /// An arrow of a fold.
    Arrow,
    /// The number beside a symbol of several cells.
    Mark,
    /// The sources of a kept row.
    From,
    /// An arrow to a term that covers.
    Cover,
    /// That an object has an attribute.
    Dot,
    /// The same, in the core of a cycle.
    Ring,
    /// That an object is in a maximal object.
    Square,
}

fn is_number(what: What) -> bool
    ensures { result ≡ number_thing what }
{
    matches!(what, What::Row)
}

fn is_symbol(what: What) -> bool
    ensures { result ≡ symbol_thing what }
{
    matches!(what, What::Symbol)
}

fn is_fold(what: What) -> bool
    ensures { result ≡ fold_thing what }
{
    matches!(what, What::Fold)
}

fn is_source(what: What) -> bool
    ensures { result ≡ source_thing what }
{
    matches!(what, What::Source)
}

fn is_cover(what: What) -> bool
    ensures { result ≡ cover_thing what }
{
    matches!(what, What::Cover)
}

fn is_member(what: What) -> bool
    ensures { result ≡ member_thing what }
{
    matches!(what, What::Member)
}

fn is_part(what: What) -> bool
    ensures { result ≡ part_thing what }
{
    matches!(what, What::Part)
}

/// Whether the shape has the sign.
fn shows(sign: Sign, shape: &Shape) -> bool
    ensures { result ≡ shown_by sign shape.now }
{
    let what = shape.thing.what;
    match sign {
        Sign::Kept => is_number(what) && !shape.place.light,
        Sign::Pale => is_number(what) && shape.place.light,
        Sign::Arrow => is_fold(what),
        Sign::Mark => is_symbol(what) && shape.place.mark != 0,
        Sign::From => is_source(what),
        Sign::Cover => is_cover(what),
        Sign::Dot => is_member(what) && shape.place.mark == 0,
        Sign::Ring => is_member(what) && shape.place.mark != 0,
        Sign::Square => is_part(what),
    }
}

/// Whether a shape has the sign.
fn is_shown(sign: Sign, shapes: &[Shape]) -> bool
    ensures { result ≡ list_any (shown_by sign) shapes.now }
{
    shapes.iter().any(|shape| shows(sign, shape))
}

/// Those of the signs that stand in a picture.
fn shown_among(alloc: Global, all: &[Sign], shapes: &[Shape]) -> Result<List<Sign>, NoMemory>
    ensures { IfOk result (λ signs. signs ≡ filter (λ g. list_any (shown_by g) shapes.now) all.now) }
{
    let mut signs = List::new(alloc);
    for sign in all {
        if is_shown(*sign, shapes) {
            signs.push(*sign)?;
        }
    }
    Ok(signs)
}

/// The signs that stand in a picture, in the order of the legend.
pub(crate) fn signs_in(alloc: Global, shapes: &[Shape]) -> Result<List<Sign>, NoMemory>
    ensures { IfOk result (λ signs. signs ≡ signs_shown shapes.now) }
{
    let all = [
        Sign::Kept,
        Sign::Pale,
        Sign::Arrow,
        Sign::Mark,
        Sign::From,
        Sign::Cover,
        Sign::Dot,
        Sign::Ring,
        Sign::Square,
    ];
    shown_among(alloc, &all, shapes)
}

/// The line of the legend.
pub(crate) fn text_of(sign: Sign) -> &'static str
    ensures { result.now ≡ line_for sign }
{
    match sign {
        Sign::Kept => "bold on a ground: a kept row",
        Sign::Pale => "pale: a row that isn't kept",
        Sign::Arrow => "arrow: from a row to the one that answers for it",
        Sign::Mark => "small number: one symbol in several cells of the term",
        Sign::From => "read from: the objects that hold a kept row's values",
        Sign::Cover => "arrow at the left: from a term to the one that covers it",
        Sign::Dot => "dot: the object has the attribute",
        Sign::Ring => "ring: the object has the attribute, and is in the core of a cycle",
        Sign::Square => "square: the object is in the maximal object",
    }
}
