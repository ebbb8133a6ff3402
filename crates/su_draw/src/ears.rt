//! The core of a schema's objects: those that stay when ears are taken away, one after another.
ghost use Rattle.std.specs.Prelude.{◌≡◌, ◌==◌, ◌||◌, not, position, map, take, drop, length, IfOk};
ghost use Rattle.std.specs.List.{list_any, list_all};
ghost use Rattle.su_explained.specs.Definitions.{attribute_count_of};
ghost use Rattle.su_draw.specs.Ears.{name_in_list, is_object as object_kind, edge_of as object_edge, edges_from, has as has_name, is_shared as shared, has_shared as holds_shared, is_ear as ear, IsCoreOf, ring_of};

use crate::cells::copied;
use crate::measures::front_of;
use std::alloc::Global;
use su_base::{List, NoMemory};
use su_explained::{Kind, Line, are_same, attribute_count};

/// An object: the number of its line, and the names of its attributes.
#[derive(Drop)]
pub struct Edge {
    pub line: usize,
    pub attributes: List<List<u8>>,
}

/// The name in a word of a list, without the parenthesis before it and the sign behind it.
pub(crate) fn name_in(word: &[u8]) -> &[u8]
    ensures { result.now ≡ name_in_list word.now }
{
    match word {
        [b'(', name @ .., _] => name,
        [name @ .., _] => name,
        [] => word,
    }
}

/// Whether the line defines an object.
fn is_object(kind: Kind) -> bool
    ensures { result ≡ object_kind kind }
{
    matches!(kind, Kind::Object)
}

/// The words of an object's line that tell its attributes.
pub(crate) fn attribute_words(words: &[List<u8>]) -> &[List<u8>]
    ensures { result.now ≡ take (attribute_count_of (length words.now)) (drop 2 words.now) }
{
    match words {
        [_, _, behind @ ..] => front_of(behind, attribute_count(words.len())),
        _ => &[],
    }
}

fn names_in(alloc: Global, words: &[List<u8>]) -> Result<List<List<u8>>, NoMemory>
    ensures { IfOk result (λ names. names ≡ map name_in_list words.now) }
{
    let mut names = List::new(alloc);
    for word in words {
        names.push(copied(alloc, name_in(word.as_slice()))?)?;
    }
    Ok(names)
}

/// The object that the words of a line define.
fn edge_of(alloc: Global, line: usize, words: &[List<u8>]) -> Result<Edge, NoMemory>
    ensures { IfOk result (λ edge. edge ≡ object_edge line words.now) }
{
    let attributes = names_in(alloc, attribute_words(words))?;
    Ok(Edge { line, attributes })
}

/// The objects of a text.
pub(crate) fn edges_of(alloc: Global, lines: &[Line]) -> Result<List<Edge>, NoMemory>
    ensures { IfOk result (λ edges. edges ≡ edges_from 0 lines.now) }
{
    let mut edges = List::new(alloc);
    for (number, line) in lines.iter().enumerate() {
        if is_object(line.kind) {
            edges.push(edge_of(alloc, number, line.words.as_slice())?)?;
        }
    }
    Ok(edges)
}

fn has(edge: &Edge, name: &[u8]) -> bool
    ensures { result ≡ has_name edge.now name.now }
{
    edge.attributes
        .iter()
        .any(|known| are_same(known.as_slice(), name))
}

/// Whether an edge other than that of the line has the attribute.
fn is_shared(edges: &[Edge], line: usize, name: &[u8]) -> bool
    ensures { result ≡ shared edges.now line name.now }
{
    edges
        .iter()
        .any(|other| other.line != line && has(other, name))
}

/// Whether no other edge has one of its attributes.
fn is_alone(edges: &[Edge], edge: &Edge) -> bool
    ensures { result ≡ list_all (λ name. not (shared edges.now edge.now.line name)) edge.now.attributes }
{
    edge.attributes
        .iter()
        .all(|name| !is_shared(edges, edge.line, name.as_slice()))
}

/// Whether the other edge has the attribute, or none but this edge has it.
fn is_held(edges: &[Edge], line: usize, other: &Edge, name: &[u8]) -> bool
    ensures { result ≡ (not (shared edges.now line name.now) || has_name other.now name.now) }
{
    !is_shared(edges, line, name) || has(other, name)
}

/// Whether the other edge has all that this one shares.
fn holds_all(edges: &[Edge], edge: &Edge, other: &Edge) -> bool
    ensures { result ≡ list_all (λ name. not (shared edges.now edge.now.line name) || has_name other.now name) edge.now.attributes }
{
    edge.attributes
        .iter()
        .all(|name| is_held(edges, edge.line, other, name.as_slice()))
}

/// Whether this one, another edge, has all that it shares.
fn has_shared(edges: &[Edge], edge: &Edge, other: &Edge) -> bool
    ensures { result ≡ holds_shared edges.now edge.now other.now }
{
    other.line != edge.line && holds_all(edges, edge, other)
}

/// Whether some edge has all that this one shares.
fn is_within(edges: &[Edge], edge: &Edge) -> bool
    ensures { result ≡ list_any (λ other. holds_shared edges.now edge.now other) edges.now }
{
    edges.iter().any(|other| has_shared(edges, edge, other))
}

fn is_ear(edges: &[Edge], edge: &Edge) -> bool
    ensures { result ≡ ear edges.now edge.now }
{
    is_alone(edges, edge) || is_within(edges, edge)
}

/// The place of the first ear.
fn ear_in(edges: &[Edge]) -> Option<usize>
    ensures { result ≡ position (λ e. ear edges.now e) edges.now }
{
    edges.iter().position(|edge| is_ear(edges, edge))
}

/// The edges that stay. It takes time with the third power of their number.
pub(crate) fn core_of(edges: List<Edge>) -> List<Edge>
    ensures { IsCoreOf edges result }
{
    let mut left = edges.into_vec();
    while let Some(i) = ear_in(left.as_slice()) {
        let _ = left.remove(i);
    }
    List::from_vec(left)
}

/// Whether the line's object is in the core.
fn is_in(core: &[Edge], line: usize) -> bool
    ensures { result ≡ list_any (λ e. e.line == line) core.now }
{
    core.iter().any(|edge| edge.line == line)
}

/// The mark of the dots of a line's object: 1 in the core, else 0.
pub(crate) fn ring_in(core: &[Edge], line: usize) -> usize
    ensures { result ≡ ring_of core.now line }
{
    if is_in(core, line) { 1 } else { 0 }
}
