//! Elements of XML, at the end of what stands there.
ghost use Rattle.std.specs.Prelude.{◌≡◌, ◌++◌, flat_map, codes, decimal, [], OnOk};
ghost use Rattle.su_draw.specs.Xml.{attribute_text, element_text};
ghost use Rattle.su_draw.specs.EscapedBytes.{escaped};
ghost use Rattle.su_draw.specs.Shapes.{element_line};
ghost use Rattle.su_draw.specs.Looks.{word_of, number_attribute};
ghost use Rattle.su_draw.specs.inside.Pairs.{attribute_of, attributes_of};

use crate::escaping::escape;
use std::alloc::Global;
use su_base::NoMemory;
use su_base::parts::{push, push_number};

/// An attribute: its name and its value.
#[derive(Clone, Copy)]
pub enum Pair<'a> {
    Number(&'a str, u32),
    Word(&'a str, &'a str),
}

fn number(alloc: Global, out: &mut Vec<u8>, name: &str, value: u32) -> Result<(), NoMemory>
    ensures { OnOk result (out.new.items ≡ out.old.items ++ attribute_text (number_attribute name.now value)) }
{
    push(out, " ")?;
    push(out, name)?;
    push(out, "=\"")?;
    push_number(alloc, out, u64::from(value))?;
    push(out, "\"")
}

fn word(out: &mut Vec<u8>, name: &str, value: &str) -> Result<(), NoMemory>
    ensures { OnOk result (out.new.items ≡ out.old.items ++ attribute_text (word_of name.now value.now)) }
{
    push(out, " ")?;
    push(out, name)?;
    push(out, "=\"")?;
    push(out, value)?;
    push(out, "\"")
}

fn attribute(alloc: Global, out: &mut Vec<u8>, pair: Pair) -> Result<(), NoMemory>
    ensures { OnOk result (out.new.items ≡ out.old.items ++ attribute_text (attribute_of pair.entry)) }
{
    match pair {
        Pair::Number(name, value) => number(alloc, out, name, value),
        Pair::Word(name, value) => word(out, name, value),
    }
}

/// The beginning of an element, up to what is inside.
pub(crate) fn open(
    alloc: Global,
    out: &mut Vec<u8>,
    name: &str,
    pairs: &[Pair],
) -> Result<(), NoMemory>
    ensures { OnOk result (out.new.items ≡ out.old.items ++ (codes "<" ++ name.now ++ flat_map attribute_text (attributes_of pairs.now) ++ codes ">")) }
{
    push(out, "<")?;
    push(out, name)?;
    for one in pairs {
        attribute(alloc, out, *one)?;
    }
    push(out, ">")
}

/// The end of an element within a line.
pub(crate) fn close_inside(out: &mut Vec<u8>, name: &str) -> Result<(), NoMemory>
    ensures { OnOk result (out.new.items ≡ out.old.items ++ (codes "</" ++ name.now ++ codes ">")) }
{
    push(out, "</")?;
    push(out, name)?;
    push(out, ">")
}

/// The end of an element, and of its line.
pub(crate) fn close(out: &mut Vec<u8>, name: &str) -> Result<(), NoMemory>
    ensures { OnOk result (out.new.items ≡ out.old.items ++ (codes "</" ++ name.now ++ codes ">\n")) }
{
    push(out, "</")?;
    push(out, name)?;
    push(out, ">\n")
}

/// An element with a text inside.
pub(crate) fn element(
    alloc: Global,
    out: &mut Vec<u8>,
    name: &str,
    pairs: &[Pair],
    text: &[u8],
) -> Result<(), NoMemory>
    ensures { OnOk result (out.new.items ≡ out.old.items ++ element_line name.now (attributes_of pairs.now) (escaped text.now)) }
{
    open(alloc, out, name, pairs)?;
    escape(alloc, out, text)?;
    close(out, name)
}

/// An element without attributes, with a text inside that is written as it is.
pub(crate) fn plain_element(
    alloc: Global,
    out: &mut Vec<u8>,
    name: &str,
    text: &str,
) -> Result<(), NoMemory>
    ensures { OnOk result (out.new.items ≡ out.old.items ++ element_line name.now [] text.now) }
{
    open(alloc, out, name, &[])?;
    push(out, text)?;
    close(out, name)
}

/// An element with a number inside, within a line.
pub(crate) fn number_inside(
    alloc: Global,
    out: &mut Vec<u8>,
    name: &str,
    pairs: &[Pair],
    number: usize,
) -> Result<(), NoMemory>
    ensures { OnOk result (out.new.items ≡ out.old.items ++ element_text name.now (attributes_of pairs.now) (decimal number)) }
{
    open(alloc, out, name, pairs)?;
    push_number(alloc, out, number as u64)?;
    close_inside(out, name)
}

/// An element with a number inside.
pub(crate) fn number_element(
    alloc: Global,
    out: &mut Vec<u8>,
    name: &str,
    pairs: &[Pair],
    number: usize,
) -> Result<(), NoMemory>
    ensures { OnOk result (out.new.items ≡ out.old.items ++ element_line name.now (attributes_of pairs.now) (decimal number)) }
{
    open(alloc, out, name, pairs)?;
    push_number(alloc, out, number as u64)?;
    close(out, name)
}
