//! Long words: cut where they are shown, whole in a title.
ghost use Rattle.std.specs.Prelude.{◌≡◌, ◌≤◌, ◌++◌, length, OnOk};
ghost use Rattle.su_draw.specs.Cutting.{is_inside as inside, chars_from, is_long as long, front_from, cut_text, shown_text};
ghost use Rattle.su_draw.specs.Widths.{shown_width as width_shown};

use crate::elements::{close_inside, open};
use crate::escaping::{escape, push_code};
use crate::measures::{WIDE, width_of};
use std::alloc::Global;
use su_base::NoMemory;

/// Whether the byte goes on with a character.
fn is_inside(byte: u8) -> bool
    ensures { result ≡ inside byte }
{
    128 <= byte && byte <= 191
}

/// How many characters a text has.
fn chars_of(text: &[u8]) -> usize
    ensures chars { result ≡ chars_from 0 text.now }
    ensures below { result ≤ length text.now }
{
    let mut chars: usize = 0;
    for byte in text {
        if !is_inside(*byte) {
            chars += 1;
        }
    }
    chars
}

/// Whether a text has more than twelve characters.
fn is_long(text: &[u8]) -> bool
    ensures { result ≡ long text.now }
{
    12 < chars_of(text)
}

/// The first eleven characters.
fn front_of(text: &[u8]) -> &[u8]
    ensures { result.now ≡ front_from 11 text.now }
{
    let mut left: usize = 11;
    for (i, byte) in text.iter().enumerate() {
        if !is_inside(*byte) {
            if left == 0 {
                return &text[..i];
            }
            left -= 1;
        }
    }
    text
}

/// How wide a text is as it is shown.
pub(crate) fn shown_width(text: &[u8]) -> u32
    ensures { result ≡ width_shown text.now }
{
    if is_long(text) {
        return width_of(front_of(text)).saturating_add(WIDE);
    }
    width_of(text)
}

/// Writes a long text: the whole in a title, eleven characters, and an ellipsis.
fn push_cut(alloc: Global, out: &mut Vec<u8>, text: &[u8]) -> Result<(), NoMemory>
    ensures { OnOk result (out.new.items ≡ out.old.items ++ cut_text text.now) }
{
    open(alloc, out, "title", &[])?;
    escape(alloc, out, text)?;
    close_inside(out, "title")?;
    escape(alloc, out, front_of(text))?;
    push_code(alloc, out, 8230)
}

/// Writes a text as it is shown.
pub(crate) fn push_shown(alloc: Global, out: &mut Vec<u8>, text: &[u8]) -> Result<(), NoMemory>
    ensures { OnOk result (out.new.items ≡ out.old.items ++ shown_text text.now) }
{
    if is_long(text) {
        return push_cut(alloc, out, text);
    }
    escape(alloc, out, text)
}
