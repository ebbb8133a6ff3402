//! Bytes as characters of XML.
ghost use Rattle.std.specs.Prelude.{◌≡◌, ◌++◌, ◌&&◌, ◌==◌, not, OnOk};
ghost use Rattle.su_draw.specs.Xml.{is_plain};
ghost use Rattle.su_draw.specs.Characters.{shown_for, char_text};
ghost use Rattle.su_draw.specs.EscapedBytes.{begun_with, bits_with, first_text, goes_on, byte_text, begun_behind, escaped};

use std::alloc::Global;
use su_base::NoMemory;
use su_base::parts::{push, push_number};

/// Whether the character stands for itself.
fn is_plain_sign(code: u32) -> bool
    ensures { result ≡ (is_plain code && not (code == 10)) }
{
    if code == 10 {
        return false;
    }
    32 <= code
        && code < 127
        && !(code == 34 || code == 38 || code == 39 || code == 60 || code == 62)
}

/// The character that is shown: control characters by their pictures, what is none of XML by U+FFFD.
fn shown(code: u32) -> u32
    ensures { result ≡ shown_for code }
{
    if code < 32 {
        return 0x2400 + code;
    }
    if code == 127 {
        return 0x2421;
    }
    if code < 0xD800 || 0xE000 <= code && code < 0xFFFE || 0x10000 <= code && code < 0x110000 {
        return code;
    }
    0xFFFD
}

/// A character: itself, or a reference to the one that is shown.
pub(crate) fn push_code(alloc: Global, out: &mut Vec<u8>, code: u32) -> Result<(), NoMemory>
    ensures { OnOk result (out.new.items ≡ out.old.items ++ char_text code) }
{
    if is_plain_sign(code) {
        out.extend_from_slice(&[code as u8])?;
        return Ok(());
    }
    push(out, "&#")?;
    push_number(alloc, out, u64::from(shown(code)))?;
    push(out, ";")
}

/// A character that has begun: how many of its bytes are still to come, and its bits so far.
#[derive(Clone, Copy)]
pub struct Begun {
    pub left: u8,
    pub bits: u32,
}

const NONE: Begun = Begun { left: 0, bits: 0 };

const BROKEN: u32 = 0xFFFD;

/// What a byte begins.
fn begun_by(byte: u8) -> Begun
    ensures { result ≡ begun_with byte }
{
    if 192 <= byte && byte <= 223 {
        return Begun {
            left: 1,
            bits: byte as u32 - 192,
        };
    }
    if 224 <= byte && byte <= 239 {
        return Begun {
            left: 2,
            bits: byte as u32 - 224,
        };
    }
    if 240 <= byte && byte <= 247 {
        return Begun {
            left: 3,
            bits: byte as u32 - 240,
        };
    }
    NONE
}

/// The bits with those of one more byte.
fn more(bits: u32, byte: u8) -> u32
    ensures { result ≡ bits_with bits byte }
{
    bits % 32768 * 64 + byte as u32 % 64
}

/// A byte that is a character, or begins one, or neither.
fn push_first(alloc: Global, out: &mut Vec<u8>, byte: u8) -> Result<(), NoMemory>
    ensures { OnOk result (out.new.items ≡ out.old.items ++ first_text byte) }
{
    if begun_by(byte).left != 0 {
        return Ok(());
    }
    push_code(alloc, out, if byte < 128 { byte as u32 } else { BROKEN })
}

/// Whether the byte goes on with a character.
fn continues(byte: u8) -> bool
    ensures { result ≡ goes_on byte }
{
    128 <= byte && byte < 192
}

/// What is written at the next byte.
fn push_byte(alloc: Global, out: &mut Vec<u8>, begun: Begun, byte: u8) -> Result<(), NoMemory>
    ensures { OnOk result (out.new.items ≡ out.old.items ++ byte_text begun byte) }
{
    if begun.left == 0 {
        return push_first(alloc, out, byte);
    }
    if !continues(byte) {
        push_code(alloc, out, BROKEN)?;
        return push_first(alloc, out, byte);
    }
    if begun.left == 1 {
        return push_code(alloc, out, more(begun.bits, byte));
    }
    Ok(())
}

/// What has begun behind it.
fn behind_byte(begun: Begun, byte: u8) -> Begun
    ensures { result ≡ begun_behind begun byte }
{
    if begun.left == 0 || !continues(byte) {
        return begun_by(byte);
    }
    if begun.left == 1 {
        return NONE;
    }
    Begun {
        left: begun.left - 1,
        bits: more(begun.bits, byte),
    }
}

/// Writes bytes of UTF-8 as XML in ASCII. A byte that is part of no character is shown as U+FFFD.
pub(crate) fn escape(alloc: Global, out: &mut Vec<u8>, bytes: &[u8]) -> Result<(), NoMemory>
    ensures { OnOk result (out.new.items ≡ out.old.items ++ escaped bytes.now) }
{
    let mut begun = NONE;
    for byte in bytes {
        push_byte(alloc, out, begun, *byte)?;
        begun = behind_byte(begun, *byte);
    }
    if begun.left == 0 {
        return Ok(());
    }
    push_code(alloc, out, BROKEN)
}
