//! What a field stands for.
ghost use Rattle.std.specs.Prelude.{◌≡◌, ◌<◌, ◌^◌, ◌∷◌, ◌++◌, [], IfOk, MatchOption, option_map, IsUtf8, if◌then◌else◌, Some, None, slice_index, ◌==◌, IfSome, pos, true, false};
ghost use Rattle.su_csv.specs.Field.{is_digits, field_number, is_text, field_value};
ghost use Rattle.std.specs.Str.Parse.{digits_value};

use std::alloc::Global;
use su_base::{Kind, NoMemory, Row, Value};

const TEXT_LIMIT: usize = 4096;

/// Any number of so many digits is within 64 bits.
const FEW_DIGITS: usize = 18;

fn starts_with_plus(field: &[u8]) -> bool
    ensures { result ≡ (slice_index field.now 0 == 43) }
{
    matches!(field, [b'+', ..])
}

fn starts_with_minus(field: &[u8]) -> bool
    ensures { result ≡ (slice_index field.now 0 == 45) }
{
    matches!(field, [b'-', ..])
}

/// The number that the digits write, where they are few enough that no sum is past the range.
fn digits_of(digits: &[u8]) -> Option<i64>
    ensures { IfSome result (λ value. (is_digits digits.now ≡ true) × (value ≡ pos (digits_value 10 digits.now))) }
{
    if digits.is_empty() || digits.len() > FEW_DIGITS {
        return None;
    }
    let mut value = 0u64;
    for digit in digits {
        if !digit.is_ascii_digit() {
            return None;
        }
        value = value * 10 + u64::from(*digit - b'0');
    }
    Some(value as i64)
}

/// The number that the field writes, where that is soon told.
fn short_number(field: &[u8]) -> Option<i64>
    ensures { IfSome result (λ value. field_number field.now ≡ Some value) }
{
    if starts_with_minus(field) {
        return Some(-digits_of(&field[1..])?);
    }
    digits_of(field)
}

/// The number that the field writes. Unlike `parse`, it takes no `+`.
#[inline(always)]
pub(crate) fn written_number(field: &[u8]) -> Option<i64>
    ensures { result ≡ field_number field.now }
{
    match short_number(field) {
        Some(value) => Some(value),
        None => long_number(field),
    }
}

/// The same where it isn't soon told: of 19 digits and more, and where there is none.
#[cold]
#[inline(never)]
fn long_number(field: &[u8]) -> Option<i64>
    ensures { result ≡ field_number field.now }
{
    if starts_with_plus(field) {
        return None;
    }
    match str::from_utf8(field) {
        Ok(text) => text.parse().ok(),
        Err(_) => None,
    }
}

/// The text that the field is. UTF-8 is tested only where it isn't known before.
fn text_of(field: &[u8], known: bool) -> Option<&str>
    requires { known ≡ true → IsUtf8 field.now }
    ensures { option_map (λ text. text.now) result ≡ (if is_text field.now then Some field.now else None) }
{
    if field.len() > TEXT_LIMIT {
        return None;
    }
    if known {
        return Some(unsafe { str::from_utf8_unchecked(field) });
    }
    match str::from_utf8(field) {
        Ok(text) => Some(text),
        Err(_) => None,
    }
}

/// Adds the value of the field in a column of this kind to the row, and says whether it has one. The
/// field may be known to be UTF-8.
pub(crate) fn push_value(
    row: &mut Row,
    alloc: Global,
    kind: Kind,
    field: &[u8],
    known: bool,
) -> Result<bool, NoMemory>
    requires { known ≡ true → IsUtf8 field.now }
    ensures { IfOk result (λ found. MatchOption (field_value kind field.now) (found ≡ false) (λ value. (found ≡ true) × (row.new ≡ row.old ++ value ∷ []))) }
{
    match kind {
        Kind::Int => {
            let Some(number) = written_number(field) else {
                return Ok(false);
            };
            row.push(Value::Int(number))?;
        }
        Kind::Text => {
            let Some(text) = text_of(field, known) else {
                return Ok(false);
            };
            row.push_text(alloc, text)?;
        }
    }
    Ok(true)
}
