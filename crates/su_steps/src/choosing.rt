//! The choices of one covering maximal object per variable.
ghost use Rattle.std.specs.Prelude.{◌≡◌, ◌<◌, ◌≤◌, ◌==◌, [], length, get_or, min, filter, position, All, IfOk};
ghost use Rattle.std.specs.List.{range_with_len};
ghost use Rattle.std.specs.FinSet as set;
ghost use Rattle.su_query.specs.Ranges.{IsPlaceAmong};
ghost use Rattle.su_steps.specs.Objects.{covers};
ghost use Rattle.su_steps.specs.Choices.{combinations, coverings as coverings_in};
ghost use Rattle.su_steps.specs.inside.RowCounts.{most_objects, objects_in};

use crate::objects::{attributes_together, object_count};
use std::alloc::Global;
use su_base::{AttrSet, List, NoMemory, ObjSet};
use su_query::{Resolved, mentioned};
use su_schema::Schema;

/// It stands for every count of choices above 256.
const MANY: usize = 257;

/// The numbers of the maximal objects whose attributes include these.
fn covering(
    alloc: Global,
    schema: &Schema,
    maximal: &[ObjSet],
    attributes: AttrSet,
) -> Result<List<u8>, NoMemory>
    requires { length maximal.now ≤ 128 }
    ensures { IfOk result (λ ms. ms ≡ filter (λ m. covers schema.now (get_or maximal.now m set.empty) attributes) (range_with_len 0 (length maximal.now))) }
{
    let mut numbers = List::new(alloc);
    for (m, objects) in maximal.iter().enumerate() {
        let wanted = attributes.within(attributes_together(schema, *objects));
        numbers.push_if(wanted, m as u8)?;
    }
    Ok(numbers)
}

/// For each variable the numbers of the maximal objects that cover it.
pub fn coverings(
    alloc: Global,
    schema: &Schema,
    maximal: &[ObjSet],
    resolved: &Resolved,
) -> Result<List<List<u8>>, NoMemory>
    requires few { length maximal.now ≤ 128 }
    requires variables { length resolved.now.variables ≤ 8 }
    requires places { All (IsPlaceAmong schema.now resolved.now.variables) resolved.now.places }
    ensures { IfOk result (λ cs. cs ≡ coverings_in schema.now maximal.now resolved.now) }
{
    schema.keeps_its_rules();
    let mut found = List::new(alloc);
    for v in 0..resolved.variables.len() as u8 {
        found.push(covering(alloc, schema, maximal, mentioned(resolved, v))?)?;
    }
    Ok(found)
}

/// The first variable that no maximal object covers.
pub fn first_empty(coverings: &[List<u8>]) -> Option<usize>
    ensures { result ≡ position (λ ms. length ms == 0) coverings.now }
{
    coverings.iter().position(|ms| ms.is_empty())
}

/// The greatest number of objects of these maximal objects.
fn most_of(schema: &Schema, maximal: &[ObjSet], numbers: &[u8]) -> usize
    requires { All (λ m. m < length maximal.now) numbers.now }
    ensures is { result ≡ most_objects schema.now maximal.now numbers.now }
    ensures few { result ≤ 64 }
{
    let mut most = 0;
    for m in numbers {
        most = most.max(object_count(schema, maximal[*m as usize]));
    }
    most
}

/// The greatest number of rows of a choice.
pub fn most_rows(schema: &Schema, maximal: &[ObjSet], coverings: &[List<u8>]) -> usize
    requires few { length coverings.now ≤ 8 }
    requires numbers { All (λ ms. All (λ m. m < length maximal.now) ms) coverings.now }
    ensures { result ≡ objects_in schema.now maximal.now coverings.now }
{
    let mut rows = 0;
    for numbers in coverings {
        rows += most_of(schema, maximal, numbers.as_slice());
    }
    rows
}

/// How many choices there are, and 257 where there are more.
pub fn choice_count(coverings: &[List<u8>]) -> usize
    requires { All (λ ms. length ms ≤ 128) coverings.now }
    ensures { result ≡ min (length (combinations coverings.now)) 257 }
{
    let mut count = 1;
    for numbers in coverings {
        count = MANY.min(count * numbers.len());
    }
    count
}

/// The k-th choice, where there are `count`.
pub fn choice_at(
    alloc: Global,
    coverings: &[List<u8>],
    count: usize,
    k: usize,
) -> Result<List<u8>, NoMemory>
    requires count { count ≡ length (combinations coverings.now) }
    requires place { k < count }
    ensures { IfOk result (λ choice. choice ≡ get_or (combinations coverings.now) k []) }
{
    let mut choice = List::new(alloc);
    let mut rest = count;
    let mut left = k;
    for numbers in coverings {
        rest /= numbers.len();
        choice.push(*numbers.get(left / rest))?;
        left %= rest;
    }
    Ok(choice)
}
