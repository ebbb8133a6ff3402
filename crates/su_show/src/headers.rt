//! The outputs of a query as they are shown.
ghost use Rattle.std.specs.Prelude.{◌≡◌, IfOk};
ghost use Rattle.su_lex.specs.Spelling.{spaced};
ghost use Rattle.su_query.specs.ShownParts.{ref_symbols};
ghost use Rattle.su_show.specs.Replies.{header_of};

use std::alloc::Global;
use su_base::{List, NoMemory, Str};
use su_query::{Query, Ref};

/// An output as it is shown.
fn shown(alloc: Global, output: &Ref) -> Result<Str, NoMemory>
    ensures { IfOk result (λ text. text ≡ spaced (ref_symbols output.now)) }
{
    let mut text = String::new(alloc);
    if let Some(variable) = &output.variable {
        text.push_str(variable.as_str())?;
        text.push_str(".")?;
    }
    text.push_str(output.attribute.as_str())?;
    Str::new(alloc, text.as_str())
}

/// The outputs of the query as they are shown, which stand above its rows.
pub fn header(alloc: Global, query: &Query) -> Result<List<Str>, NoMemory>
    ensures { IfOk result (λ names. names ≡ header_of query.now) }
{
    let mut names = List::new(alloc);
    for output in query.outputs.as_slice() {
        names.push(shown(alloc, output)?)?;
    }
    Ok(names)
}
