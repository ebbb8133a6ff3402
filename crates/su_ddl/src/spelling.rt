//! A definition as its symbols, and as a line of text.
ghost use Rattle.std.specs.Prelude.{◌≡◌, ◌∷◌, ◌++◌, [], map, IfOk, OnErr, OnOk};
ghost use Rattle.su_lex.specs.AddedFronts.{AddsFront};
ghost use Rattle.su_lex.specs.Names.{names_symbols};
ghost use Rattle.su_ddl.specs.Grammar.{definition_symbols, column_symbols, columns_symbols, in_parens};
ghost use Rattle.su_ddl.specs.inside.Columns.{behind_commas};
ghost use Rattle.su_ddl.specs.Shown.{line_of};

use std::alloc::Global;
use su_base::{Column, Kind, List, NoMemory, Str};
use su_lex::{Sign, Symbol, push_kind, push_sign, push_spaced, push_word};
use su_schema::{Definition, Pair};

/// { "," NAME }
fn push_more_names(alloc: Global, out: &mut List<Symbol>, names: &[Str]) -> Result<(), NoMemory>
    ensures ok { OnOk result (out.new ≡ out.old ++ behind_commas (map (λ name. Symbol.Word name ∷ []) names.now)) }
    ensures front { OnErr result (AddsFront out.old out.new (behind_commas (map (λ name. Symbol.Word name ∷ []) names.now))) }
{
    for name in names {
        push_sign(out, Sign::Comma)?;
        push_word(alloc, out, name.as_str())?;
    }
    Ok(())
}

/// Adds NAME { "," NAME } at the end of `out`.
pub fn push_names(alloc: Global, out: &mut List<Symbol>, names: &[Str]) -> Result<(), NoMemory>
    ensures ok { OnOk result (out.new ≡ out.old ++ names_symbols names.now) }
    ensures front { OnErr result (AddsFront out.old out.new (names_symbols names.now)) }
{
    match names {
        [first, others @ ..] => {
            push_word(alloc, out, first.as_str())?;
            push_more_names(alloc, out, others)
        }
        [] => Ok(()),
    }
}

/// "(" NAME { "," NAME } ")"
fn push_in_parens(alloc: Global, out: &mut List<Symbol>, names: &[Str]) -> Result<(), NoMemory>
    ensures { OnOk result (out.new ≡ out.old ++ in_parens names.now []) }
{
    push_sign(out, Sign::Open)?;
    push_names(alloc, out, names)?;
    push_sign(out, Sign::Close)
}

/// NAME kind
fn push_column(alloc: Global, out: &mut List<Symbol>, column: &Column) -> Result<(), NoMemory>
    ensures { OnOk result (out.new ≡ out.old ++ column_symbols column.now) }
{
    push_word(alloc, out, column.name.as_str())?;
    push_kind(alloc, out, column.kind)
}

/// { "," NAME kind }
fn push_more_columns(
    alloc: Global,
    out: &mut List<Symbol>,
    columns: &[Column],
) -> Result<(), NoMemory>
    ensures { OnOk result (out.new ≡ out.old ++ behind_commas (map column_symbols columns.now)) }
{
    for column in columns {
        push_sign(out, Sign::Comma)?;
        push_column(alloc, out, column)?;
    }
    Ok(())
}

/// NAME kind { "," NAME kind }
fn push_columns(alloc: Global, out: &mut List<Symbol>, columns: &[Column]) -> Result<(), NoMemory>
    ensures { OnOk result (out.new ≡ out.old ++ columns_symbols columns.now) }
{
    match columns {
        [first, others @ ..] => {
            push_column(alloc, out, first)?;
            push_more_columns(alloc, out, others)
        }
        [] => Ok(()),
    }
}

fn attributes_of(alloc: Global, pairs: &[Pair]) -> Result<List<Str>, NoMemory>
    ensures { IfOk result (λ names. names ≡ map (λ p. p.attribute) pairs.now) }
{
    let mut names = List::new(alloc);
    for pair in pairs {
        names.push(pair.attribute.copy(alloc)?)?;
    }
    Ok(names)
}

fn columns_of(alloc: Global, pairs: &[Pair]) -> Result<List<Str>, NoMemory>
    ensures { IfOk result (λ names. names ≡ map (λ p. p.column) pairs.now) }
{
    let mut names = List::new(alloc);
    for pair in pairs {
        names.push(pair.column.copy(alloc)?)?;
    }
    Ok(names)
}

fn push_attribute(
    alloc: Global,
    out: &mut List<Symbol>,
    name: &Str,
    kind: Kind,
) -> Result<(), NoMemory>
    ensures { OnOk result (out.new ≡ out.old ++ definition_symbols (Definition.Attribute name.now kind)) }
{
    push_word(alloc, out, "attribute")?;
    push_word(alloc, out, name.as_str())?;
    push_kind(alloc, out, kind)?;
    Ok(())
}

fn push_relation(
    alloc: Global,
    out: &mut List<Symbol>,
    name: &Str,
    columns: &[Column],
) -> Result<(), NoMemory>
    ensures { OnOk result (out.new ≡ out.old ++ definition_symbols (Definition.Relation name.now columns.now)) }
{
    push_word(alloc, out, "relation")?;
    push_word(alloc, out, name.as_str())?;
    push_sign(out, Sign::Open)?;
    push_columns(alloc, out, columns)?;
    push_sign(out, Sign::Close)
}

fn push_object(
    alloc: Global,
    out: &mut List<Symbol>,
    name: &Str,
    relation: &Str,
    pairs: &[Pair],
) -> Result<(), NoMemory>
    ensures { OnOk result (out.new ≡ out.old ++ definition_symbols (Definition.Object name.now relation.now pairs.now)) }
{
    let attributes = attributes_of(alloc, pairs)?;
    let columns = columns_of(alloc, pairs)?;
    push_word(alloc, out, "object")?;
    push_word(alloc, out, name.as_str())?;
    push_in_parens(alloc, out, attributes.as_slice())?;
    push_word(alloc, out, "from")?;
    push_word(alloc, out, relation.as_str())?;
    push_in_parens(alloc, out, columns.as_slice())
}

fn push_fd(
    alloc: Global,
    out: &mut List<Symbol>,
    left: &[Str],
    right: &[Str],
) -> Result<(), NoMemory>
    ensures { OnOk result (out.new ≡ out.old ++ definition_symbols (Definition.Fd left.now right.now)) }
{
    push_word(alloc, out, "fd")?;
    push_names(alloc, out, left)?;
    push_sign(out, Sign::Arrow)?;
    push_names(alloc, out, right)
}

fn push_maximal(alloc: Global, out: &mut List<Symbol>, objects: &[Str]) -> Result<(), NoMemory>
    ensures { OnOk result (out.new ≡ out.old ++ definition_symbols (Definition.Maximal objects.now)) }
{
    push_word(alloc, out, "maximal")?;
    push_in_parens(alloc, out, objects)
}

fn push_definition(
    alloc: Global,
    out: &mut List<Symbol>,
    definition: &Definition,
) -> Result<(), NoMemory>
    ensures { OnOk result (out.new ≡ out.old ++ definition_symbols definition.now) }
{
    match definition {
        Definition::Attribute { name, kind } => push_attribute(alloc, out, name, *kind),
        Definition::Relation { name, columns } => {
            push_relation(alloc, out, name, columns.as_slice())
        }
        Definition::Object {
            name,
            relation,
            pairs,
        } => push_object(alloc, out, name, relation, pairs.as_slice()),
        Definition::Fd { left, right } => push_fd(alloc, out, left.as_slice(), right.as_slice()),
        Definition::Maximal { objects } => push_maximal(alloc, out, objects.as_slice()),
    }
}

/// Adds the definition as it is shown, `;` and a line feed, at the end of `out`.
pub fn push_line(alloc: Global, out: &mut Vec<u8>, definition: &Definition) -> Result<(), NoMemory>
    ensures ok { OnOk result (out.new.items ≡ out.old.items ++ line_of definition.now) }
    ensures front { OnErr result (AddsFront out.old.items out.new.items (line_of definition.now)) }
{
    let mut symbols = List::new(alloc);
    push_definition(alloc, &mut symbols, definition)?;
    push_spaced(alloc, out, symbols.as_slice())?;
    out.extend_from_slice(b";\n")?;
    Ok(())
}
