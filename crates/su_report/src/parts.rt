//! Parts of lines.
ghost use Rattle.std.specs.Prelude.{◌≡◌, ◌<◌, ◌++◌, IfOk, OnOk, map, length};
ghost use Rattle.su_schema.specs.Entries.{attribute_names, relation_names, object_names};
ghost use Rattle.su_ddl.specs.ShownDefinitions.{name_at};
ghost use Rattle.su_lex.specs.Names.{names_symbols};
ghost use Rattle.su_lex.specs.Spelling.{spaced};
ghost use Rattle.su_state.specs.Breaches.{fd_at};
ghost use Rattle.su_show.specs.Values.{behind_spaces, fd_text, objects_text};
ghost use Rattle.su_report.specs.ObjectLines.{listed};

use std::alloc::Global;
use su_base::parts::push;
use su_base::{AttrSet, List, NoMemory, ObjSet, Str};
use su_ddl::{attributes_in, objects_in, push_names};
use su_fd::Fd;
use su_lex::{Sign, Symbol, push_spaced};
use su_schema::Schema;

/// The names, each behind a space.
pub(crate) fn push_behind_spaces(out: &mut Vec<u8>, names: &[Str]) -> Result<(), NoMemory>
    ensures { OnOk result (out.new.items ≡ out.old.items ++ behind_spaces names.now) }
{
    for name in names {
        push(out, " ")?;
        push(out, name.as_str())?;
    }
    Ok(())
}

/// The objects of the set, each behind a space.
pub(crate) fn push_objects(
    alloc: Global,
    out: &mut Vec<u8>,
    schema: &Schema,
    set: ObjSet,
) -> Result<(), NoMemory>
    ensures { OnOk result (out.new.items ≡ out.old.items ++ objects_text schema.now set) }
{
    let names = objects_in(alloc, schema, set)?;
    push_behind_spaces(out, names.as_slice())
}

/// The names with commas.
pub(crate) fn push_listed(alloc: Global, out: &mut Vec<u8>, names: &[Str]) -> Result<(), NoMemory>
    ensures { OnOk result (out.new.items ≡ out.old.items ++ spaced (names_symbols names.now)) }
{
    let mut symbols = List::new(alloc);
    push_names(alloc, &mut symbols, names)?;
    push_spaced(alloc, out, symbols.as_slice())
}

/// The attributes of the set with commas.
pub(crate) fn push_attributes(
    alloc: Global,
    out: &mut Vec<u8>,
    schema: &Schema,
    set: AttrSet,
) -> Result<(), NoMemory>
    ensures { OnOk result (out.new.items ≡ out.old.items ++ listed schema.now set) }
{
    let names = attributes_in(alloc, schema, set)?;
    push_listed(alloc, out, names.as_slice())
}

/// The dependency as it is shown.
pub(crate) fn push_fd(
    alloc: Global,
    out: &mut Vec<u8>,
    schema: &Schema,
    fd: &Fd,
) -> Result<(), NoMemory>
    ensures { OnOk result (out.new.items ≡ out.old.items ++ fd_text schema.now fd.now) }
{
    let left = attributes_in(alloc, schema, fd.left)?;
    let right = attributes_in(alloc, schema, fd.right)?;
    let mut symbols = List::new(alloc);
    push_names(alloc, &mut symbols, left.as_slice())?;
    symbols.push(Symbol::Sign(Sign::Arrow))?;
    push_names(alloc, &mut symbols, right.as_slice())?;
    push_spaced(alloc, out, symbols.as_slice())
}

/// The names of the objects with these numbers.
pub(crate) fn object_names_of(
    alloc: Global,
    schema: &Schema,
    objects: &[u8],
) -> Result<List<Str>, NoMemory>
    ensures { IfOk result (λ names. names ≡ map (name_at (object_names schema.now)) objects.now) }
{
    let mut names = List::new(alloc);
    for o in objects {
        names.push(Str::new(alloc, object_name(schema, *o))?)?;
    }
    Ok(names)
}

/// The name of the object with this number; nothing where there is none.
pub(crate) fn object_name(schema: &Schema, o: u8) -> &str
    ensures { result.now ≡ name_at (object_names schema.now) o }
{
    if o as usize >= schema.objects() {
        return "";
    }
    schema.object_name(o)
}

/// The name of the attribute with this number; nothing where there is none.
pub(crate) fn attribute_name(schema: &Schema, a: u8) -> &str
    ensures { result.now ≡ name_at (attribute_names schema.now) a }
{
    if a as usize >= schema.attributes() {
        return "";
    }
    schema.attribute_name(a)
}

/// The name of the relation with this number; nothing where there is none.
pub(crate) fn relation_name(schema: &Schema, r: u8) -> &str
    ensures { result.now ≡ name_at (relation_names schema.now) r }
{
    if r as usize >= schema.relations() {
        return "";
    }
    schema.relation_name(r)
}

/// The dependency with this number; one of no attributes where there is none.
pub(crate) fn fd_at(schema: &Schema, i: u16) -> Fd
    ensures { result ≡ fd_at schema.now i }
{
    match schema.fds().get(i as usize) {
        Some(fd) => *fd,
        None => Fd {
            left: AttrSet::empty(),
            right: AttrSet::empty(),
        },
    }
}
