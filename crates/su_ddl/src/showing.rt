//! A schema as text.
ghost use Rattle.std.specs.Prelude.{◌≡◌, ◌<◌, ◌^◌, ◌++◌, length, map, IfOk, OnOk, Ok as OkOf};
ghost use Rattle.su_ddl.specs.Files.{Reads};
ghost use Rattle.su_ddl.specs.Shown.{lines_of, schema_text};
ghost use Rattle.su_ddl.specs.ShownDefinitions.{attribute_definition, relation_definition, object_definition, fd_definition, maximal_definition};

use crate::entries::{attribute_at, fd_of, maximal_of, object_at, relation_at};
use crate::spelling::push_line;
use std::alloc::Global;
use su_base::{List, NoMemory};
use su_schema::Schema;

fn push_attributes(alloc: Global, out: &mut Vec<u8>, schema: &Schema) -> Result<(), NoMemory>
    ensures { OnOk result (out.new.items ≡ out.old.items ++ lines_of (map attribute_definition schema.now.attributes)) }
{
    schema.keeps_its_rules();
    for a in 0..schema.attributes() as u8 {
        let definition = attribute_at(alloc, schema, a)?;
        push_line(alloc, out, &definition)?;
    }
    Ok(())
}

fn push_relations(alloc: Global, out: &mut Vec<u8>, schema: &Schema) -> Result<(), NoMemory>
    ensures { OnOk result (out.new.items ≡ out.old.items ++ lines_of (map relation_definition schema.now.relations)) }
{
    schema.keeps_its_rules();
    for r in 0..schema.relations() as u8 {
        let definition = relation_at(alloc, schema, r)?;
        push_line(alloc, out, &definition)?;
    }
    Ok(())
}

fn push_objects(alloc: Global, out: &mut Vec<u8>, schema: &Schema) -> Result<(), NoMemory>
    ensures { OnOk result (out.new.items ≡ out.old.items ++ lines_of (map (object_definition schema.now) schema.now.objects)) }
{
    schema.keeps_its_rules();
    for o in 0..schema.objects() as u8 {
        let definition = object_at(alloc, schema, o)?;
        push_line(alloc, out, &definition)?;
    }
    Ok(())
}

fn push_fds(alloc: Global, out: &mut Vec<u8>, schema: &Schema) -> Result<(), NoMemory>
    ensures { OnOk result (out.new.items ≡ out.old.items ++ lines_of (map (fd_definition schema.now) schema.now.fds)) }
{
    for fd in schema.fds() {
        let definition = fd_of(alloc, schema, fd)?;
        push_line(alloc, out, &definition)?;
    }
    Ok(())
}

fn push_declared(alloc: Global, out: &mut Vec<u8>, schema: &Schema) -> Result<(), NoMemory>
    ensures { OnOk result (out.new.items ≡ out.old.items ++ lines_of (map (maximal_definition schema.now) schema.now.declared)) }
{
    for set in schema.declared() {
        let definition = maximal_of(alloc, schema, *set)?;
        push_line(alloc, out, &definition)?;
    }
    Ok(())
}

/// The text of the schema: each definition on a line of its own, ended by `;` and a line feed. It takes
/// memory for the text and for one definition at a time.
pub fn show(alloc: Global, schema: &Schema) -> Result<List<u8>, NoMemory>
    ensures text { IfOk result (λ text. text ≡ schema_text schema.now) }
    ensures again { IfOk result (λ text. Reads text (OkOf schema.now)) }
    ensures short { IfOk result (λ text. length text < 2 ^ 32) }
{
    schema.keeps_its_rules();
    let mut out = Vec::new(alloc);
    push_attributes(alloc, &mut out, schema)?;
    push_relations(alloc, &mut out, schema)?;
    push_objects(alloc, &mut out, schema)?;
    push_fds(alloc, &mut out, schema)?;
    push_declared(alloc, &mut out, schema)?;
    Ok(List::from_vec(out))
}
