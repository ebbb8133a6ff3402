//! Lines about dependencies.
ghost use Rattle.std.specs.Prelude.{◌≡◌, ◌<◌, ◌++◌, All, flat_map, OnOk, IfOk};
ghost use Rattle.su_report.specs.DependencyLines.{keeper, nowhere_lines, redundant_lines, shortened as without, spare_lines, breaking_lines};
ghost use Rattle.su_ddl.specs.ShownDefinitions.{fd_definition};

use crate::advising::{object_of, push_advice};
use crate::parts::{attribute_name, object_name, push_fd};
use std::alloc::Global;
use su_base::parts::push;
use su_base::{AttrSet, NoMemory};
use su_ddl::{attributes_in, push_line};
use su_fd::Fd;
use su_schema::{Definition, Schema};

/// The definition of the dependency.
fn definition_of(alloc: Global, schema: &Schema, fd: &Fd) -> Result<Definition, NoMemory>
    ensures { IfOk result (λ d. d ≡ fd_definition schema.now fd.now) }
{
    let left = attributes_in(alloc, schema, fd.left)?;
    let right = attributes_in(alloc, schema, fd.right)?;
    Ok(Definition::Fd { left, right })
}

/// An object that has all attributes of the dependency.
fn push_keeper(alloc: Global, out: &mut Vec<u8>, schema: &Schema, fd: &Fd) -> Result<(), NoMemory>
    ensures { OnOk result (out.new.items ≡ out.old.items ++ keeper schema.now fd.now) }
{
    let names = attributes_in(alloc, schema, fd.left.union(fd.right))?;
    push_advice(alloc, out, &object_of(alloc, names.as_slice())?)
}

/// A dependency that lies in no object.
pub(crate) fn push_nowhere(
    alloc: Global,
    out: &mut Vec<u8>,
    schema: &Schema,
    fd: &Fd,
) -> Result<(), NoMemory>
    ensures { OnOk result (out.new.items ≡ out.old.items ++ nowhere_lines schema.now fd.now) }
{
    push(out, "fault fd ")?;
    push_fd(alloc, out, schema, fd)?;
    push(out, " lies in no object\n")?;
    push_keeper(alloc, out, schema, fd)
}

/// A dependency that follows from the others.
pub(crate) fn push_redundant(
    alloc: Global,
    out: &mut Vec<u8>,
    schema: &Schema,
    droppable: bool,
    fd: &Fd,
) -> Result<(), NoMemory>
    ensures { OnOk result (out.new.items ≡ out.old.items ++ redundant_lines schema.now droppable fd.now) }
{
    push(out, "note fd ")?;
    push_fd(alloc, out, schema, fd)?;
    push(out, " follows from the others\n")?;
    if !droppable {
        return Ok(());
    }
    push(out, "  -- ")?;
    push_line(alloc, out, &definition_of(alloc, schema, fd)?)
}

/// The dependency without an attribute of its left side.
fn shortened(fd: &Fd, a: u8) -> Fd
    requires { a < 128 }
    ensures { result ≡ without fd.now a }
{
    Fd {
        left: fd.left.minus(AttrSet::empty().insert(a)),
        right: fd.right,
    }
}

fn push_spare(
    alloc: Global,
    out: &mut Vec<u8>,
    schema: &Schema,
    fd: &Fd,
    a: u8,
) -> Result<(), NoMemory>
    requires { a < 128 }
    ensures { OnOk result (out.new.items ≡ out.old.items ++ spare_lines schema.now fd.now a) }
{
    let shorter = definition_of(alloc, schema, &shortened(fd, a))?;
    push(out, "note fd ")?;
    push_fd(alloc, out, schema, fd)?;
    push(out, " follows without ")?;
    push(out, attribute_name(schema, a))?;
    push(out, "\n")?;
    push_advice(alloc, out, &shorter)
}

/// The attributes without which the dependency follows.
pub(crate) fn push_spares(
    alloc: Global,
    out: &mut Vec<u8>,
    schema: &Schema,
    fd: &Fd,
    found: &[u8],
) -> Result<(), NoMemory>
    requires { All (λ a. a < 128) found.now }
    ensures { OnOk result (out.new.items ≡ out.old.items ++ flat_map (spare_lines schema.now fd.now) found.now) }
{
    for a in found {
        push_spare(alloc, out, schema, fd, *a)?;
    }
    Ok(())
}

/// A dependency that breaks the form of Boyce and Codd in the object.
pub(crate) fn push_breaking(
    alloc: Global,
    out: &mut Vec<u8>,
    schema: &Schema,
    o: u8,
    fd: &Fd,
) -> Result<(), NoMemory>
    ensures { OnOk result (out.new.items ≡ out.old.items ++ breaking_lines schema.now o fd.now) }
{
    push(out, "note fd ")?;
    push_fd(alloc, out, schema, fd)?;
    push(out, " breaks the form of Boyce and Codd in ")?;
    push(out, object_name(schema, o))?;
    push(out, "\n")?;
    push_keeper(alloc, out, schema, fd)
}
