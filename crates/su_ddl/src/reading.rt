//! A file of definitions, added to a schema one after another.
ghost use Rattle.std.specs.Prelude.{◌≡◌, ℕ, ◌<◌, ◌^◌, ◌⊎◌, length, IfOk, IfErr, OnOk, Ok as OkOf, Err as ErrOf, Result as AResult};
ghost use Rattle.su_ddl.specs.Grammar.{IsDefinition};
ghost use Rattle.su_ddl.specs.Files.{IsAtFault, Reads};
ghost use Rattle.su_ddl.specs.declared.faults.DdlFault.{DdlFault as AFault};
ghost use Rattle.su_schema.specs.Definitions.{applied};
ghost use Rattle.su_schema.specs.SchemaValue.{SchemaValue};
ghost use Rattle.su_schema.specs.declared.definitions.Definition.{Definition as ADefinition};

use crate::faults::DdlFault;
use crate::forms::definition;
use std::alloc::Global;
use su_lex::{LexEnd, cut};
use su_schema::{Schema, SchemaFault};

/// The fault of a definition that the schema refuses.
fn refusal(number: u32, why: SchemaFault) -> DdlFault
    ensures told { (result ≡ DdlFault.NoMemory) ⊎ (result ≡ DdlFault.Refused number why) }
    ensures memory { why ≡ SchemaFault.NoMemory → result ≡ DdlFault.NoMemory }
{
    match why {
        SchemaFault::NoMemory => DdlFault::NoMemory,
        why => DdlFault::Refused(number, why),
    }
}

/// Adds the definition that the text is. After a fault the schema is as before.
fn add(alloc: Global, schema: &mut Schema, number: u32, text: &[u8]) -> Result<(), DdlFault>
    ensures added { OnOk result ((d : ADefinition) × IsDefinition text.now d × (applied schema.old d ≡ OkOf schema.new)) }
    ensures fault { IfErr result (λ fault. (fault ≡ DdlFault.NoMemory) ⊎ IsAtFault number schema.old text.now fault) }
{
    let definition = match definition(alloc, text) {
        Ok(definition) => definition,
        Err(LexEnd::Syntax) => return Err(DdlFault::Syntax(number)),
        Err(LexEnd::NoMemory) => return Err(DdlFault::NoMemory),
    };
    match schema.define(&definition) {
        Ok(()) => Ok(()),
        Err(why) => Err(refusal(number, why)),
    }
}

/// The schema that the statements of the file make.
fn read_statements(alloc: Global, bytes: &[u8]) -> Result<Schema, DdlFault>
    requires { length bytes.now < 2 ^ 32 }
    ensures schema { IfOk result (λ schema. Reads bytes.now (OkOf schema)) }
    ensures fault { IfErr result (λ fault. (fault ≡ DdlFault.NoMemory) ⊎ Reads bytes.now (ErrOf fault)) }
{
    let spans = cut(alloc, bytes)?;
    let mut schema = Schema::new(alloc);
    let mut number = 0;
    for span in spans.as_slice() {
        number += 1;
        add(alloc, &mut schema, number, &bytes[span.start..span.end])?;
    }
    Ok(schema)
}

/// The schema that a file of definitions makes. Its statements are taken in order: `Syntax` comes with
/// the first at fault where that is no definition, and `Refused` where it is one that the schema of
/// those before it refuses.
pub fn read(alloc: Global, bytes: &[u8]) -> Result<Schema, DdlFault>
    requires { length bytes.now < 2 ^ 32 }
    ensures schema { IfOk result (λ schema. Reads bytes.now (OkOf schema)) }
    ensures fault { IfErr result (λ fault. (fault ≡ DdlFault.NoMemory) ⊎ Reads bytes.now (ErrOf fault)) }
    ensures only { (outcome : AResult SchemaValue AFault) → Reads bytes.now outcome → (result ≡ outcome) ⊎ (result ≡ ErrOf DdlFault.NoMemory) }
    ensures named { (number : ℕ) → ¬ (result ≡ ErrOf (DdlFault.Refused number SchemaFault.NoMemory)) }
{
    read_statements(alloc, bytes)
}
