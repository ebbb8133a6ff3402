//! The records of a file, one after another.
ghost use Rattle.std.specs.Prelude.{◌≡◌, IfOk, true};
ghost use Rattle.csv.specs.Reading.{strip_bom, records, default_config};
ghost use Rattle.csv.specs.Records.{fields_of};
ghost use Rattle.su_csv.specs.inside.Records.{Stands, Took, records_left};

use csv::{ByteRecord, Reader, ReaderBuilder};
use std::alloc::Global;
use su_base::NoMemory;

/// A reader of the bytes, which takes records of any width.
pub(crate) fn records_of<'a>(alloc: Global, bytes: &'a [u8]) -> Reader<&'a [u8]>
    ensures stands { Stands result }
    ensures records { records_left result ≡ records default_config (strip_bom bytes.now) }
{
    ReaderBuilder::new()
        .has_headers(false)
        .flexible(true)
        .from_reader(alloc, bytes)
}

/// Reads the next record over the old one, and says whether there was one.
pub(crate) fn advance(reader: &mut Reader<&[u8]>, fields: &mut ByteRecord) -> Result<bool, NoMemory>
    requires { Stands reader.old }
    ensures stands { IfOk result (λ found. found ≡ true → Stands reader.new) }
    ensures took { IfOk result (λ found. Took found (fields_of fields.new) (records_left reader.old) (records_left reader.new)) }
{
    let Ok(found) = reader.read_byte_record(fields) else {
        return Err(NoMemory);
    };
    Ok(found)
}
