//! A number for each value, the same for equal values. A sort and a search compare it first, and
//! values only where it is the same; few values share one.
ghost use Rattle.std.specs.Prelude.{◌≡◌};
ghost use Rattle.su_index.specs.inside.Lead.{lead_of_number, lead_of_bytes, IsLead};

use su_base::Value;

/// How many leads there are.
const LEADS: u64 = 4294967296;

const FACTOR: u64 = 65599;

fn of_number(number: i64) -> u32
    ensures { result ≡ lead_of_number number }
{
    (number.unsigned_abs() % LEADS) as u32
}

fn of_bytes(bytes: &[u8]) -> u32
    ensures { result ≡ lead_of_bytes bytes.now }
{
    let mut lead = 0;
    for byte in bytes {
        lead = (lead * FACTOR + *byte as u64) % LEADS;
    }
    lead as u32
}

/// The value's lead.
pub(crate) fn lead(value: &Value) -> u32
    ensures { IsLead result value.now }
{
    match value {
        Value::Int(number) => of_number(*number),
        Value::Text(text) => of_bytes(text.as_str().as_bytes()),
    }
}
