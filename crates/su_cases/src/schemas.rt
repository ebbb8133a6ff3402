//! Schemas from their texts, and sets of objects from their numbers.
ghost use Rattle.std.specs.Prelude.{IfSome, Ok as OkOf};
ghost use Rattle.su_ddl.specs.Files.{Reads};

use std::alloc::Global;
use su_base::ObjSet;
use su_schema::Schema;

/// Banks with accounts and loans of customers.
pub const BANK: &str = "\
attribute BANK text; attribute ACCT int; attribute CUST text; attribute BAL int;
attribute LOAN int; attribute AMT int; attribute ADDR text;
relation BA (BANK text, ACCT int);
relation AC (ACCT int, CUST text);
relation AB (ACCT int, BAL int);
relation BL (BANK text, LOAN int);
relation LC (LOAN int, CUST text);
relation LA (LOAN int, AMT int);
relation CA (CUST text, ADDR text);
object BANK_ACCT (BANK, ACCT) from BA (BANK, ACCT);
object ACCT_CUST (ACCT, CUST) from AC (ACCT, CUST);
object ACCT_BAL (ACCT, BAL) from AB (ACCT, BAL);
object BANK_LOAN (BANK, LOAN) from BL (BANK, LOAN);
object LOAN_CUST (LOAN, CUST) from LC (LOAN, CUST);
object LOAN_AMT (LOAN, AMT) from LA (LOAN, AMT);
object CUST_ADDR (CUST, ADDR) from CA (CUST, ADDR);
fd ACCT -> BANK; fd ACCT -> BAL; fd LOAN -> BANK; fd LOAN -> AMT; fd CUST -> ADDR;
";

/// The schema of a short text; none where it is refused.
pub fn schema_of(alloc: Global, text: &str) -> Option<Schema>
    ensures { IfSome result (λ schema. Reads text.now (OkOf schema)) }
{
    if text.len() > 65536 {
        return None;
    }
    match su_ddl::read(alloc, text.as_bytes()) {
        Ok(schema) => Some(schema),
        Err(_) => None,
    }
}

/// The set of the numbers; one that no object can have is left out.
pub fn objects_of(members: &[u8]) -> ObjSet {
    let mut all = ObjSet::empty();
    for member in members {
        if *member < 64 {
            all = all.insert(*member);
        }
    }
    all
}
