//! The script that makes the bank.
ghost use Rattle.std.specs.Prelude.{◌≡◌, ◌≤◌, ◌++◌, IfOk, OnOk, string_bytes};
ghost use Rattle.su_bank.specs.Scripts.{shown, insert, inserts_of, bank_script};

use std::alloc::Global;
use su_base::NoMemory;

const DEFINITIONS: &str =
    "attribute BANK text; attribute ACCT int; attribute CUST text; attribute BAL int; attribute LOAN int; attribute AMT int; attribute ADDR text; relation BA (BANK text, ACCT int); relation AC (ACCT int, CUST text); relation AB (ACCT int, BAL int); relation BL (BANK text, LOAN int); relation LC (LOAN int, CUST text); relation LA (LOAN int, AMT int); relation CA (CUST text, ADDR text); object BANK_ACCT (BANK, ACCT) from BA (BANK, ACCT); object ACCT_CUST (ACCT, CUST) from AC (ACCT, CUST); object ACCT_BAL (ACCT, BAL) from AB (ACCT, BAL); object BANK_LOAN (BANK, LOAN) from BL (BANK, LOAN); object LOAN_CUST (LOAN, CUST) from LC (LOAN, CUST); object LOAN_AMT (LOAN, AMT) from LA (LOAN, AMT); object CUST_ADDR (CUST, ADDR) from CA (CUST, ADDR); fd ACCT -> BANK; fd ACCT -> BAL; fd LOAN -> BANK; fd LOAN -> AMT; fd CUST -> ADDR;\n";

/// A value of a row: a number, or the text that names a bank, a customer or a street.
#[derive(Clone, Copy)]
pub(crate) enum Cell {
    Number(u32),
    Bank(u32),
    Customer(u32),
    Street(u32),
}

/// The value as it stands in the script.
fn shown(alloc: Global, cell: Cell) -> Result<String, NoMemory>
    ensures { IfOk result (λ text. string_bytes text ≡ shown cell) }
{
    let text = match cell {
        Cell::Number(k) => format!(in alloc; "{k}")?,
        Cell::Bank(k) => format!(in alloc; "'B{k}'")?,
        Cell::Customer(k) => format!(in alloc; "'C{k}'")?,
        Cell::Street(k) => format!(in alloc; "'S{k}'")?,
    };
    Ok(text)
}

/// Adds the insert of a row.
fn push_insert(
    alloc: Global,
    script: &mut String,
    relation: &str,
    first: Cell,
    second: Cell,
) -> Result<(), NoMemory>
    ensures { OnOk result (string_bytes script.new ≡ string_bytes script.old ++ insert relation.now first second) }
{
    let first = shown(alloc, first)?;
    let second = shown(alloc, second)?;
    let row = format!(in alloc; "insert {relation} ({first}, {second});\n")?;
    script.push_str(row.as_str())?;
    Ok(())
}

/// Adds the inserts of the i-th row of each relation.
fn push_inserts(alloc: Global, script: &mut String, i: u32) -> Result<(), NoMemory>
    requires { i ≤ 1000 }
    ensures { OnOk result (string_bytes script.new ≡ string_bytes script.old ++ inserts_of i) }
{
    push_insert(alloc, script, "BA", Cell::Bank(i % 5), Cell::Number(i))?;
    push_insert(alloc, script, "AC", Cell::Number(i), Cell::Customer(i % 20))?;
    push_insert(alloc, script, "AB", Cell::Number(i), Cell::Number(100 * i))?;
    push_insert(alloc, script, "BL", Cell::Bank(i % 3), Cell::Number(i))?;
    push_insert(alloc, script, "LC", Cell::Number(i), Cell::Customer(i % 30))?;
    push_insert(alloc, script, "LA", Cell::Number(i), Cell::Number(50 * i))?;
    push_insert(
        alloc,
        script,
        "CA",
        Cell::Customer(i % 40),
        Cell::Street(i % 40),
    )?;
    Ok(())
}

/// The script of a bank with n rows in each relation: its definitions, and the inserts of its rows.
pub fn bank_script(alloc: Global, n: u32) -> Result<String, NoMemory>
    requires { n ≤ 1000 }
    ensures { IfOk result (λ script. string_bytes script ≡ bank_script n) }
{
    let mut script = String::from_str(alloc, DEFINITIONS)?;
    for i in 0..n {
        push_inserts(alloc, &mut script, i + 1)?;
    }
    Ok(script)
}
