use std::alloc::Global;
use std::test::Fail;
use std::thread::Threads;
use su_base::NoMemory;
use su_cases::BANK;
use su_ddl::read;
use su_par::OpenGate;
use su_session::Session;
use su_sql::{Dialect, statement};

fn opened(alloc: Global) -> Result<Option<Session>, NoMemory> {
    match read(alloc, BANK.as_bytes()) {
        Ok(schema) => Ok(Some(Session::open(alloc, schema)?)),
        Err(_) => Ok(None),
    }
}

/// Whether each statement is written so, in order; a refusal begins with its comment.
fn are_written<R: Threads + Sync>(
    rt: &R,
    alloc: Global,
    cases: &[(Dialect, &str, &str)],
) -> Result<bool, NoMemory> {
    let Some(mut session) = opened(alloc)? else {
        return Ok(false);
    };
    for (dialect, text, want) in cases {
        let text = text.as_bytes();
        let reply = statement(rt, alloc, *dialect, &mut session, text, &OpenGate)?;
        if reply.bytes.as_slice() != want.as_bytes() {
            return Ok(false);
        }
        if reply.refused != want.starts_with("-- refused") {
            return Ok(false);
        }
    }
    Ok(true)
}

const BANKS: &str = "retrieve (BANK) where CUST = 'Jones'";

/// Queries as a dialect writes them.
const QUERIES: &[(Dialect, &str, &str)] = &[
    (
        Dialect::Postgres,
        BANKS,
        "select r0.\"BANK\" as \"BANK\"\nfrom \"BA\" r0, \"AC\" r1\nwhere r0.\"ACCT\" = r1.\"ACCT\" and r1.\"CUST\" = 'Jones'\nunion\nselect r0.\"BANK\" as \"BANK\"\nfrom \"BL\" r0, \"LC\" r1\nwhere r0.\"LOAN\" = r1.\"LOAN\" and r1.\"CUST\" = 'Jones'\norder by 1;\n",
    ),
    (
        Dialect::Sqlite,
        BANKS,
        "select r0.\"BANK\" as \"BANK\"\nfrom \"BA\" r0, \"AC\" r1\nwhere r0.\"ACCT\" = r1.\"ACCT\" and r1.\"CUST\" = 'Jones'\nunion\nselect r0.\"BANK\" as \"BANK\"\nfrom \"BL\" r0, \"LC\" r1\nwhere r0.\"LOAN\" = r1.\"LOAN\" and r1.\"CUST\" = 'Jones'\norder by 1;\n",
    ),
    (
        Dialect::Spark,
        BANKS,
        "select r0.`BANK` as `BANK`\nfrom `BA` r0, `AC` r1\nwhere r0.`ACCT` = r1.`ACCT` and r1.`CUST` = 'Jones'\nunion\nselect r0.`BANK` as `BANK`\nfrom `BL` r0, `LC` r1\nwhere r0.`LOAN` = r1.`LOAN` and r1.`CUST` = 'Jones'\norder by 1;\n",
    ),
    (
        Dialect::Sqlite,
        "retrieve (ADDR) where CUST = 'O''Hara'",
        "select distinct r0.\"ADDR\" as \"ADDR\"\nfrom \"CA\" r0\nwhere r0.\"CUST\" = 'O''Hara'\norder by 1;\n",
    ),
    (
        Dialect::Spark,
        "retrieve (ADDR) where CUST >= 'O''Hara'",
        "select distinct r0.`ADDR` as `ADDR`\nfrom `CA` r0\nwhere r0.`CUST` >= 'O\\'Hara'\norder by 1;\n",
    ),
    (
        Dialect::Postgres,
        "retrieve (t.CUST) where t.BAL > BAL and ACCT = 1",
        "select distinct r0.\"CUST\" as \"t.CUST\"\nfrom \"AC\" r0, \"AB\" r1, \"AB\" r2\nwhere r0.\"ACCT\" = r1.\"ACCT\" and r2.\"ACCT\" = 1 and r1.\"BAL\" > r2.\"BAL\"\norder by 1;\n",
    ),
    (
        Dialect::Postgres,
        "retrieve (ACCT)",
        "select distinct r0.c0 as \"ACCT\"\nfrom (select \"ACCT\" as c0 from \"BA\" union select \"ACCT\" as c0 from \"AC\" union select \"ACCT\" as c0 from \"AB\") r0\norder by 1;\n",
    ),
    (
        Dialect::Postgres,
        "retrieve (BAL) where ACCT = 1 and ACCT = 2",
        "select null as \"BAL\"\nwhere 1 = 0\norder by 1;\n",
    ),
    (
        Dialect::Postgres,
        "retrieve (ACCT, LOAN)",
        "-- refused: no maximal object covers -: ACCT LOAN\n",
    ),
];

#[test]
fn a_retrieve_becomes_the_selects_of_its_kept_terms(rt: HostRuntime) -> Result<(), Fail> {
    assert!(rt; are_written(&rt, rt.alloc(), QUERIES)?);
    Ok(())
}

/// Other statements as a dialect writes them.
const STATEMENTS: &[(Dialect, &str, &str)] = &[
    (
        Dialect::Postgres,
        "insert BA ('B1', 1)",
        "insert into \"BA\" select 'B1', 1 where not exists (select 1 from \"BA\" where \"BANK\" = 'B1' and \"ACCT\" = 1);\n",
    ),
    (
        Dialect::Postgres,
        "insert BA ('B2', 1)",
        "-- refused: breaks ACCT -> BANK with row ('B1', 1)\n",
    ),
    (
        Dialect::Sqlite,
        "delete CA where not CUST <= 'Jones' or ADDR = 'x'",
        "delete from \"CA\" where (not (\"CUST\" <= 'Jones') or \"ADDR\" = 'x');\n",
    ),
    (
        Dialect::Spark,
        "delete AB (1, -5)",
        "delete from `AB` where `ACCT` = 1 and `BAL` = -5;\n",
    ),
    (
        Dialect::Sqlite,
        "print BL",
        "select distinct \"BANK\", \"LOAN\"\nfrom \"BL\"\norder by 1, 2;\n",
    ),
    (
        Dialect::Sqlite,
        "load AB from 'b.csv'",
        "-- .import --csv --skip 1 'b.csv' \"AB\"\n",
    ),
    (
        Dialect::Spark,
        "relation N (X int, Y text)",
        "create table `N` (`X` bigint, `Y` string);\n",
    ),
];

#[test]
fn a_change_becomes_a_statement_and_a_load_a_comment(rt: HostRuntime) -> Result<(), Fail> {
    assert!(rt; are_written(&rt, rt.alloc(), STATEMENTS)?);
    Ok(())
}
