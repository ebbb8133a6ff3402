use std::process::Abort;
use std::test::Fail;
use su_fd::*;
use su_samples::{fd, set_of};

/// The attributes of the bank's schema.
const BANK: u8 = 0;

const ACCT: u8 = 1;

const CUST: u8 = 2;

const BAL: u8 = 3;

const LOAN: u8 = 4;

const AMT: u8 = 5;

const ADDR: u8 = 6;

fn bank() -> [Fd; 5] {
    [
        fd(&[ACCT], &[BANK]),
        fd(&[ACCT], &[BAL]),
        fd(&[LOAN], &[BANK]),
        fd(&[LOAN], &[AMT]),
        fd(&[CUST], &[ADDR]),
    ]
}

fn assert_closure(rt: &impl Abort, fds: &[Fd], start: &[u8], expected: &[u8]) {
    let reached = closure(fds, set_of(start));
    assert!(rt; reached.within(set_of(expected)));
    assert!(rt; set_of(expected).within(reached));
}

#[test]
fn an_account_has_one_bank_and_a_loan_of_a_customer_one_address(
    rt: HostRuntime,
) -> Result<(), Fail> {
    let fds = bank();
    assert_closure(&rt, &fds, &[ACCT], &[ACCT, BANK, BAL]);
    assert_closure(&rt, &fds, &[LOAN, CUST], &[LOAN, CUST, BANK, AMT, ADDR]);
    let of_account = derivation(rt.alloc(), &fds, set_of(&[ACCT]))?;
    assert_eq!(rt; of_account.as_slice(), [0, 1].as_slice());
    let of_loan = derivation(rt.alloc(), &fds, set_of(&[LOAN, CUST]))?;
    assert_eq!(rt; of_loan.as_slice(), [2, 3, 4].as_slice());
    Ok(())
}

#[test]
fn a_chain_declared_in_the_wrong_order_is_followed(rt: HostRuntime) -> Result<(), Fail> {
    let fds = [fd(&[1], &[2]), fd(&[0], &[1])];
    assert_closure(&rt, &fds, &[0], &[0, 1, 2]);
    let used = derivation(rt.alloc(), &fds, set_of(&[0]))?;
    assert_eq!(rt; used.as_slice(), [1, 0].as_slice());
    assert!(rt; determines(&fds, set_of(&[0]), set_of(&[1, 2])));
    assert!(rt; !determines(&fds, set_of(&[1]), set_of(&[0])));
    Ok(())
}
