//! Dependencies with the attributes of their sides.
ghost use Rattle.std.specs.Prelude.{◌≡◌, ◌<◌, All, Contains, length, IfOk};
ghost use Rattle.su_classes.specs.inside.Worklists.{IsRule};

use crate::firsts::members;
use std::alloc::Global;
use su_base::{List, NoMemory};
use su_fd::Fd;

/// A dependency, with the attributes of its left and of its right side, ascending.
#[derive(Drop)]
pub struct Rule {
    pub fd: Fd,
    pub left: List<u8>,
    pub right: List<u8>,
}

fn rule_of(alloc: Global, fd: &Fd) -> Result<Rule, NoMemory>
    ensures rule { IfOk result IsRule }
    ensures fd { IfOk result (λ r. r.fd ≡ fd.now) }
{
    Ok(Rule {
        fd: *fd,
        left: members(alloc, fd.left)?,
        right: members(alloc, fd.right)?,
    })
}

/// The dependencies with their attributes.
pub fn rules_of(alloc: Global, fds: &[Fd]) -> Result<List<Rule>, NoMemory>
    ensures rules { IfOk result (All IsRule) }
    ensures given { IfOk result (All (λ r. Contains fds.now r.fd)) }
{
    let mut rules = List::new(alloc);
    for fd in fds {
        rules.push(rule_of(alloc, fd)?)?;
    }
    Ok(rules)
}

/// The positions of the rules that have the attribute on the left.
fn readers(alloc: Global, rules: &[Rule], a: u8) -> Result<List<usize>, NoMemory>
    ensures { IfOk result (All (λ r. r < length rules.now)) }
{
    let mut list = List::new(alloc);
    for number in 0..rules.len() {
        if rules[number].fd.left.contains(a) {
            list.push(number)?;
        }
    }
    Ok(list)
}

/// For each attribute the positions of the rules that have it on the left.
pub fn readers_of(alloc: Global, rules: &[Rule]) -> Result<List<List<usize>>, NoMemory>
    ensures each { IfOk result (λ list. length list ≡ 128) }
    ensures within { IfOk result (All (All (λ r. r < length rules.now))) }
{
    let mut list = List::new(alloc);
    for a in 0..128u8 {
        list.push(readers(alloc, rules, a)?)?;
    }
    Ok(list)
}
