use crate::tables::{Case, DEFINITIONS, EITHER, STATEMENTS};
use std::alloc::Global;
use std::test::Fail;
use su_base::NoMemory;
use su_faults::{Fault, Sort, definition_fault, script_fault, spelling, statement_fault};
use su_lex::Sign;

fn signed(sign: Sign) -> &'static str {
    match sign {
        Sign::Open => "(",
        Sign::Close => ")",
        Sign::Comma => ",",
        Sign::Dot => ".",
        Sign::Arrow => "->",
        Sign::Equal => "=",
        Sign::NotEqual => "!=",
        Sign::Less => "<",
        Sign::LessEqual => "<=",
        Sign::Greater => ">",
        Sign::GreaterEqual => ">=",
    }
}

fn told(sort: Sort) -> &'static str {
    match sort {
        Sort::Word(word) => spelling(word),
        Sort::Name => "NAME",
        Sort::Number => "NUMBER",
        Sort::Text => "TEXT",
        Sort::Sign(sign) => signed(sign),
        Sort::End => "END",
    }
}

fn has(wanted: &[Sort], word: &str) -> bool {
    for sort in wanted {
        if told(*sort) == word {
            return true;
        }
    }
    false
}

fn stands_among(words: &str, told: &str) -> bool {
    for word in words.split(' ') {
        if word == told {
            return true;
        }
    }
    false
}

/// Whether each of the words is wanted.
fn are_wanted(wanted: &[Sort], words: &str) -> bool {
    for word in words.split(' ') {
        if !has(wanted, word) {
            return false;
        }
    }
    true
}

/// Whether the fault's list has exactly these words.
fn lists(fault: &Fault, words: &str) -> bool {
    for sort in fault.wanted.as_slice() {
        if !stands_among(words, told(*sort)) {
            return false;
        }
    }
    are_wanted(fault.wanted.as_slice(), words)
}

fn agrees(fault: Option<Fault>, case: &Case) -> bool {
    match (fault, case.1) {
        (None, None) => true,
        (Some(fault), Some((place, words))) => fault.place == place && lists(&fault, words),
        _ => false,
    }
}

/// The first case that is told otherwise.
fn differing(alloc: Global, find: u8, cases: &'static [Case]) -> Result<&'static str, NoMemory> {
    for case in cases {
        let text = case.0.as_bytes();
        let fault = match find {
            0 => definition_fault(alloc, text)?,
            1 => statement_fault(alloc, text)?,
            _ => script_fault(alloc, text)?,
        };
        if !agrees(fault, case) {
            return Ok(case.0);
        }
    }
    Ok("none")
}

#[test]
fn each_text_goes_wrong_where_its_grammar_says(rt: HostRuntime) -> Result<(), Fail> {
    for (find, cases) in [(0u8, DEFINITIONS), (1, STATEMENTS), (2, EITHER)] {
        assert_eq!(rt; differing(rt.alloc(), find, cases)?, "none");
    }
    Ok(())
}
