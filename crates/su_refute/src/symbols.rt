//! Symbols of certificates, at the end of a list.
ghost use Rattle.std.specs.Prelude.{◌≡◌, [], ◌∷◌, ◌++◌, OnOk, map, flat_map};
ghost use Rattle.su_check.specs.Refutations.{target_of, node_of};
ghost use Rattle.su_check.specs.NodeSymbols.{number, sym_symbol, node_symbols};
ghost use Rattle.su_lex.specs.Wordings.{kind_symbol};
ghost use Rattle.su_check.specs.Grammar.{row_line};

use std::alloc::Global;
use su_base::{Kind, List, NoMemory, Value};
use su_check::{Branch, Node};
use su_lex::{Sign, Symbol, push_kind, push_sign, push_word};
use su_tableau::Sym;

/// Adds a number.
pub fn push_number(out: &mut List<Symbol>, n: u8) -> Result<(), NoMemory>
    ensures { OnOk result (out.new ≡ out.old ++ number n ∷ []) }
{
    out.push(Symbol::Int(i64::from(n)))?;
    Ok(())
}

/// Adds the numbers.
pub fn push_numbers(out: &mut List<Symbol>, numbers: &[u8]) -> Result<(), NoMemory>
    ensures { OnOk result (out.new ≡ out.old ++ map number numbers.now) }
{
    for n in numbers {
        push_number(out, *n)?;
    }
    Ok(())
}

/// Adds the symbol of a tableau.
fn push_sym(alloc: Global, out: &mut List<Symbol>, x: &Sym) -> Result<(), NoMemory>
    ensures { OnOk result (out.new ≡ out.old ++ sym_symbol x.now ∷ []) }
{
    match x {
        Sym::Var(k) => push_word(alloc, out, format!(in alloc; "v{k}")?.as_str()),
        Sym::Const(Value::Int(n)) => {
            out.push(Symbol::Int(*n))?;
            Ok(())
        }
        Sym::Const(Value::Text(content)) => {
            out.push(Symbol::Text(content.copy(alloc)?))?;
            Ok(())
        }
    }
}

/// Adds the symbols of a tableau.
pub fn push_syms(alloc: Global, out: &mut List<Symbol>, xs: &[Sym]) -> Result<(), NoMemory>
    ensures { OnOk result (out.new ≡ out.old ++ map sym_symbol xs.now) }
{
    for x in xs {
        push_sym(alloc, out, x)?;
    }
    Ok(())
}

/// Adds a row in parentheses.
pub fn push_row(alloc: Global, out: &mut List<Symbol>, row: &[Sym]) -> Result<(), NoMemory>
    ensures { OnOk result (out.new ≡ out.old ++ row_line row.now) }
{
    push_sign(out, Sign::Open)?;
    push_syms(alloc, out, row)?;
    push_sign(out, Sign::Close)
}

/// Adds the words of kinds.
pub fn push_kinds(alloc: Global, out: &mut List<Symbol>, kinds: &[Kind]) -> Result<(), NoMemory>
    ensures { OnOk result (out.new ≡ out.old ++ map kind_symbol kinds.now) }
{
    for kind in kinds {
        push_kind(alloc, out, *kind)?;
    }
    Ok(())
}

/// Adds a node with all below it.
#[cycle(nodes)]
pub fn push_node(out: &mut List<Symbol>, node: &Node) -> Result<(), NoMemory>
    ensures { OnOk result (out.new ≡ out.old ++ node_symbols node.now) }
{
    push_sign(out, Sign::Open)?;
    push_number(out, node.row)?;
    push_branches(out, node.next.as_slice())?;
    push_sign(out, Sign::Close)
}

/// Adds branches with all below them.
#[cycle(nodes)]
fn push_branches(out: &mut List<Symbol>, branches: &[Branch]) -> Result<(), NoMemory>
    ensures { OnOk result (out.new ≡ out.old ++ flat_map (λ b. number (target_of b) ∷ node_symbols (node_of b)) branches.now) }
{
    for branch in branches {
        push_number(out, branch.target)?;
        push_node(out, &branch.node)?;
    }
    Ok(())
}
