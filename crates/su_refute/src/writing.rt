//! The text of a certificate.
ghost use Rattle.std.specs.Prelude.{◌≡◌, ◌<◌, [], ◌∷◌, ◌++◌, ℕ, List as Items, OnOk, IfOk, map, get_or, ◌^◌};
ghost use Rattle.su_lex.specs.declared.meaning.Symbol.TheVariants.{Word};
ghost use Rattle.su_map.specs.Lists.{row_numbers};
ghost use Rattle.su_check.specs.NodeSymbols.{number, sym_symbol};
ghost use Rattle.su_check.specs.Grammar.{line, row_line, tree_line, term_lines};
ghost use Rattle.su_refute.specs.Written.{row_trees, term_of, certificate_of, certificate_text, line_text, lines_text};
ghost use Rattle.su_refute.specs.inside.Fronts.{front_text};
ghost use Rattle.su_refute.specs.inside.TermParts.{tableau_lines, kept_lines};

use crate::symbols::{push_kinds, push_node, push_number, push_numbers, push_row, push_syms};
use std::alloc::Global;
use su_base::{Kind, List, NoMemory};
use su_check::Node;
use su_lex::{Symbol, push_spaced, push_word};
use su_min::Minimal;
use su_tableau::{Sym, Tableau, has};

/// Adds the line, and a line feed.
fn push_line(alloc: Global, out: &mut Vec<u8>, symbols: &[Symbol]) -> Result<(), NoMemory>
    ensures { OnOk result (out.new.items ≡ out.old.items ++ line_text symbols.now) }
{
    push_spaced(alloc, out, symbols)?;
    out.extend_from_slice(b"\n")?;
    Ok(())
}

/// A line that begins with the word.
fn begun(alloc: Global, word: &str) -> Result<List<Symbol>, NoMemory>
    ensures { IfOk result (λ l. l ≡ Word word.now ∷ []) }
{
    let mut symbols = List::new(alloc);
    push_word(alloc, &mut symbols, word)?;
    Ok(symbols)
}

/// Adds the line of a word and a number.
fn push_count(alloc: Global, out: &mut Vec<u8>, word: &str, n: usize) -> Result<(), NoMemory>
    requires { n < 2 ^ 63 }
    ensures { OnOk result (out.new.items ≡ out.old.items ++ line_text (line word.now (number n ∷ []))) }
{
    let mut symbols = begun(alloc, word)?;
    symbols.push(Symbol::Int(n as i64))?;
    push_line(alloc, out, symbols.as_slice())
}

/// Adds the line of a word and numbers.
fn push_list(alloc: Global, out: &mut Vec<u8>, word: &str, numbers: &[u8]) -> Result<(), NoMemory>
    ensures { OnOk result (out.new.items ≡ out.old.items ++ line_text (line word.now (map number numbers.now))) }
{
    let mut symbols = begun(alloc, word)?;
    push_numbers(&mut symbols, numbers)?;
    push_line(alloc, out, symbols.as_slice())
}

/// Adds the line of a head.
fn push_head(alloc: Global, out: &mut Vec<u8>, word: &str, head: &[Sym]) -> Result<(), NoMemory>
    ensures { OnOk result (out.new.items ≡ out.old.items ++ line_text (line word.now (map sym_symbol head.now))) }
{
    let mut symbols = begun(alloc, word)?;
    push_syms(alloc, &mut symbols, head)?;
    push_line(alloc, out, symbols.as_slice())
}

/// Adds a line for each row.
fn push_rows(alloc: Global, out: &mut Vec<u8>, t: &Tableau) -> Result<(), NoMemory>
    ensures { OnOk result (out.new.items ≡ out.old.items ++ lines_text (map row_line t.now.rows)) }
{
    for i in 0..t.row_count() {
        let mut symbols = List::new(alloc);
        push_row(alloc, &mut symbols, t.row(i))?;
        push_line(alloc, out, symbols.as_slice())?;
    }
    Ok(())
}

/// Adds the line of a row's tree.
fn push_tree(alloc: Global, out: &mut Vec<u8>, row: u8, node: &Node) -> Result<(), NoMemory>
    ensures { OnOk result (out.new.items ≡ out.old.items ++ line_text (tree_line (record { row = row; node = node.now }))) }
{
    let mut symbols = begun(alloc, "tree")?;
    push_number(&mut symbols, row)?;
    push_node(&mut symbols, node)?;
    push_line(alloc, out, symbols.as_slice())
}

/// Adds a line for each row with its tree.
fn push_trees(alloc: Global, out: &mut Vec<u8>, kept: &[u8], trees: &[Node]) -> Result<(), NoMemory>
    ensures { OnOk result (out.new.items ≡ out.old.items ++ lines_text (map tree_line (row_trees kept.now trees.now))) }
{
    for i in 0..kept.len() {
        if i == trees.len() {
            return Ok(());
        }
        push_tree(alloc, out, kept[i], &trees[i])?;
    }
    Ok(())
}

/// The kept rows, ascending.
fn kept_rows(alloc: Global, minimal: &Minimal) -> Result<List<u8>, NoMemory>
    ensures { IfOk result (λ kept. kept ≡ row_numbers minimal.now.tableau minimal.now.mask) }
{
    let mask = minimal.mask();
    let mut kept = List::new(alloc);
    for row in 0..minimal.tableau().row_count() {
        if has(mask, row) {
            kept.push(row as u8)?;
        }
    }
    Ok(kept)
}

/// Adds the lines of a term's tableau.
fn push_tableau(alloc: Global, out: &mut Vec<u8>, i: usize, t: &Tableau) -> Result<(), NoMemory>
    requires { i < 2 ^ 63 }
    ensures { OnOk result (out.new.items ≡ out.old.items ++ lines_text (tableau_lines i t.now)) }
{
    push_count(alloc, out, "term", i)?;
    push_head(alloc, out, "head", t.head())?;
    push_list(alloc, out, "rows", &[])?;
    push_rows(alloc, out, t)
}

/// Adds the lines of what is kept.
fn push_kept(
    alloc: Global,
    out: &mut Vec<u8>,
    minimal: &Minimal,
    trees: &[Node],
) -> Result<(), NoMemory>
    ensures { OnOk result (out.new.items ≡ out.old.items ++ lines_text (kept_lines minimal.now trees.now)) }
{
    let kept = kept_rows(alloc, minimal)?;
    push_list(alloc, out, "kept", kept.as_slice())?;
    push_list(alloc, out, "fold", minimal.fold())?;
    push_trees(alloc, out, kept.as_slice(), trees)
}

/// Adds the lines of a term.
fn push_term(
    alloc: Global,
    out: &mut Vec<u8>,
    i: usize,
    minimal: &Minimal,
    trees: &[Node],
) -> Result<(), NoMemory>
    requires { i < 2 ^ 63 }
    ensures { OnOk result (out.new.items ≡ out.old.items ++ lines_text (term_lines (term_of i minimal.now trees.now))) }
{
    push_tableau(alloc, out, i, minimal.tableau())?;
    push_kept(alloc, out, minimal, trees)
}

/// Adds the lines of the width and the kinds.
fn push_front(alloc: Global, out: &mut Vec<u8>, kinds: &[Kind]) -> Result<(), NoMemory>
    ensures { OnOk result (out.new.items ≡ out.old.items ++ front_text kinds.now) }
{
    push_count(alloc, out, "certificate", kinds.len())?;
    let mut symbols = begun(alloc, "kinds")?;
    push_kinds(alloc, &mut symbols, kinds)?;
    push_line(alloc, out, symbols.as_slice())
}

/// The trees at a place; none past the end.
fn trees_at(trees: &[List<Node>], i: usize) -> &[Node]
    ensures { result.now ≡ get_or trees.now i [] }
{
    if i < trees.len() {
        return trees[i].as_slice();
    }
    &[]
}

/// The text of the certificate: for each tableau a term with the trees in its list. Linear in its
/// length, and in memory besides what its longest line takes as symbols.
pub fn write(
    alloc: Global,
    kinds: &[Kind],
    minimals: &[Minimal],
    trees: &[List<Node>],
) -> Result<List<u8>, NoMemory>
    ensures { IfOk result (λ out. out ≡ certificate_text (certificate_of kinds.now minimals.now trees.now)) }
{
    let mut out = Vec::new(alloc);
    push_front(alloc, &mut out, kinds)?;
    for i in 0..minimals.len() {
        push_term(alloc, &mut out, i, &minimals[i], trees_at(trees, i))?;
    }
    Ok(List::from_vec(out))
}
