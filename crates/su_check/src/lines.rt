//! The lines of a certificate: rows, trees, terms.
ghost use Rattle.std.specs.Prelude.{◌≡◌, ◌++◌, [], flat_map, All, IfOk, List as Items};
ghost use Rattle.su_lex.specs.declared.meaning.Symbol.{Symbol as ASymbol};
ghost use Rattle.su_lex.specs.declared.signs.Sign.TheVariants.{Open};
ghost use Rattle.su_tableau.specs.declared.symbols.Sym.{Sym as ASym};
ghost use Rattle.su_check.specs.declared.nodes.Node.{Node as ANode};
ghost use Rattle.su_check.specs.declared.certificates.RowTree.{RowTree as ARowTree};
ghost use Rattle.su_check.specs.declared.certificates.StatedTerm.{StatedTerm as AStatedTerm};
ghost use Rattle.su_check.specs.declared.certificates.Certificate.{Certificate as ACertificate};
ghost use Rattle.su_check.specs.Ranges.{IsByteNode, IsTermInRange, IsInRange};
ghost use Rattle.su_check.specs.NodeSymbols.{node_symbols};
ghost use Rattle.su_check.specs.Grammar.{row_line, tree_line, certificate_symbols};
ghost use Rattle.su_check.specs.inside.LineReaders.{EndsTerm, Gives, IsRow, IsByteTree, row_before, tree_before, term_before, term_symbols, GivesBefore, AreOnlyRows, AreOnlyTrees};

use crate::certificates::{Certificate, RowTree, StatedTerm};
use crate::items::{bytes, expect_number, kinds, symbols, takes_number};
use crate::nodes::{Branch, Node};
use su_base::List;
use su_lex::{LexEnd, Reader, Sign};
use su_tableau::Sym;

/// The row of this width whose parenthesis is open.
fn row(reader: &mut Reader, width: usize) -> Result<List<Sym>, LexEnd>
    ensures found { IfOk result (λ xs. (reader.old ≡ row_before xs reader.new) × IsRow width xs) }
    ensures only { (xs : Items ASym) (r : Items ASymbol) → IsRow width xs → reader.old ≡ row_before xs r → GivesBefore result reader.new xs r }
{
    let row = symbols(reader)?;
    if row.len() != width {
        return Err(LexEnd::Syntax);
    }
    reader.expect_sign(Sign::Close)?;
    Ok(row)
}

/// The rows that come next.
fn rows(reader: &mut Reader, width: usize) -> Result<List<List<Sym>>, LexEnd>
    ensures found { IfOk result (λ rows. (reader.old ≡ flat_map row_line rows ++ reader.new) × All (IsRow width) rows) }
    ensures only { AreOnlyRows width reader.old result reader.new }
{
    let mut rows = List::new(reader.alloc());
    while reader.takes_sign(Sign::Open) {
        rows.push(row(reader, width)?)?;
    }
    Ok(rows)
}

/// The node that comes next.
fn node(reader: &mut Reader) -> Result<Node, LexEnd>
    ensures found { IfOk result (λ n. (reader.old ≡ node_symbols n ++ reader.new) × IsByteNode n) }
    ensures only { (n : ANode) (r : Items ASymbol) → IsByteNode n → reader.old ≡ node_symbols n ++ r → GivesBefore result reader.new n r }
{
    reader.expect_sign(Sign::Open)?;
    let row = expect_number(reader, 255)? as u8;
    let mut next = List::new(reader.alloc());
    while let Some(target) = takes_number(reader, 255) {
        let node = node(reader)?;
        next.push(Branch {
            target: target as u8,
            node,
        })?;
    }
    reader.expect_sign(Sign::Close)?;
    Ok(Node { row, next })
}

/// The tree whose word is read.
fn tree(reader: &mut Reader) -> Result<RowTree, LexEnd>
    ensures found { IfOk result (λ t. (reader.old ≡ tree_before t reader.new) × IsByteTree t) }
    ensures only { (t : ARowTree) (r : Items ASymbol) → IsByteTree t → reader.old ≡ tree_before t r → GivesBefore result reader.new t r }
{
    let row = expect_number(reader, 255)? as u8;
    let node = node(reader)?;
    Ok(RowTree { row, node })
}

/// The trees that come next.
fn trees(reader: &mut Reader) -> Result<List<RowTree>, LexEnd>
    ensures found { IfOk result (λ ts. (reader.old ≡ flat_map tree_line ts ++ reader.new) × All IsByteTree ts) }
    ensures only { AreOnlyTrees reader.old result reader.new }
{
    let mut trees = List::new(reader.alloc());
    while reader.takes_word("tree") {
        trees.push(tree(reader)?)?;
    }
    Ok(trees)
}

/// The term whose word is read.
fn term(reader: &mut Reader, width: usize) -> Result<StatedTerm, LexEnd>
    ensures found { IfOk result (λ x. (reader.old ≡ term_before x reader.new) × IsTermInRange width x) }
    ensures only { (x : AStatedTerm) (r : Items ASymbol) → IsTermInRange width x → EndsTerm r → reader.old ≡ term_before x r → GivesBefore result reader.new x r }
{
    let number = expect_number(reader, u32::MAX)?;
    reader.expect_word("head")?;
    let head = symbols(reader)?;
    reader.expect_word("rows")?;
    let rows = rows(reader, width)?;
    reader.expect_word("kept")?;
    let kept = bytes(reader)?;
    reader.expect_word("fold")?;
    let fold = bytes(reader)?;
    let trees = trees(reader)?;
    Ok(StatedTerm {
        number,
        head,
        rows,
        kept,
        fold,
        trees,
    })
}

/// The terms up to the end.
fn terms(reader: &mut Reader, width: usize) -> Result<List<StatedTerm>, LexEnd>
    ensures found { IfOk result (λ xs. (reader.old ≡ flat_map term_symbols xs ++ reader.new) × All (IsTermInRange width) xs) }
    ensures only { (xs : Items AStatedTerm) → All (IsTermInRange width) xs → reader.old ≡ flat_map term_symbols xs ++ [] → GivesBefore result reader.new xs [] }
{
    let mut terms = List::new(reader.alloc());
    while reader.takes_word("term") {
        terms.push(term(reader, width)?)?;
    }
    Ok(terms)
}

/// The certificate that the symbols are.
pub fn certificate(reader: &mut Reader) -> Result<Certificate, LexEnd>
    ensures found { IfOk result (λ c. (reader.old ≡ certificate_symbols c) × IsInRange c) }
    ensures only { (c : ACertificate) → IsInRange c → reader.old ≡ certificate_symbols c → Gives result (λ d. d ≡ c) }
{
    reader.expect_word("certificate")?;
    let width = expect_number(reader, 128)?;
    reader.expect_word("kinds")?;
    let kinds = kinds(reader)?;
    if width == 0 || kinds.len() != width as usize {
        return Err(LexEnd::Syntax);
    }
    let terms = terms(reader, kinds.len())?;
    reader.end()?;
    Ok(Certificate { kinds, terms })
}
