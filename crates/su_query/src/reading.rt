//! One statement from its text.
ghost use Rattle.std.specs.Prelude.{◌≡◌, ◌⊎◌, ℕ, IfOk, IfErr, List as Items};
ghost use Rattle.su_lex.specs.Symbols.{Symbols};
ghost use Rattle.su_query.specs.StatementTexts.{IsStatement, IsReady, IsTextRefusal};
ghost use Rattle.su_query.specs.Limits.{HasFew};
ghost use Rattle.su_query.specs.declared.statements.Statement.{Statement as AStatement};

use crate::faults::{QueryFault, QueryLimit};
use crate::forms::statement;
use crate::limits::check_limits;
use crate::statements::Statement;
use std::alloc::Global;
use su_base::List;
use su_lex::{LexEnd, Reader, Symbol, nests_too_deep, symbols};

fn read_form(alloc: Global, symbols: List<Symbol>) -> Result<Statement, QueryFault>
    ensures found { IfOk result (λ st. (text : Items ℕ) → Symbols text symbols → IsStatement text st) }
    ensures refused { IfErr result (λ fault. (fault ≡ QueryFault.NoMemory) ⊎ ((text : Items ℕ) → Symbols text symbols → IsTextRefusal text fault)) }
{
    if nests_too_deep(symbols.as_slice()) {
        return Err(QueryFault::Limit(QueryLimit::Nesting));
    }
    let mut reader = Reader::new(alloc, symbols);
    match statement(&mut reader) {
        Ok(statement) => Ok(statement),
        Err(LexEnd::Syntax) => Err(QueryFault::Syntax),
        Err(LexEnd::NoMemory) => Err(QueryFault::NoMemory),
    }
}

/// The statement that a text of these symbols is. The causes of a refusal are those of `read`.
pub fn statement_of(alloc: Global, symbols: List<Symbol>) -> Result<Statement, QueryFault>
    ensures found { IfOk result (λ st. (text : Items ℕ) → Symbols text symbols → IsStatement text st) }
    ensures few { IfOk result HasFew }
    ensures refused { IfErr result (λ fault. (fault ≡ QueryFault.NoMemory) ⊎ ((text : Items ℕ) → Symbols text symbols → IsTextRefusal text fault)) }
{
    let statement = read_form(alloc, symbols)?;
    match check_limits(alloc, &statement) {
        Ok(()) => Ok(statement),
        Err(fault) => Err(fault),
    }
}

/// The statement that the text is. Linear in the length of the text.
///
/// The causes of a refusal are tried in this order: no tokens, over 64 more `(` than `)` in some front
/// of the statement, no form, more than 8 variables, 128 outputs, 256 comparisons. The last three are
/// those of one query: where two are compared, all of the first come before those of the second. The
/// names of a window count as outputs. `Unknown`, `UnknownColumn` and `Kinds` never come here: names
/// are looked up by the `resolve` calls.
pub fn read(alloc: Global, text: &[u8]) -> Result<Statement, QueryFault>
    ensures found { IfOk result (IsStatement text.now) }
    ensures few { IfOk result HasFew }
    ensures ready { IfOk result IsReady }
    ensures only { IfOk result (λ st. (other : AStatement) → IsStatement text.now other → other ≡ st) }
    ensures refused { IfErr result (λ fault. (fault ≡ QueryFault.NoMemory) ⊎ IsTextRefusal text.now fault) }
{
    let symbols = match symbols(alloc, text) {
        Ok(symbols) => symbols,
        Err(LexEnd::Syntax) => return Err(QueryFault::Syntax),
        Err(LexEnd::NoMemory) => return Err(QueryFault::NoMemory),
    };
    match statement_of(alloc, symbols) {
        Ok(statement) => Ok(statement),
        Err(fault) => Err(fault),
    }
}
