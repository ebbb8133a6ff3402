//! The certificate that bytes spell.
ghost use Rattle.std.specs.Prelude.{◌≡◌, IfOk};
ghost use Rattle.su_check.specs.declared.certificates.Certificate.{Certificate as ACertificate};
ghost use Rattle.su_check.specs.Grammar.{Reads};
ghost use Rattle.su_check.specs.inside.LineReaders.{Gives};

use crate::certificates::Certificate;
use crate::lines::certificate;
use std::alloc::Global;
use su_lex::{LexEnd, Reader, nests_too_deep};

/// The certificate that the bytes spell, if they spell one.
pub fn read(alloc: Global, bytes: &[u8]) -> Result<Certificate, LexEnd>
    ensures found { IfOk result (λ c. Reads bytes.now c) }
    ensures only { (c : ACertificate) → Reads bytes.now c → Gives result (λ d. d ≡ c) }
{
    let symbols = su_lex::symbols(alloc, bytes)?;
    if nests_too_deep(symbols.as_slice()) {
        return Err(LexEnd::Syntax);
    }
    let mut reader = Reader::new(alloc, symbols);
    certificate(&mut reader)
}
