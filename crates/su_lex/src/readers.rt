//! A reader over symbols: what grammars of statements are read with.
ghost use Rattle.std.specs.Prelude.{◌≡◌, ℕ, [], ◌∷◌, ◌++◌, ◌<◌, ◌≤◌, ◌==◌, ◌↔◌, length, false, IfErr, IfOk, IsTrue, IsErrOf, MatchOption, OnErr, List as Items};
ghost use Rattle.su_base.specs.Name.{IsName, AreNames};
ghost use Rattle.su_lex.specs.Names.{Begins, ListsNoNames, names_symbols};
ghost use Rattle.su_lex.specs.declared.meaning.Symbol.{Symbol as ASymbol};

use crate::ends::LexEnd;
use crate::meaning::Symbol;
use crate::signs::Sign;
use std::alloc::Global;
use std::collections::VecDeque;
use std::marker::Model;
use su_base::{List, Str, is_name};

fn same(a: &str, b: &str) -> bool
    ensures { IsTrue result ↔ (a.now ≡ b.now) }
{
    a == b
}

/// The symbols that are left. They are handed out from the front, and nothing else moves them.
pub struct Reader {
    alloc: Global,
    rest: VecDeque<Symbol>,
}

/// Not derived, so that it is a single call wherever a reader goes out of scope above.
impl Drop for Reader {
    fn drop(self) {
        let Reader { alloc: _, rest: _ } = self;
    }
}

impl Model for Reader {
    ghost use Rattle.std.specs.Prelude.{List};
    ghost use Rattle.su_lex.specs.declared.meaning.Symbol.{Symbol};

    ghost Value = { List Symbol };

    ghost view = { λ r. r.rest.items };
}

impl Reader {
    pub fn new(alloc: Global, symbols: List<Symbol>) -> Reader
        ensures { result ≡ symbols }
    {
        Reader {
            alloc,
            rest: VecDeque::from_vec(symbols.into_vec()),
        }
    }

    /// Where what is read takes its memory.
    pub fn alloc(&self) -> Global {
        self.alloc
    }

    /// How many symbols are left.
    pub fn len(&self) -> usize
        ensures { result ≡ length self.now }
    {
        self.rest.len()
    }

    /// The next symbol, which stays.
    pub fn peek(&self) -> Option<&Symbol>
        ensures { MatchOption result (self.now ≡ []) (λ x. (more : Items ASymbol) × (self.now ≡ x.now ∷ more)) }
    {
        self.rest.front()
    }

    /// The symbol behind the next one; both stay.
    pub fn peek_second(&self) -> Option<&Symbol>
        ensures { MatchOption result (length self.now ≤ 1) (λ x. (first : ASymbol) × (more : Items ASymbol) × (self.now ≡ first ∷ x.now ∷ more)) }
    {
        self.rest.get(1)
    }

    /// The next symbol, which goes.
    pub fn next(&mut self) -> Option<Symbol>
        ensures { MatchOption result ((self.old ≡ []) × (self.new ≡ [])) (λ x. self.old ≡ x ∷ self.new) }
    {
        self.rest.pop_front()
    }
}

impl Reader {
    fn is_at_word(&self, word: &str) -> bool
        ensures { IsTrue result ↔ Begins (Symbol.Word word.now) self.now }
    {
        match self.peek() {
            Some(Symbol::Word(w)) => same(w.as_str(), word),
            _ => false,
        }
    }

    fn is_at_sign(&self, sign: Sign) -> bool
        ensures { IsTrue result ↔ Begins (Symbol.Sign sign) self.now }
    {
        match self.peek() {
            Some(Symbol::Sign(s)) => *s == sign,
            _ => false,
        }
    }

    /// Lets the next symbol go.
    fn skip(&mut self)
        ensures { (x : ASymbol) (more : Items ASymbol) → self.old ≡ x ∷ more → self.new ≡ more }
    {
        let _ = self.next();
    }

    /// Goes past the word, if it is the next symbol.
    pub fn takes_word(&mut self, word: &str) -> bool
        ensures yes { IsTrue result → self.old ≡ Symbol.Word word.now ∷ self.new }
        ensures no { result ≡ false → (self.new ≡ self.old) × ¬ (Begins (Symbol.Word word.now) self.old) }
    {
        let found = self.is_at_word(word);
        if found {
            self.skip();
        }
        found
    }

    /// Goes past the sign, if it is the next symbol.
    pub fn takes_sign(&mut self, sign: Sign) -> bool
        ensures yes { IsTrue result → self.old ≡ Symbol.Sign sign ∷ self.new }
        ensures no { result ≡ false → (self.new ≡ self.old) × ¬ (Begins (Symbol.Sign sign) self.old) }
    {
        let found = self.is_at_sign(sign);
        if found {
            self.skip();
        }
        found
    }

    /// Goes past the word, which must be next.
    pub fn expect_word(&mut self, word: &str) -> Result<(), LexEnd>
        ensures found { IfOk result (λ _. self.old ≡ Symbol.Word word.now ∷ self.new) }
        ensures syntax { IsErrOf result LexEnd.Syntax → ¬ (Begins (Symbol.Word word.now) self.old) }
        ensures refused { IfErr result (λ e. e ≡ LexEnd.Syntax) }
        ensures unchanged { OnErr result (self.new ≡ self.old) }
    {
        if self.takes_word(word) {
            return Ok(());
        }
        Err(LexEnd::Syntax)
    }

    /// Goes past the sign, which must be next.
    pub fn expect_sign(&mut self, sign: Sign) -> Result<(), LexEnd>
        ensures found { IfOk result (λ _. self.old ≡ Symbol.Sign sign ∷ self.new) }
        ensures syntax { IsErrOf result LexEnd.Syntax → ¬ (Begins (Symbol.Sign sign) self.old) }
        ensures refused { IfErr result (λ e. e ≡ LexEnd.Syntax) }
        ensures unchanged { OnErr result (self.new ≡ self.old) }
    {
        if self.takes_sign(sign) {
            return Ok(());
        }
        Err(LexEnd::Syntax)
    }

    fn is_at_name(&self) -> bool
        ensures { IsTrue result ↔ ((n : Items ℕ) × IsName n × Begins (Symbol.Word n) self.now) }
    {
        match self.peek() {
            Some(Symbol::Word(w)) => is_name(w.as_str()),
            _ => false,
        }
    }

    /// The name that must be next: a word that is not reserved.
    pub fn name(&mut self) -> Result<Str, LexEnd>
        ensures found { IfOk result (λ n. (self.old ≡ Symbol.Word n ∷ self.new) × IsName n) }
        ensures syntax { IsErrOf result LexEnd.Syntax → (n : Items ℕ) → IsName n → ¬ (Begins (Symbol.Word n) self.old) }
        ensures refused { IfErr result (λ e. e ≡ LexEnd.Syntax) }
        ensures unchanged { OnErr result (self.new ≡ self.old) }
    {
        if !self.is_at_name() {
            return Err(LexEnd::Syntax);
        }
        match self.next() {
            Some(Symbol::Word(name)) => Ok(name),
            _ => Err(LexEnd::Syntax),
        }
    }

    /// NAME { "," NAME }
    pub fn names(&mut self) -> Result<List<Str>, LexEnd>
        ensures found { IfOk result (λ ns. (self.old ≡ names_symbols ns ++ self.new) × AreNames ns) }
        ensures ends { IfOk result (λ _. ¬ (Begins (Symbol.Sign Sign.Comma) self.new)) }
        ensures syntax { IsErrOf result LexEnd.Syntax → ListsNoNames self.old }
        ensures behind { OnErr result ((front : Items ASymbol) × (self.old ≡ front ++ self.new)) }
    {
        let mut names = List::new(self.alloc());
        names.push(self.name()?)?;
        while self.takes_sign(Sign::Comma) {
            names.push(self.name()?)?;
        }
        Ok(names)
    }

    /// Nothing may be left.
    pub fn end(&self) -> Result<(), LexEnd>
        ensures found { IfOk result (λ _. length self.now ≡ 0) }
        ensures syntax { IsErrOf result LexEnd.Syntax → 0 < length self.now }
        ensures refused { IfErr result (λ e. e ≡ LexEnd.Syntax) }
    {
        match self.peek() {
            None => Ok(()),
            Some(_) => Err(LexEnd::Syntax),
        }
    }
}
