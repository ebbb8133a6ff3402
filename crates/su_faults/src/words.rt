//! The word at the front of a text, and which words are reserved.
ghost use Rattle.std.specs.Prelude.{◌≡◌, ◌==◌, MatchOption};
ghost use Rattle.std.specs.Cmp.Lexicographic.{pointwise};
ghost use Rattle.su_base.specs.Name.{IsWord, is_reserved_word};
ghost use Rattle.su_lex.specs.inside.Firsts.{IsFirstToken, HasNoFirstToken};
ghost use Rattle.su_faults.specs.declared.firsts.Class.TheVariants.{OfWord};
ghost use Rattle.su_lex.specs.declared.kinds.TokenKind.TheVariants.{Word as AWord};
ghost use Rattle.su_lex.specs.declared.meaning.Symbol.TheVariants.{Word as WordSymbol};
ghost use Rattle.su_faults.specs.Sorts.{IsOfSort, spelling};
ghost use Rattle.su_faults.specs.inside.Firsts.{word_among, word_at, IsFirstOfSort, IsOfClass};

use crate::runs::word_bytes;
use crate::sorts::{Sort, Word, spelling};

const WORDS: [Word; 23] = [
    Word::Attribute,
    Word::Relation,
    Word::Object,
    Word::From,
    Word::Fd,
    Word::Maximal,
    Word::Int,
    Word::Text,
    Word::Insert,
    Word::Delete,
    Word::Where,
    Word::Load,
    Word::Print,
    Word::Schema,
    Word::Closure,
    Word::Retrieve,
    Word::Explain,
    Word::And,
    Word::Or,
    Word::Not,
    Word::Compare,
    Word::With,
    Word::Window,
];

fn is_spelled(word: Word, text: &[u8]) -> bool
    ensures { result ≡ pointwise ◌==◌ (spelling word) text.now }
{
    spelling(word).as_bytes() == text
}

fn word_among(words: &[Word], text: &[u8]) -> Option<Word>
    ensures { result ≡ word_among words.now text.now }
{
    match words {
        [] => None,
        [word, others @ ..] => {
            if is_spelled(*word, text) {
                return Some(*word);
            }
            word_among(others, text)
        }
    }
}

/// The reserved word that these bytes are.
fn reserved(text: &[u8]) -> Option<Word>
    ensures { result ≡ word_at text.now }
{
    word_among(&WORDS, text)
}

/// The sort of a word.
fn sort_of(word: &[u8]) -> Sort
    requires { IsWord word.now }
    ensures { IsOfSort result (WordSymbol word.now) }
{
    match reserved(word) {
        Some(word) => Sort::Word(word),
        None => Sort::Name,
    }
}

/// How many bytes the word at the front takes, of a text that begins with a letter.
fn word_length(text: &[u8]) -> Option<usize>
    requires { IsOfClass OfWord text.now }
    ensures { MatchOption result (HasNoFirstToken text.now) (λ n. IsFirstToken text.now AWord n) }
{
    let n = word_bytes(text);
    if n > 64 { None } else { Some(n) }
}

/// The sort of the word at the front, of a text that begins with a letter, and how many bytes it takes.
pub fn word(text: &[u8]) -> Option<(Sort, usize)>
    requires { IsOfClass OfWord text.now }
    ensures { IsFirstOfSort text.now result }
{
    match word_length(text) {
        Some(n) => Some((sort_of(&text[..n]), n)),
        None => None,
    }
}
