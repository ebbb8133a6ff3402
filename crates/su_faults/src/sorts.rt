//! The kinds of tokens that forms ask for.
ghost use Rattle.std.specs.Prelude.{◌≡◌};
ghost use Rattle.su_faults.specs.Sorts.{spelling};

use su_lex::Sign;

/// A reserved word of the language.
#[derive(Clone, Copy, PartialEq, Eq, Debug)]
pub enum Word {
    Attribute,
    Relation,
    Object,
    From,
    Fd,
    Maximal,
    Int,
    Text,
    Insert,
    Delete,
    Where,
    Load,
    Print,
    Schema,
    Closure,
    Retrieve,
    Explain,
    And,
    Or,
    Not,
    Compare,
    With,
    Window,
}

/// What may stand at a place: a reserved word, a name, a number, a text, a sign, or nothing more.
#[derive(Clone, Copy, PartialEq, Eq, Debug)]
pub enum Sort {
    Word(Word),
    Name,
    Number,
    Text,
    Sign(Sign),
    End,
}

/// How a reserved word is written.
pub fn spelling(word: Word) -> &'static str
    ensures { result.now ≡ spelling word }
{
    match word {
        Word::Attribute => "attribute",
        Word::Relation => "relation",
        Word::Object => "object",
        Word::From => "from",
        Word::Fd => "fd",
        Word::Maximal => "maximal",
        Word::Int => "int",
        Word::Text => "text",
        Word::Insert => "insert",
        Word::Delete => "delete",
        Word::Where => "where",
        Word::Load => "load",
        Word::Print => "print",
        Word::Schema => "schema",
        Word::Closure => "closure",
        Word::Retrieve => "retrieve",
        Word::Explain => "explain",
        Word::And => "and",
        Word::Or => "or",
        Word::Not => "not",
        Word::Compare => "compare",
        Word::With => "with",
        Word::Window => "window",
    }
}
