//! The kinds of tokens, as the rules of the grammar write them.
ghost use Rattle.std.specs.Prelude.{◌≡◌, ◌++◌, OnOk};
ghost use Rattle.su_places.specs.Places.{kind_text, sign_text, word_text, is_wanted, wanted_text, kinds_from};

use su_base::NoMemory;
use su_base::parts::push;
use su_faults::{Sort, Word};
use su_lex::Sign;

/// All kinds, in the order in which they are told.
pub(crate) const KINDS: [Sort; 38] = [
    Sort::Word(Word::Attribute),
    Sort::Word(Word::Relation),
    Sort::Word(Word::Object),
    Sort::Word(Word::From),
    Sort::Word(Word::Fd),
    Sort::Word(Word::Maximal),
    Sort::Word(Word::Int),
    Sort::Word(Word::Text),
    Sort::Word(Word::Insert),
    Sort::Word(Word::Delete),
    Sort::Word(Word::Where),
    Sort::Word(Word::Load),
    Sort::Word(Word::Print),
    Sort::Word(Word::Schema),
    Sort::Word(Word::Closure),
    Sort::Word(Word::Retrieve),
    Sort::Word(Word::Explain),
    Sort::Word(Word::And),
    Sort::Word(Word::Or),
    Sort::Word(Word::Not),
    Sort::Word(Word::Compare),
    Sort::Word(Word::With),
    Sort::Word(Word::Window),
    Sort::Name,
    Sort::Number,
    Sort::Text,
    Sort::Sign(Sign::Open),
    Sort::Sign(Sign::Close),
    Sort::Sign(Sign::Comma),
    Sort::Sign(Sign::Dot),
    Sort::Sign(Sign::Arrow),
    Sort::Sign(Sign::Equal),
    Sort::Sign(Sign::NotEqual),
    Sort::Sign(Sign::Less),
    Sort::Sign(Sign::LessEqual),
    Sort::Sign(Sign::Greater),
    Sort::Sign(Sign::GreaterEqual),
    Sort::End,
];

fn word_text(word: Word) -> &'static str
    ensures { result.now ≡ word_text word }
{
    match word {
        Word::Attribute => "\"attribute\"",
        Word::Relation => "\"relation\"",
        Word::Object => "\"object\"",
        Word::From => "\"from\"",
        Word::Fd => "\"fd\"",
        Word::Maximal => "\"maximal\"",
        Word::Int => "\"int\"",
        Word::Text => "\"text\"",
        Word::Insert => "\"insert\"",
        Word::Delete => "\"delete\"",
        Word::Where => "\"where\"",
        Word::Load => "\"load\"",
        Word::Print => "\"print\"",
        Word::Schema => "\"schema\"",
        Word::Closure => "\"closure\"",
        Word::Retrieve => "\"retrieve\"",
        Word::Explain => "\"explain\"",
        Word::And => "\"and\"",
        Word::Or => "\"or\"",
        Word::Not => "\"not\"",
        Word::Compare => "\"compare\"",
        Word::With => "\"with\"",
        Word::Window => "\"window\"",
    }
}

fn sign_text(sign: Sign) -> &'static str
    ensures { result.now ≡ sign_text sign }
{
    match sign {
        Sign::Open => "\"(\"",
        Sign::Close => "\")\"",
        Sign::Comma => "\",\"",
        Sign::Dot => "\".\"",
        Sign::Arrow => "\"->\"",
        Sign::Equal => "\"=\"",
        Sign::NotEqual => "\"!=\"",
        Sign::Less => "\"<\"",
        Sign::LessEqual => "\"<=\"",
        Sign::Greater => "\">\"",
        Sign::GreaterEqual => "\">=\"",
    }
}

fn kind_text(sort: Sort) -> &'static str
    ensures { result.now ≡ kind_text sort }
{
    match sort {
        Sort::Word(word) => word_text(word),
        Sort::Name => "NAME",
        Sort::Number => "NUMBER",
        Sort::Text => "TEXT",
        Sort::Sign(sign) => sign_text(sign),
        Sort::End => "END",
    }
}

/// Whether the kind is told as one of these is.
fn is_wanted(wanted: &[Sort], kind: Sort) -> bool
    ensures { result ≡ is_wanted wanted.now kind }
{
    let [first, others @ ..] = wanted else {
        return false;
    };
    kind_text(*first) == kind_text(kind) || is_wanted(others, kind)
}

/// Adds the kind behind a space, where it is wanted.
fn push_wanted(out: &mut Vec<u8>, wanted: &[Sort], kind: Sort) -> Result<(), NoMemory>
    ensures { OnOk result (out.new.items ≡ out.old.items ++ wanted_text wanted.now kind) }
{
    if !is_wanted(wanted, kind) {
        return Ok(());
    }
    push(out, " ")?;
    push(out, kind_text(kind))
}

/// Adds those of these kinds that are wanted.
pub(crate) fn push_kinds(out: &mut Vec<u8>, wanted: &[Sort], kinds: &[Sort]) -> Result<(), NoMemory>
    ensures { OnOk result (out.new.items ≡ out.old.items ++ kinds_from wanted.now kinds.now) }
{
    for kind in kinds {
        push_wanted(out, wanted, *kind)?;
    }
    Ok(())
}
