//! What a line is, by its first word, or by its third behind two empty ones.
ghost use Rattle.std.specs.Prelude.{◌≡◌, if◌then◌else◌, Some};
ghost use Rattle.std.specs.Str.{bytes_eq};
ghost use Rattle.su_explained.specs.Kinds.{outer_kind_of, inner_kind_of, kind_in};

use crate::checks::are_same;
use su_base::List;

/// What a line says. The first eleven are those of an explanation, the others those of a schema.
#[derive(Clone, Copy, PartialEq, Eq)]
pub enum Kind {
    Query,
    Variables,
    Term,
    Row,
    Head,
    Compare,
    Kept,
    Fold,
    Sources,
    Covered,
    /// How many terms there are, and how many are kept.
    Count,
    Attribute,
    Relation,
    Object,
    Dependency,
    /// A declared maximal object as a definition.
    Declared,
    /// A maximal object with its number.
    Maximal,
}

/// This kind where the word is its name, else the other.
fn named(word: &[u8], name: &str, kind: Kind, other: Option<Kind>) -> Option<Kind>
    ensures { result ≡ (if bytes_eq word.now name.now then Some kind else other) }
{
    if are_same(word, name.as_bytes()) {
        return Some(kind);
    }
    other
}

fn outer_kind(word: &[u8]) -> Option<Kind>
    ensures { result ≡ outer_kind_of word.now }
{
    // From the last name to the first, so that the first that fits decides, as in the definition.
    let kind = named(word, "--", Kind::Maximal, None);
    let kind = named(word, "maximal", Kind::Declared, kind);
    let kind = named(word, "fd", Kind::Dependency, kind);
    let kind = named(word, "object", Kind::Object, kind);
    let kind = named(word, "relation", Kind::Relation, kind);
    let kind = named(word, "attribute", Kind::Attribute, kind);
    let kind = named(word, "terms", Kind::Count, kind);
    let kind = named(word, "term", Kind::Term, kind);
    let kind = named(word, "variables", Kind::Variables, kind);
    named(word, "query:", Kind::Query, kind)
}

fn inner_kind(word: &[u8]) -> Option<Kind>
    ensures { result ≡ inner_kind_of word.now }
{
    // From the last name to the first, as above.
    let kind = named(word, "covered", Kind::Covered, None);
    let kind = named(word, "sources", Kind::Sources, kind);
    let kind = named(word, "fold", Kind::Fold, kind);
    let kind = named(word, "kept", Kind::Kept, kind);
    let kind = named(word, "compare", Kind::Compare, kind);
    let kind = named(word, "head", Kind::Head, kind);
    named(word, "row", Kind::Row, kind)
}

/// What a line with these words is.
pub fn kind_of(words: &[List<u8>]) -> Option<Kind>
    ensures { result ≡ kind_in words.now }
{
    match words {
        [one, two, word, ..] => {
            if one.is_empty() && two.is_empty() {
                inner_kind(word.as_slice())
            } else {
                outer_kind(one.as_slice())
            }
        }
        [one, ..] => outer_kind(one.as_slice()),
        [] => None,
    }
}
