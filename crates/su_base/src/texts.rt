//! A text of UTF-8 that contracts see as its bytes.
ghost use Rattle.std.specs.Prelude.{◌≡◌, ◌≤◌, [], IfOk, ◌==◌, true, length};
ghost use Rattle.std.proofs.Common.{rules};
ghost use Rattle.std.specs.Cmp.{partial_order_from_own_ties};
ghost use Rattle.std.specs.Cmp.Rules.{comparing, hashing};
ghost use Rattle.std.specs.Cmp.Lexicographic.{pointwise, slice_cmp};
ghost use Rattle.std.specs.Ordering.{nat_cmp, as_partial_cmp};
ghost use Rattle.std.specs.Hash as fed;
ghost use Rattle.su_base.specs.Text.{text_of};

use crate::lists::NoMemory;
use std::alloc::{AllocError, Global};
use std::cmp::Ordering;
use std::fmt;
use std::hash::{Hash, Hasher};
use std::marker::Model;
use std::sync::Arc;

/// A text of at most `N` bytes: the first `count` of `bytes`.
#[derive(Drop)]
struct Held<const N: usize> {
    count: u8,
    bytes: [u8; N],
}

impl<const N: usize> Model for Held<N> {
    ghost use Rattle.std.specs.Prelude.{List, ℕ, ◌≤◌, length, take, IsUtf8};

    ghost Value = { List ℕ };

    ghost view = { λ h. take h.count h.bytes };

    ghost invariant = { λ h. (h.count ≤ length h.bytes) × ∥ IsUtf8 (take h.count h.bytes) ∥₁ };
}

impl<const N: usize> Held<N> {
    fn empty() -> Held<N>
        ensures { result ≡ [] }
    {
        Held {
            count: 0,
            bytes: [0; N],
        }
    }

    /// Makes it this text. Each byte is written once, where it stays.
    #[inline(always)]
    fn fill(&mut self, text: &str)
        requires few { length text.now ≤ 255 }
        requires fits { length text.now ≤ N }
        ensures { self.new ≡ text.now }
    {
        self.count = text.len() as u8;
        self.bytes[..text.len()].copy_from_slice(text.as_bytes());
    }

    fn as_str(&self) -> &str
        ensures { result.now ≡ self.now }
    {
        unsafe { str::from_utf8_unchecked(&self.bytes[..self.count as usize]) }
    }
}

/// Where the bytes lie: in the value itself, in one place on the heap, or in a string that its copies share.
#[derive(Drop)]
enum Form {
    Short(Held<14>),
    Middle(Box<Held<55>>),
    Wide(Box<Held<119>>),
    Long(Arc<String>),
}

/// A text of UTF-8 that it owns, ordered by its bytes. It is two machine words: at most 14 bytes lie
/// in them, at most 119 in one place on the heap, and more in a string on the heap that its copies share.
pub struct Str {
    form: Form,
}

/// Not derived: a derived drop stands in full, a call for each form, wherever a text goes out of scope,
/// and each layer above would prove it anew. This one is a single call there.
impl Drop for Str {
    fn drop(self) {
        let Str { form: _ } = self;
    }
}

impl Model for Str {
    ghost use Rattle.std.specs.Prelude.{List, ℕ};
    ghost use Rattle.su_base.specs.Text.{text_of};

    ghost Value = { List ℕ };

    ghost view = { λ s. text_of s.form };
}

/// The text in one place on the heap.
fn placed<const N: usize>(alloc: Global, text: &str) -> Result<Box<Held<N>>, NoMemory>
    requires few { length text.now ≤ 255 }
    requires fits { length text.now ≤ N }
    ensures { IfOk result (λ place. place.value ≡ text.now) }
{
    let mut place = Box::new(alloc, Held::empty()).map_err(AllocError::from)?;
    place.fill(text);
    Ok(place)
}

fn long(alloc: Global, text: &str) -> Result<Form, NoMemory>
    ensures { IfOk result (λ form. text_of form ≡ text.now) }
{
    let text = String::from_str(alloc, text)?;
    Ok(Form::Long(Arc::new(alloc, text).map_err(AllocError::from)?))
}

impl Str {
    /// Whether the text lies in the value itself.
    pub(crate) fn is_short(text: &str) -> bool
        ensures { result ≡ true → length text.now ≤ 14 }
    {
        text.len() <= 14
    }

    /// The text, which lies in the value itself.
    pub(crate) fn short(text: &str) -> Str
        requires { length text.now ≤ 14 }
        ensures { result ≡ text.now }
    {
        let mut held = Held::empty();
        held.fill(text);
        Str {
            form: Form::Short(held),
        }
    }

    /// Makes it a text that lies in the value itself.
    #[inline(always)]
    pub(crate) fn fill(&mut self, text: &str)
        requires { length text.now ≤ 14 }
        ensures { self.new ≡ text.now }
    {
        if let Form::Short(held) = &mut self.form {
            held.fill(text);
        } else {
            *self = Str::short(text);
        }
    }

    /// A copy of the text. It is inlined, so that it is made where it is kept.
    #[inline(always)]
    pub fn new(alloc: Global, text: &str) -> Result<Str, NoMemory>
        ensures { IfOk result (λ s. s ≡ text.now) }
    {
        if Str::is_short(text) {
            return Ok(Str::short(text));
        }
        let form = match text.len() {
            ..=55 => Form::Middle(placed(alloc, text)?),
            ..=119 => Form::Wide(placed(alloc, text)?),
            _ => long(alloc, text)?,
        };
        Ok(Str { form })
    }

    /// The text.
    pub fn as_str(&self) -> &str
        ensures { result.now ≡ self.now }
    {
        match &self.form {
            Form::Short(held) => held.as_str(),
            Form::Middle(held) => held.as_str(),
            Form::Wide(held) => held.as_str(),
            Form::Long(text) => text.as_str(),
        }
    }

    /// An equal text of its own. Where it is longer than 119 bytes the bytes are shared, not copied.
    pub fn copy(&self, alloc: Global) -> Result<Str, NoMemory>
        ensures { IfOk result (λ s. s ≡ self.now) }
    {
        match &self.form {
            Form::Long(text) => Ok(Str {
                form: Form::Long(text.clone()?),
            }),
            _ => Str::new(alloc, self.as_str()),
        }
    }
}

impl fmt::Debug for Str {
    fn fmt<W: fmt::Write>(&self, f: &mut fmt::Formatter<W>) -> fmt::Result {
        fmt::Debug::fmt(&self.as_str(), f)
    }
}

impl PartialEq for Str {
    ghost eq = { pointwise ◌==◌ };

    ghost laws = { Prim.search (comparing, rules) };

    fn eq(&self, other: &Str) -> bool {
        self.as_str() == other.as_str()
    }
}

impl Eq for Str {
    ghost laws = { Prim.search (comparing, rules) };
}

impl Ord for Str {
    ghost cmp = { slice_cmp nat_cmp };

    ghost total = { Prim.search (comparing, rules) };

    ghost matches_partial_cmp = { Prim.search (comparing, rules) };

    ghost matches_eq = { Prim.search (comparing, rules) };

    fn cmp(&self, other: &Str) -> Ordering {
        self.as_str().cmp(other.as_str())
    }
}

impl PartialOrd for Str {
    ghost partial_cmp = { as_partial_cmp (slice_cmp nat_cmp) };

    ghost laws = { partial_order_from_own_ties (Prim.search (comparing, rules)) (Prim.search (comparing, rules)) };

    fn partial_cmp(&self, other: &Str) -> Option<Ordering> {
        Some(self.cmp(other))
    }
}

impl Hash for Str {
    ghost hash_input = { fed.str };

    ghost respects_eq = { Prim.search (hashing, rules) };

    fn hash<H: Hasher>(&self, state: &mut H) {
        self.as_str().hash(state);
    }
}
