//! A growing list, and the one answer for want of memory.
ghost use Rattle.std.specs.Prelude.{◌≡◌, [], ◌∷◌, ◌++◌, ◌<◌, ◌^◌, length, slice_get, ◌==◌, IfErr, OnOk, OnErr, MatchOption, if◌then◌else◌};
ghost use Rattle.std.specs.Cmp.Lexicographic.{pointwise, slice_cmp, slice_partial_cmp, lists_equiv, lists_agrees, lists_total, lists_ties, lists_po, lists_per};
ghost use Rattle.std.specs.Slice.Iter.{iter_rest};
ghost use Rattle.std.specs.Iterator.Adapters.{IterYieldsInOrder, IterYieldsInReverse};
ghost use Rattle.std.specs.Hash as fed;
ghost use Rattle.std.specs.Hash.{items_Alike};

use std::alloc::{AllocError, AllocFailed, Global};
use std::cmp::Ordering;
use std::hash::{Hash, Hasher};
use std::marker::Model;
use std::slice::Iter;

/// Memory could not be had. Each call says what stands then.
#[derive(Clone, Copy, PartialEq, Eq, Debug)]
pub struct NoMemory;

impl From<AllocError> for NoMemory {
    fn from(_: AllocError) -> NoMemory {
        NoMemory
    }
}

/// A list of items over a `Vec`, which keeps the allocator that it was made with.
#[derive(Debug, Drop)]
pub struct List<T> {
    pub(crate) items: Vec<T>,
}

impl<T> Model for List<T> {
    ghost use Rattle.std.specs.Prelude.{List as Items};
    ghost use Rattle.std.specs.Coded.{coded_list};

    ghost Value = { Items T };

    ghost coded = { coded_list T.code };

    ghost view = { λ l. l.items.items };
}

impl<T> List<T> {
    /// An empty list. It takes no memory yet.
    pub fn new(alloc: Global) -> List<T>
        ensures { result ≡ [] }
    {
        List {
            items: Vec::new(alloc),
        }
    }

    /// Adds the item at the end; a refused item comes back. A constant time on average.
    pub fn push(&mut self, item: T) -> Result<(), (T, NoMemory)>
        ensures ok { OnOk result (self.new ≡ self.old ++ item ∷ []) }
        ensures unchanged { OnErr result (self.new ≡ self.old) }
        ensures handed_back { IfErr result (λ e. e.0 ≡ item) }
    {
        match self.items.push(item) {
            Ok(()) => Ok(()),
            Err(AllocFailed { value }) => Err((value, NoMemory)),
        }
    }

    /// Takes the last item.
    pub fn pop(&mut self) -> Option<T>
        ensures { MatchOption result ((self.old ≡ []) × (self.new ≡ [])) (λ item. self.old ≡ self.new ++ item ∷ []) }
    {
        self.items.pop()
    }

    /// How many items there are.
    pub fn len(&self) -> usize
        ensures { result ≡ length self.now }
    {
        self.items.len()
    }

    /// Whether there is no item.
    pub fn is_empty(&self) -> bool
        ensures { result ≡ (length self.now == 0) }
    {
        self.items.is_empty()
    }

    /// The item at place `i`, from 0.
    pub fn get(&self, i: usize) -> &T
        requires { i < length self.now }
        ensures { slice_get self.now i ≡ Some result.now }
    {
        &self.items[i]
    }

    /// The items in order.
    pub fn as_slice(&self) -> &[T]
        ensures { result.now ≡ self.now }
    {
        self.items.as_slice()
    }

    /// The items, one after another, from the front or from the back.
    pub fn iter(&self) -> Iter<'_, T>
        ensures rest { iter_rest result ≡ self.now }
        ensures len { length (iter_rest result) ≡ length self.now }
        ensures bound { length (iter_rest result) < 2 ^ 64 }
        ensures runs { IterYieldsInOrder T }
        ensures runs_back { IterYieldsInReverse T }
    {
        self.items.iter()
    }

    /// The list of the vector's items. It moves them, takes no memory and keeps the vector's room.
    pub fn from_vec(items: Vec<T>) -> List<T>
        ensures { result ≡ items.items }
    {
        List { items }
    }

    /// The items as a vector. It moves them and takes no memory.
    pub fn into_vec(self) -> Vec<T>
        ensures { result.items ≡ self }
    {
        let List { items } = self;
        items
    }
}

impl<T: PartialEq> PartialEq for List<T> {
    ghost eq = { pointwise T.eq };

    ghost laws = { lists_per T.PartialEq.laws };

    fn eq(&self, other: &List<T>) -> bool {
        self.items == other.items
    }
}

impl<T: Eq> Eq for List<T> {
    ghost laws = { lists_equiv T.Eq.laws };
}

impl<T: Ord> Ord for List<T> {
    ghost cmp = { slice_cmp T.cmp };

    ghost total = { lists_total T.total };

    ghost matches_partial_cmp = { lists_agrees T.matches_partial_cmp };

    ghost matches_eq = { lists_ties T.cmp T.matches_eq };

    fn cmp(&self, other: &List<T>) -> Ordering {
        self.items.cmp(&other.items)
    }
}

impl<T: PartialOrd> PartialOrd for List<T> {
    ghost partial_cmp = { slice_partial_cmp T.partial_cmp };

    ghost laws = { lists_po T.PartialOrd.laws };

    fn partial_cmp(&self, other: &List<T>) -> Option<Ordering> {
        self.items.partial_cmp(&other.items)
    }
}

impl<T: Hash> Hash for List<T> {
    ghost hash_input = { fed.slice T.hash_input };

    ghost respects_eq = { (items_Alike (record { fed = T.respects_eq })).fed };

    fn hash<H: Hasher>(&self, state: &mut H) {
        self.items.hash(state);
    }
}

impl<T: Drop> List<T> {
    /// Adds the item at the end where it is wanted; else it is dropped, as where memory is wanting.
    pub fn push_if(&mut self, wanted: bool, item: T) -> Result<(), NoMemory>
        ensures ok { OnOk result (self.new ≡ self.old ++ (if wanted then item ∷ [] else [])) }
        ensures unchanged { OnErr result (self.new ≡ self.old) }
    {
        if wanted {
            self.push(item)?;
        }
        Ok(())
    }

    /// Moves the items of `more` to the end. Where memory is wanting, those are dropped.
    pub fn append(&mut self, more: List<T>) -> Result<(), NoMemory>
        ensures ok { OnOk result (self.new ≡ self.old ++ more) }
        ensures unchanged { OnErr result (self.new ≡ self.old) }
    {
        let List { mut items } = more;
        self.items.append(&mut items)?;
        Ok(())
    }
}

/// So that `push(..)?` converts. The item is dropped.
impl<T: Drop> From<(T, NoMemory)> for NoMemory {
    fn from(refused: (T, NoMemory)) -> NoMemory {
        refused.1
    }
}
