//! A box that contracts see as the value in it.
ghost use Rattle.std.specs.Prelude.{◌≡◌, IfOk};

use crate::lists::NoMemory;
use std::alloc::{AllocError, Global};
use std::marker::Model;

/// A value on the heap, through which a recursive type may hold itself. Contracts see it as the value
/// in it, so a copy of a tree equals the tree, as it would not with a `Box`.
#[derive(Debug, Drop)]
pub struct Boxed<T> {
    inner: Box<T>,
}

impl<T> Model for Boxed<T> {
    ghost Value = { T };

    ghost coded = { T.code };

    ghost view = { λ b. b.inner.value };
}

impl<T> Boxed<T> {
    /// The value in the box.
    pub fn get(&self) -> &T
        ensures { result.now ≡ self.now }
    {
        &self.inner
    }

    /// Takes the value out of the box.
    pub fn into_inner(self) -> T
        ensures { result ≡ self }
    {
        let Boxed { inner } = self;
        Box::into_inner(inner)
    }
}

impl<T: Drop> Boxed<T> {
    /// Puts a value on the heap; a refused one is dropped.
    pub fn new(alloc: Global, value: T) -> Result<Boxed<T>, NoMemory>
        ensures { IfOk result (λ b. b ≡ value) }
    {
        Ok(Boxed {
            inner: Box::new(alloc, value).map_err(AllocError::from)?,
        })
    }
}
