// A value on the heap that may occur inside its own type.

ghost use Rattle.std.specs.Prelude.{◌≡◌, IfOk};

use crate::no_memory::NoMemory;
use std::alloc::Global;
use std::marker::Model;

/// A `Box` that contracts see as the value in it, so that a tree made of it can equal another tree.
/// A type may hold a `Boxed` of itself.
#[derive(Debug, Drop)]
pub struct Boxed<T> {
    inner: Box<T>,
}

impl<T> Model for Boxed<T> {
    ghost Value = { T };

    ghost coded = { T.code };

    ghost view = { λ b. b.inner.value };
}

impl<T> Boxed<T> {
    /// The value.
    pub fn get(&self) -> &T
        ensures value { result.now ≡ self.now }
    {
        &self.inner
    }

    /// The value itself, out of its box.
    pub fn into_inner(self) -> T
        ensures value { result ≡ self }
    {
        let Boxed { inner } = self;
        Box::into_inner(inner)
    }
}

impl<T: Drop> Boxed<T> {
    /// Puts a value into a box.
    pub fn new(alloc: Global, value: T) -> Result<Boxed<T>, NoMemory>
        ensures value { IfOk result (λ b. b ≡ value) }
    {
        let inner = Box::new(alloc, value)?;
        Ok(Boxed { inner })
    }
}
