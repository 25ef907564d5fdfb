ghost use Rattle.std.specs.Prelude.{◌≡◌, IfOk};

use crate::memory::NoMemory;
use std::alloc::Global;
use std::marker::Model;

/// A value in memory of its own. Contracts see it as the value, so two boxes with the same value are
/// equal, and a tree may hold boxes of its own kind.
pub struct Boxed<T> {
    inner: Box<T>,
}

impl<T> Model for Boxed<T> {
    ghost Value = { T };

    ghost coded = { T.code };

    ghost view = { λ boxed. boxed.inner.value };
}

impl<T> Boxed<T> {
    pub fn get(&self) -> &T
        ensures { result.now ≡ self.now }
    {
        &self.inner
    }

    pub fn into_inner(self) -> T
        ensures { result ≡ self }
    {
        let Boxed { inner } = self;
        Box::into_inner(inner)
    }
}

// Written out, so that the type in the box may have a drop that goes down a chain of boxes by a loop.
impl<T: Drop> Drop for Boxed<T> {
    fn drop(self) {
        drop(self.into_inner());
    }
}

impl<T: Drop> Boxed<T> {
    pub fn new(alloc: Global, value: T) -> Result<Boxed<T>, NoMemory>
        ensures { IfOk result (λ boxed. boxed ≡ value) }
    {
        let inner = Box::new(alloc, value)?;
        Ok(Boxed { inner })
    }
}

/// Both in boxes of their own.
pub fn box_both<A: Drop, B: Drop>(
    alloc: Global,
    first: A,
    second: B,
) -> Result<(Boxed<A>, Boxed<B>), NoMemory>
    ensures { IfOk result (λ boxes. (boxes.0 ≡ first) × (boxes.1 ≡ second)) }
{
    let first = Boxed::new(alloc, first)?;
    let second = Boxed::new(alloc, second)?;
    Ok((first, second))
}

/// All three in boxes of their own.
pub fn box_three<A: Drop, B: Drop, C: Drop>(
    alloc: Global,
    first: A,
    second: B,
    third: C,
) -> Result<(Boxed<A>, Boxed<B>, Boxed<C>), NoMemory>
    ensures { IfOk result (λ boxes. (boxes.0 ≡ first) × (boxes.1 ≡ second) × (boxes.2 ≡ third)) }
{
    let (first, second) = box_both(alloc, first, second)?;
    let third = Boxed::new(alloc, third)?;
    Ok((first, second, third))
}
