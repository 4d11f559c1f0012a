//! Stacks.

ghost use Rattle.std.specs.Prelude.{◌≡◌, ◌+◌, ◌<◌, ◌≤◌, ℕ, List, [], ◌∷◌, length, reverse, remove, drop, slice_get, pos, OnOk, OnErr, IfOk, Some};
ghost use Rattle.std.specs.List.{swap};
ghost use Rattle.interp.specs.Stack.{nth};

use crate::element::Element;
use std::alloc::Global;
use std::marker::Model;
use wire::Memory;

/// Values on top of one another: a list, the top first.
#[derive(Drop)]
pub struct Pile<T: Drop> {
    items: Vec<T>,
}

impl<T: Drop> Model for Pile<T> {
    ghost Value = { List T };

    ghost view = { λ p. reverse p.items.items };
}

impl<T: Drop> Pile<T> {
    pub fn new(alloc: Global) -> Pile<T>
        ensures { result ≡ [] }
    {
        Pile {
            items: Vec::new(alloc),
        }
    }

    /// These from the bottom up.
    pub fn from_vec(items: Vec<T>) -> Pile<T>
        ensures { reverse result ≡ items.items }
    {
        Pile { items }
    }

    /// All of them from the bottom up.
    pub fn as_slice(&self) -> &[T]
        ensures { result.now ≡ reverse self.now }
    {
        self.items.as_slice()
    }

    pub fn len(&self) -> usize
        ensures { result ≡ length self.now }
    {
        self.items.len()
    }

    /// One more on top.
    pub fn push(&mut self, x: T) -> Result<(), Memory>
        ensures ok { OnOk result (self.new ≡ x ∷ self.old) }
        ensures err { OnErr result (self.new ≡ self.old) }
    {
        self.items.push(x)?;
        Ok(())
    }

    /// Takes the top.
    pub fn pop(&mut self) -> T
        requires { 0 < length self.old }
        ensures { self.old ≡ result ∷ self.new }
    {
        self.items.pop().unwrap()
    }

    /// The one `n` places below the top.
    pub fn at(&self, n: usize) -> &T
        requires { n < length self.now }
        ensures { slice_get self.now n ≡ Some result.now }
    {
        &self.items[self.items.len() - 1 - n]
    }

    /// Takes out the one `n` places below the top.
    pub fn remove(&mut self, n: usize) -> T
        requires { n < length self.old }
        ensures value { slice_get self.old n ≡ Some result }
        ensures others { self.new ≡ remove self.old n }
    {
        self.items.remove(self.items.len() - 1 - n)
    }

    /// Puts the ones `m` and `n` places below the top in each other's place.
    pub fn swap(&mut self, m: usize, n: usize)
        requires one { m < length self.old }
        requires other { n < length self.old }
        ensures { self.new ≡ swap self.old m n }
    {
        let top = self.items.len() - 1;
        self.items.swap(top - m, top - n);
    }

    /// Drops `n` from the top.
    pub fn drop_top(&mut self, n: usize)
        requires { n ≤ length self.old }
        ensures { self.new ≡ drop n self.old }
    {
        self.items.truncate(self.items.len() - n);
    }
}

impl Pile<Element> {
    /// How many elements there are.
    pub fn depth(&self) -> i64
        ensures { result ≡ pos (length self.now) }
    {
        self.items.as_slice().len() as i64
    }

    /// Pushes a copy of the one `n` places below the top.
    pub fn push_copy(&mut self, alloc: Global, n: usize) -> Result<(), Memory>
        requires { n < length self.old }
        ensures { OnOk result (self.new ≡ nth self.old n ∷ self.old) }
    {
        let copy = self.at(n).copy(alloc)?;
        self.push(copy)
    }

    /// An equal pile.
    pub fn copy(&self, alloc: Global) -> Result<Pile<Element>, Memory>
        ensures { IfOk result (λ p. p ≡ self.now) }
    {
        Ok(Pile {
            items: copies(alloc, self.items.as_slice())?,
        })
    }
}

/// Equal elements.
fn copies(alloc: Global, elements: &[Element]) -> Result<Vec<Element>, Memory>
    ensures { IfOk result (λ copies. copies.items ≡ elements.now) }
{
    let mut copies = Vec::new(alloc);
    for element in elements {
        copies.push(element.copy(alloc)?)?;
    }
    Ok(copies)
}
