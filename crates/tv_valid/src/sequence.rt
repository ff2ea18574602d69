//! Items in order.

ghost use Rattle.std.specs.Prelude.{◌≡◌, ◌↔◌, [], ◌∷◌, ◌++◌, IfOk, IsTrue, OnErr, OnOk};

use std::alloc::{AllocError, Global};
use std::marker::Model;

/// Items in order, of any number. Contracts see the list of them.
#[derive(Debug, Drop)]
pub struct Sequence<T> {
    items: Vec<T>,
}

impl<T> Model for Sequence<T> {
    ghost use Rattle.std.specs.Prelude.{List};

    ghost Value = { List T };

    ghost view = { λ s. s.items.items };
}

impl<T> Sequence<T> {
    /// Makes a sequence without items. Takes no memory.
    pub fn new(alloc: Global) -> Sequence<T>
        ensures { result ≡ [] }
    {
        Sequence {
            items: Vec::new(alloc),
        }
    }

    /// Makes a sequence of the vector's items. Takes no memory.
    pub fn from_vec(items: Vec<T>) -> Sequence<T>
        ensures { result ≡ items.items }
    {
        Sequence { items }
    }

    /// Returns the items as a vector. Takes no memory.
    pub fn into_vec(self) -> Vec<T>
        ensures { result.items ≡ self }
    {
        let Sequence { items } = self;
        items
    }

    /// Returns the items.
    pub fn as_slice(&self) -> &[T]
        ensures { result.now ≡ self.now }
    {
        &self.items
    }
}

impl<T: Drop> Sequence<T> {
    /// Adds an item at the end.
    pub fn push(&mut self, item: T) -> Result<(), AllocError>
        ensures ok { OnOk result (self.new ≡ self.old ++ item ∷ []) }
        ensures err { OnErr result (self.new ≡ self.old) }
    {
        self.items.push(item)?;
        Ok(())
    }

    /// Copies the items in order, each by `copy_item`.
    pub fn copy_by<F: Fn(&T, Global) -> Result<T, AllocError>>(
        &self,
        alloc: Global,
        copy_item: F,
    ) -> Result<Sequence<T>, AllocError>
        requires callable { F.IsAlwaysCallable copy_item }
        requires copies { (item : _) (out : _)
            → F.post copy_item item alloc out → IfOk out (λ copy. copy ≡ item.now) }
        ensures { IfOk result (λ copy. copy ≡ self.now) }
    {
        let mut items = Vec::with_capacity(alloc, self.items.len())?;
        for item in &self.items {
            items.push(copy_item(item, alloc)?)?;
        }
        Ok(Sequence { items })
    }

    /// Whether both have the same items in the same order, by `is_item`.
    pub fn is_by<F: Fn(&T, &T) -> bool>(&self, other: &Sequence<T>, is_item: F) -> bool
        requires callable { F.IsAlwaysCallable is_item }
        requires compares { (item : _) (other_item : _) (out : _)
            → F.post is_item item other_item out → IsTrue out ↔ (item.now ≡ other_item.now) }
        ensures { IsTrue result ↔ (self.now ≡ other.now) }
    {
        if self.items.len() != other.items.len() {
            return false;
        }
        for at in 0..self.items.len() {
            if !is_item(&self.items[at], &other.items[at]) {
                return false;
            }
        }
        true
    }
}
