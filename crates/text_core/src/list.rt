ghost use Rattle.std.specs.Prelude.{◌≡◌, [], ◌∷◌, ◌++◌, ◌≤◌, ◌<◌, length, slice_get, take, IfNone, IfOk, OnOk, OnErr, OnSome};
ghost use Rattle.std.specs.Option.{option_copied};

use crate::memory::Memory;
use std::alloc::Global;
use std::marker::Model;

/// How many items the first push makes room for: most lists stay as short.
const FEW: usize = 2;

/// A list that grows at its end. Contracts see the list of its items, so that a copy equals its
/// source.
#[derive(Debug, Drop)]
pub struct List<T> {
    items: Vec<T>,
}

/// A list of bytes.
pub type Bytes = List<u8>;

impl<T> Model for List<T> {
    ghost use Rattle.std.specs.Prelude.{List as Lst};
    ghost use Rattle.std.specs.Coded.{coded_list};

    ghost Value = { Lst T };

    ghost coded = { coded_list T.code };

    ghost view = { λ it. it.items.items };
}

impl<T> List<T> {
    /// The empty list. It takes no memory.
    pub fn new(alloc: Global) -> List<T>
        ensures { result ≡ [] }
    {
        List {
            items: Vec::new(alloc),
        }
    }

    /// The list of the items of a `Vec`. It takes no memory.
    pub fn from_vec(items: Vec<T>) -> List<T>
        ensures { result ≡ items.items }
    {
        List { items }
    }

    /// The items as a `Vec`. It takes no memory.
    pub fn into_vec(self) -> Vec<T>
        ensures { result.items ≡ self }
    {
        self.items
    }

    /// The number of items.
    pub fn len(&self) -> usize
        ensures { result ≡ length self.now }
    {
        self.items.len()
    }

    /// The item at a place counted from 0; `None` exactly where the place is not below the length.
    pub fn get(&self, at: usize) -> Option<&T>
        ensures value { option_copied result ≡ slice_get self.now at }
        ensures within { OnSome result (at < length self.now) }
        ensures none { IfNone result (length self.now ≤ at) }
    {
        self.items.get(at)
    }

    /// All items in order.
    pub fn as_slice(&self) -> &[T]
        ensures { result.now ≡ self.now }
    {
        self.items.as_slice()
    }
}

impl<T: Drop> List<T> {
    /// Appends an item. `Memory` is want of memory: the item is given up, and the list is as
    /// before.
    pub fn push(&mut self, item: T) -> Result<(), Memory>
        ensures ok { OnOk result (self.new ≡ self.old ++ item ∷ []) }
        ensures err { OnErr result (self.new ≡ self.old) }
    {
        if self.items.is_empty() {
            self.items.reserve_exact(FEW)?;
        }
        self.items.push(item)?;
        Ok(())
    }

    /// Appends the items of another list. `Memory` is want of memory: they are given up, and the
    /// list is as before.
    pub fn append(&mut self, more: List<T>) -> Result<(), Memory>
        ensures ok { OnOk result (self.new ≡ self.old ++ more) }
        ensures err { OnErr result (self.new ≡ self.old) }
    {
        let mut more = more.items;
        self.items.append(&mut more)?;
        Ok(())
    }

    /// Keeps the first items, so many at most.
    pub fn truncate(&mut self, most: usize)
        ensures { self.new ≡ take most self.old }
    {
        self.items.truncate(most);
    }
}

impl<T: Copy> List<T> {
    /// The list of the items of a slice; `Memory` is want of memory.
    pub fn from_slice(alloc: Global, items: &[T]) -> Result<List<T>, Memory>
        ensures { IfOk result (λ list. list ≡ items.now) }
    {
        let items = Vec::from_slice(alloc, items)?;
        Ok(List { items })
    }

    /// Appends the items of a slice. `Memory` is want of memory, and the list is as before.
    pub fn extend_from_slice(&mut self, more: &[T]) -> Result<(), Memory>
        ensures ok { OnOk result (self.new ≡ self.old ++ more.now) }
        ensures err { OnErr result (self.new ≡ self.old) }
    {
        self.items.extend_from_slice(more)?;
        Ok(())
    }
}
