//! Lists of items.

ghost use Rattle.std.specs.Prelude.{◌≡◌, ◌↔◌, [], ◌∷◌, ◌++◌, ◌<◌, length, take, drop, slice_get, slice_set, IsTrue, OnOk, OnErr, IfNone, option_copied, option_to_list};

use crate::memory::NoMemory;
use std::alloc::Global;
use std::marker::Model;

/// Items in order, which contracts see as their list.
///
/// It is made of a `Vec`, and gives it back, without taking memory.
#[derive(Debug, Drop)]
pub struct ItemList<T> {
    items: Vec<T>,
}

impl<T> Model for ItemList<T> {
    ghost use Rattle.std.specs.Prelude.{List};

    ghost Value = { List T };

    ghost view = { λ l. l.items.items };
}

impl<T> ItemList<T> {
    /// No items, without memory taken.
    pub fn new(alloc: Global) -> ItemList<T>
        ensures { result ≡ [] }
    {
        ItemList {
            items: Vec::new(alloc),
        }
    }

    /// Puts an item at the end. It is refused for want of memory alone, and then nothing has changed.
    pub fn push(&mut self, item: T) -> Result<(), NoMemory>
    where
        T: Drop,
        ensures ok { OnOk result (self.new ≡ self.old ++ item ∷ []) }
        ensures err { OnErr result (self.new ≡ self.old) }
    {
        self.items.push(item)?;
        Ok(())
    }

    /// Item `i`, counted from 0. None exactly where there are not so many.
    pub fn get(&self, i: usize) -> Option<&T>
        ensures { option_copied result ≡ slice_get self.now i }
    {
        self.items.get(i)
    }

    /// Puts an item in the place of item `i`, counted from 0.
    pub fn set(&mut self, i: usize, item: T)
    where
        T: Drop,
        requires { i < length self.old }
        ensures { self.new ≡ slice_set self.old i item }
    {
        self.items[i] = item;
    }

    /// Takes the last item off. None exactly where there is none.
    pub fn pop(&mut self) -> Option<T>
        ensures taken { self.old ≡ self.new ++ option_to_list result }
        ensures none { IfNone result (self.new ≡ []) }
    {
        self.items.pop()
    }

    /// Keeps the first `n` items, or all where there are not so many.
    pub fn truncate(&mut self, n: usize)
    where
        T: Drop,
        ensures { self.new ≡ take n self.old }
    {
        self.items.truncate(n);
    }

    /// Drops the first `n` items, or all where there are not so many, without taking memory.
    pub fn drop_front(&mut self, n: usize)
    where
        T: Drop,
        ensures { self.new ≡ drop n self.old }
    {
        let end = n.min(self.items.len());
        drop(self.items.drain(..end));
    }

    /// The items.
    pub fn as_slice(&self) -> &[T]
        ensures { result.now ≡ self.now }
    {
        self.items.as_slice()
    }

    /// How many items there are.
    pub fn len(&self) -> usize
        ensures { result ≡ length self.now }
    {
        self.items.len()
    }

    /// Whether there is none.
    pub fn is_empty(&self) -> bool
        ensures { IsTrue result ↔ (self.now ≡ []) }
    {
        self.items.is_empty()
    }
}

impl<T> From<Vec<T>> for ItemList<T> {
    ghost from_gives = { λ v l. l ≡ v.items };

    fn from(items: Vec<T>) -> ItemList<T> {
        ItemList { items }
    }
}

impl<T> From<ItemList<T>> for Vec<T> {
    ghost from_gives = { λ l v. v.items ≡ l };

    fn from(list: ItemList<T>) -> Vec<T> {
        list.items
    }
}
