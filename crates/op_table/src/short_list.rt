//! Lists of which most are short.

ghost use Rattle.std.specs.Prelude.{◌≡◌, ◌↔◌, [], ◌∷◌, ◌++◌, length, slice_get, IsTrue, IfOk, OnOk, OnErr, option_copied};

use bk_base::NoMemory;
use smallvec::SmallVec;
use std::alloc::Global;
use std::default::MadeWith;
use std::fmt;
use std::marker::Model;

/// Items in order, which contracts see as their list. Up to `N` stand in the value itself, so that a
/// short list takes no memory.
#[derive(Drop)]
pub struct ShortList<T, const N: usize> {
    items: SmallVec<T, N>,
}

impl<T, const N: usize> Model for ShortList<T, N> {
    ghost use Rattle.std.specs.Prelude.{List};

    ghost Value = { List T };

    ghost view = { λ l. l.items.items };
}

impl<T: MadeWith<Global> + Drop, const N: usize> ShortList<T, N> {
    /// No items, without memory taken.
    pub fn new(alloc: Global) -> ShortList<T, N>
        ensures { result ≡ [] }
    {
        ShortList {
            items: SmallVec::new(alloc),
        }
    }

    /// No items, and room for `n`. Memory is taken for more than `N`.
    pub fn with_capacity(alloc: Global, n: usize) -> Result<ShortList<T, N>, NoMemory>
        ensures { IfOk result (λ l. l ≡ []) }
    {
        Ok(ShortList {
            items: SmallVec::with_capacity(alloc, n)?,
        })
    }

    /// Puts an item at the end. It is refused for want of memory alone, and then nothing has changed.
    pub fn push(&mut self, item: T) -> Result<(), NoMemory>
        ensures ok { OnOk result (self.new ≡ self.old ++ item ∷ []) }
        ensures err { OnErr result (self.new ≡ self.old) }
    {
        self.items.push(item)?;
        Ok(())
    }

    /// Item `i`, counted from 0. None exactly where there are not so many.
    pub fn get(&self, i: usize) -> Option<&T>
        ensures { option_copied result ≡ slice_get self.now i }
    {
        self.items.as_slice().get(i)
    }

    /// The items.
    pub fn as_slice(&self) -> &[T]
        ensures { result.now ≡ self.now }
    {
        self.items.as_slice()
    }

    /// How many items there are.
    pub fn len(&self) -> usize
        ensures { result ≡ length self.now }
    {
        self.items.len()
    }

    /// Whether there is none.
    pub fn is_empty(&self) -> bool
        ensures { IsTrue result ↔ (self.now ≡ []) }
    {
        self.items.is_empty()
    }
}

impl<T: fmt::Debug, const N: usize> fmt::Debug for ShortList<T, N> {
    fn fmt<W: fmt::Write>(&self, f: &mut fmt::Formatter<W>) -> fmt::Result {
        self.items.fmt(f)
    }
}
