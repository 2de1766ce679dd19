//! The places that are still to be visited.

ghost use Rattle.std.specs.Prelude.{◌≡◌, ◌++◌, ◌<◌, [], OnOk, IfOk, IfNone, option_to_list};
ghost use Rattle.label_fixpoint.specs.Progress.{Adds};

use bk_base::NoMemory;
use std::alloc::Global;
use std::marker::Model;

// How many places there are, and those that are pending: each flagged place is listed, and each
// listed one is a place.
#[derive(Drop)]
pub(crate) struct Agenda {
    flags: Vec<bool>,
    places: Vec<usize>,
}

impl Model for Agenda {
    ghost use Rattle.std.specs.Prelude.{◌≡◌, ◌<◌, ℕ, true, false, List, Contains, length, slice_index_or};

    ghost Value = { ℕ × List ℕ };

    ghost view = { λ a. (length a.flags.items, a.places.items) };

    ghost invariant = { λ a. ((p : ℕ) → slice_index_or a.flags.items p false ≡ true → Contains a.places.items p) × ((p : ℕ) → Contains a.places.items p → p < length a.flags.items) };
}

impl Agenda {
    /// So many places, none of them pending. It is refused for want of memory alone.
    pub(crate) fn new(alloc: Global, places: usize) -> Result<Agenda, NoMemory>
        ensures { IfOk result (λ a. a ≡ (places, [])) }
    {
        Ok(Agenda {
            flags: vec![in alloc; false; places]?,
            places: Vec::new(alloc),
        })
    }

    /// Makes a place pending. It is refused for want of memory alone.
    pub(crate) fn add(&mut self, place: usize) -> Result<(), NoMemory>
        requires { place < self.old.0 }
        ensures ok { OnOk result (Adds self.old place self.new) }
    {
        if self.flags[place] {
            return Ok(());
        }
        self.places.push(place)?;
        self.flags[place] = true;
        Ok(())
    }

    /// Takes out the pending place that was added last. None exactly where no place is pending.
    pub(crate) fn pop(&mut self) -> Option<usize>
        ensures size { self.new.0 ≡ self.old.0 }
        ensures taken { self.old.1 ≡ self.new.1 ++ option_to_list result }
        ensures none { IfNone result (self.new.1 ≡ []) }
    {
        let place = self.places.pop()?;
        self.flags[place] = false;
        Some(place)
    }
}
