//! Typings as they are found.

ghost use Rattle.std.specs.Prelude.{◌≡◌, option_copied};
ghost use Rattle.label_fixpoint.specs.Typing.{typing_of};

use crate::flow::Flow;
use bk_base::ItemList;
use std::marker::PhantomData;

/// The least consistent typing of a flow: for each place the least state that what comes to it is
/// below, or none where nothing comes.
#[derive(Drop)]
pub struct Solution<F: Flow> {
    /// The states of the places, in order.
    pub states: ItemList<Option<F::State>>,
    pub(crate) flow: PhantomData<F>,
}

impl<F: Flow> Solution<F> {
    /// The state of a place, counted from 0. None exactly where the least typing has no state there.
    pub fn at(&self, place: usize) -> Option<&F::State>
        ensures { option_copied result ≡ typing_of self.now.states place }
    {
        match self.states.get(place) {
            Some(state) => state.as_ref(),
            None => None,
        }
    }
}
