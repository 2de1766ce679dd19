//! Counts of steps.

ghost use Rattle.std.specs.Prelude.{◌≡◌, ◌+◌, ℕ};

use std::marker::{Model, PhantomData};

// A number that proofs alone see.
#[derive(Drop)]
struct Count {
    ghost number: { ℕ },
}

impl Model for Count {
    ghost use base.Fml.{ftrue};

    ghost also_owns = { λ _. ftrue };
}

impl Count {
    fn zero() -> Count
        ensures { result.number ≡ 0 }
    {
        Count {}
    }

    fn next(&self) -> Count
        ensures { result.number ≡ self.now.number + 1 }
    {
        Count {}
    }
}

/// How many steps were taken, which contracts see as a number. It takes no bytes.
///
/// [`Steps::tick`] alone raises it, and it can be neither copied nor set back. Who has no value of
/// type `L` can start no second count of that type.
#[derive(Drop)]
pub struct Steps<L> {
    count: Count,
    ledger: PhantomData<L>,
}

impl<L> Model for Steps<L> {
    ghost use Rattle.std.specs.Prelude.{ℕ};

    ghost Value = { ℕ };

    ghost view = { λ s. s.count.number };
}

impl<L> Steps<L> {
    /// No step so far.
    pub fn start(ledger: L) -> Steps<L>
    where
        L: Drop,
        ensures { result ≡ 0 }
    {
        let _ = ledger;
        Steps {
            count: Count::zero(),
            ledger: PhantomData,
        }
    }

    /// Counts one step. At run time it does nothing.
    pub fn tick(&mut self)
        ensures { self.new ≡ self.old + 1 }
    {
        let next = self.count.next();
        self.count = next;
    }
}
