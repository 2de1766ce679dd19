ghost use Rattle.std.specs.Prelude.{◌+◌, ◌*◌, ◌<◌, ◌≤◌, length, OnOk};
ghost use Rattle.label_fixpoint.specs.Jumps.{jumps_of};
ghost use Rattle.label_fixpoint.specs.JumpLaws.{jumps_of-lawful};

use super::*;
use bk_base::{NoMemory, Steps};
use std::alloc::Global;
use std::test::Fail;

#[derive(Drop)]
struct Book;

#[derive(Drop)]
struct Jumps<'m> {
    numbers: &'m [u8],
    ghost any: { 0 < length numbers.now },
}

impl<'m> Flow for Jumps<'m> {
    type State = u8;

    ghost meaning = { λ f. jumps_of f.numbers.now };

    fn places(&self) -> usize {
        self.numbers.len()
    }

    fn entry(&self) -> usize {
        0
    }

    fn first(&self, _alloc: Global) -> Result<u8, NoMemory> {
        Ok(0)
    }

    fn copy(&self, _alloc: Global, s: &u8) -> Result<u8, NoMemory> {
        Ok(*s)
    }

    fn below(&self, a: &u8, b: &u8) -> bool {
        *a <= *b
    }

    fn join_into(&self, a: &mut u8, b: &u8) -> bool {
        if *b <= *a {
            return false;
        }
        *a = *b;
        true
    }

    ghost lawful = { λ f. jumps_of-lawful f.numbers.now f.any };
}

impl<'m, L> Walk<L> for Jumps<'m> {
    fn out(
        &self,
        _alloc: Global,
        place: usize,
        s: &u8,
        edges: &mut EdgeList<u8>,
        steps: &mut Steps<L>,
    ) -> Result<(), NoMemory> {
        steps.tick();
        let target = self.numbers[place] as usize;
        if target < self.numbers.len() {
            edges.push(Edge {
                target,
                state: (*s + 1).min(3),
            })?;
        }
        Ok(())
    }
}

fn solved<'m>(
    alloc: Global,
    jumps: &Jumps<'m>,
    steps: &mut Steps<Book>,
) -> Result<Solution<Jumps<'m>>, NoMemory>
    ensures at_most { steps.new ≤ steps.old + length jumps.now.numbers.now * 4 }
    ensures at_least { OnOk result (steps.old < steps.new) }
{
    solve(alloc, jumps, steps)
}

// A chain, a loop with a place beside it that isn't reached, a way into a loop, a place alone.
const ROWS: [(&[u8], &[Option<u8>]); 4] = [
    (&[1, 2, 9], &[Some(0), Some(1), Some(2)]),
    (&[1, 0, 0], &[Some(3), Some(3), None]),
    (&[2, 9, 3, 2], &[Some(0), None, Some(3), Some(3)]),
    (&[9], &[Some(0)]),
];

#[test]
fn flows_are_typed(rt: HostRuntime) -> Result<(), Fail> {
    for (numbers, wanted) in ROWS.iter() {
        if numbers.is_empty() {
            return Err("no place".into());
        }
        let jumps = Jumps { numbers };
        let mut steps = Steps::start(Book);
        let solution = solved(rt.alloc(), &jumps, &mut steps)?;
        for (place, state) in wanted.iter().enumerate() {
            assert_eq!(rt; solution.at(place).copied(), *state, "place {place}");
        }
        assert!(rt; solution.at(wanted.len()).is_none());
    }
    Ok(())
}
