//! What stands before an instruction.

ghost use Rattle.std.specs.Prelude.{◌≡◌};
ghost use Rattle.func_split.specs.Fronts.{step};

use crate::mark::Mark;

/// What stands before an instruction.
#[derive(Clone, Copy, Debug)]
pub(crate) enum Before {
    /// The label of a function, and then `line` alone: the place of the label.
    Own(usize),
    /// The `func_info` of a function, so that a label here is its entry label.
    Headed,
    /// Neither.
    Neither,
}

impl Before {
    /// What stands before the instruction behind this one, which is at `place`.
    pub(crate) fn after(self, place: usize, mark: Mark) -> Before
        ensures { result ≡ step self place mark }
    {
        match (mark, self) {
            (Mark::Label(_), Before::Headed) => Before::Neither,
            (Mark::Label(_), _) => Before::Own(place),
            (Mark::Line, Before::Own(label)) => Before::Own(label),
            (Mark::Func(_), Before::Own(_)) => Before::Headed,
            _ => Before::Neither,
        }
    }
}
