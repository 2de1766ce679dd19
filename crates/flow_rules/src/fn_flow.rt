//! The flow of one function.

ghost use Rattle.std.specs.Prelude.{◌≡◌, ◌<◌, ◌+◌, true, length};
ghost use Rattle.std.specs.List.{list_all};
ghost use Rattle.flow_rules.specs.Body.{body_from, body_fits, plan_is_steady};
ghost use Rattle.flow_rules.specs.Making.{y_bound};
ghost use Rattle.flow_rules.specs.Starts.{HasEntry};
ghost use Rattle.func_split.specs.Marks.{marks_of};
ghost use Rattle.code_faults.specs.Registers.{x_bound};

use bk_base::ItemList;
use func_split::Function;
use op_table::Plan;

/// A function with the plans of its instructions and the labels of its handlers. It borrows the
/// instructions from the module.
///
/// Its places are those of its instructions, counted from 0.
#[derive(Debug, Drop)]
pub struct FnFlow<'m> {
    pub(crate) function: Function<'m>,
    pub(crate) number: u32,
    pub(crate) plans: ItemList<Plan>,
    pub(crate) handlers: ItemList<u32>,
    // How many slots the greatest frame has that a plan makes.
    pub(crate) widest: u32,
    ghost fits: { body_fits (body_from function plans handlers (x_bound function) (y_bound plans)) ≡ true },
    ghost steady: { list_all plan_is_steady plans ≡ true },
    ghost low: { y_bound plans < 4_294_967_296 },
    ghost sized: { length plans ≡ length function.instrs },
    ghost entered: { HasEntry (marks_of function.instrs) function.entry },
    ghost short: { function.first + length function.instrs < 4_294_967_296 },
}
