//! The opcodes, and instructions as an opcode with its operands.
#![tactic(auto)]

mod action;
mod actions;
mod form;
mod instr;
mod laws;
mod operand_parts;
mod plan_laws;
mod planning;
mod plans;
mod role;
mod row;
mod rows;
mod shape;
mod short_list;
mod step;

pub use action::{Action, Src};
pub use instr::{Instr, OperandList};
pub use laws::{
    names_are_words, names_find_their_rows, rows_have_their_numbers, rows_have_their_roles,
};
pub use operand_parts::{label_in, members_in, number_in, operand_at, register_of};
pub use plan_laws::{
    plans_are_of_rows, plans_have_a_way, plans_keep_labels, plans_leave_by_rules, plans_tag_first,
    plans_write_named_registers,
};
pub use planning::{plan, plan_by, typed_row};
pub use plans::{ActionList, Exit, LabelList, Plan, PlanRefusal};
pub use role::Role;
pub use row::{OpRow, Profile, op_by_name, op_row};
pub use shape::{has_shape, misshapen};
pub use short_list::ShortList;
pub use step::{Layout, Number, Step, Way};

#[cfg(test)]
mod plan_tests;
#[cfg(test)]
mod tests;
