//! The table of opcodes.

ghost use Rattle.std.specs.Prelude.{◌≡◌, ◌⊎◌, ◌<◌, ◌↔◌, IsNone, Some, IfSome, option_copied, option_map, map, length};
ghost use Rattle.std.specs.List.{AllByRecursion};
ghost use Rattle.op_table.specs.Table.{table, row_with, row_named, row_of, arity_of, roles_of};

use crate::form::Form;
use crate::role::Role;
use crate::rows::ROWS;

/// What is done with an opcode beyond listing it.
#[derive(Clone, Copy, Debug, PartialEq, Eq)]
pub enum Profile {
    /// It is validated.
    Typed,
    /// It matches binaries, and is not validated yet.
    Later,
    /// It is superseded, or outside what is validated.
    Out,
}

/// An opcode with its name and its operands.
#[derive(Clone, Copy, Debug)]
pub struct OpRow {
    /// The opcode.
    pub op: u8,
    /// Its name, as it is listed.
    pub name: &'static str,
    /// How many operands an instruction of it has.
    pub arity: u8,
    /// What its operands are for, in order. There are none where the opcode is not validated.
    pub roles: &'static [Role],
    /// What is done with it.
    pub profile: Profile,
    pub(crate) form: Form,
}

// The rows of the table, in the order of their numbers.
#[tactic(auto, unfolding(crate::specs::Table::table))]
fn rows() -> &'static [OpRow]
    ensures rows { map row_of result.now ≡ table }
    ensures count { length result.now ≡ 182 }
{
    &ROWS
}

/// The row of an opcode, which there is for 1 to 182.
pub fn op_row(op: u8) -> Option<&'static OpRow>
    ensures row { option_map row_of (option_copied result) ≡ row_with op }
    ensures arity { IfSome result (λ r. arity_of op ≡ Some r.now.arity) }
    ensures roles { IfSome result (λ r. roles_of op ≡ r.now.roles.now) }
    ensures none { IsNone result ↔ ((op < 1) ⊎ (182 < op)) }
{
    let index = usize::from(op).checked_sub(1)?;
    rows().get(index)
}

/// The row of the opcode with this name, if there is one.
pub fn op_by_name(name: &[u8]) -> Option<&'static OpRow>
    ensures row { option_map row_of (option_copied result) ≡ row_named name.now }
    ensures arity { IfSome result (λ r. arity_of r.now.op ≡ Some r.now.arity) }
    ensures none { IsNone result ↔ AllByRecursion (λ r. r.name ≡ name.now → ⊥) table }
{
    rows().iter().find(|r| r.name.as_bytes() == name)
}
