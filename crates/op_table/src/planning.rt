//! Plans that come from operands.

ghost use Rattle.std.specs.Prelude.{◌≡◌, ◌⊎◌, ◌<◌, ◌++◌, Bool, true, None, Some, Err, length, IsTrue, IfOk, OnOk, IfSome, option_copied, option_map};
ghost use Rattle.op_table.specs.Layouts.{layout_from, layout_of};
ghost use Rattle.op_table.specs.Table.{arity_of, row_of, roles_of};
ghost use Rattle.op_table.specs.Planning.{called, typed_with, plan_of};
ghost use Rattle.op_table.specs.Roles.{misshapen};
ghost use Rattle.op_table.specs.Planned.{operand_at, fails_in, fails_at, raises_in, raises_at, value_labels, labels_in, exit_of, planned, layout_fits};

use crate::actions::add_steps;
use crate::form::Form;
use crate::instr::Instr;
use crate::operand_parts::{label_in, label_of, operand_at};
use crate::plans::{ActionList, Exit, LabelList, Plan, PlanRefusal};
use crate::role::Role;
use crate::row::{OpRow, Profile, op_row};
use crate::shape::misshapen;
use crate::step::{Layout, Way};
use bk_base::NoMemory;
use compact_term::{Operand, Plain};
use std::alloc::Global;

// The labels of second members of pairs.
fn add_value_labels(list: &mut LabelList, mut members: &[Plain]) -> Result<(), NoMemory>
    ensures { OnOk result (list.new ≡ list.old ++ value_labels members.now) }
{
    while let [_key, value, rest @ ..] = members {
        list.push(label_of(value))?;
        members = rest;
    }
    Ok(())
}

fn labels_in(alloc: Global, operand: Option<&Operand>) -> Result<LabelList, NoMemory>
    ensures { IfOk result (λ list. list ≡ labels_in (option_copied operand.entry)) }
{
    let mut list = LabelList::new(alloc);
    match operand {
        Some(Operand::One(plain)) => list.push(label_of(plain))?,
        Some(Operand::List(members)) => add_value_labels(&mut list, members.as_slice())?,
        _ => (),
    }
    Ok(list)
}

fn fails_in(alloc: Global, operand: Option<&Operand>) -> Result<LabelList, NoMemory>
    ensures { IfOk result (λ list. list ≡ fails_in (option_copied operand.entry)) }
{
    let mut list = LabelList::new(alloc);
    if let Some(Operand::One(Plain::F(label))) = operand
        && *label != 0
    {
        list.push(*label)?;
    }
    Ok(list)
}

fn fails_at(alloc: Global, operands: &[Operand], place: Option<u8>) -> Result<LabelList, NoMemory>
    ensures { IfOk result (λ list. list ≡ fails_at operands.now place) }
{
    match place {
        Some(k) => fails_in(alloc, operand_at(operands, k)),
        None => Ok(LabelList::new(alloc)),
    }
}

fn raises_in(operand: Option<&Operand>) -> bool
    ensures { result ≡ raises_in (option_copied operand.entry) }
{
    match operand {
        Some(Operand::One(Plain::F(label))) => *label == 0,
        _ => false,
    }
}

fn raises_at(operands: &[Operand], place: Option<u8>) -> bool
    ensures { result ≡ raises_at operands.now place }
{
    match place {
        Some(k) => raises_in(operand_at(operands, k)),
        None => false,
    }
}

fn exit_of(alloc: Global, operands: &[Operand], way: Way) -> Result<Exit, NoMemory>
    ensures { IfOk result (λ exit. exit ≡ exit_of operands.now way) }
{
    Ok(match way {
        Way::Next => Exit::Next,
        Way::Labels(k) => Exit::Labels(labels_in(alloc, operand_at(operands, k))?),
        Way::Enter(k) => Exit::Enter(label_in(operand_at(operands, k))),
        Way::TailLocal(k) => Exit::TailLocal(label_in(operand_at(operands, k))),
        Way::TailExt => Exit::TailExt,
        Way::Return => Exit::Return,
        Way::End => Exit::End,
    })
}

/// The plan that a layout gives operands, which have the shapes of their roles.
pub fn plan_by(
    alloc: Global,
    layout: &Layout,
    roles: &[Role],
    operands: &[Operand],
) -> Result<Plan, NoMemory>
    requires fits { IsTrue (layout_fits roles.now (layout_from layout.now)) }
    requires same { length roles.now ≡ length operands.now }
    requires shaped { misshapen roles.now operands.now ≡ None }
    ensures { IfOk result (λ p. p ≡ planned (layout_from layout.now) roles.now operands.now) }
{
    let mut before = ActionList::new(alloc);
    add_steps(&mut before, layout.before, roles, operands)?;
    let mut after = ActionList::new(alloc);
    add_steps(&mut after, layout.after, roles, operands)?;
    Ok(Plan {
        before,
        fails: fails_at(alloc, operands, layout.fails)?,
        raises: layout.raises || raises_at(operands, layout.fails),
        after,
        exit: exit_of(alloc, operands, layout.exit)?,
    })
}

// The form of a call where what is called may never return.
fn called(form: Form, ends: bool) -> Form
    ensures { result ≡ called form ends }
{
    match form {
        Form::CallExt if ends => Form::NeverReturns,
        form => form,
    }
}

/// The row of an opcode, if it is one that is validated.
pub fn typed_row(op: u8) -> Option<&'static OpRow>
    ensures row { option_map row_of (option_copied result) ≡ typed_with op }
    ensures arity { IfSome result (λ r. arity_of op ≡ Some (length r.now.roles.now)) }
    ensures roles { IfSome result (λ r. roles_of op ≡ r.now.roles.now) }
    ensures few { IfSome result (λ r. length r.now.roles.now < 256) }
    ensures fits { IfSome result (λ r. (ends : Bool) → IsTrue (layout_fits r.now.roles.now (layout_of (called r.now.form ends)))) }
{
    let row = op_row(op)?;
    match row.profile {
        Profile::Typed => Some(row),
        Profile::Later | Profile::Out => None,
    }
}

/// What an instruction needs and does. `ends` says that the import that it names never returns.
///
/// It is `Unsupported` where the opcode is not of profile `Typed`, and `Shape` at the first operand that
/// is not what its role says.
#[tactic(auto, unfolding(crate::specs::Planning::plan_of))]
pub fn plan(alloc: Global, instr: &Instr, ends: bool) -> Result<Plan, PlanRefusal>
    ensures { (result ≡ plan_of instr.now ends) ⊎ (result ≡ Err PlanRefusal.NoMemory) }
{
    let Some(row) = typed_row(instr.op()) else {
        return Err(PlanRefusal::Unsupported { op: instr.op() });
    };
    let operands = instr.operands().as_slice();
    if let Some(operand) = misshapen(row.roles, operands) {
        return Err(PlanRefusal::Shape { operand });
    }
    let layout = called(row.form, ends).layout();
    Ok(plan_by(alloc, &layout, row.roles, operands)?)
}
