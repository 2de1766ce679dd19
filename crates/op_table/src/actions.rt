//! Actions that come from operands.

ghost use Rattle.std.specs.Prelude.{◌≡◌, ◌+◌, ◌++◌, ◌<◌, length, true, OnOk};
ghost use Rattle.std.specs.List.{AllPass, flat_map};
ghost use Rattle.op_table.specs.declared.action.Action.TheVariants.{Room, Take, Copy, Swap, Tag};
ghost use Rattle.op_table.specs.Planned.{operand_at, members_in, number_in, number_of, slot_in, label_in, register_in, source_in, words_in, funs_in, register_reads, register_writes, reads_of, reads, key_reads, values, writes_of, actions, is_small};

use crate::action::{Action, Src};
use crate::operand_parts::{
    funs_in, label_in, members_in, number_in, operand_at, register_in, register_of, slot_in,
    source_in, source_of, words_in,
};
use crate::plans::ActionList;
use crate::role::Role;
use crate::step::{Number, Step};
use bk_base::{NoMemory, TagKind};
use compact_term::{Operand, Plain};

// The number of a step.
fn number_of(operands: &[Operand], number: Number) -> u64
    requires { number_of operands.now number < 18_446_744_073_709_551_616 }
    ensures { result ≡ number_of operands.now number }
{
    match number {
        Number::At(k) => number_in(operand_at(operands, k)),
        Number::More(k, more) => number_in(operand_at(operands, k)) + u64::from(more),
    }
}

// The number of a step of which less is kept.
fn small_number(operands: &[Operand], number: Number) -> u32
    requires { number_of operands.now number < 4_294_967_296 }
    ensures { result ≡ number_of operands.now number }
{
    number_of(operands, number) as u32
}

fn small_at(operands: &[Operand], k: u8) -> u32
    requires { number_in (operand_at operands.now k) < 4_294_967_296 }
    ensures { result ≡ number_in (operand_at operands.now k) }
{
    number_in(operand_at(operands, k)) as u32
}

fn add_register_reads(list: &mut ActionList, members: &[Plain]) -> Result<(), NoMemory>
    ensures { OnOk result (list.new ≡ list.old ++ register_reads members.now) }
{
    for member in members {
        if let Some(reg) = register_of(member) {
            list.push(Action::Read(Src::Reg(reg)))?;
        }
    }
    Ok(())
}

fn add_register_writes(list: &mut ActionList, members: &[Plain]) -> Result<(), NoMemory>
    ensures { OnOk result (list.new ≡ list.old ++ register_writes members.now) }
{
    for member in members {
        if let Some(reg) = register_of(member) {
            list.push(Action::Write(reg))?;
        }
    }
    Ok(())
}

// The reads of an operand by its role.
fn add_reads_of(list: &mut ActionList, role: Role, operand: &Operand) -> Result<(), NoMemory>
    ensures { OnOk result (list.new ≡ list.old ++ reads_of role operand.now) }
{
    match role {
        Role::S => list.push(Action::Read(source_in(Some(operand)))),
        Role::Ls => add_register_reads(list, members_in(Some(operand))),
        _ => Ok(()),
    }
}

fn add_reads(list: &mut ActionList, roles: &[Role], operands: &[Operand]) -> Result<(), NoMemory>
    requires same { length roles.now ≡ length operands.now }
    ensures { OnOk result (list.new ≡ list.old ++ reads roles.now operands.now) }
{
    for (i, role) in roles.iter().enumerate() {
        add_reads_of(list, *role, &operands[i])?;
    }
    Ok(())
}

// Reads of the first members of pairs.
fn add_key_reads(list: &mut ActionList, mut members: &[Plain]) -> Result<(), NoMemory>
    ensures { OnOk result (list.new ≡ list.old ++ key_reads members.now) }
{
    while let [key, _value, rest @ ..] = members {
        list.push(Action::Read(source_of(key)))?;
        members = rest;
    }
    Ok(())
}

// Writes of the second members of pairs.
fn add_value_writes(list: &mut ActionList, mut members: &[Plain]) -> Result<(), NoMemory>
    ensures { OnOk result (list.new ≡ list.old ++ register_writes (values members.now)) }
{
    while let [_key, value, rest @ ..] = members {
        if let Some(reg) = register_of(value) {
            list.push(Action::Write(reg))?;
        }
        members = rest;
    }
    Ok(())
}

// Writes of the operand's register, or of the registers in its list.
fn add_writes_of(list: &mut ActionList, operands: &[Operand], k: u8) -> Result<(), NoMemory>
    ensures { OnOk result (list.new ≡ list.old ++ writes_of (operand_at operands.now k)) }
{
    match operand_at(operands, k) {
        Some(Operand::List(members)) => add_register_writes(list, members.as_slice()),
        operand => list.push(Action::Write(register_in(operand))),
    }
}

fn room_of(operands: &[Operand], k: u8) -> Action
    ensures { result ≡ Room (words_in (operand_at operands.now k)) (funs_in (operand_at operands.now k)) }
{
    let need = operand_at(operands, k);
    Action::Room(words_in(need), funs_in(need))
}

fn copy_of(operands: &[Operand], j: u8, k: u8) -> Action
    ensures { result ≡ Copy (source_in (operand_at operands.now j)) (register_in (operand_at operands.now k)) }
{
    let source = source_in(operand_at(operands, j));
    Action::Copy(source, register_in(operand_at(operands, k)))
}

fn swap_of(operands: &[Operand], j: u8, k: u8) -> Action
    ensures { result ≡ Swap (register_in (operand_at operands.now j)) (register_in (operand_at operands.now k)) }
{
    let first = register_in(operand_at(operands, j));
    Action::Swap(first, register_in(operand_at(operands, k)))
}

fn tag_of(operands: &[Operand], j: u8, k: u8, kind: TagKind) -> Action
    ensures { result ≡ Tag (slot_in (operand_at operands.now j)) (label_in (operand_at operands.now k)) kind }
{
    let slot = slot_in(operand_at(operands, j));
    Action::Tag(slot, label_in(operand_at(operands, k)), kind)
}

fn take_members_of(operands: &[Operand], k: u8) -> Action
    ensures { result ≡ Take (length (members_in (operand_at operands.now k)) + 1) }
{
    Action::Take(members_in(operand_at(operands, k)).len() as u64 + 1)
}

fn add_step(
    list: &mut ActionList,
    step: Step,
    roles: &[Role],
    operands: &[Operand],
) -> Result<(), NoMemory>
    requires small { is_small operands.now step ≡ true }
    requires same { length roles.now ≡ length operands.now }
    ensures { OnOk result (list.new ≡ list.old ++ actions roles.now operands.now step) }
{
    match step {
        Step::Always(action) => list.push(action),
        Step::Reads => add_reads(list, roles, operands),
        Step::ReadKeys(k) => add_key_reads(list, members_in(operand_at(operands, k))),
        Step::Live(n) => list.push(Action::Live(small_number(operands, n))),
        Step::Keep(n) => list.push(Action::Keep(small_number(operands, n))),
        Step::Room(k) => list.push(room_of(operands, k)),
        Step::Take(n) => list.push(Action::Take(number_of(operands, n))),
        Step::TakeMembers(k) => list.push(take_members_of(operands, k)),
        Step::Write(k) => add_writes_of(list, operands, k),
        Step::WriteValues(k) => add_value_writes(list, members_in(operand_at(operands, k))),
        Step::Copy(j, k) => list.push(copy_of(operands, j, k)),
        Step::Swap(j, k) => list.push(swap_of(operands, j, k)),
        Step::NewFrame(k) => list.push(Action::NewFrame(small_at(operands, k))),
        Step::DropFrame(k) => list.push(Action::DropFrame(small_at(operands, k))),
        Step::Trim(j, k) => {
            list.push(Action::Trim(small_at(operands, j), small_at(operands, k)))
        }
        Step::Tag(j, k, kind) => list.push(tag_of(operands, j, k, kind)),
        Step::Untag(k, kind) => list.push(Action::Untag(slot_in(operand_at(operands, k)), kind)),
    }
}

/// Adds the actions of steps. It is refused for want of memory alone.
pub(crate) fn add_steps(
    list: &mut ActionList,
    steps: &[Step],
    roles: &[Role],
    operands: &[Operand],
) -> Result<(), NoMemory>
    requires small { AllPass (is_small operands.now) steps.now }
    requires same { length roles.now ≡ length operands.now }
    ensures { OnOk result (list.new ≡ list.old ++ flat_map (actions roles.now operands.now) steps.now) }
{
    for step in steps {
        add_step(list, *step, roles, operands)?;
    }
    Ok(())
}
