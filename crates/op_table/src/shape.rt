//! Whether operands are what their roles say.

ghost use Rattle.std.specs.Prelude.{◌≡◌, ◌<◌, length};
ghost use Rattle.std.specs.List.{list_all};
ghost use Rattle.op_table.specs.Roles.{alloc_shape, amounts_of, has_shape, in_turn, is_amount, is_bounded, is_label, is_named, is_need, is_number_to, is_register, is_slot, is_source, list_shape, misshapen, plain_shape};

use crate::role::Role;
use compact_term::{Operand, Plain, Reg};

// The registers that a function may name are x0 to x1022 and y0 to y1023.
const LAST_X: u32 = 1022;

const LAST_Y: u32 = 1023;

const LAST_NUMBER: u64 = 4_294_967_295;

/// Whether an operand may stand where the role is asked for. The atoms, imports, funs, literals and
/// labels that it names need not be there.
pub fn has_shape(role: Role, operand: &Operand) -> bool
    ensures { result ≡ has_shape role operand.now }
{
    match operand {
        Operand::One(plain) => has_plain_shape(role, plain),
        Operand::List(members) => has_list_shape(role, members.as_slice()),
        Operand::Alloc(amounts) => has_alloc_shape(role, amounts.as_slice()),
    }
}

/// The number of the first operand that may not stand where its role is asked for, counted from 1.
/// None is answered where each may.
pub fn misshapen(roles: &[Role], operands: &[Operand]) -> Option<u32>
    requires same { length roles.now ≡ length operands.now }
    requires few { length roles.now < 256 }
    ensures { result ≡ misshapen roles.now operands.now }
{
    for (i, role) in roles.iter().enumerate() {
        if !has_shape(*role, &operands[i]) {
            return Some(i as u32 + 1);
        }
    }
    None
}

fn has_plain_shape(role: Role, plain: &Plain) -> bool
    ensures { result ≡ plain_shape role plain.now }
{
    match role {
        Role::S => is_source(plain),
        Role::D => is_register(plain),
        Role::Y => is_slot(plain),
        Role::A => matches!(plain, Plain::A(_)),
        Role::N | Role::H => is_number_to(LAST_NUMBER, plain),
        Role::R => is_number_to(255, plain),
        Role::V => is_number_to(1023, plain),
        Role::Z => is_number_to(1024, plain),
        Role::M | Role::G => matches!(plain, Plain::U(_)),
        Role::F | Role::E => is_label(plain),
        Role::FOr0 => matches!(plain, Plain::F(_)),
        Role::Any => true,
        Role::Ls | Role::Ly | Role::Lm | Role::Lp => false,
    }
}

fn has_list_shape(role: Role, members: &[Plain]) -> bool
    ensures { result ≡ list_shape role members.now }
{
    match role {
        Role::Ls => are_bounded(members),
        Role::Ly => are_slots(members),
        Role::Lm => in_turn(Role::S, Role::D, members),
        Role::Lp => in_turn(Role::Any, Role::F, members),
        Role::Any => true,
        _ => false,
    }
}

fn has_alloc_shape(role: Role, amounts: &[(u64, u64)]) -> bool
    ensures { result ≡ alloc_shape role amounts.now }
{
    match role {
        Role::H => is_need(amounts),
        Role::Any => true,
        _ => false,
    }
}

// Whether the members are pairs, each of two that have the shapes of these roles.
fn in_turn(first: Role, second: Role, members: &[Plain]) -> bool
    ensures { result ≡ in_turn first second members.now }
{
    let mut members = members;
    while let [one, other, rest @ ..] = members {
        if !has_plain_shape(first, one) || !has_plain_shape(second, other) {
            return false;
        }
        members = rest;
    }
    members.is_empty()
}

fn are_bounded(members: &[Plain]) -> bool
    ensures { result ≡ list_all is_bounded members.now }
{
    members.iter().all(is_bounded)
}

fn are_slots(members: &[Plain]) -> bool
    ensures { result ≡ list_all is_slot members.now }
{
    members.iter().all(is_slot)
}

fn is_need(amounts: &[(u64, u64)]) -> bool
    ensures { result ≡ is_need amounts.now }
{
    are_amounts(amounts)
        && amounts_of(0, amounts) <= 1
        && amounts_of(1, amounts) <= 1
        && amounts_of(2, amounts) <= 1
}

fn are_amounts(amounts: &[(u64, u64)]) -> bool
    ensures { result ≡ list_all is_amount amounts.now }
{
    amounts
        .iter()
        .all(|(kind, amount)| *kind <= 2 && *amount <= LAST_NUMBER)
}

// How many amounts there are of a kind.
fn amounts_of(kind: u64, amounts: &[(u64, u64)]) -> usize
    ensures { result ≡ amounts_of kind amounts.now }
{
    amounts.iter().filter(|amount| amount.0 == kind).count()
}

fn is_source(plain: &Plain) -> bool
    ensures { result ≡ is_source plain.now }
{
    match plain {
        Plain::I(_) | Plain::Wide(_) | Plain::A(_) | Plain::H(_) | Plain::Lit(_) => true,
        Plain::X(_) | Plain::Y(_) | Plain::Typed(..) => is_register(plain),
        Plain::U(_) | Plain::F(_) | Plain::Fr(_) => false,
    }
}

// Whether it is a register that a function may name, or no register.
fn is_bounded(plain: &Plain) -> bool
    ensures { result ≡ is_bounded plain.now }
{
    match plain {
        Plain::X(_) | Plain::Y(_) | Plain::Typed(..) => is_register(plain),
        _ => true,
    }
}

fn is_register(plain: &Plain) -> bool
    ensures { result ≡ is_register plain.now }
{
    match plain {
        Plain::X(n) => *n <= LAST_X,
        Plain::Y(n) => *n <= LAST_Y,
        Plain::Typed(reg, _) => is_named(*reg),
        _ => false,
    }
}

fn is_named(reg: Reg) -> bool
    ensures { result ≡ is_named reg }
{
    match reg {
        Reg::X(n) => n <= LAST_X,
        Reg::Y(n) => n <= LAST_Y,
    }
}

fn is_slot(plain: &Plain) -> bool
    ensures { result ≡ is_slot plain.now }
{
    matches!(plain, Plain::Y(n) if *n <= LAST_Y)
}

fn is_number_to(greatest: u64, plain: &Plain) -> bool
    ensures { result ≡ is_number_to greatest plain.now }
{
    matches!(plain, Plain::U(n) if *n <= greatest)
}

fn is_label(plain: &Plain) -> bool
    ensures { result ≡ is_label plain.now }
{
    matches!(plain, Plain::F(n) if *n >= 1)
}
