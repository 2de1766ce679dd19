//! What numbers and labels in operands name: atoms, literals, imports, funs, labels of the function,
//! entries of functions.

ghost use Rattle.std.specs.Prelude.{◌≡◌, Some};
ghost use Rattle.std.specs.List.{list_all};
ghost use Rattle.op_table.specs.Planned.{fails_in, label_of, value_labels};
ghost use Rattle.code_faults.specs.Naming.{is_entry_in, is_indexed, is_literal, is_named, is_number_in, is_own, is_target, names_entries, names_own, names_target};

use beam_module::Module;
use compact_term::{Operand, Plain};
use func_split::Function;
use op_table::{Role, label_in, members_in};

// Packed literals do not tell how many they are, and any number may be one of theirs.
fn is_literal(m: &Module<'_>, number: u64) -> bool
    ensures { result ≡ is_literal m.now.literals number }
{
    match m.literals() {
        Some(count) => number < count as u64,
        None => true,
    }
}

// Whether the atom or the literal is one of the module. Any other operand names none.
fn is_named(m: &Module<'_>, plain: &Plain) -> bool
    ensures { result ≡ is_named m.now plain.now }
{
    match plain {
        Plain::A(number) => *number as usize <= m.atoms().len(),
        Plain::Lit(number) => is_literal(m, *number),
        _ => true,
    }
}

fn are_named(m: &Module<'_>, members: &[Plain]) -> bool
    ensures { result ≡ list_all (is_named m.now) members.now }
{
    members.iter().all(|member| is_named(m, member))
}

// Whether the number is below the count.
fn is_number_in(count: usize, plain: &Plain) -> bool
    ensures { result ≡ is_number_in count plain.now }
{
    match plain {
        Plain::U(number) => *number < count as u64,
        _ => true,
    }
}

// Whether the number of an import or of a fun is one of the module.
fn is_entry_in(m: &Module<'_>, role: Role, plain: &Plain) -> bool
    ensures { result ≡ is_entry_in m.now role plain.now }
{
    match role {
        Role::M => is_number_in(m.imports().len(), plain),
        Role::G => is_number_in(m.funs().len(), plain),
        _ => true,
    }
}

fn names_entries(m: &Module<'_>, role: Role, operand: &Operand) -> bool
    ensures { result ≡ names_entries m.now role operand.now }
{
    match operand {
        Operand::One(plain) => is_named(m, plain) && is_entry_in(m, role, plain),
        Operand::List(members) => are_named(m, members.as_slice()),
        Operand::Alloc(_) => true,
    }
}

/// Whether the module has what the operand names in its tables. What stands where any operand may is
/// not looked at.
pub(crate) fn is_indexed(m: &Module<'_>, role: Role, operand: &Operand) -> bool
    ensures { result ≡ is_indexed m.now role operand.now }
{
    match role {
        Role::Any => true,
        _ => names_entries(m, role, operand),
    }
}

// Whether the label stands in the function.
fn is_own(f: &Function<'_>, label: u32) -> bool
    ensures { result ≡ is_own f.now label }
{
    f.place_of(label).is_some()
}

// Label 0 is none, and need not stand in the function.
fn is_own_or_none(f: &Function<'_>, operand: &Operand) -> bool
    ensures { result ≡ list_all (is_own f.now) (fails_in (Some operand.now)) }
{
    match operand {
        Operand::One(Plain::F(label)) => *label == 0 || is_own(f, *label),
        _ => true,
    }
}

// Whether the label that a member is stands in the function. One that is none says 0.
fn is_own_member(f: &Function<'_>, member: &Plain) -> bool
    ensures { result ≡ is_own f.now (label_of member.now) }
{
    match member {
        Plain::F(label) => is_own(f, *label),
        _ => is_own(f, 0),
    }
}

// Whether the labels of second members of pairs stand in the function.
fn are_own(f: &Function<'_>, mut members: &[Plain]) -> bool
    ensures { result ≡ list_all (is_own f.now) (value_labels members.now) }
{
    while let [_key, value, rest @ ..] = members {
        if !is_own_member(f, value) {
            return false;
        }
        members = rest;
    }
    true
}

/// Whether the labels of the operand that are to be ones of the function stand in it.
pub(crate) fn names_own(f: &Function<'_>, role: Role, operand: &Operand) -> bool
    ensures { result ≡ names_own f.now role operand.now }
{
    match role {
        Role::F => is_own(f, label_in(Some(operand))),
        Role::FOr0 => is_own_or_none(f, operand),
        Role::Lp => are_own(f, members_in(Some(operand))),
        _ => true,
    }
}

// Whether a function of this arity is entered at the label.
fn is_target(m: &Module<'_>, label: u32, arity: u64) -> bool
    ensures { result ≡ is_target m.now label arity }
{
    match m.entry_of(label) {
        Some(own) => u64::from(own) == arity,
        None => false,
    }
}

/// Whether a call with so many arguments finds a function, if the operand is one that is called.
pub(crate) fn names_target(m: &Module<'_>, arity: u64, role: Role, operand: &Operand) -> bool
    ensures { result ≡ names_target m.now arity role operand.now }
{
    match role {
        Role::E => is_target(m, label_in(Some(operand)), arity),
        _ => true,
    }
}
