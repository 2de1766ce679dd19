use super::*;
use compact_term::{Operand, PairList, Plain, PlainList, Reg};
use std::alloc::Global;
use std::test::Fail;

// An opcode, with its name and the number of its operands.
const ROWS: [(u8, &str, u8); 8] = [
    (1, "label", 1),
    (3, "int_code_end", 0),
    (64, "move", 2),
    (94, "fclearerror", 0),
    (134, "bs_append", 8),
    (153, "line", 1),
    (177, "bs_create_bin", 6),
    (182, "bs_match", 3),
];

#[test]
fn opcodes_have_rows(rt: HostRuntime) -> Result<(), Fail> {
    for (op, name, arity) in ROWS {
        let row = op_row(op).ok_or("no row")?;
        assert_eq!(rt; (row.op, row.name, row.arity), (op, name, arity));
    }
    assert!(rt; op_row(0).is_none() && op_row(183).is_none() && op_row(255).is_none());
    assert_eq!(rt; op_row(64).ok_or("no row")?.profile, Profile::Typed);
    assert_eq!(rt; op_row(117).ok_or("no row")?.profile, Profile::Later);
    assert_eq!(rt; op_row(98).ok_or("no row")?.profile, Profile::Out);
    Ok(())
}

#[test]
fn rows_have_roles(rt: HostRuntime) -> Result<(), Fail> {
    for row in (1..=182).filter_map(op_row) {
        let roles = if row.profile == Profile::Typed {
            usize::from(row.arity)
        } else {
            0
        };
        assert_eq!(rt; row.roles.len(), roles);
    }
    let allocates = op_row(13).ok_or("no row")?;
    assert!(rt; matches!(allocates.roles, [Role::Z, Role::H, Role::V]));
    let selects = op_row(59).ok_or("no row")?;
    assert!(rt; matches!(selects.roles, [Role::S, Role::FOr0, Role::Lp]));
    Ok(())
}

#[test]
fn names_have_rows(rt: HostRuntime) -> Result<(), Fail> {
    for (op, name, arity) in ROWS {
        let row = op_by_name(name.as_bytes()).ok_or("no row")?;
        assert_eq!(rt; (row.op, row.name, row.arity), (op, name, arity));
    }
    for name in ["", "Move", "mov", "moves", "int_code_end "] {
        assert!(rt; op_by_name(name.as_bytes()).is_none());
    }
    Ok(())
}

#[test]
#[tactic(auto, unfolding(crate::specs::Table::table))]
fn instructions_hold_their_operands(rt: HostRuntime) -> Result<(), Fail> {
    let mut operands = OperandList::new(rt.alloc());
    assert!(rt; operands.is_empty());
    operands.push(Operand::One(Plain::X(0)))?;
    operands.push(Operand::One(Plain::X(1)))?;
    assert!(rt; operands.len() == 2 && operands.get(2).is_none());
    let instr = Instr::new(64, operands);
    assert_eq!(rt; instr.op(), 64);
    assert!(rt; matches!(instr.operands().get(1), Some(Operand::One(Plain::X(1)))));
    assert_eq!(rt; instr.operands().as_slice().len(), 2);
    Ok(())
}

#[test]
fn operands_have_shapes(rt: HostRuntime) -> Result<(), Fail> {
    // a role, an operand, and whether it may stand there
    let shapes = [
        (Role::S, Plain::X(1022), true),
        (Role::S, Plain::X(1023), false),
        (Role::S, Plain::Y(1023), true),
        (Role::S, Plain::Y(1024), false),
        (Role::S, Plain::Typed(Reg::X(1022), 7), true),
        (Role::S, Plain::Typed(Reg::Y(1024), 7), false),
        (Role::S, Plain::A(0), true),
        (Role::S, Plain::H(65), true),
        (Role::S, Plain::Lit(0), true),
        (Role::S, Plain::U(0), false),
        (Role::S, Plain::F(1), false),
        (Role::S, Plain::Fr(0), false),
        (Role::D, Plain::X(1022), true),
        (Role::D, Plain::X(1023), false),
        (Role::D, Plain::Typed(Reg::Y(1023), 0), true),
        (Role::D, Plain::A(1), false),
        (Role::Y, Plain::Y(1023), true),
        (Role::Y, Plain::Y(1024), false),
        (Role::Y, Plain::Typed(Reg::Y(0), 0), false),
        (Role::Y, Plain::X(0), false),
        (Role::A, Plain::A(0), true),
        (Role::A, Plain::U(0), false),
        (Role::N, Plain::U(4_294_967_295), true),
        (Role::N, Plain::U(4_294_967_296), false),
        (Role::R, Plain::U(255), true),
        (Role::R, Plain::U(256), false),
        (Role::V, Plain::U(1023), true),
        (Role::V, Plain::U(1024), false),
        (Role::Z, Plain::U(1024), true),
        (Role::Z, Plain::U(1025), false),
        (Role::H, Plain::U(4_294_967_295), true),
        (Role::H, Plain::U(4_294_967_296), false),
        (Role::M, Plain::U(4_294_967_296), true),
        (Role::G, Plain::U(4_294_967_296), true),
        (Role::G, Plain::A(0), false),
        (Role::F, Plain::F(0), false),
        (Role::F, Plain::F(1), true),
        (Role::FOr0, Plain::F(0), true),
        (Role::FOr0, Plain::U(0), false),
        (Role::E, Plain::F(0), false),
        (Role::E, Plain::F(1), true),
        (Role::Any, Plain::Fr(0), true),
        (Role::Ls, Plain::X(0), false),
    ];
    for (role, plain, may) in shapes {
        assert_eq!(rt; has_shape(role, &Operand::One(plain)), may);
    }
    Ok(())
}

fn list_of(alloc: Global, members: [Plain; 2]) -> Result<Operand, Fail> {
    let mut list = PlainList::new(alloc);
    for member in members {
        list.push(member)?;
    }
    Ok(Operand::List(list))
}

#[test]
fn lists_have_shapes(rt: HostRuntime) -> Result<(), Fail> {
    let shapes = [
        (Role::Ls, [Plain::U(7), Plain::X(1022)], true),
        (
            Role::Ls,
            [Plain::F(0), Plain::Typed(Reg::X(1023), 0)],
            false,
        ),
        (Role::Ly, [Plain::Y(1023), Plain::Y(0)], true),
        (Role::Ly, [Plain::Y(0), Plain::X(0)], false),
        (Role::Lm, [Plain::A(1), Plain::X(0)], true),
        (Role::Lm, [Plain::X(0), Plain::A(1)], false),
        (Role::Lm, [Plain::U(1), Plain::X(0)], false),
        (Role::Lp, [Plain::X(1023), Plain::F(1)], true),
        (Role::Lp, [Plain::A(1), Plain::F(0)], false),
        (Role::Any, [Plain::F(0), Plain::X(1023)], true),
        (Role::S, [Plain::X(0), Plain::X(0)], false),
        (Role::H, [Plain::U(0), Plain::U(0)], false),
    ];
    for (role, members, may) in shapes {
        assert_eq!(rt; has_shape(role, &list_of(rt.alloc(), members)?), may);
    }
    let mut lone = PlainList::new(rt.alloc());
    lone.push(Plain::X(0))?;
    let lone = Operand::List(lone);
    assert!(rt; has_shape(Role::Ls, &lone) && !has_shape(Role::Lm, &lone));
    Ok(())
}

// Amounts of words, floats and funs, and whether they may stand where the heap that is needed does.
const AMOUNTS: [(&[(u64, u64)], bool); 6] = [
    (&[], true),
    (&[(2, 1), (0, 4_294_967_295), (1, 0)], true),
    (&[(0, 4_294_967_296)], false),
    (&[(3, 0)], false),
    (&[(1, 0), (0, 1), (1, 0)], false),
    (&[(2, 1), (2, 2)], false),
];

#[test]
fn amounts_have_shapes(rt: HostRuntime) -> Result<(), Fail> {
    for (amounts, may) in AMOUNTS {
        let mut pairs = PairList::new(rt.alloc());
        for pair in amounts {
            pairs.push(*pair)?;
        }
        let operand = Operand::Alloc(pairs);
        assert_eq!(rt; has_shape(Role::H, &operand), may);
        assert!(rt; has_shape(Role::Any, &operand) && !has_shape(Role::Z, &operand));
    }
    Ok(())
}

#[test]
fn the_first_operand_without_its_shape_is_found(rt: HostRuntime) -> Result<(), Fail> {
    let roles = [Role::Z, Role::V];
    let fits = [Operand::One(Plain::U(1024)), Operand::One(Plain::U(1023))];
    assert_eq!(rt; misshapen(&roles, &fits), None);
    let second = [Operand::One(Plain::U(1024)), Operand::One(Plain::U(1024))];
    assert_eq!(rt; misshapen(&roles, &second), Some(2));
    let both = [Operand::One(Plain::X(0)), Operand::One(Plain::X(0))];
    assert_eq!(rt; misshapen(&roles, &both), Some(1));
    assert_eq!(rt; misshapen(&[], &[]), None);
    Ok(())
}
