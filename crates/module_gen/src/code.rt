//! The code of a generated module.

ghost use Rattle.std.specs.Prelude.{◌≡◌, ◌∷◌, ◌++◌, [], ◌<◌, ◌≤◌, Some, IfOk, OnOk};
ghost use Rattle.op_table.specs.Table.{arity_of};
ghost use Rattle.module_gen.specs.Code.{callee, code_of, function_of, functions_of, instr, instrs_of};
ghost use Rattle.module_gen.specs.Generated.{most_functions};

use bk_base::{ByteList, NoMemory};
use code_chunk::{CodeVal, InstrList};
use compact_term::{Operand, Plain};
use op_table::{Instr, OperandList};
use std::alloc::Global;

const LABEL: u8 = 1;

const FUNC_INFO: u8 = 2;

const INT_CODE_END: u8 = 3;

const CALL: u8 = 4;

const ALLOCATE: u8 = 12;

const TEST_HEAP: u8 = 16;

const DEALLOCATE: u8 = 18;

const RETURN: u8 = 19;

const IS_NONEMPTY_LIST: u8 = 56;

const JUMP: u8 = 61;

const MOVE: u8 = 64;

const PUT_LIST: u8 = 69;

const GET_TL: u8 = 163;

/// The code of so many functions, of which each walks the list that it is given, and calls the next
/// one for each item with what is behind it; the last one calls the first.
pub fn code_of(alloc: Global, functions: u32) -> Result<CodeVal, NoMemory>
    requires { functions ≤ most_functions }
    ensures { IfOk result (λ code. code ≡ code_of functions) }
{
    Ok(CodeVal {
        extra: ByteList::new(alloc),
        max_op: u32::from(GET_TL),
        labels: 4 * functions + 1,
        functions,
        instrs: instrs_of(alloc, functions)?,
    })
}

fn instrs_of(alloc: Global, functions: u32) -> Result<InstrList, NoMemory>
    requires { functions ≤ most_functions }
    ensures { IfOk result (λ instrs. instrs ≡ instrs_of functions) }
{
    let mut instrs = InstrList::new(alloc);
    for i in 0..functions {
        put_function(alloc, &mut instrs, functions, i)?;
    }
    instrs.push(none(alloc, INT_CODE_END))?;
    Ok(instrs)
}

// The function that function `i` calls.
fn callee(functions: u32, i: u32) -> u32
    requires { i < most_functions }
    ensures { result ≡ callee functions i }
{
    if i + 1 == functions { 0 } else { i + 1 }
}

// Puts function `i` of so many at the end.
fn put_function(alloc: Global, out: &mut InstrList, functions: u32, i: u32) -> Result<(), NoMemory>
    requires { i < most_functions }
    ensures { OnOk result (out.new ≡ out.old ++ function_of functions i) }
{
    let label = 4 * i + 1;
    let entry = 4 * i + 2;
    let next = 4 * i + 3;
    let end = 4 * i + 4;
    let callee = 4 * callee(functions, i) + 2;
    out.push(one(alloc, LABEL, Plain::U(u64::from(label)))?)?;
    out.push(three(alloc, FUNC_INFO, Plain::A(1), Plain::A(i + 2), Plain::U(1))?)?;
    out.push(one(alloc, LABEL, Plain::U(u64::from(entry)))?)?;
    out.push(two(alloc, ALLOCATE, Plain::U(1), Plain::U(1))?)?;
    out.push(two(alloc, MOVE, Plain::X(0), Plain::Y(0))?)?;
    out.push(one(alloc, LABEL, Plain::U(u64::from(next)))?)?;
    out.push(two(alloc, IS_NONEMPTY_LIST, Plain::F(end), Plain::Y(0))?)?;
    out.push(two(alloc, GET_TL, Plain::Y(0), Plain::Y(0))?)?;
    out.push(two(alloc, MOVE, Plain::Y(0), Plain::X(0))?)?;
    out.push(two(alloc, CALL, Plain::U(1), Plain::F(callee))?)?;
    out.push(one(alloc, JUMP, Plain::F(next))?)?;
    out.push(one(alloc, LABEL, Plain::U(u64::from(end)))?)?;
    out.push(two(alloc, TEST_HEAP, Plain::U(2), Plain::U(0))?)?;
    out.push(three(alloc, PUT_LIST, Plain::Y(0), Plain::A(0), Plain::X(0))?)?;
    out.push(one(alloc, DEALLOCATE, Plain::U(1))?)?;
    out.push(none(alloc, RETURN))?;
    Ok(())
}

// The instruction of an opcode without operands.
fn none(alloc: Global, op: u8) -> Instr
    requires { arity_of op ≡ Some 0 }
    ensures { result ≡ instr op [] }
{
    Instr::new(op, OperandList::new(alloc))
}

// The instruction of an opcode with one operand.
fn one(alloc: Global, op: u8, a: Plain) -> Result<Instr, NoMemory>
    requires { arity_of op ≡ Some 1 }
    ensures { IfOk result (λ i. i ≡ instr op (a ∷ [])) }
{
    let mut operands = OperandList::new(alloc);
    operands.push(Operand::One(a))?;
    Ok(Instr::new(op, operands))
}

// The instruction of an opcode with two operands.
fn two(alloc: Global, op: u8, a: Plain, b: Plain) -> Result<Instr, NoMemory>
    requires { arity_of op ≡ Some 2 }
    ensures { IfOk result (λ i. i ≡ instr op (a ∷ b ∷ [])) }
{
    let mut operands = OperandList::new(alloc);
    operands.push(Operand::One(a))?;
    operands.push(Operand::One(b))?;
    Ok(Instr::new(op, operands))
}

// The instruction of an opcode with three operands.
fn three(alloc: Global, op: u8, a: Plain, b: Plain, c: Plain) -> Result<Instr, NoMemory>
    requires { arity_of op ≡ Some 3 }
    ensures { IfOk result (λ i. i ≡ instr op (a ∷ b ∷ c ∷ [])) }
{
    let mut operands = OperandList::new(alloc);
    operands.push(Operand::One(a))?;
    operands.push(Operand::One(b))?;
    operands.push(Operand::One(c))?;
    Ok(Instr::new(op, operands))
}
