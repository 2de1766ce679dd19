//! The text of a report.

ghost use Rattle.std.specs.Prelude.{◌≡◌, ◌++◌, All, IfOk, OnOk};
ghost use Rattle.std.specs.List.{flat_map};
ghost use Rattle.index_tables.specs.Atoms.{atom_called};
ghost use Rattle.op_table.specs.Table.{row_name, row_with};
ghost use Rattle.operand_text.specs.Operand.{register_text};
ghost use Rattle.validator.specs.Reported.{IsIn};
ghost use Rattle.validator.specs.Text.{fault_line, function_text, line_with, name_or_number, reason_text, report_text, verdict_line};

use crate::validating::Report;
use beam_module::Module;
use bk_base::{Bytes, NoMemory};
use bk_text::put_marked;
use compact_term::Reg;
use ext_term::name_text;
use flow_rules::{Fault, Reason};
use func_split::Function;
use index_tables::{Atoms, atom_name};
use op_table::Instr;
use operand_text::put_register;
use std::alloc::Global;

// Puts the name of the atom with this number at the end, or the number where no atom has it.
fn put_name(out: &mut Bytes, atoms: &Atoms, number: u32) -> Result<(), NoMemory>
    ensures { OnOk result (out.new.items ≡ out.old.items ++ name_or_number number (atom_called atoms.now number)) }
{
    match atom_name(atoms, number) {
        Some(name) => name_text(name.as_bytes(), out),
        None => put_marked(out, b"a", number),
    }
}

fn put_function(out: &mut Bytes, m: &Module<'_>, f: &Function<'_>) -> Result<(), NoMemory>
    ensures { OnOk result (out.new.items ≡ out.old.items ++ function_text m.now.atoms f.now) }
{
    put_name(out, m.atoms(), f.name())?;
    put_marked(out, b"/", f.arity())
}

// Puts words and a register at the end.
fn put_with_register(out: &mut Bytes, words: &[u8], register: Reg) -> Result<(), NoMemory>
    ensures { OnOk result (out.new.items ≡ out.old.items ++ words.now ++ register_text register) }
{
    out.extend(words)?;
    put_register(out, register)
}

/// Puts a reason in words at the end.
pub(crate) fn put_reason(out: &mut Bytes, reason: Reason) -> Result<(), NoMemory>
    ensures { OnOk result (out.new.items ≡ out.old.items ++ reason_text reason) }
{
    match reason {
        Reason::Unset(register) => put_with_register(out, b"unset ", register),
        Reason::Slot(register) => put_with_register(out, b"slot ", register),
        Reason::NoFrame => out.extend(b"no frame"),
        Reason::FrameOpen => out.extend(b"frame open"),
        Reason::FrameSize => out.extend(b"frame size"),
        Reason::OpenTag(register) => put_with_register(out, b"open tag ", register),
        Reason::Heap => out.extend(b"heap"),
        Reason::Order(register) => put_with_register(out, b"order ", register),
        Reason::Innermost(register) => put_with_register(out, b"innermost ", register),
        Reason::Clash => out.extend(b"clash"),
        Reason::Leave => out.extend(b"leave"),
        Reason::Unsupported => out.extend(b"unsupported"),
        Reason::Operand(k) => put_marked(out, b"operand ", k),
        Reason::Index(k) => put_marked(out, b"index ", k),
        Reason::Label(k) => put_marked(out, b"label ", k),
        Reason::Target(k) => put_marked(out, b"target ", k),
    }
}

// Puts the line of a fault of an instruction of a function at the end.
fn put_line(
    out: &mut Bytes,
    m: &Module<'_>,
    f: &Function<'_>,
    instr: &Instr,
    fault: &Fault,
) -> Result<(), NoMemory>
    ensures { OnOk result (out.new.items ≡ out.old.items ++ line_with m.now.atoms f.now (row_name (row_with instr.now.op)) fault.now) }
{
    put_function(out, m, f)?;
    put_marked(out, b" ", fault.place)?;
    out.push(b' ')?;
    out.extend(instr.name().as_bytes())?;
    out.extend(b": ")?;
    put_reason(out, fault.reason)?;
    out.push(b'\n')
}

// Puts the line of a fault at the end.
fn put_fault(out: &mut Bytes, m: &Module<'_>, fault: &Fault) -> Result<(), NoMemory>
    requires { IsIn m.now fault.now }
    ensures { OnOk result (out.new.items ≡ out.old.items ++ fault_line m.now fault.now) }
{
    let f = m.function(fault.function as usize).unwrap();
    let place = fault.place as usize - f.first();
    put_line(out, m, &f, &f.instrs()[place], fault)
}

fn put_faults(out: &mut Bytes, m: &Module<'_>, faults: &[Fault]) -> Result<(), NoMemory>
    requires { All (IsIn m.now) faults.now }
    ensures { OnOk result (out.new.items ≡ out.old.items ++ flat_map (fault_line m.now) faults.now) }
{
    'faults: for fault in faults {
        put_fault(out, m, fault)?;
    }
    Ok(())
}

fn put_verdict(out: &mut Bytes, report: &Report) -> Result<(), NoMemory>
    ensures { OnOk result (out.new.items ≡ out.old.items ++ verdict_line report.now) }
{
    if report.is_empty() {
        return out.extend(b"accepted\n");
    }
    put_marked(out, b"refused ", report.len())?;
    out.push(b'\n')
}

/// The text of a report: a line `NAME/ARITY PLACE OPCODE: REASON` for each fault, its place counted over
/// the whole code from 0, and then a line `refused N` with the count of the faults, or `accepted` where
/// there are none. A name whose number no atom has is `a` and the number.
///
/// It is refused for want of memory alone.
pub fn report_text(alloc: Global, m: &Module<'_>, report: &Report) -> Result<Bytes, NoMemory>
    requires { All (IsIn m.now) report.now }
    ensures { IfOk result (λ out. out.items ≡ report_text m.now report.now) }
{
    let mut out = Bytes::new(alloc);
    put_faults(&mut out, m, report.as_slice())?;
    put_verdict(&mut out, report)?;
    Ok(out)
}
