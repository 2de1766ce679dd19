//! Comments behind instructions.

ghost use Rattle.std.specs.Prelude.{◌≡◌, ◌++◌, false, slice_get, IfOk, OnOk};
ghost use Rattle.std.specs.List.{flat_map};
ghost use Rattle.listing_out.specs.Comments.{any_behind, called, instruction_items, is_import, is_import_place, item_of, items_from, items_text, lead, operand_items};

use crate::names::Names;
use bk_base::{Bytes, NoMemory};
use compact_term::{Operand, Plain};
use op_table::{Instr, OpRow, Role, op_row};

// Whether the operand at this place, counted from 0, is the number of an import.
fn is_import_place(op: u8, place: usize) -> bool
    ensures { result ≡ is_import_place op place }
{
    match op_row(op) {
        Some(row) => is_import_of(row, place),
        None => false,
    }
}

/// Whether the operand at this place, counted from 0, is the number of an import in an instruction of
/// this row.
pub(crate) fn is_import_of(row: &OpRow, place: usize) -> bool
    ensures { result ≡ is_import (slice_get row.now.roles.now place) }
{
    matches!(row.roles.get(place), Some(Role::M))
}

/// Puts the comment of an instruction at the end: what the atoms and imports in its operands are
/// called, in their order, and nothing where there are none.
pub(crate) fn put_comment(out: &mut Bytes, names: &Names, instr: &Instr) -> Result<(), NoMemory>
    ensures { OnOk result (out.new.items ≡ out.old.items ++ items_text false (instruction_items names.now instr.now)) }
{
    let mut any = false;
    for (place, operand) in instr.operands().as_slice().iter().enumerate() {
        let is_import = is_import_place(instr.op(), place);
        any = put_items(out, names, is_import, operand, any)?;
    }
    Ok(())
}

/// Puts the items of an operand at the end, and tells whether any item stands there then; `any` tells whether one
/// stood there before.
pub(crate) fn put_items(
    out: &mut Bytes,
    names: &Names,
    is_import: bool,
    operand: &Operand,
    any: bool,
) -> Result<bool, NoMemory>
    ensures text { OnOk result (out.new.items ≡ out.old.items ++ items_text any (operand_items names.now is_import operand.now)) }
    ensures any { IfOk result (λ r. r ≡ any_behind any (operand_items names.now is_import operand.now)) }
{
    match operand {
        Operand::One(plain) => put_item(out, names, is_import, plain, any),
        Operand::List(members) => put_members(out, names, members.as_slice(), any),
        Operand::Alloc(_) => Ok(any),
    }
}

fn put_members(
    out: &mut Bytes,
    names: &Names,
    members: &[Plain],
    any: bool,
) -> Result<bool, NoMemory>
    ensures text { OnOk result (out.new.items ≡ out.old.items ++ items_text any (flat_map (λ plain. item_of (called names.now false plain)) members.now)) }
    ensures any { IfOk result (λ r. r ≡ any_behind any (flat_map (λ plain. item_of (called names.now false plain)) members.now)) }
{
    let mut some = any;
    for plain in members {
        some = put_item(out, names, false, plain, some)?;
    }
    Ok(some)
}

fn put_item(
    out: &mut Bytes,
    names: &Names,
    is_import: bool,
    plain: &Plain,
    any: bool,
) -> Result<bool, NoMemory>
    ensures text { OnOk result (out.new.items ≡ out.old.items ++ items_text any (item_of (called names.now is_import plain.now))) }
    ensures any { IfOk result (λ r. r ≡ any_behind any (item_of (called names.now is_import plain.now))) }
{
    match names.called(is_import, plain) {
        Some(name) => {
            put_lead(out, any)?;
            out.extend(name.as_slice())?;
            Ok(true)
        }
        None => Ok(any),
    }
}

// Puts what stands before an item: the mark of a comment, or a space behind another item.
fn put_lead(out: &mut Bytes, any: bool) -> Result<(), NoMemory>
    ensures { OnOk result (out.new.items ≡ out.old.items ++ lead any) }
{
    if any {
        return out.push(b' ');
    }
    out.extend(b"  ; ")
}
