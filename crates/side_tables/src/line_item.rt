//! The items of a table of lines.

ghost use Rattle.std.specs.Prelude.{◌≡◌, ◌+◌, ◌<◌, ◌≤◌, length, OnOk};
ghost use Rattle.bk_codec.specs.Reading.{Gives};
ghost use Rattle.side_tables.specs.LineReading.{operand_in, item_of, item_at};
ghost use Rattle.side_tables.specs.declared.refusal.SideRefusal.TheVariants as refusals;

use crate::refusal::SideRefusal;
use bk_base::Cursor;
use compact_term::{Operand, OperandRefusal, Plain, read_operand};
use std::alloc::Global;
use std::marker::Model;

/// An item of a table of lines.
#[derive(Clone, Copy)]
pub(crate) enum Item {
    /// A line in the current file.
    Line(i128),
    /// A switch to another file.
    File(u32),
}

/// A reader of items, which counts them from 0.
///
/// Contracts see the bytes that are left and the number of the next item.
#[derive(Drop)]
pub(crate) struct ItemReader<'a> {
    cur: Cursor<'a>,
    item: usize,
}

impl<'a> Model for ItemReader<'a> {
    ghost use Rattle.std.specs.Prelude.{◌+◌, ◌^◌, ◌<◌, length};
    ghost use Rattle.side_tables.specs.LineReading.{ItemPlace};

    ghost Value = { ItemPlace };

    ghost view = { λ r. record { rest = r.cur.rest; item = r.item } };

    ghost invariant = { λ r. r.item + length r.cur.rest < 2 ^ 64 };
}

impl<'a> ItemReader<'a> {
    /// A reader at the front of the bytes.
    pub(crate) fn new(s: &'a [u8]) -> ItemReader<'a>
        ensures rest { result.rest ≡ s.now }
        ensures item { result.item ≡ 0 }
    {
        ItemReader {
            cur: Cursor::new(s),
            item: 0,
        }
    }

    /// The bytes that are left.
    pub(crate) fn rest(&self) -> &'a [u8]
        ensures { result.now ≡ self.now.rest }
    {
        self.cur.rest()
    }

    /// The next item, where so many file names are stated. After a refusal the reader may have moved.
    #[tactic(auto, unfolding(crate::specs::LineReading::item_at))]
    pub(crate) fn next(&mut self, alloc: Global, files: u32) -> Result<Item, SideRefusal>
        ensures read { Gives refusals.NoMemory (λ i. i) self.new.rest result
            (item_at files self.old.item self.old.rest) }
        ensures counted { OnOk result (self.new.item ≡ self.old.item + 1) }
        ensures shorter { OnOk result (length self.new.rest < length self.old.rest) }
    {
        let operand = operand(alloc, &mut self.cur, self.item)?;
        let item = item_from(&operand, self.item, files)?;
        self.item += 1;
        Ok(item)
    }
}

// The operand that is item `item`.
fn operand(alloc: Global, cur: &mut Cursor<'_>, item: usize) -> Result<Operand, SideRefusal>
    ensures read { Gives refusals.NoMemory (λ o. o) cur.new.rest result (operand_in item cur.old.rest) }
    ensures shorter { OnOk result (length cur.new.rest < length cur.old.rest) }
    ensures no_longer { length cur.new.rest ≤ length cur.old.rest }
{
    match read_operand(alloc, cur) {
        Ok(operand) => Ok(operand),
        Err(OperandRefusal::NoMemory) => Err(SideRefusal::NoMemory),
        Err(OperandRefusal::Cut) => Err(SideRefusal::Cut),
        Err(_) => Err(SideRefusal::ItemTag { item }),
    }
}

// What an operand is as item `item`.
fn item_from(operand: &Operand, item: usize, files: u32) -> Result<Item, SideRefusal>
    ensures { result ≡ item_of files item operand.now }
{
    match operand {
        Operand::One(Plain::I(line)) if line.value() >= 0 => Ok(Item::Line(line.value())),
        Operand::One(Plain::A(file)) if *file > files => Err(SideRefusal::FileIndex { item }),
        Operand::One(Plain::A(file)) => Ok(Item::File(*file)),
        _ => Err(SideRefusal::ItemTag { item }),
    }
}
