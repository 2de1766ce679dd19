//! What operands say: numbers, registers, labels and members. An operand of another kind, or none,
//! says 0, x0 or no members.

ghost use Rattle.std.specs.Prelude.{◌≡◌, ◌==◌, option_copied};
ghost use Rattle.std.specs.List.{find};
ghost use Rattle.op_table.specs.Planned.{operand_at, register_of, register_in, source_of, source_in, number_in, slot_in, label_of, label_in, members_in, amount_of, words_in, funs_in};

use crate::action::Src;
use compact_term::{Operand, Plain, Reg};

// The kinds of amounts in a heap need.
const WORDS: u64 = 0;

const FUNS: u64 = 2;

/// Operand `k`, counted from 1, and 0 says the first too. None exactly where there are not so many.
pub fn operand_at(operands: &[Operand], k: u8) -> Option<&Operand>
    ensures { option_copied result ≡ operand_at operands.now k }
{
    operands.get(usize::from(k.saturating_sub(1)))
}

/// The register of an operand, with or without a type. None exactly where it is no register.
pub fn register_of(plain: &Plain) -> Option<Reg>
    ensures { result ≡ register_of plain.now }
{
    match plain {
        Plain::X(n) => Some(Reg::X(*n)),
        Plain::Y(n) => Some(Reg::Y(*n)),
        Plain::Typed(reg, _) => Some(*reg),
        _ => None,
    }
}

/// The register of an operand, or x0 where it is none.
pub(crate) fn register_in(operand: Option<&Operand>) -> Reg
    ensures { result ≡ register_in (option_copied operand.entry) }
{
    match operand {
        Some(Operand::One(plain)) => register_of(plain).unwrap_or(Reg::X(0)),
        _ => Reg::X(0),
    }
}

/// Where the value of an operand is read: in its register, or in the instruction itself.
pub(crate) fn source_of(plain: &Plain) -> Src
    ensures { result ≡ source_of plain.now }
{
    match register_of(plain) {
        Some(reg) => Src::Reg(reg),
        None => Src::Const,
    }
}

/// Where the value of an operand is read, as `source_of` says. A list or no operand is a constant.
pub(crate) fn source_in(operand: Option<&Operand>) -> Src
    ensures { result ≡ source_in (option_copied operand.entry) }
{
    match operand {
        Some(Operand::One(plain)) => source_of(plain),
        _ => Src::Const,
    }
}

/// The number of an operand, or 0 where it is none.
pub fn number_in(operand: Option<&Operand>) -> u64
    ensures { result ≡ number_in (option_copied operand.entry) }
{
    match operand {
        Some(Operand::One(Plain::U(n))) => *n,
        _ => 0,
    }
}

/// The slot of an operand, or 0 where it is none.
pub(crate) fn slot_in(operand: Option<&Operand>) -> u32
    ensures { result ≡ slot_in (option_copied operand.entry) }
{
    match operand {
        Some(Operand::One(Plain::Y(n))) => *n,
        _ => 0,
    }
}

/// The label of an operand that holds no others, or 0 where it is none.
pub(crate) fn label_of(plain: &Plain) -> u32
    ensures { result ≡ label_of plain.now }
{
    match plain {
        Plain::F(n) => *n,
        _ => 0,
    }
}

/// The label of an operand, or 0 where it is none.
pub fn label_in(operand: Option<&Operand>) -> u32
    ensures { result ≡ label_in (option_copied operand.entry) }
{
    match operand {
        Some(Operand::One(plain)) => label_of(plain),
        _ => 0,
    }
}

/// The members of a list, in order, or none where the operand is no list.
pub fn members_in(operand: Option<&Operand>) -> &[Plain]
    ensures { result.now ≡ members_in (option_copied operand.entry) }
{
    match operand {
        Some(Operand::List(members)) => members.as_slice(),
        _ => &[],
    }
}

fn pair_of(kind: u64, pairs: &[(u64, u64)]) -> Option<&(u64, u64)>
    ensures { option_copied result ≡ find (λ pair. pair.0 == kind) pairs.now }
{
    pairs.iter().find(|pair| pair.0 == kind)
}

// The first amount of a kind, or 0.
fn amount_of(kind: u64, pairs: &[(u64, u64)]) -> u64
    ensures { result ≡ amount_of kind pairs.now }
{
    match pair_of(kind, pairs) {
        Some((_, amount)) => *amount,
        None => 0,
    }
}

/// How many words a heap need asks for. A number alone is words.
pub(crate) fn words_in(operand: Option<&Operand>) -> u64
    ensures { result ≡ words_in (option_copied operand.entry) }
{
    match operand {
        Some(Operand::One(Plain::U(words))) => *words,
        Some(Operand::Alloc(pairs)) => amount_of(WORDS, pairs.as_slice()),
        _ => 0,
    }
}

/// How many funs a heap need asks for.
pub(crate) fn funs_in(operand: Option<&Operand>) -> u64
    ensures { result ≡ funs_in (option_copied operand.entry) }
{
    match operand {
        Some(Operand::Alloc(pairs)) => amount_of(FUNS, pairs.as_slice()),
        _ => 0,
    }
}
