//! Writing the text of operands.

ghost use Rattle.std.specs.Prelude.{◌≡◌, ◌++◌, codes, OnOk};
ghost use Rattle.std.specs.List.{join_by};
ghost use Rattle.operand_text.specs.Operand.{register_text, plain_text, pair_text, operand_text};

use bk_base::{Bytes, NoMemory};
use bk_text::{put_hex, put_lettered, put_marked, put_natural};
use compact_term::{Operand, Plain, Reg};

/// Appends the text of an operand to `out`, its numbers in decimal.
pub fn put_operand(out: &mut Bytes, operand: &Operand) -> Result<(), NoMemory>
    ensures { OnOk result (out.new.items ≡ out.old.items ++ operand_text operand.now) }
{
    match operand {
        Operand::One(plain) => put_plain(out, plain),
        Operand::List(members) => {
            out.push(b'[')?;
            put_members(out, members.as_slice())?;
            out.push(b']')
        }
        Operand::Alloc(pairs) => {
            out.push(b'{')?;
            put_pairs(out, pairs.as_slice())?;
            out.push(b'}')
        }
    }
}

fn put_plain(out: &mut Bytes, plain: &Plain) -> Result<(), NoMemory>
    ensures { OnOk result (out.new.items ≡ out.old.items ++ plain_text plain.now) }
{
    match plain {
        Plain::U(n) => put_lettered(out, b'u', *n),
        Plain::I(n) => put_marked(out, b"i", n.value()),
        Plain::Wide(bytes) => {
            out.push(b'w')?;
            put_hex(out, bytes.as_slice())
        }
        Plain::A(n) => put_lettered(out, b'a', u64::from(*n)),
        Plain::X(n) => put_lettered(out, b'x', u64::from(*n)),
        Plain::Y(n) => put_lettered(out, b'y', u64::from(*n)),
        Plain::F(n) => put_lettered(out, b'f', u64::from(*n)),
        Plain::H(n) => put_lettered(out, b'h', u64::from(*n)),
        Plain::Fr(n) => put_marked(out, b"fr", *n),
        Plain::Lit(n) => put_lettered(out, b'l', *n),
        Plain::Typed(register, n) => {
            put_register(out, *register)?;
            put_lettered(out, b'/', *n)
        }
    }
}

/// Appends the text of a register to `out`: `x` or `y`, and its number in decimal.
pub fn put_register(out: &mut Bytes, register: Reg) -> Result<(), NoMemory>
    ensures { OnOk result (out.new.items ≡ out.old.items ++ register_text register) }
{
    match register {
        Reg::X(n) => put_lettered(out, b'x', u64::from(n)),
        Reg::Y(n) => put_lettered(out, b'y', u64::from(n)),
    }
}

fn put_members(out: &mut Bytes, members: &[Plain]) -> Result<(), NoMemory>
    ensures { OnOk result (out.new.items ≡ out.old.items ++ join_by plain_text (codes ",") members.now) }
{
    let [first, others @ ..] = members else {
        return Ok(());
    };
    put_plain(out, first)?;
    for member in others {
        out.push(b',')?;
        put_plain(out, member)?;
    }
    Ok(())
}

fn put_pairs(out: &mut Bytes, pairs: &[(u64, u64)]) -> Result<(), NoMemory>
    ensures { OnOk result (out.new.items ≡ out.old.items ++ join_by pair_text (codes ",") pairs.now) }
{
    let [first, others @ ..] = pairs else {
        return Ok(());
    };
    put_pair(out, *first)?;
    for pair in others {
        out.push(b',')?;
        put_pair(out, *pair)?;
    }
    Ok(())
}

// A kind and an amount.
fn put_pair(out: &mut Bytes, pair: (u64, u64)) -> Result<(), NoMemory>
    ensures { OnOk result (out.new.items ≡ out.old.items ++ pair_text pair) }
{
    put_natural(out, pair.0)?;
    put_lettered(out, b':', pair.1)
}
