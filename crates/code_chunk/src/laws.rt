//! What holds of the spellings of instructions and code.

ghost use Rattle.std.specs.Prelude.{◌≡◌, ◌↔◌, ℕ, ◌^◌, ◌<◌, ◌≤◌, ◌++◌, List, ◌∷◌, length, Ok, Err};
ghost use Rattle.bk_codec.specs.Spelling.{IsBytes};
ghost use Rattle.bk_codec.specs.Exact.{IsExact};
ghost use Rattle.op_table.specs.Table.{arity_of};
ghost use Rattle.op_table.specs.Instruction.{Instruction};
ghost use Rattle.code_chunk.specs.declared.code.CodeVal.{CodeVal};
ghost use Rattle.code_chunk.specs.declared.refusal.CodeRefusal.{CodeRefusal};
ghost use Rattle.code_chunk.specs.Spelling.{SpellsInstr, SpellsCode};
ghost use Rattle.code_chunk.specs.Code.{InstrMeetsType, CodeMeetsType, IsProperInstr, IsProperCode};
ghost use Rattle.code_chunk.specs.Canonical.{canonical_instr, canonical_code};
ghost use Rattle.code_chunk.specs.Reading.{before, instr_with, instrs_at, code_at};
ghost use Rattle.code_chunk.specs.Stop.{IsStop, IsWrong};

/// The reading from left to right accepts exactly the payloads that spell code, each with its value,
/// and refuses all others exactly for what is wrong with them.
pub fn reading_is_exact()
    ensures exact { IsExact code_at SpellsCode }
    ensures refused { (payload : List ℕ) (e : CodeRefusal) → IsBytes payload → (code_at payload ≡ Err e) ↔ IsWrong e payload }
{}

/// Instructions are read one by one: one that is read stands before those that are read behind it, and
/// takes some bytes; where one is refused, the reading is.
pub fn instructions_are_read_in_order()
    ensures next { (size op : ℕ) (bytes rest : List ℕ) (i : Instruction) → instr_with size op (arity_of op) bytes ≡ Ok (i, rest)
        → instrs_at size (length (op ∷ bytes)) (op ∷ bytes) ≡ before i (instrs_at size (length rest) rest) }
    ensures refused { (size op : ℕ) (bytes : List ℕ) (e : CodeRefusal) → instr_with size op (arity_of op) bytes ≡ Err e
        → instrs_at size (length (op ∷ bytes)) (op ∷ bytes) ≡ Err e }
    ensures shorter { (size op : ℕ) (bytes rest : List ℕ) (i : Instruction) → instr_with size op (arity_of op) bytes ≡ Ok (i, rest) → length rest ≤ length bytes }
{}

/// No spelling of an instruction begins another one, and each is of one instruction.
pub fn one_instr_form()
    ensures { (a b x y : List ℕ) (i j : Instruction) → SpellsInstr i a → SpellsInstr j b → a ++ x ≡ b ++ y → (a ≡ b) × (i ≡ j) }
{}

/// A payload spells one value.
pub fn one_code()
    ensures { (payload : List ℕ) (c d : CodeVal) → SpellsCode c payload → SpellsCode d payload → c ≡ d }
{}

/// The longest front of whole instructions has one length.
pub fn one_stop()
    ensures { (bytes : List ℕ) (m n : ℕ) → IsStop m bytes → IsStop n bytes → m ≡ n }
{}

/// Bytes that spell code spell a value that meets its type and is proper.
pub fn spelled_code_is_proper()
    ensures meets_type { (c : CodeVal) (payload : List ℕ) → IsBytes payload → SpellsCode c payload → CodeMeetsType c }
    ensures proper { (c : CodeVal) (payload : List ℕ) → IsBytes payload → SpellsCode c payload → IsProperCode c }
{}

/// Whatever spells code that meets its type is bytes.
pub fn spelled_code_is_bytes()
    ensures { (c : CodeVal) (payload : List ℕ) → CodeMeetsType c → SpellsCode c payload → IsBytes payload }
{}

/// What is written of an instruction spells it, where it meets its type, its operands are proper and
/// there are fewer than 2^63 bytes.
pub fn canonical_instr_is_spelled()
    ensures { (i : Instruction) → InstrMeetsType i → IsProperInstr i → length (canonical_instr i) < 2 ^ 63 → SpellsInstr i (canonical_instr i) }
{
    compact_term::canonical_is_spelled();
}

/// What is written of code spells it, where it meets its type, is proper and there are fewer than
/// 2^32 bytes.
pub fn canonical_code_is_spelled()
    ensures { (c : CodeVal) → CodeMeetsType c → IsProperCode c → length (canonical_code c) < 2 ^ 32 → SpellsCode c (canonical_code c) }
{
    compact_term::canonical_is_spelled();
}

/// A payload that spells code has more bytes than the code has instructions.
pub fn code_has_fewer_instructions_than_bytes()
    ensures { (c : CodeVal) (payload : List ℕ) → SpellsCode c payload → length c.instrs < length payload }
{}

/// No payload that spells code is shorter than what is written of it.
pub fn canonical_code_is_shortest()
    ensures { (c : CodeVal) (payload : List ℕ) → SpellsCode c payload → length (canonical_code c) ≤ length payload }
{
    compact_term::canonical_is_shortest();
}
