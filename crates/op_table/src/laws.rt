//! Laws over the table of opcodes.

ghost use Rattle.std.specs.Prelude.{◌≡◌, ◌<◌, ℕ, List, [], Some, length, true};
ghost use Rattle.std.specs.List.{list_all};
ghost use Rattle.op_table.specs.declared.row.Profile.TheVariants.{Typed};
ghost use Rattle.op_table.specs.Table.{Row, is_name_byte, row_with, row_named};

/// The row with a number is also found by its name.
pub fn names_find_their_rows()
    ensures { (op : ℕ) (r : Row) → row_with op ≡ Some r → row_named r.name ≡ Some r }
{}

/// The row with a number has that number, and the row with a name is also found by its number, and
/// its name is that one.
pub fn rows_have_their_numbers()
    ensures own { (op : ℕ) (r : Row) → row_with op ≡ Some r → r.op ≡ op }
    ensures number { (name : List ℕ) (r : Row) → row_named name ≡ Some r → row_with r.op ≡ Some r }
    ensures name { (name : List ℕ) (r : Row) → row_named name ≡ Some r → r.name ≡ name }
{}

/// Each name is of lower-case letters, digits and `_`, and not empty.
pub fn names_are_words()
    ensures { (op : ℕ) (r : Row) → row_with op ≡ Some r → (0 < length r.name) × (list_all is_name_byte r.name ≡ true) }
{}

/// The row of an opcode that is validated has a role for each operand, and another row has none.
pub fn rows_have_their_roles()
    ensures typed { (op : ℕ) (r : Row) → row_with op ≡ Some r → r.profile ≡ Typed → length r.roles ≡ r.arity }
    ensures other { (op : ℕ) (r : Row) → row_with op ≡ Some r → (r.profile ≡ Typed → ⊥) → r.roles ≡ [] }
{}
