//! What holds of the split of code.

ghost use Rattle.std.specs.Prelude.{◌≡◌, ◌≢◌, ◌↔◌, ℕ, List, [], Some, Ok, Err, slice_get};
ghost use Rattle.op_table.specs.Instruction.{Instruction};
ghost use Rattle.func_split.specs.declared.refusal.FunctionWhy.{FunctionWhy};
ghost use Rattle.func_split.specs.declared.refusal.SplitRefusal.TheVariants as refusals;
ghost use Rattle.func_split.specs.Marks.{marks_of};
ghost use Rattle.func_split.specs.Functions.{IsSplit, IsSplitCode, Piece, SplitValue, StandsIn};
ghost use Rattle.func_split.specs.Faults.{IsSound};
ghost use Rattle.func_split.specs.Refused.{IsRefused};
ghost use Rattle.func_split.specs.Reading.{split_of};

/// Code splits exactly where it has an instruction and nothing is wrong at any.
pub fn code_splits_where_nothing_is_wrong()
    ensures { (labels : ℕ) (code : List Instruction) → ((functions : List Piece) × IsSplit labels code functions) ↔ ((code ≢ []) × IsSound labels (marks_of code)) }
{}

/// Code splits in one way at most.
pub fn one_split()
    ensures { (labels : ℕ) (code : List Instruction) (f g : List Piece) → IsSplit labels code f → IsSplit labels code g → f ≡ g }
{}

/// Each function stands in its code: behind no fewer instructions than functions, and before the last
/// instruction.
pub fn functions_stand_in_their_code()
    ensures { (labels : ℕ) (code : List Instruction) (functions : List Piece) → IsSplit labels code functions → (i : ℕ) (f : Piece) → slice_get functions i ≡ Some f → StandsIn code i f }
{}

/// The split from the left gives the functions exactly where the code is these, and refuses exactly
/// for what is wrong first.
pub fn splitting_is_exact()
    ensures accepted { (labels count : ℕ) (code : List Instruction) (s : SplitValue) → (split_of labels count code ≡ Ok s) ↔ IsSplitCode labels count code s }
    ensures refused { (labels count : ℕ) (code : List Instruction) (place : ℕ) (why : FunctionWhy) → (split_of labels count code ≡ Err (refusals.Functions place why)) ↔ IsRefused labels count code place why }
{}
