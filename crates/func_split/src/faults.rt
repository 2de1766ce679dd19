//! What is wrong with one instruction.

ghost use Rattle.std.specs.Prelude.{◌≡◌, ◌&&◌, List, not, length};
ghost use Rattle.func_split.specs.declared.mark.Mark.{Mark as TheMark};
ghost use Rattle.func_split.specs.Marks.{marks_of};
ghost use Rattle.func_split.specs.Faults as faults;
ghost use Rattle.func_split.specs.Reading.{fault};
ghost use Rattle.func_split.specs.Fronts.{HasLabels, IsBefore, Keeps};

use crate::before::Before;
use crate::mark::Mark;
use crate::refusal::FunctionWhy;
use op_table::Instr;
use std::collections::BTreeMap;

// The most instructions of a function.
const SIZE_LIMIT: usize = 200_000;

// Whether these instructions are any number of `line` and then a `func_info`.
fn leads(rest: &[Instr]) -> bool
    ensures { result ≡ faults.leads (marks_of rest.now) }
{
    for instr in rest {
        match Mark::of(instr) {
            Mark::Line => {}
            Mark::Func(_) => return true,
            _ => return false,
        }
    }
    false
}

// Whether an instruction, behind which these stand, is the first label of a function.
fn begins(before: Before, mark: Mark, rest: &[Instr]) -> bool
    ensures { (back : List TheMark) → IsBefore before back → result ≡ faults.begins back mark (marks_of rest.now) }
{
    match (mark, before) {
        (Mark::Label(_), Before::Headed) => false,
        (Mark::Label(_), _) => leads(rest),
        _ => false,
    }
}

// Whether an instruction, behind which these stand, is the `int_code_end` that ends the code.
fn closes(mark: Mark, rest: &[Instr]) -> bool
    ensures { result ≡ faults.closes mark (marks_of rest.now) }
{
    match mark {
        Mark::Close => rest.is_empty(),
        _ => false,
    }
}

// How many instructions there are up to the next function or the end.
fn size_from(mut before: Before, rest: &[Instr]) -> usize
    ensures size { (back : List TheMark) → IsBefore before back → result ≡ faults.size_from back (marks_of rest.now) }
{
    for place in 0..rest.len() {
        let mark = Mark::of(&rest[place]);
        let behind = &rest[place + 1..];
        if begins(before, mark, behind) || closes(mark, behind) {
            return place;
        }
        before = before.after(place, mark);
    }
    rest.len()
}

// Whether the first instruction is neither a label of a function nor the only `int_code_end`.
fn is_no_start(place: usize, mark: Mark, rest: &[Instr]) -> bool
    ensures { (back : List TheMark) → length back ≡ place → result ≡ (faults.is_nil back && not (faults.may_start mark (marks_of rest.now))) }
{
    if place > 0 {
        return false;
    }
    match mark {
        Mark::Label(_) => !leads(rest),
        Mark::Close => !rest.is_empty(),
        _ => true,
    }
}

fn lacks_label(before: Before, mark: Mark) -> bool
    ensures { (back : List TheMark) → IsBefore before back → result ≡ faults.lacks_label back mark }
{
    match (mark, before) {
        (Mark::Func(_), Before::Own(_)) => false,
        (Mark::Func(_), _) => true,
        _ => false,
    }
}

fn begins_with_label(rest: &[Instr]) -> bool
    ensures { result ≡ faults.begins_with_label (marks_of rest.now) }
{
    match rest {
        [] => false,
        [first, ..] => matches!(Mark::of(first), Mark::Label(_)),
    }
}

fn lacks_entry(mark: Mark, rest: &[Instr]) -> bool
    ensures { result ≡ faults.lacks_entry mark (marks_of rest.now) }
{
    match mark {
        Mark::Func(_) => !begins_with_label(rest),
        _ => false,
    }
}

fn is_misshaped(mark: Mark) -> bool
    ensures { result ≡ faults.is_misshaped mark }
{
    matches!(mark, Mark::Label(None) | Mark::Func(None))
}

fn is_second(places: &BTreeMap<u32, usize>, mark: Mark) -> bool
    ensures { (back : List TheMark) → HasLabels places.now back → result ≡ faults.is_second back mark }
{
    match mark {
        Mark::Label(Some(number)) => places.contains_key(&number),
        _ => false,
    }
}

fn is_out_of_range(labels: u32, mark: Mark) -> bool
    ensures { result ≡ faults.is_out_of_range labels mark }
{
    match mark {
        Mark::Label(Some(number)) => number == 0 || labels <= number,
        _ => false,
    }
}

fn is_wrong_end(mark: Mark, rest: &[Instr]) -> bool
    ensures { result ≡ faults.is_wrong_end mark (marks_of rest.now) }
{
    match mark {
        Mark::Close => !rest.is_empty(),
        _ => rest.is_empty(),
    }
}

// Whether an instruction is the first label of a function of too many instructions.
fn is_too_long(place: usize, before: Before, mark: Mark, rest: &[Instr]) -> bool
    ensures { (back : List TheMark) → IsBefore before back → result ≡ faults.is_too_long back mark (marks_of rest.now) }
{
    begins(before, mark, rest) && size_from(before.after(place, mark), rest) >= SIZE_LIMIT
}

/// What is wrong first at an instruction.
pub(crate) fn fault_at(
    labels: u32,
    place: usize,
    before: Before,
    places: &BTreeMap<u32, usize>,
    mark: Mark,
    rest: &[Instr],
) -> Option<FunctionWhy>
    ensures { (back : List TheMark) → Keeps back place before places.now → result ≡ fault labels back mark (marks_of rest.now) }
{
    if is_no_start(place, mark, rest) {
        return Some(FunctionWhy::Start);
    }
    if lacks_label(before, mark) {
        return Some(FunctionWhy::NoLabel);
    }
    if lacks_entry(mark, rest) {
        return Some(FunctionWhy::NoEntry);
    }
    if is_misshaped(mark) {
        return Some(FunctionWhy::Shape);
    }
    if is_second(places, mark) {
        return Some(FunctionWhy::LabelTwice);
    }
    if is_out_of_range(labels, mark) {
        return Some(FunctionWhy::LabelRange);
    }
    if is_wrong_end(mark, rest) {
        return Some(FunctionWhy::End);
    }
    if is_too_long(place, before, mark, rest) {
        return Some(FunctionWhy::Long);
    }
    None
}
