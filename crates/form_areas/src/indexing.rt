// INDEX.
ghost use Rattle.std.specs.Prelude.{◌≡◌, ◌<◌, ◌⊎◌, ◌==◌, ◌∷◌, [], IfErr, IfOk, Some, length, map, option_map};
ghost use Rattle.form_areas.specs.Places.{alone_in_range, fault_or, first_undecided, one_place, picked_at};
ghost use Rattle.form_areas.specs.Truths.{IsTrueIndex};
ghost use Rattle.form_areas.specs.Undecided.{IsUndecided};
ghost use Rattle.form_ops.specs.Operands.{wanted_in};
ghost use Rattle.form_table.specs.Certain.{in_range, index_error, is_ref_error, only_range, part_in, pick_in_range, picks_ref_error};
ghost use Rattle.form_table.specs.Picks.{of_places, pick_form, picked_by, whole};
ghost use Rattle.form_values.specs.Trials.{Answers};
ghost use Rattle.sheet_funcs.specs.Picks.{pick_of};
ghost use Rattle.sheet_funcs.specs.Within.{IsWithin};
ghost use Rattle.sheet_model.specs.declared.grid.Arg.TheVariants.{One};
ghost use Rattle.sheet_model.specs.declared.value.Value.TheVariants.{Number};

use cell_refs::ErrorKind;
use form_ops::{Operand, known_number, operand_in};
use form_values::{Abs, AbsArg, OpRefusal};
use frac128::Frac;
use sheet_funcs::Pick;
use sheet_model::{Arg, Value};

/// The part of a grid of this size that one or two places pick; the grid is the call's first argument, and these are the next ones.
/// One place alone is a column where there is one row, and else a row. A known place out of range is an error whatever the other is.
pub fn index_at(rows: u32, cols: u32, at: &[AbsArg]) -> Result<Pick, OpRefusal>
    requires rows { 0 < rows }
    requires columns { 0 < cols }
    requires places { (length at.now ≡ 1) ⊎ (length at.now ≡ 2) }
    ensures answer { Answers (pick_form rows cols at.now) result }
    ensures right { IsTrueIndex rows cols at.now result }
    ensures within { IfOk result (IsWithin rows cols) }
    ensures refused { IfErr result IsUndecided }
{
    part_at(rows, cols, at)
}

// The part that one or two places pick.
fn part_at(rows: u32, cols: u32, at: &[AbsArg]) -> Result<Pick, OpRefusal>
    requires rows { 0 < rows }
    requires columns { 0 < cols }
    requires places { (length at.now ≡ 1) ⊎ (length at.now ≡ 2) }
    ensures answer { Answers (pick_form rows cols at.now) result }
    ensures within { IfOk result (IsWithin rows cols) }
    ensures refused { IfErr result IsUndecided }
{
    match at {
        [place] => one_place(rows, cols, &operand_in(place)),
        [row, column] => two_places(rows, cols, &operand_in(row), &operand_in(column)),
        _ => unreachable!(),
    }
}

// The part that one place picks.
fn one_place(rows: u32, cols: u32, place: &Operand) -> Result<Pick, OpRefusal>
    requires rows { 0 < rows }
    requires columns { 0 < cols }
    ensures answer { Answers (one_place rows cols (wanted_in place.now)) result }
    ensures within { IfOk result (IsWithin rows cols) }
    ensures refused { IfErr result IsUndecided }
{
    if let Operand::Fault(kind) = place {
        return Ok(Pick::Fault(*kind));
    }
    match known_number(place) {
        Some(number) => Ok(sheet_funcs::index_at(rows, cols, &[number_arg(number)])),
        None => Err(OpRefusal::Undecided(1)),
    }
}

// The part that a row and a column place pick.
fn two_places(rows: u32, cols: u32, row: &Operand, column: &Operand) -> Result<Pick, OpRefusal>
    requires rows { 0 < rows }
    requires columns { 0 < cols }
    ensures answer { Answers (of_places (wanted_in row.now) (wanted_in column.now)
        (picked_by rows (wanted_in row.now)) (picked_by cols (wanted_in column.now))) result }
    ensures within { IfOk result (IsWithin rows cols) }
    ensures refused { IfErr result IsUndecided }
{
    if let Operand::Fault(kind) = row {
        return Ok(Pick::Fault(*kind));
    }
    if let Operand::Fault(kind) = column {
        return Ok(Pick::Fault(*kind));
    }
    match (known_number(row), known_number(column)) {
        (Some(row), Some(column)) => Ok(pick(rows, cols, row, column)),
        (Some(row), None) => fault_or(pick(rows, cols, row, Frac::zero()), 2),
        (None, Some(column)) => fault_or(pick(rows, cols, Frac::zero(), column), 1),
        (None, None) => Err(OpRefusal::Undecided(first_undecided(row, column))),
    }
}

/// The error that is certainly picked of a grid of this size with these elements, if there is such a one. An open place may be out of
/// range, which is #REF!; so the one element that it may pick has to be #REF! too.
pub fn index_error(rows: u32, cols: u32, items: &[Abs], at: &[AbsArg]) -> Option<ErrorKind>
    requires rows { 0 < rows }
    requires columns { 0 < cols }
    ensures { result ≡ index_error rows cols items.now at.now }
{
    if picks_ref_error(cols, items, pick_in_range(rows, cols, at)) {
        return Some(ErrorKind::Ref);
    }
    None
}

// Whether one element is picked and is #REF!.
fn picks_ref_error(cols: u32, items: &[Abs], pick: Option<Pick>) -> bool
    ensures { result ≡ picks_ref_error cols items.now pick }
{
    let Some(Pick::Part(top, left, bottom, right)) = pick else {
        return false;
    };
    bottom == top
        && right == left
        && is_ref_error(items.get(top as usize * cols as usize + left as usize))
}

// Whether an element is #REF!.
fn is_ref_error(element: Option<&Abs>) -> bool
    ensures { result ≡ is_ref_error (option_map (λ a. a.now) element.entry) }
{
    match element {
        Some(Abs::Known(Value::Error(kind))) => matches!(kind, ErrorKind::Ref),
        _ => false,
    }
}

// The part that one or two places pick, if no other is picked in range.
fn pick_in_range(rows: u32, cols: u32, at: &[AbsArg]) -> Option<Pick>
    requires rows { 0 < rows }
    requires columns { 0 < cols }
    ensures { result ≡ pick_in_range rows cols at.now }
{
    match at {
        [place] => alone_in_range(rows, cols, &operand_in(place)),
        [row, column] => both_picked(
            rows,
            cols,
            place_in_range(rows, &operand_in(row)),
            place_in_range(cols, &operand_in(column)),
        ),
        _ => None,
    }
}

// The same by one place: a column where there is one row, and else a row.
fn alone_in_range(rows: u32, cols: u32, place: &Operand) -> Option<Pick>
    requires rows { 0 < rows }
    requires columns { 0 < cols }
    ensures { result ≡ alone_in_range rows cols (wanted_in place.now) }
{
    if rows == 1 {
        return in_columns(rows, cols, place);
    }
    in_rows(rows, cols, place)
}

// All rows, and the columns that a place picks in range.
fn in_columns(rows: u32, cols: u32, place: &Operand) -> Option<Pick>
    requires rows { 0 < rows }
    requires columns { 0 < cols }
    ensures { result ≡ part_in (Some (whole rows))
        (in_range cols (wanted_in place.now) (picked_by cols (wanted_in place.now))) }
{
    both_picked(rows, cols, Some(Frac::zero()), place_in_range(cols, place))
}

// The rows that a place picks in range, and all columns.
fn in_rows(rows: u32, cols: u32, place: &Operand) -> Option<Pick>
    requires rows { 0 < rows }
    requires columns { 0 < cols }
    ensures { result ≡ part_in
        (in_range rows (wanted_in place.now) (picked_by rows (wanted_in place.now)))
        (Some (whole cols)) }
{
    both_picked(rows, cols, place_in_range(rows, place), Some(Frac::zero()))
}

// A known place that picks what this one picks in range, if there is such a one.
fn place_in_range(size: u32, place: &Operand) -> Option<Frac>
    ensures { picked_at size result
        ≡ in_range size (wanted_in place.now) (picked_by size (wanted_in place.now)) }
{
    if let Operand::Fault(_) = place {
        return None;
    }
    match known_number(place) {
        Some(number) => Some(number),
        None => only_place(size),
    }
}

// A place of the one row or column, where there is one alone.
fn only_place(size: u32) -> Option<Frac>
    ensures { picked_at size result ≡ only_range size }
{
    if size == 1 {
        return Some(Frac::zero());
    }
    None
}

// The part that two places pick, where both are known.
fn both_picked(rows: u32, cols: u32, row: Option<Frac>, column: Option<Frac>) -> Option<Pick>
    requires rows { 0 < rows }
    requires columns { 0 < cols }
    ensures { result ≡ part_in (picked_at rows row) (picked_at cols column) }
{
    match (row, column) {
        (Some(row), Some(column)) => Some(pick(rows, cols, row, column)),
        _ => None,
    }
}

// The part that two known places pick.
fn pick(rows: u32, cols: u32, row: Frac, column: Frac) -> Pick
    requires rows { 0 < rows }
    requires columns { 0 < cols }
    ensures pick { result ≡ pick_of rows cols (One (Number row) ∷ One (Number column) ∷ []) }
    ensures within { IsWithin rows cols result }
{
    sheet_funcs::index_at(rows, cols, &[number_arg(row), number_arg(column)])
}

// A fault of the place that is known, or else the other place decides.
fn fault_or(pick: Pick, argument: usize) -> Result<Pick, OpRefusal>
    ensures { result ≡ fault_or pick argument }
{
    match pick {
        Pick::Fault(kind) => Ok(Pick::Fault(kind)),
        Pick::Part(..) => Err(OpRefusal::Undecided(argument)),
    }
}

// The place that decides where none is known: an open logical comes before an open number.
fn first_undecided(row: &Operand, column: &Operand) -> usize
    ensures { result ≡ first_undecided (wanted_in row.now) (wanted_in column.now) }
{
    match (row, column) {
        (Operand::Test, _) => 1,
        (_, Operand::Test) => 2,
        _ => 1,
    }
}

// A known number as an argument.
fn number_arg(number: Frac) -> Arg
    ensures { result ≡ One (Number number) }
{
    Arg::One(Value::Number(number))
}
