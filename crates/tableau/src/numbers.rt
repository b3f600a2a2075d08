// What a pivot does to the numbers of one row.
ghost use Rattle.std.specs.Prelude.{◌≡◌, ◌≢◌, ◌<◌, ◌≤◌, ◌==◌, ℕ, suc, List, length, IfOk, MatchResult};
ghost use Rattle.fractions.specs.Rational.{ℚ, zero_ℚ, ◌/ℚ◌};
ghost use Rattle.fractions.specs.Vectors.{at, without};
ghost use Rattle.frac128.specs.Narrow.{IsNarrow};
ghost use Rattle.dictionaries.specs.Dictionary.{solved_row, substituted};
ghost use Rattle.dictionaries.specs.Narrow.{IsNarrowAt, IsNarrowQuotient, IsNarrowSolvedRow, IsNarrowSubstituted, dividend};
ghost use Rattle.tableau.specs.Entries.{AreEntries, IsRising, pair_at};
ghost use Rattle.tableau.specs.Changed.{IsChanged};

use crate::products::{Factor, plus_product};
use crate::row::Row;
use frac128::{Frac, Wide};
use std::mem;

/// `a / b`.
#[tactic(auto, unfolding(dictionaries::specs::Narrow::IsNarrowQuotient))]
fn quotient(a: Frac, b: Frac) -> Result<Frac, Wide>
    requires { b ≢ zero_ℚ }
    ensures { MatchResult result (λ f. (f ≡ a /ℚ b) × IsNarrowQuotient a b)
        (λ _. ¬ (IsNarrowQuotient a b)) }
{
    a.div(b)
}

/// Each number is narrow, since it stands in 128 bits: nothing is done for it when this runs.
fn all_narrow(kept: &[(u16, Frac)])
    ensures { (i : ℕ) → i < length kept.now → IsNarrow (pair_at kept.now i).1 }
{
    for i in 0..kept.len() {
        let _num = kept[i].1.num();
    }
}

/// The entry at the column `j`, which the row has there, of the row solved for the variable of the column `col`.
fn solved_entry(row: &Row, col: u16, pivot: Frac, j: u16, entry: Frac) -> Result<Frac, Wide>
    requires pivot { pivot ≡ at row.now (suc col) }
    requires other_than_zero { pivot ≢ zero_ℚ }
    requires entry { entry ≡ at row.now (suc j) }
    ensures { MatchResult result (λ f. (f ≡ dividend row.now (suc col) (suc j) /ℚ at row.now (suc col))
        × IsNarrowQuotient (dividend row.now (suc col) (suc j)) (at row.now (suc col)))
        (λ _. ¬ (IsNarrowQuotient (dividend row.now (suc col) (suc j)) (at row.now (suc col)))) }
{
    if j == col {
        return quotient(Frac::one(), pivot);
    }
    quotient(entry.neg(), pivot)
}

/// Puts the entries of the row, solved for the variable of the column, into a row of zeros.
fn solve_entries(row: &Row, col: u16, pivot: Frac, into: &mut Row) -> Result<(), Wide>
    requires pivot { pivot ≡ at row.now (suc col) }
    requires other_than_zero { pivot ≢ zero_ℚ }
    requires room { length into.old ≡ length row.now }
    requires blank { (j : ℕ) → at into.old (suc j) ≡ zero_ℚ }
    ensures made { MatchResult result (λ _. (j : ℕ) → suc j < length row.now
        → (at into.new (suc j) ≡ dividend row.now (suc col) (suc j) /ℚ at row.now (suc col))
        × IsNarrowQuotient (dividend row.now (suc col) (suc j)) (at row.now (suc col)))
        (λ _. ¬ (IsNarrowSolvedRow row.now (suc col))) }
    ensures size { length into.new ≡ length into.old }
    ensures rest { at into.new 0 ≡ at into.old 0 }
{
    let kept = row.kept();
    for i in 0..kept.len() {
        let (j, entry) = kept[i];
        let solved = solved_entry(row, col, pivot, j, entry)?;
        into.put(j, solved, i);
    }
    Ok(())
}

/// Makes the row solved for the variable of the column.
pub fn solve_for(row: &Row, col: u16, into: &mut Row) -> Result<(), Wide>
    requires place { suc col < length row.now }
    requires entry { at row.now (suc col) ≢ zero_ℚ }
    requires room { length into.old ≡ length row.now }
    ensures made { MatchResult result (λ _. (into.new ≡ solved_row row.now (suc col))
        × IsNarrowSolvedRow row.now (suc col)) (λ _. ¬ (IsNarrowSolvedRow row.now (suc col))) }
    ensures entry { IfOk result (λ _. at into.new (suc col) ≢ zero_ℚ) }
    ensures size { length into.new ≡ length into.old }
{
    let pivot = row.entry(col);
    let rest = row.rest().neg();
    match quotient(rest, pivot) {
        Ok(solved) => {
            into.clear();
            into.set_rest(solved);
            solve_entries(row, col, pivot, into)
        }
        Err(fault) => Err(fault),
    }
}

/// From the place on the first place at which the column or a later one stands.
fn end_before(kept: &[(u16, Frac)], place: usize, col: usize) -> usize
    requires rising { IsRising kept.now }
    requires within { place ≤ length kept.now }
    ensures first { place ≤ result }
    ensures within { result ≤ length kept.now }
    ensures before { (i : ℕ) → i < result → place ≤ i → (pair_at kept.now i).0 < col }
    ensures after { (i : ℕ) → result ≤ i → i < length kept.now → col ≤ (pair_at kept.now i).0 }
{
    let mut next = place;
    while next < kept.len() && (kept[next].0 as usize) < col {
        next += 1;
    }
    next
}

/// Puts the entries that stand from the place on before the column behind those of another row, and answers the place of
/// the first that doesn't.
fn copy_before(kept: &[(u16, Frac)], place: usize, col: usize, into: &mut Row) -> usize
    requires rising { IsRising kept.now }
    requires within { place ≤ length kept.now }
    requires columns { (i : ℕ) → i < length kept.now
        → suc (pair_at kept.now i).0 < length into.old }
    requires other_than_zero { (i : ℕ) → i < length kept.now → (pair_at kept.now i).1 ≢ zero_ℚ }
    ensures size { length into.new ≡ length into.old }
    ensures rest { at into.new 0 ≡ at into.old 0 }
    ensures first { place ≤ result }
    ensures within { result ≤ length kept.now }
    ensures before { (i : ℕ) → i < result → place ≤ i → (pair_at kept.now i).0 < col }
    ensures after { (i : ℕ) → result ≤ i → i < length kept.now → col ≤ (pair_at kept.now i).0 }
    ensures copied { (i : ℕ) → place ≤ i → i < result
        → at into.new (suc (pair_at kept.now i).0) ≡ (pair_at kept.now i).1 }
    ensures left { (j : ℕ) → ((i : ℕ) → place ≤ i → i < result → (pair_at kept.now i).0 ≢ j)
        → at into.new (suc j) ≡ at into.old (suc j) }
{
    let next = end_before(kept, place, col);
    into.put_run(&kept[place..next]);
    next
}

/// The entry of the column `j`, or 0 at the column `col`, where earlier columns stand before the place and no others, with
/// the place of the first later column.
fn entry_at(kept: &[(u16, Frac)], place: usize, col: u16, j: u16) -> (Frac, usize)
    requires rising { IsRising kept.now }
    requires within { place ≤ length kept.now }
    requires before { (i : ℕ) → i < place → (pair_at kept.now i).0 < j }
    requires after { (i : ℕ) → place ≤ i → i < length kept.now → j ≤ (pair_at kept.now i).0 }
    ensures entry { (row : List ℚ) → AreEntries row kept.now → suc j < length row
        → result.0 ≡ at (without row (suc col)) (suc j) }
    ensures first { place ≤ result.1 }
    ensures within { result.1 ≤ length kept.now }
    ensures before { (i : ℕ) → i < result.1 → (pair_at kept.now i).0 ≤ j }
    ensures after { (i : ℕ) → result.1 ≤ i → i < length kept.now → j < (pair_at kept.now i).0 }
    ensures same { (i : ℕ) → place ≤ i → i < result.1 → (pair_at kept.now i).0 ≡ j }
{
    if place == kept.len() {
        return (Frac::zero(), place);
    }
    let (column, entry) = kept[place];
    if column != j {
        return (Frac::zero(), place);
    }
    if j == col {
        return (Frac::zero(), place + 1);
    }
    (entry, place + 1)
}

/// Puts the entries of the row where `by` comes in for the variable of the column, at which the row has the factor, into a
/// row of zeros.
fn write_entries(row: &Row, col: u16, factor: &Factor, by: &Row, into: &mut Row) -> Result<(), Wide>
    requires place { suc col < length row.now }
    requires factor { factor.now ≡ at row.now (suc col) }
    requires other { length by.now ≡ length row.now }
    requires entry { at by.now (suc col) ≢ zero_ℚ }
    requires room { length into.old ≡ length row.now }
    requires blank { (j : ℕ) → at into.old (suc j) ≡ zero_ℚ }
    ensures made { MatchResult result (λ _. (j : ℕ) → suc j < length row.now
        → (at into.new (suc j) ≡ at (substituted row.now (suc col) by.now) (suc j))
        × (at by.now (suc j) ≢ zero_ℚ → IsNarrowAt row.now (suc col) by.now (suc j)))
        (λ _. ¬ (IsNarrowSubstituted row.now (suc col) by.now)) }
    ensures size { length into.new ≡ length into.old }
    ensures rest { at into.new 0 ≡ at into.old 0 }
{
    let own = row.kept();
    let other = by.kept();
    let mut place = 0;
    for i in 0..other.len() {
        let (j, number) = other[i];
        place = copy_before(own, place, j as usize, into);
        let (entry, next) = entry_at(own, place, col, j);
        let sum = plus_product(entry, factor, number)?;
        into.append(j, sum);
        place = next;
    }
    let _end = copy_before(own, place, row.len(), into);
    Ok(())
}

/// Makes the row, which has the factor at the column, where `by` comes in for the variable of the column.
fn write(row: &Row, col: u16, factor: &Factor, by: &Row, into: &mut Row) -> Result<(), Wide>
    requires place { suc col < length row.now }
    requires factor { factor.now ≡ at row.now (suc col) }
    requires other { length by.now ≡ length row.now }
    requires entry { at by.now (suc col) ≢ zero_ℚ }
    requires room { length into.old ≡ length row.now }
    requires narrow { (j : ℕ) → j < length row.now → IsNarrow (at row.now j) }
    ensures made { MatchResult result (λ _. (into.new ≡ substituted row.now (suc col) by.now)
        × IsNarrowSubstituted row.now (suc col) by.now)
        (λ _. ¬ (IsNarrowSubstituted row.now (suc col) by.now)) }
    ensures size { length into.new ≡ length into.old }
{
    let rest = row.rest();
    match plus_product(rest, factor, by.rest()) {
        Ok(sum) => {
            into.clear();
            into.set_rest(sum);
            write_entries(row, col, factor, by, into)
        }
        Err(fault) => Err(fault),
    }
}

/// Each number of the row is narrow, since it stands in 128 bits: nothing is done for it when this runs.
fn row_is_narrow(row: &Row)
    requires { 0 < length row.now }
    ensures { (j : ℕ) → j < length row.now → IsNarrow (at row.now j) }
{
    let rest = row.rest();
    let kept = row.kept();
    all_narrow(kept);
    let _num = rest.num();
}

/// Lets `by` come in for the variable of the column: the row is made in the spare one, and changes places with it. A row
/// without an entry at the column isn't touched, and none changes where a number would not be narrow.
pub fn change(row: &mut Row, col: u16, by: &Row, spare: &mut Row) -> Result<(), Wide>
    requires place { suc col < length row.old }
    requires other { length by.now ≡ length row.old }
    requires entry { at by.now (suc col) ≢ zero_ℚ }
    requires room { length spare.old ≡ length row.old }
    ensures made { MatchResult result (λ _. IsChanged row.old (suc col) by.now row.new)
        (λ _. (row.new ≡ row.old) × ¬ (IsNarrowSubstituted row.old (suc col) by.now)) }
    ensures size { length row.new ≡ length row.old }
    ensures room { length spare.new ≡ length row.old }
{
    let factor = row.entry(col);
    row_is_narrow(row);
    if factor.is_zero() {
        return Ok(());
    }
    match write(row, col, &Factor::of(factor), by, spare) {
        Ok(()) => {}
        Err(fault) => return Err(fault),
    }
    mem::swap(row, spare);
    Ok(())
}

/// Lets `by` come in for the variable of the column, where it is known that this makes narrow numbers.
pub fn change_back(row: &mut Row, col: u16, by: &Row, spare: &mut Row)
    requires place { suc col < length row.old }
    requires other { length by.now ≡ length row.old }
    requires entry { at by.now (suc col) ≢ zero_ℚ }
    requires room { length spare.old ≡ length row.old }
    requires narrow { IsNarrowSubstituted row.old (suc col) by.now }
    ensures made { row.new ≡ substituted row.old (suc col) by.now }
    ensures size { length row.new ≡ length row.old }
    ensures room { length spare.new ≡ length row.old }
{
    match change(row, col, by, spare) {
        Ok(()) => {}
        Err(_) => unreachable!(),
    }
}
