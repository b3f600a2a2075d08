// The entries of a row that aren't 0, each with its column, in order of column.
ghost use Rattle.std.specs.Prelude.{◌≡◌, ◌≢◌, ◌<◌, ◌≤◌, ◌==◌, ◌++◌, ℕ, length, IsTrue, ◌↔◌, vec_capacity, if◌then◌else◌};
ghost use Rattle.fractions.specs.Rational.{zero_ℚ};
ghost use Rattle.tableau.specs.Entries.{IsGap, IsPlaceOf, IsRising, IsSparse, entry_in, pair_at};
ghost use Rattle.tableau.specs.Runs.{HasRun};

use frac128::Frac;

/// The first place at which no earlier column stands, by halves.
fn first_not_before(kept: &[(u16, Frac)], col: u16) -> usize
    requires { IsRising kept.now }
    ensures within { result ≤ length kept.now }
    ensures before { (i : ℕ) → i < result → (pair_at kept.now i).0 < col }
    ensures after { (i : ℕ) → result ≤ i → i < length kept.now → col ≤ (pair_at kept.now i).0 }
{
    let mut low = 0;
    let mut high = kept.len();
    while low < high {
        let middle = low + (high - low) / 2;
        if kept[middle].0 < col {
            low = middle + 1;
        } else {
            high = middle;
        }
    }
    low
}

/// The place of the column, or the place at which it would stand.
fn sought(kept: &[(u16, Frac)], col: u16) -> Result<usize, usize>
    requires { IsRising kept.now }
    ensures { IsPlaceOf kept.now col result }
{
    let place = first_not_before(kept, col);
    if place < kept.len() && kept[place].0 == col {
        Ok(place)
    } else {
        Err(place)
    }
}

/// Whether only earlier columns stand before the place.
fn is_behind(kept: &[(u16, Frac)], col: u16, place: usize) -> bool
    requires rising { IsRising kept.now }
    requires within { place ≤ length kept.now }
    ensures { IsTrue result → (i : ℕ) → i < place → (pair_at kept.now i).0 < col }
{
    if place == 0 {
        return true;
    }
    kept[place - 1].0 < col
}

/// Whether only later columns stand from the place on.
fn is_before(kept: &[(u16, Frac)], col: u16, place: usize) -> bool
    requires rising { IsRising kept.now }
    requires within { place ≤ length kept.now }
    ensures { IsTrue result → (i : ℕ) → place ≤ i → i < length kept.now
        → col < (pair_at kept.now i).0 }
{
    if place == kept.len() {
        return true;
    }
    col < kept[place].0
}

/// Whether the column isn't there, and would stand at the place.
fn is_gap(kept: &[(u16, Frac)], col: u16, place: usize) -> bool
    requires { IsRising kept.now }
    ensures { IsTrue result → IsGap kept.now col place }
{
    if place > kept.len() {
        return false;
    }
    if !is_behind(kept, col, place) {
        return false;
    }
    is_before(kept, col, place)
}

/// The place of the column, or the place at which it would stand. It is found at once where it is the guess.
pub fn place_of(kept: &[(u16, Frac)], col: u16, guess: usize) -> Result<usize, usize>
    requires { IsRising kept.now }
    ensures { IsPlaceOf kept.now col result }
{
    if guess < kept.len() && kept[guess].0 == col {
        return Ok(guess);
    }
    if is_gap(kept, col, guess) {
        return Err(guess);
    }
    sought(kept, col)
}

/// Puts another entry, or none for 0, at the place of the column.
fn replace(kept: &mut Vec<(u16, Frac)>, place: usize, col: u16, number: Frac)
    requires place { place < length kept.old.items }
    requires column { (pair_at kept.old.items place).0 ≡ col }
    requires rising { IsRising kept.old.items }
    ensures sparse { (n : ℕ) → IsSparse n kept.old.items → IsSparse n kept.new.items }
    ensures room { vec_capacity kept.new ≡ vec_capacity kept.old }
    ensures entries { (j : ℕ) → entry_in kept.new.items j
        ≡ (if col == j then number else entry_in kept.old.items j) }
{
    if number.is_zero() {
        kept.remove(place);
    } else {
        kept[place] = (col, number);
    }
}

/// Puts an entry, or none for 0, where the column would stand.
fn add(kept: &mut Vec<(u16, Frac)>, columns: usize, place: usize, col: u16, number: Frac)
    requires gap { IsGap kept.old.items col place }
    requires sparse { IsSparse columns kept.old.items }
    requires column { col < columns }
    requires room { columns ≤ vec_capacity kept.old }
    ensures sparse { IsSparse columns kept.new.items }
    ensures room { columns ≤ vec_capacity kept.new }
    ensures entries { (j : ℕ) → entry_in kept.new.items j
        ≡ (if col == j then number else entry_in kept.old.items j) }
{
    if number.is_zero() {
        return;
    }
    match kept.insert(place, (col, number)) {
        Ok(()) => {}
        Err(_) => unreachable!(),
    }
}

/// Sets the entry of the column. It takes no memory, since there is room for all columns.
pub fn put(kept: &mut Vec<(u16, Frac)>, columns: usize, col: u16, number: Frac, guess: usize)
    requires sparse { IsSparse columns kept.old.items }
    requires column { col < columns }
    requires room { columns ≤ vec_capacity kept.old }
    ensures sparse { IsSparse columns kept.new.items }
    ensures room { columns ≤ vec_capacity kept.new }
    ensures entries { (j : ℕ) → entry_in kept.new.items j
        ≡ (if col == j then number else entry_in kept.old.items j) }
{
    match place_of(kept, col, guess) {
        Ok(place) => replace(kept, place, col, number),
        Err(place) => add(kept, columns, place, col, number),
    }
}

/// Puts an entry, or none for 0, behind all others.
fn append(kept: &mut Vec<(u16, Frac)>, columns: usize, col: u16, number: Frac)
    requires gap { IsGap kept.old.items col (length kept.old.items) }
    requires sparse { IsSparse columns kept.old.items }
    requires column { col < columns }
    requires room { columns ≤ vec_capacity kept.old }
    ensures sparse { IsSparse columns kept.new.items }
    ensures room { columns ≤ vec_capacity kept.new }
    ensures entries { (j : ℕ) → entry_in kept.new.items j
        ≡ (if col == j then number else entry_in kept.old.items j) }
{
    if number.is_zero() {
        return;
    }
    match kept.push((col, number)) {
        Ok(()) => {}
        Err(_) => unreachable!(),
    }
}

/// Sets the entry of the column, as `put` does: nothing is sought where only earlier columns are kept.
pub fn put_last(kept: &mut Vec<(u16, Frac)>, columns: usize, col: u16, number: Frac)
    requires sparse { IsSparse columns kept.old.items }
    requires column { col < columns }
    requires room { columns ≤ vec_capacity kept.old }
    ensures sparse { IsSparse columns kept.new.items }
    ensures room { columns ≤ vec_capacity kept.new }
    ensures entries { (j : ℕ) → entry_in kept.new.items j
        ≡ (if col == j then number else entry_in kept.old.items j) }
{
    let end = kept.len();
    if is_behind(kept, col, end) {
        append(kept, columns, col, number);
    } else {
        put(kept, columns, col, number, end);
    }
}

/// Puts entries other than 0 behind all others: their columns rise, and all that are kept stand at earlier ones.
fn append_run(kept: &mut Vec<(u16, Frac)>, columns: usize, run: &[(u16, Frac)])
    requires sparse { IsSparse columns kept.old.items }
    requires run { IsSparse columns run.now }
    requires behind { (i j : ℕ) → i < length kept.old.items → j < length run.now
        → (pair_at kept.old.items i).0 < (pair_at run.now j).0 }
    requires room { columns ≤ vec_capacity kept.old }
    ensures items { kept.new.items ≡ kept.old.items ++ run.now }
    ensures sparse { IsSparse columns kept.new.items }
    ensures room { columns ≤ vec_capacity kept.new }
{
    match kept.extend_from_slice(run) {
        Ok(()) => {}
        Err(_) => unreachable!(),
    }
}

/// Puts entries one after the other.
fn put_each(kept: &mut Vec<(u16, Frac)>, columns: usize, run: &[(u16, Frac)])
    requires sparse { IsSparse columns kept.old.items }
    requires run { IsSparse columns run.now }
    requires room { columns ≤ vec_capacity kept.old }
    ensures sparse { IsSparse columns kept.new.items }
    ensures room { columns ≤ vec_capacity kept.new }
    ensures entries { HasRun run.now (length run.now) kept.old.items kept.new.items }
{
    for i in 0..run.len() {
        let (col, number) = run[i];
        put_last(kept, columns, col, number);
    }
}

/// Sets the entries of rising columns, none of which is 0. They are put at once where only earlier columns are kept.
pub fn put_run(kept: &mut Vec<(u16, Frac)>, columns: usize, run: &[(u16, Frac)])
    requires sparse { IsSparse columns kept.old.items }
    requires run { IsSparse columns run.now }
    requires room { columns ≤ vec_capacity kept.old }
    ensures sparse { IsSparse columns kept.new.items }
    ensures room { columns ≤ vec_capacity kept.new }
    ensures entries { HasRun run.now (length run.now) kept.old.items kept.new.items }
{
    if run.is_empty() {
        return;
    }
    if is_behind(kept, run[0].0, kept.len()) {
        append_run(kept, columns, run);
    } else {
        put_each(kept, columns, run);
    }
}
