// The standard program of a box.
ghost use Rattle.std.specs.Prelude.{◌≡◌, ◌≤◌, ◌<◌, ◌++◌, ℕ, All, IfOk, OnOk, length, map, slice_index_or, flat_map};
ghost use Rattle.fractions.specs.Rational.{zero_ℚ};
ghost use Rattle.fractions.specs.Vectors.{at};
ghost use Rattle.affine_forms.specs.Forms.{RiseFrom, coefficient, negated};
ghost use Rattle.affine_forms.specs.Assigned.{ReachTo};
ghost use Rattle.linear_models.specs.Laws.{GivesPoints, IsBoxOf};
ghost use Rattle.linear_models.specs.Standard.{columns_from, is_split, limits_of_bounds, limits_of_greatest, limits_of_least, limits_of_row, program_row, splits_of, spread, standard, wanted};

use crate::bounds::BoundBox;
use crate::model::{FormRow, LinModel};
use affine_forms::Form;
use frac128::Frac;
use linear_programs::{Inequality, Standard};
use memory::Memory;
use optimality::{Goal, Relation};
use std::alloc::Global;

// Whether a decision with this least value has two columns: it may be negative.
fn is_split(least: Option<Frac>) -> bool
    ensures { result ≡ is_split least }
{
    match least {
        None => true,
        Some(bound) => bound.is_negative(),
    }
}

// Which decisions have two columns.
fn splits(alloc: Global, least: &[Option<Frac>]) -> Result<Vec<bool>, Memory>
    ensures { IfOk result (λ v. v.items ≡ map is_split least.now) }
{
    let mut all = Vec::new(alloc);
    for bound in least {
        all.push(is_split(*bound))?;
    }
    Ok(all)
}

// The columns of each decision, numbered from 0.
fn columns(alloc: Global, splits: &[bool]) -> Result<Vec<(u16, Option<u16>)>, Memory>
    requires few { length splits.now ≤ 512 }
    ensures { IfOk result (λ v. v.items ≡ columns_from 0 splits.now) }
{
    let mut all = Vec::new(alloc);
    let mut next: u16 = 0;
    for split in splits {
        if *split {
            all.push((next, Some(next + 1)))?;
            next += 2;
        } else {
            all.push((next, None))?;
            next += 1;
        }
    }
    Ok(all)
}

// A coefficient for each decision.
fn coefficients(alloc: Global, count: usize, terms: &[(u16, Frac)]) -> Result<Vec<Frac>, Memory>
    requires rising { RiseFrom 0 terms.now }
    requires below { ReachTo terms.now count }
    ensures { IfOk result (λ v. (length v.items ≡ count)
        × ((i : ℕ) → i < count → at v.items i ≡ coefficient terms.now i)) }
{
    let mut all = vec![in alloc; Frac::zero(); count]?;
    for (decision, coefficient) in terms {
        all[*decision as usize] = *coefficient;
    }
    Ok(all)
}

// A number for each decision as one for each column.
fn spread(alloc: Global, splits: &[bool], numbers: &[Frac]) -> Result<Vec<Frac>, Memory>
    requires one_each { length numbers.now ≡ length splits.now }
    ensures { IfOk result (λ v. v.items ≡ spread splits.now (at numbers.now)) }
{
    let mut all = Vec::new(alloc);
    for (decision, split) in splits.iter().enumerate() {
        let number = numbers[decision];
        all.push(number)?;
        if *split {
            all.push(number.neg())?;
        }
    }
    Ok(all)
}

// Coefficients of terms over the columns.
fn columns_of(alloc: Global, splits: &[bool], terms: &[(u16, Frac)]) -> Result<Vec<Frac>, Memory>
    requires rising { RiseFrom 0 terms.now }
    requires below { ReachTo terms.now (length splits.now) }
    ensures { IfOk result (λ v. v.items ≡ spread splits.now (coefficient terms.now)) }
{
    let numbers = coefficients(alloc, splits.len(), terms)?;
    spread(alloc, splits, &numbers)
}

// `form ≤ 0` over the columns, for the form of a number and terms.
fn row(
    alloc: Global,
    splits: &[bool],
    number: Frac,
    terms: &[(u16, Frac)],
) -> Result<Inequality, Memory>
    requires rising { RiseFrom 0 terms.now }
    requires below { ReachTo terms.now (length splits.now) }
    ensures { IfOk result (λ r. r
        ≡ program_row splits.now (record { constant = number; terms = terms.now })) }
{
    let coefficients = columns_of(alloc, splits, terms)?;
    Ok(Inequality::new(coefficients, number.neg()))
}

// `form ≤ 0` over the columns.
fn form_row(alloc: Global, splits: &[bool], form: &Form) -> Result<Inequality, Memory>
    requires below { ReachTo form.now.terms (length splits.now) }
    ensures { IfOk result (λ r. r ≡ program_row splits.now form.now) }
{
    row(alloc, splits, form.base(), form.terms())
}

// `form ≥ 0` over the columns.
fn opposite_row(alloc: Global, splits: &[bool], form: &Form) -> Result<Inequality, Memory>
    requires below { ReachTo form.now.terms (length splits.now) }
    ensures { IfOk result (λ r. r ≡ program_row splits.now (negated form.now)) }
{
    let form = form.neg()?;
    form_row(alloc, splits, &form)
}

// Adds a row of the model: one row, or both for `=`.
fn push_row(
    alloc: Global,
    splits: &[bool],
    of: &FormRow,
    rows: &mut Vec<Inequality>,
) -> Result<(), Memory>
    requires below { ReachTo of.now.0.terms (length splits.now) }
    ensures { OnOk result (rows.new.items
        ≡ rows.old.items ++ map (program_row splits.now) (limits_of_row of.now)) }
{
    let form = of.form();
    match of.relation() {
        Relation::AtMost => {
            rows.push(form_row(alloc, splits, form)?)?;
            Ok(())
        }
        Relation::AtLeast => {
            rows.push(opposite_row(alloc, splits, form)?)?;
            Ok(())
        }
        Relation::Equal => {
            rows.push(form_row(alloc, splits, form)?)?;
            rows.push(opposite_row(alloc, splits, form)?)?;
            Ok(())
        }
    }
}

// Adds all rows of the model.
fn push_rows(
    alloc: Global,
    splits: &[bool],
    of: &[FormRow],
    rows: &mut Vec<Inequality>,
) -> Result<(), Memory>
    requires below { All (λ r. ReachTo r.0.terms (length splits.now)) of.now }
    ensures { OnOk result (rows.new.items
        ≡ rows.old.items ++ map (program_row splits.now) (flat_map limits_of_row of.now)) }
{
    for one in of {
        push_row(alloc, splits, one, rows)?;
    }
    Ok(())
}

// Adds the row of a least value; one of 0 has none.
fn push_least(
    alloc: Global,
    splits: &[bool],
    decision: u16,
    bound: Option<Frac>,
    rows: &mut Vec<Inequality>,
) -> Result<(), Memory>
    requires below { decision < length splits.now }
    ensures { OnOk result (rows.new.items
        ≡ rows.old.items ++ map (program_row splits.now) (limits_of_least decision bound)) }
{
    let Some(least) = bound else {
        return Ok(());
    };
    if least.is_zero() {
        return Ok(());
    }
    let minus_one = Frac::one().neg();
    rows.push(row(alloc, splits, least, &[(decision, minus_one)])?)?;
    Ok(())
}

// Adds the row of a greatest value.
fn push_greatest(
    alloc: Global,
    splits: &[bool],
    decision: u16,
    bound: Option<Frac>,
    rows: &mut Vec<Inequality>,
) -> Result<(), Memory>
    requires below { decision < length splits.now }
    ensures { OnOk result (rows.new.items
        ≡ rows.old.items ++ map (program_row splits.now) (limits_of_greatest decision bound)) }
{
    let Some(greatest) = bound else {
        return Ok(());
    };
    rows.push(row(alloc, splits, greatest.neg(), &[(decision, Frac::one())])?)?;
    Ok(())
}

// Adds the rows of all bounds, of each decision the least value and then the greatest.
fn push_bounds(
    alloc: Global,
    splits: &[bool],
    least: &[Option<Frac>],
    greatest: &[Option<Frac>],
    rows: &mut Vec<Inequality>,
) -> Result<(), Memory>
    requires few { length splits.now ≤ 512 }
    requires least { length least.now ≡ length splits.now }
    requires greatest { length greatest.now ≡ length splits.now }
    ensures { OnOk result (rows.new.items ≡ rows.old.items
        ++ map (program_row splits.now) (limits_of_bounds 0 least.now greatest.now)) }
{
    for (decision, bound) in least.iter().enumerate() {
        push_least(alloc, splits, decision as u16, *bound, rows)?;
        push_greatest(alloc, splits, decision as u16, greatest[decision], rows)?;
    }
    Ok(())
}

impl LinModel {
    /// The standard program of a box of the model; with `plain` its objective is 0.
    pub fn standard(
        &self,
        alloc: Global,
        within: &BoundBox,
        plain: bool,
    ) -> Result<Standard, Memory>
        requires fits { IsBoxOf self.now within.now }
        ensures program { IfOk result (λ p. p ≡ standard self.now within.now plain) }
        ensures points { IfOk result (λ p. GivesPoints self.now within.now plain p) }
    {
        let _whole = self.whole();
        self.put_together(alloc, within, plain)
    }

    // The columns, the objective and the rows, as one program.
    fn put_together(
        &self,
        alloc: Global,
        within: &BoundBox,
        plain: bool,
    ) -> Result<Standard, Memory>
        requires fits { IsBoxOf self.now within.now }
        ensures { IfOk result (λ p. p ≡ standard self.now within.now plain) }
    {
        let _whole = self.whole();
        let splits = splits(alloc, within.least())?;
        let mut rows = Vec::new(alloc);
        push_rows(alloc, &splits, self.rows(), &mut rows)?;
        push_bounds(alloc, &splits, within.least(), within.greatest(), &mut rows)?;
        let wanted = self.greatest_form(alloc, plain)?;
        let objective = columns_of(alloc, &splits, wanted.terms())?;
        let columns = columns(alloc, &splits)?;
        Ok(Standard::new(columns, objective, wanted.base(), rows))
    }

    /// The form that is to be as great as can be: 0 where a value is to be reached, or only a point is wanted.
    pub fn greatest_form(&self, alloc: Global, plain: bool) -> Result<Form, Memory>
        ensures form { IfOk result (λ f. f ≡ wanted self.now plain) }
    {
        if plain {
            return Ok(Form::constant(alloc, Frac::zero()));
        }
        match self.goal() {
            Goal::Max => self.objective().copy(),
            Goal::Min => self.objective().neg(),
            Goal::Reach(_) => Ok(Form::constant(alloc, Frac::zero())),
        }
    }
}
