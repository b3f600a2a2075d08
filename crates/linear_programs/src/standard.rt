ghost use Rattle.std.specs.Prelude.{◌≡◌, ◌≤◌, ℕ, length, All, IfOk};
ghost use Rattle.linear_programs.specs.Program.{Program, IsRegular, AreCells, single_columns};

use crate::inequality::Inequality;
use frac128::Frac;
use memory::Memory;
use std::alloc::Global;
use std::marker::Model;

/// A program in standard form: the objective is to be greatest under the rows, where no column is negative.
#[derive(Drop)]
pub struct Standard {
    columns: Vec<(u16, Option<u16>)>,
    objective: Vec<Frac>,
    constant: Frac,
    rows: Vec<Inequality>,
}

impl Model for Standard {
    ghost use Rattle.linear_programs.specs.Program.{Program};

    ghost Value = { Program };

    ghost use Rattle.linear_programs.specs.StandardFields.{program_of, IsSmall};

    ghost view = { program_of };

    ghost invariant = { λ s. IsSmall (program_of s) };
}

/// As many cells as `count` says, of one column each.
fn own_columns(alloc: Global, count: u16) -> Result<Vec<(u16, Option<u16>)>, Memory>
    ensures { IfOk result (λ v. v.items ≡ single_columns count) }
{
    let mut columns = Vec::new(alloc);
    for j in 0..count {
        columns.push((j, None))?;
    }
    Ok(columns)
}

impl Standard {
    /// The program of these parts: for each cell its columns, the objective's coefficients and constant, and the rows.
    pub fn new(
        columns: Vec<(u16, Option<u16>)>,
        objective: Vec<Frac>,
        constant: Frac,
        rows: Vec<Inequality>,
    ) -> Standard
        requires regular { IsRegular (record {
          columns = columns.items;
          objective = objective.items;
          constant = constant;
          rows = rows.items;
        }) }
        requires cells { AreCells (record {
          columns = columns.items;
          objective = objective.items;
          constant = constant;
          rows = rows.items;
        }) }
        requires width { length objective.items ≤ 1024 }
        requires height { length rows.items ≤ 1538 }
        ensures { result ≡ record {
          columns = columns.items;
          objective = objective.items;
          constant = constant;
          rows = rows.items;
        } }
    {
        Standard {
            columns,
            objective,
            constant,
            rows,
        }
    }

    /// The program in which each column is a cell, as tests write programs down; those of models come from `lin_model`.
    pub fn of_single_columns(
        alloc: Global,
        objective: Vec<Frac>,
        constant: Frac,
        rows: Vec<Inequality>,
    ) -> Result<Standard, Memory>
        requires regular { All (λ r. length r.coefficients ≡ length objective.items) rows.items }
        requires width { length objective.items ≤ 1024 }
        requires height { length rows.items ≤ 1538 }
        ensures { IfOk result (λ s. s ≡ record {
          columns = single_columns (length objective.items);
          objective = objective.items;
          constant = constant;
          rows = rows.items;
        }) }
    {
        let columns = own_columns(alloc, objective.len() as u16)?;
        Ok(Standard::new(columns, objective, constant, rows))
    }

    /// For each cell its column, or the two whose difference it is.
    pub fn columns(&self) -> &[(u16, Option<u16>)]
        ensures value { result.now ≡ self.now.columns }
        ensures cells { AreCells self.now }
        ensures width { length self.now.objective ≤ 1024 }
    {
        &self.columns
    }

    /// One number per column.
    pub fn objective(&self) -> &[Frac]
        ensures value { result.now ≡ self.now.objective }
        ensures width { length self.now.objective ≤ 1024 }
    {
        &self.objective
    }

    /// What is added to the objective's combination.
    pub fn constant(&self) -> Frac
        ensures { result ≡ self.now.constant }
    {
        self.constant
    }

    pub fn rows(&self) -> &[Inequality]
        ensures value { result.now ≡ self.now.rows }
        ensures regular { IsRegular self.now }
        ensures height { length self.now.rows ≤ 1538 }
    {
        &self.rows
    }
}
