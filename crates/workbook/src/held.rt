// What is held of a cell.
ghost use Rattle.std.specs.Prelude.{◌≡◌, ◌+◌, if◌then◌else◌, IfOk, IsSome, None, OnErr, OnOk, Some, is_some, length, option_map};
ghost use Rattle.std.specs.BTreeMap.{is_at};
ghost use Rattle.cell_refs.specs.declared.cell.Cell.{Cell};
ghost use Rattle.cell_refs.specs.Cells.{cell_cmp};
ghost use Rattle.workbook.specs.Contents.{kind_of, tree_of};
ghost use Rattle.workbook.specs.Held.{entry_of, held_at};
ghost use Rattle.workbook.specs.Renamed.{is_malformed, resaid, said_at};

use crate::{Kind, TextCell};
use cell_refs::Cell;
use formula_ast::Expr;
use frac128::Frac;
use memory::Memory;
use sheet_model::Text;
use std::collections::BTreeMap;
use std::mem::drop;

/// What a text says.
#[derive(Drop)]
pub(crate) enum Said {
    Number(Frac),
    Logical(bool),
    Plain,
    Formula(Expr),
    Malformed,
}

impl Said {
    /// Whether the text isn't allowed.
    pub(crate) fn is_malformed(&self) -> bool
        ensures { result ≡ is_malformed self.now }
    {
        matches!(self, Said::Malformed)
    }
}

/// The text of a cell, and what it says; and the tree of a formula as it is spelled, where names stand in it.
#[derive(Drop)]
pub(crate) struct Held {
    pub(crate) text: Text,
    pub(crate) spelled: Option<Box<Expr>>,
    pub(crate) said: Said,
}

impl Held {
    /// The kind of what is said.
    pub(crate) fn kind(&self) -> Kind
        ensures { result ≡ kind_of (Some (entry_of self.now.text self.now.said)) }
    {
        match &self.said {
            Said::Number(number) => Kind::Number(*number),
            Said::Logical(holds) => Kind::Logical(*holds),
            Said::Plain => Kind::Plain,
            Said::Formula(_) => Kind::Formula,
            Said::Malformed => Kind::Malformed,
        }
    }

    /// The tree of a formula.
    pub(crate) fn tree(&self) -> Option<&Expr>
        ensures { option_map (λ t. t.now) result
            ≡ tree_of (Some (entry_of self.now.text self.now.said)) }
    {
        match &self.said {
            Said::Formula(tree) => Some(tree),
            _ => None,
        }
    }

    /// What is read of the cell.
    pub(crate) fn read(&self, cell: Cell) -> TextCell<'_>
        ensures cell { result.cell ≡ cell }
        ensures text { result.text.now ≡ self.now.text }
        ensures kind { result.kind ≡ kind_of (Some (entry_of self.now.text self.now.said)) }
        ensures tree { option_map (λ t. t.now) result.tree
            ≡ tree_of (Some (entry_of self.now.text self.now.said)) }
    {
        TextCell {
            cell,
            text: self.text.as_str(),
            kind: self.kind(),
            tree: self.tree(),
        }
    }
}

/// Takes away what is held of a cell.
pub(crate) fn take_away(cells: &mut BTreeMap<Cell, Held>, cell: Cell)
    ensures taken { (q : Cell) → held_at cells.new.entries q
        ≡ (if is_at (cell_cmp cell) q then None else held_at cells.old.entries q) }
    ensures len { length cells.new.entries
        + (if is_some (held_at cells.old.entries cell) then 1 else 0)
        ≡ length cells.old.entries }
{
    drop(cells.remove(&cell));
}

/// Puts into a cell what is held of it, and answers what was.
pub(crate) fn put_in(
    cells: &mut BTreeMap<Cell, Held>,
    cell: Cell,
    held: Held,
) -> Result<Option<Held>, Memory>
    ensures put { OnOk result ((q : Cell) → held_at cells.new.entries q
        ≡ (if is_at (cell_cmp cell) q then Some held else held_at cells.old.entries q)) }
    ensures len { OnOk result (length cells.new.entries
        ≡ length cells.old.entries + (if is_some (held_at cells.old.entries cell) then 0 else 1)) }
    ensures was { IfOk result (λ was. was ≡ held_at cells.old.entries cell) }
    ensures err { OnErr result (cells.new.entries ≡ cells.old.entries) }
{
    match cells.insert(cell, held) {
        Ok(was) => Ok(was),
        Err(_) => Err(Memory),
    }
}

// Puts into a cell what is held of it, in place of what is there.
fn put_over(cells: &mut BTreeMap<Cell, Held>, cell: Cell, held: Held)
    requires { IsSome (held_at cells.old.entries cell) }
    ensures put { (q : Cell) → held_at cells.new.entries q
        ≡ (if is_at (cell_cmp cell) q then Some held else held_at cells.old.entries q) }
    ensures len { length cells.new.entries ≡ length cells.old.entries }
{
    if let Some(place) = cells.get_mut(&cell) {
        *place = held;
    }
}

/// Gives a cell that has a text back what was held of it before.
pub(crate) fn put_back(cells: &mut BTreeMap<Cell, Held>, cell: Cell, was: Option<Held>)
    requires { IsSome (held_at cells.old.entries cell) }
    ensures back { (q : Cell) → held_at cells.new.entries q
        ≡ (if is_at (cell_cmp cell) q then was else held_at cells.old.entries q) }
    ensures len { length cells.new.entries + 1
        ≡ length cells.old.entries + (if is_some was then 1 else 0) }
{
    match was {
        Some(held) => put_over(cells, cell, held),
        None => take_away(cells, cell),
    }
}

/// Says something else of the texts of cells, the last of them first.
pub(crate) fn say_otherwise(cells: &mut BTreeMap<Cell, Held>, mut said: Vec<(Cell, Said)>)
    ensures resaid { (q : Cell) → held_at cells.new.entries q
        ≡ resaid (said_at said.items q) (held_at cells.old.entries q) }
    ensures len { length cells.new.entries ≡ length cells.old.entries }
{
    while let Some((cell, other)) = said.pop() {
        say_over(cells, cell, other);
    }
}

// Says something else of the text of a cell, where it has one.
fn say_over(cells: &mut BTreeMap<Cell, Held>, cell: Cell, said: Said)
    ensures resaid { (q : Cell) → held_at cells.new.entries q
        ≡ (if is_at (cell_cmp cell) q then resaid (Some said) (held_at cells.old.entries q)
        else held_at cells.old.entries q) }
    ensures len { length cells.new.entries ≡ length cells.old.entries }
{
    if let Some(place) = cells.get_mut(&cell) {
        place.said = said;
    }
}
