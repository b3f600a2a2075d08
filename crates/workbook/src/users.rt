// The cells in whose formulas names stand.
ghost use Rattle.std.specs.Prelude.{◌≡◌, [], true, IfOk, OnOk, option_map};
ghost use Rattle.std.specs.BTreeSet.{contains};
ghost use Rattle.cell_refs.specs.declared.cell.Cell.{Cell};
ghost use Rattle.cell_refs.specs.Cells.{cell_cmp};
ghost use Rattle.formula_ast.specs.Tree.{trees};
ghost use Rattle.workbook.specs.Held.{spelled_tree};
ghost use Rattle.workbook.specs.Users.{Grows, IsCovered, KnowsAllUses, KnowsUses, knows, users_of};

use crate::held::Held;
use cell_refs::Cell;
use formula_ast::{Expr, Node};
use memory::Memory;
use std::alloc::Global;
use std::collections::{BTreeMap, BTreeSet};

/// For each name, in small letters, the cells in whose formulas it stands. Cells in which it stood once may be among them, since none
/// is taken away.
#[derive(Drop)]
pub(crate) struct Users {
    cells: BTreeMap<String, BTreeSet<Cell>>,
}

impl Users {
    pub(crate) fn new(alloc: Global) -> Users
        ensures { result.cells.entries ≡ [] }
    {
        Users {
            cells: BTreeMap::new(alloc),
        }
    }

    /// The cells of a name, in their order.
    pub(crate) fn of(&self, alloc: Global, name: &str) -> Result<Option<&BTreeSet<Cell>>, Memory>
        ensures { IfOk result (λ cells. option_map (λ c. c.now) cells
            ≡ users_of self.now name.now) }
    {
        let letters = name.to_ascii_lowercase(alloc)?;
        Ok(self.cells.get(letters.as_str()))
    }

    /// Adds a cell to those of each name in the formula that is held of it.
    pub(crate) fn add_names(&mut self, alloc: Global, cell: Cell, held: &Held) -> Result<(), Memory>
        ensures covered { OnOk result (IsCovered self.new cell (spelled_tree held.now)) }
        ensures grows { Grows self.old self.new }
    {
        match &held.spelled {
            Some(spelled) => add_uses(alloc, self, spelled, cell),
            None => Ok(()),
        }
    }

    // Adds a cell to those of a name.
    fn add(&mut self, alloc: Global, name: &str, cell: Cell) -> Result<(), Memory>
        ensures known { OnOk result (knows self.new name.now cell ≡ true) }
        ensures grows { Grows self.old self.new }
    {
        let letters = name.to_ascii_lowercase(alloc)?;
        if let Some(cells) = self.cells.get_mut(letters.as_str()) {
            return add_cell(cells, cell);
        }
        let mut cells = BTreeSet::new(alloc);
        add_cell(&mut cells, cell)?;
        match self.cells.insert(letters, cells) {
            Ok(_) => Ok(()),
            Err(_) => Err(Memory),
        }
    }
}

// Adds a cell to others.
fn add_cell(cells: &mut BTreeSet<Cell>, cell: Cell) -> Result<(), Memory>
    ensures has { OnOk result (contains cell_cmp cells.new cell ≡ true) }
    ensures others { (q : Cell) → contains cell_cmp cells.old q ≡ true
        → contains cell_cmp cells.new q ≡ true }
{
    match cells.insert(cell) {
        Ok(_) => Ok(()),
        Err(_) => Err(Memory),
    }
}

// Adds a cell to those of each name in a formula; not in calls of functions that there aren't.
#[cycle(adding)]
fn add_uses(alloc: Global, users: &mut Users, expr: &Expr, cell: Cell) -> Result<(), Memory>
    ensures known { OnOk result (KnowsUses users.new cell expr.now) }
    ensures grows { Grows users.old users.new }
{
    match &expr.node {
        Node::Name(name) => users.add(alloc, name.as_str(), cell),
        Node::Call(_, args) => add_all_uses(alloc, users, args, cell),
        Node::Plus(of) => add_uses(alloc, users, of, cell),
        Node::Minus(of) => add_uses(alloc, users, of, cell),
        Node::Percent(of) => add_uses(alloc, users, of, cell),
        Node::Infix(_, left, right) => {
            add_uses(alloc, users, left, cell)?;
            add_uses(alloc, users, right, cell)
        }
        _ => Ok(()),
    }
}

// Adds a cell to the users of each name that stands in some parts of a formula.
#[cycle(adding)]
fn add_all_uses(alloc: Global, users: &mut Users, exprs: &[Expr], cell: Cell) -> Result<(), Memory>
    ensures known { OnOk result (KnowsAllUses users.new cell (trees exprs.now)) }
    ensures grows { Grows users.old users.new }
{
    for expr in exprs {
        add_uses(alloc, users, expr, cell)?;
    }
    Ok(())
}
