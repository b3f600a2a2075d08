// Marked cells.
ghost use Rattle.std.specs.Prelude.{◌≡◌, ◌+◌, ◌++◌, ◌∷◌, ◌<◌, [], IfOk, false, if◌then◌else◌, length, vec_len};
ghost use Rattle.std.specs.FinSet as set;
ghost use Rattle.cell_refs.specs.declared.limits.TheConstants.{TEXTS};
ghost use Rattle.column_strips.specs.Affected.{has_cell};
ghost use Rattle.column_strips.specs.Marks.{AreMarks};

use cell_refs::{Cell, ROWS, TEXTS};
use memory::Memory;
use std::alloc::Global;
use std::collections::HashSet;
use std::marker::Model;

/// A set of cells, with room for one more than can have a text. The rows and the flags of cells are of use while it is filled.
#[derive(Drop)]
pub struct Marks {
    pub(crate) cells: Vec<Cell>,
    pub(crate) seen: HashSet<Cell>,
    pub(crate) rows: Vec<u16>,
    pub(crate) done: Vec<bool>,
}

impl Model for Marks {
    ghost use Rattle.std.specs.FinSet as set;
    ghost use Rattle.cell_refs.specs.Cells.{cell_cmp, coded_cell};
    ghost use Rattle.column_strips.specs.Marks.{AreMarks, HasSpace};

    ghost Value = { set.FinSet cell_cmp };

    ghost coded = { set.code coded_cell };

    ghost view = { λ m. set.from_list m.cells.items };

    ghost invariant = { λ m. AreMarks m.cells m.seen × HasSpace m.rows m.done };
}

impl Marks {
    /// A set without cells. It takes all the memory that it will ever need.
    pub fn new(alloc: Global) -> Result<Marks, Memory>
        ensures { IfOk result (λ m. m ≡ set.empty) }
    {
        let cells = Vec::with_capacity(alloc, TEXTS + 1)?;
        let seen = HashSet::with_capacity(alloc, TEXTS + 1)?;
        let rows = Vec::with_capacity(alloc, ROWS as usize)?;
        let done = Vec::with_capacity(alloc, TEXTS + 1)?;
        Ok(Marks {
            cells,
            seen,
            rows,
            done,
        })
    }

    /// Whether the set has a cell.
    pub fn has(&self, cell: Cell) -> bool
        ensures { result ≡ set.contains self.now cell }
    {
        self.seen.contains(&cell)
    }

    /// How many cells it has.
    pub fn len(&self) -> usize
        ensures { result ≡ set.len self.now }
    {
        self.cells.len()
    }

    /// The cells of the set, each once, in the order in which they were found.
    pub fn cells(&self) -> &[Cell]
        ensures all { set.from_list result.now ≡ self.now }
        ensures once { length result.now ≡ set.len self.now }
    {
        self.cells.as_slice()
    }

    /// Takes all cells out.
    pub fn clear(&mut self)
        ensures { self.new ≡ set.empty }
    {
        self.cells.clear();
        self.seen.clear();
    }
}

/// Puts a cell behind the others, where it isn't among them.
pub(crate) fn mark(cells: &mut Vec<Cell>, seen: &mut HashSet<Cell>, cell: Cell)
    requires marks { AreMarks cells.old seen.old }
    requires room { has_cell cells.old.items cell ≡ false → vec_len cells.old < TEXTS + 1 }
    ensures marks { AreMarks cells.new seen.new }
    ensures marked { cells.new.items ≡ (if has_cell cells.old.items cell then cells.old.items
        else cells.old.items ++ cell ∷ []) }
{
    if seen.contains(&cell) {
        return;
    }
    let Ok(_) = seen.insert(cell) else {
        unreachable!();
    };
    cells.push_reserved(cell);
}
