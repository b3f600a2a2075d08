// What the names of a sheet state.

use cell_refs::{Cell, SheetId};
use optimality::{Goal, Relation};
use workbook::{Adj, Place};

/// An expanded row: its number from 1 on, and its two sides in a relation.
#[derive(Clone, Copy)]
pub struct RowOf {
    pub k: u16,
    pub left: Cell,
    pub rel: Relation,
    pub right: Place,
}

/// The cells to be decided, what is wanted of the objective, and the rows. The lists `whole`, `binary` and `explicit` have the
/// numbers, from 0 on and rising, of the cells that are to be whole, of those that are to be 0 or 1, and of those with a lower
/// bound of their own. `different` has a list for each constraint whose cells are to be different: their numbers, in the order of
/// its left side.
#[derive(Drop)]
pub struct Statement {
    pub sheet: SheetId,
    pub adj: Adj,
    pub objective: Option<Cell>,
    pub goal: Goal,
    pub rows: Vec<RowOf>,
    pub whole: Vec<u16>,
    pub binary: Vec<u16>,
    pub explicit: Vec<u16>,
    pub different: Vec<Vec<u16>>,
    pub not_negative: bool,
}
