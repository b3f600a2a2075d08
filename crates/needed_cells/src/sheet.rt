// A sheet with the forms of its places.
use extract::FormTable;
use formula_ast::Expr;
use workbook::{Adj, Place, Workbook};

/// A workbook, its cells to be decided, the expressions of right sides, the forms of all places whose forms can be kept, and the
/// places from which a model is made.
#[derive(Drop)]
pub(crate) struct Sheet<'a> {
    pub(crate) book: &'a Workbook,
    pub(crate) adj: &'a Adj,
    pub(crate) sides: &'a [(u16, Expr)],
    pub(crate) forms: &'a FormTable,
    pub(crate) roots: &'a [Place],
}
