// A cell with a text.

use crate::Kind;
use cell_refs::Cell;
use formula_ast::Expr;

/// A cell with a text, and what is read of it.
#[derive(Clone, Copy)]
pub struct TextCell<'a> {
    pub cell: Cell,
    pub text: &'a str,
    pub kind: Kind,
    /// The tree of a formula, with what names stand for in their places; none of what is no formula.
    pub tree: Option<&'a Expr>,
}
