// The infix operators of a formula.

/// An infix operator, by what it does to its two sides. `Cat` joins texts, and the last six compare.
#[derive(Clone, Copy, Debug, PartialEq, Eq)]
pub enum Op {
    Add,
    Sub,
    Mul,
    Div,
    Pow,
    Cat,
    Eq,
    Ne,
    Lt,
    Le,
    Gt,
    Ge,
}
