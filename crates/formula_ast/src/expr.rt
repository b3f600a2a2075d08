// Parts of formulas.
ghost use Rattle.std.specs.Prelude.{◌≡◌, ◌≤◌, ◌++◌, IfOk, IfSome, IfNone, length};
ghost use Rattle.formula_ast.specs.Functions.{Takes};
ghost use Rattle.formula_ast.specs.Measures.{all_references_of, references_of};
ghost use Rattle.formula_ast.specs.Sound.{IsSound, AreSoundWithin};
ghost use Rattle.formula_ast.specs.Tree.{Call, trees};

use crate::func::Func;
use cell_refs::{Area, ErrorKind, Memory, Op, Span};
use frac128::Frac;
use std::alloc::Global;
use std::marker::Model;

/// A part of a formula, with its place in the formula's text.
#[cycle(expr)]
#[derive(Drop)]
pub struct Expr {
    pub span: Span,
    pub node: Node,
}

/// What a part is.
#[cycle(expr)]
#[derive(Drop)]
pub enum Node {
    Number(Frac),
    Text(String),
    Logical(bool),
    Fault(ErrorKind),
    /// An argument that is left out.
    Missing,
    /// The numbers of rows and columns, and the items row by row.
    Array(u16, u16, Vec<Expr>),
    /// The areas of a union, one for a reference.
    Reference(Vec<Area>),
    Name(String),
    /// A call of a function that there isn't.
    Unknown(String, Vec<Expr>),
    Call(Func, Vec<Expr>),
    Plus(Box<Expr>),
    Minus(Box<Expr>),
    Percent(Box<Expr>),
    Infix(Op, Box<Expr>, Box<Expr>),
}

impl Model for Expr {
    ghost use Rattle.formula_ast.specs.Tree.{Tree};

    ghost Value = { Tree };

    ghost use Rattle.std.specs.Coded.{codes, code_by, coded_list};
    ghost use Rattle.formula_ast.specs.Code.{Mark, to_marks, from_marks, back};
    ghost use Rattle.std.specs.Prelude.{List};

    ghost coded = { code_by (List Mark) (Prim.hlevel codes) to_marks from_marks back };

    ghost use Rattle.formula_ast.specs.View.{tree_of};

    ghost view = { λ e. tree_of e.span e.node };

    ghost use Rattle.formula_ast.specs.Sound.{IsSound};

    ghost invariant = { λ e. IsSound (tree_of e.span e.node) };

    ghost use Rattle.formula_ast.specs.Size.{node_count};

    ghost size = { node_count };

    ghost use Rattle.formula_ast.specs.TreeFalls.{depth_le-node_count};

    ghost size_decreases = { λ a h. depth_le-node_count a.span a.node };
}

impl Expr {
    /// A call; none where the function takes another number of arguments.
    pub fn call(span: Span, func: Func, args: Vec<Expr>) -> Option<Expr>
        requires forward { span.start ≤ span.end }
        requires within { AreSoundWithin span (trees args.items) }
        ensures found { IfSome result (λ e. Takes func (length args.items)
            × (e ≡ Call span func (trees args.items))) }
        ensures none { IfNone result (Takes func (length args.items) → ⊥) }
    {
        if !func.takes(args.len()) {
            return None;
        }
        Some(Expr {
            span,
            node: Node::Call(func, args),
        })
    }

    /// An equal tree.
    #[cycle(copying)]
    pub fn copy(&self, alloc: Global) -> Result<Expr, Memory>
        ensures { IfOk result (λ e. e ≡ self.now) }
    {
        let span = self.span;
        let node = match &self.node {
            Node::Number(x) => Node::Number(*x),
            Node::Text(text) => Node::Text(text.clone()?),
            Node::Logical(holds) => Node::Logical(*holds),
            Node::Fault(kind) => Node::Fault(*kind),
            Node::Missing => Node::Missing,
            Node::Array(rows, columns, items) => {
                Node::Array(*rows, *columns, copies(alloc, items)?)
            }
            Node::Reference(areas) => Node::Reference(Vec::from_slice(alloc, areas)?),
            Node::Name(name) => Node::Name(name.clone()?),
            Node::Unknown(name, args) => Node::Unknown(name.clone()?, copies(alloc, args)?),
            Node::Call(func, args) => Node::Call(*func, copies(alloc, args)?),
            Node::Plus(of) => Node::Plus(Box::new(alloc, of.copy(alloc)?)?),
            Node::Minus(of) => Node::Minus(Box::new(alloc, of.copy(alloc)?)?),
            Node::Percent(of) => Node::Percent(Box::new(alloc, of.copy(alloc)?)?),
            Node::Infix(op, left, right) => {
                let left = Box::new(alloc, left.copy(alloc)?)?;
                let right = Box::new(alloc, right.copy(alloc)?)?;
                Node::Infix(*op, left, right)
            }
        };
        Ok(Expr { span, node })
    }

    /// The areas to which the tree refers, from left to right.
    pub fn references(&self, alloc: Global) -> Result<Vec<Area>, Memory>
        ensures { IfOk result (λ v. v.items ≡ references_of self.now) }
    {
        let mut found = Vec::new(alloc);
        self.add_references(&mut found)?;
        Ok(found)
    }

    // Adds the areas to which the tree refers.
    #[cycle(referring)]
    fn add_references(&self, found: &mut Vec<Area>) -> Result<(), Memory>
        ensures { IfOk result (λ _. found.new.items ≡ found.old.items ++ references_of self.now) }
    {
        match &self.node {
            Node::Array(_, _, items) => add_all_references(items, found),
            Node::Reference(areas) => Ok(found.extend_from_slice(areas)?),
            Node::Unknown(_, args) => add_all_references(args, found),
            Node::Call(_, args) => add_all_references(args, found),
            Node::Plus(of) => of.add_references(found),
            Node::Minus(of) => of.add_references(found),
            Node::Percent(of) => of.add_references(found),
            Node::Infix(_, left, right) => {
                left.add_references(found)?;
                right.add_references(found)
            }
            _ => Ok(()),
        }
    }

    /// Every tree is sound: the spans of its parts nest, its calls have as many arguments as their functions take, its
    /// arrays are rectangular, and its references have at least one area, each on its sheet.
    pub fn soundness(&self)
        ensures { IsSound self.now }
    {
        let _span = self.span;
    }
}

#[cycle(referring)]
fn add_all_references(exprs: &[Expr], found: &mut Vec<Area>) -> Result<(), Memory>
    ensures { IfOk result (λ _. found.new.items
        ≡ found.old.items ++ all_references_of (trees exprs.now)) }
{
    for expr in exprs {
        expr.add_references(found)?;
    }
    Ok(())
}

#[cycle(copying)]
fn copies(alloc: Global, exprs: &[Expr]) -> Result<Vec<Expr>, Memory>
    ensures { IfOk result (λ v. v.items ≡ exprs.now) }
{
    let mut copies = Vec::new(alloc);
    for expr in exprs {
        copies.push(expr.copy(alloc)?)?;
    }
    Ok(copies)
}
