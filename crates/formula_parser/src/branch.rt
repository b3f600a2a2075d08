// Trees while they are read.
ghost use Rattle.std.specs.Prelude.{◌≡◌, ◌≤◌, ◌||◌, IfOk, IfSome, Option, Some, false, is_none, option_map, true};
ghost use Rattle.formula_ast.specs.Sound.{IsWithin};
ghost use Rattle.formula_ast.specs.Tree.{Infix, Minus, Missing, Percent, Plus, Tree, span_of};
ghost use Rattle.formula_grammar.specs.Parts.{prefix_of};
ghost use Rattle.formula_grammar.specs.Symbols.{Setting as Grammar, from_to};
ghost use Rattle.formula_parser.specs.Built.{both, branch, branch_of, built, either, is_whole, miscounts, no_faults, prefixed_by, taller};
ghost use Rattle.formula_parser.specs.Placed.{IsPlaced};

use cell_refs::{Op, Span};
use formula_ast::{Expr, Node};
use formula_grammar::{Sign, Symbol};
use std::alloc::{AllocError, Global};

/// The height at which a tree is lost, and the most that is told of a height.
const TALL: u16 = 513;

/// What a tree that is spelled may have that no formula may keep.
#[derive(Clone, Copy, Debug, PartialEq, Eq)]
pub struct Faults {
    /// A sheet that there isn't.
    pub lost: bool,
    /// A call with too few or too many arguments.
    pub miscounted: bool,
    /// A number that is too wide.
    pub wide: bool,
}

/// A tree with its height; there is none where it is too high or has a fault.
#[derive(Drop)]
pub struct Branch {
    pub expr: Option<Expr>,
    pub height: u16,
    pub faults: Faults,
}

/// A branch, and the place of its symbols, with the parentheses around it.
#[derive(Drop)]
pub struct Part {
    pub branch: Branch,
    pub place: Span,
}

impl Faults {
    /// A tree without faults has these.
    pub fn none() -> Faults
        ensures { result ≡ no_faults }
    {
        Faults {
            lost: false,
            miscounted: false,
            wide: false,
        }
    }

    // Whether there is one.
    fn any(self) -> bool
        ensures { result ≡ (self.lost || (self.miscounted || self.wide)) }
    {
        self.lost || self.miscounted || self.wide
    }

    /// Those of both.
    pub fn either(self, other: Faults) -> Faults
        ensures { result ≡ either self other }
    {
        Faults {
            lost: self.lost || other.lost,
            miscounted: self.miscounted || other.miscounted,
            wide: self.wide || other.wide,
        }
    }

    /// The same, and that of a call that is miscounted, if it is.
    pub fn with_miscounted(self, miscounted: bool) -> Faults
        ensures { result ≡ miscounts miscounted self }
    {
        Faults {
            miscounted: miscounted || self.miscounted,
            ..self
        }
    }
}

// From the start of the first to the end of the last.
pub fn from_to(first: Span, last: Span) -> Span
    ensures { result ≡ from_to first last }
{
    Span {
        start: first.start,
        end: last.end,
    }
}

/// The height of what stands over a part of this height.
pub fn taller(height: u16) -> u16
    ensures { result ≡ taller height }
{
    if height >= TALL - 1 { TALL } else { height + 1 }
}

// Whether a tree is low enough and has no fault.
fn is_whole(height: u16, faults: Faults) -> bool
    ensures { result ≡ is_whole height faults }
{
    height < TALL && !faults.any()
}

impl Branch {
    /// The tree, where it is whole, with its height and faults.
    pub fn of(expr: Option<Expr>, height: u16, faults: Faults) -> Branch
        ensures { result ≡ branch expr height faults }
    {
        if !is_whole(height, faults) {
            return Branch {
                expr: None,
                height,
                faults,
            };
        }
        Branch {
            expr,
            height,
            faults,
        }
    }

    /// A tree of one level without faults.
    pub fn leaf(expr: Expr) -> Branch
        ensures { result ≡ branch (Some expr) 1 no_faults }
    {
        Branch::of(Some(expr), 1, Faults::none())
    }

    /// In place of a number that is too wide.
    pub fn wide() -> Branch
        ensures { (tree : Option Tree) → result
            ≡ branch tree 1 (record { lost = false; miscounted = false; wide = true }) }
    {
        Branch::of(
            None,
            1,
            Faults {
                wide: true,
                ..Faults::none()
            },
        )
    }

    /// In place of a reference to a sheet that there isn't.
    pub fn without_sheet() -> Branch
        ensures { (tree : Option Tree) → result
            ≡ branch tree 1 (record { lost = true; miscounted = false; wide = false }) }
    {
        Branch::of(
            None,
            1,
            Faults {
                lost: true,
                ..Faults::none()
            },
        )
    }

    /// An array, or none where a number in it is too wide.
    pub fn array(expr: Option<Expr>) -> Branch
        ensures { result
            ≡ branch expr 2 (record { lost = false; miscounted = false; wide = is_none expr }) }
    {
        let faults = Faults {
            wide: expr.is_none(),
            ..Faults::none()
        };
        Branch::of(expr, 2, faults)
    }

    /// An argument that is left out.
    pub fn missing(place: Span) -> Branch
        requires { place.start ≤ place.end }
        ensures { result ≡ branch_of (Missing place) }
    {
        Branch::leaf(Expr {
            span: place,
            node: Node::Missing,
        })
    }
}

// Two trees joined by an infix operator, if there are both.
fn joined_trees(
    alloc: Global,
    place: Span,
    op: Op,
    left: Option<Expr>,
    right: Option<Expr>,
) -> Result<Option<Expr>, AllocError>
    requires forward { place.start ≤ place.end }
    requires left { IfSome left (λ t. IsWithin (span_of t) place) }
    requires right { IfSome right (λ t. IsWithin (span_of t) place) }
    ensures { IfOk result (λ e. e ≡ both (Infix place op) left right) }
{
    let Some(left) = left else {
        return Ok(None);
    };
    let Some(right) = right else {
        return Ok(None);
    };
    let left = Box::new(alloc, left)?;
    let right = Box::new(alloc, right)?;
    Ok(Some(Expr {
        span: place,
        node: Node::Infix(op, left, right),
    }))
}

// A tree with a minus before it, if there is one.
fn minus_tree(alloc: Global, place: Span, of: Option<Expr>) -> Result<Option<Expr>, AllocError>
    requires forward { place.start ≤ place.end }
    requires within { IfSome of (λ t. IsWithin (span_of t) place) }
    ensures { IfOk result (λ e. e ≡ option_map (Minus place) of) }
{
    let Some(of) = of else {
        return Ok(None);
    };
    let of = Box::new(alloc, of)?;
    Ok(Some(Expr {
        span: place,
        node: Node::Minus(of),
    }))
}

// A tree with a plus before it, if there is one.
fn plus_tree(alloc: Global, place: Span, of: Option<Expr>) -> Result<Option<Expr>, AllocError>
    requires forward { place.start ≤ place.end }
    requires within { IfSome of (λ t. IsWithin (span_of t) place) }
    ensures { IfOk result (λ e. e ≡ option_map (Plus place) of) }
{
    let Some(of) = of else {
        return Ok(None);
    };
    let of = Box::new(alloc, of)?;
    Ok(Some(Expr {
        span: place,
        node: Node::Plus(of),
    }))
}

// A tree with a % behind it, if there is one.
fn percent_tree(alloc: Global, place: Span, of: Option<Expr>) -> Result<Option<Expr>, AllocError>
    requires forward { place.start ≤ place.end }
    requires within { IfSome of (λ t. IsWithin (span_of t) place) }
    ensures { IfOk result (λ e. e ≡ option_map (Percent place) of) }
{
    let Some(of) = of else {
        return Ok(None);
    };
    let of = Box::new(alloc, of)?;
    Ok(Some(Expr {
        span: place,
        node: Node::Percent(of),
    }))
}

impl Part {
    /// Two parts joined by an infix operator.
    pub fn infix(alloc: Global, op: Op, left: Part, right: Part) -> Result<Part, AllocError>
        requires left { IsPlaced left }
        requires right { IsPlaced right }
        requires order { left.place.end ≤ right.place.start }
        ensures made { IfOk result (λ x. (S : Grammar) → x ≡ (built S).joined op left right) }
        ensures placed { IfOk result IsPlaced }
    {
        let place = from_to(left.place, right.place);
        let height = taller(left.branch.height.max(right.branch.height));
        let faults = left.branch.faults.either(right.branch.faults);
        let expr = joined_trees(alloc, place, op, left.branch.expr, right.branch.expr)?;
        Ok(Part {
            branch: Branch::of(expr, height, faults),
            place,
        })
    }

    /// The part with a % behind it.
    pub fn in_hundredths(self, alloc: Global, sign: Symbol) -> Result<Part, AllocError>
        requires placed { IsPlaced self }
        requires order { self.place.end ≤ sign.span.end }
        ensures made { IfOk result (λ x. (S : Grammar) → x ≡ (built S).in_hundredths self sign) }
        ensures placed { IfOk result IsPlaced }
    {
        let place = from_to(self.place, sign.span);
        let height = taller(self.branch.height);
        let faults = self.branch.faults;
        let expr = percent_tree(alloc, place, self.branch.expr)?;
        Ok(Part {
            branch: Branch::of(expr, height, faults),
            place,
        })
    }

    /// The part with a sign before it; as it is, where the symbol is no sign.
    pub fn with_sign(self, alloc: Global, sign: Symbol) -> Result<Part, AllocError>
        requires placed { IsPlaced self }
        requires order { sign.span.start ≤ self.place.start }
        ensures made { IfOk result (λ x. (S : Grammar) → x
            ≡ prefixed_by (built S) (prefix_of sign.sign) sign self) }
        ensures placed { IfOk result IsPlaced }
    {
        let place = from_to(sign.span, self.place);
        let height = taller(self.branch.height);
        let faults = self.branch.faults;
        match sign.sign {
            Sign::Plus => {
                let expr = plus_tree(alloc, place, self.branch.expr)?;
                let branch = Branch::of(expr, height, faults);
                Ok(Part { branch, place })
            }
            Sign::Minus => {
                let expr = minus_tree(alloc, place, self.branch.expr)?;
                let branch = Branch::of(expr, height, faults);
                Ok(Part { branch, place })
            }
            _ => Ok(self),
        }
    }

    /// The part in parentheses.
    pub fn in_parentheses(self, first: Symbol, last: Symbol) -> Part
        requires placed { IsPlaced self }
        requires before { first.span.start ≤ self.place.start }
        requires behind { self.place.end ≤ last.span.end }
        ensures made { (S : Grammar) → result ≡ (built S).enclosed first self last }
        ensures placed { IsPlaced result }
    {
        Part {
            branch: self.branch,
            place: from_to(first.span, last.span),
        }
    }
}
