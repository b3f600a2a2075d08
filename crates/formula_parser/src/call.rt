// Calls of functions.
ghost use Rattle.std.specs.Prelude.{◌≡◌, ◌≤◌, All, IfNone, IfOk, IfSome, Some, length, option_map, true};
ghost use Rattle.formula_ast.specs.Sound.{AreSoundWithin, IsSound};
ghost use Rattle.formula_ast.specs.Tree.{trees};
ghost use Rattle.formula_grammar.specs.Parts.{call_tree};
ghost use Rattle.formula_grammar.specs.Symbols.{from_to};
ghost use Rattle.formula_parser.specs.Built.{all_trees, any_faults, built, most_of, over_call, refuses};
ghost use Rattle.formula_parser.specs.Placed.{IsBetween, IsInText, IsPlaced};
ghost use Rattle.formula_parser.specs.Settings.{seen};

use crate::branch::{Branch, Faults, Part, from_to, taller};
use crate::setting::Setting;
use cell_refs::Span;
use formula_ast::{Expr, Func, Node};
use formula_grammar::Symbol;
use std::alloc::{AllocError, Global};

// The greatest height of some branches.
fn greatest_height(args: &[Branch]) -> u16
    ensures { result ≡ most_of args.now }
{
    let mut most = 0;
    for arg in args {
        most = arg.height.max(most);
    }
    most
}

// What faults some branches have.
fn all_faults(args: &[Branch]) -> Faults
    ensures { result ≡ any_faults args.now }
{
    let mut faults = Faults::none();
    for arg in args {
        faults = faults.either(arg.faults);
    }
    faults
}

// The trees of all, if each has one.
fn all_exprs(alloc: Global, args: Vec<Branch>) -> Result<Option<Vec<Expr>>, AllocError>
    ensures trees { IfOk result (λ o. option_map (λ v. v.items) o ≡ all_trees args.items) }
    ensures sound { IfOk result (λ o. IfSome o (λ v. All IsSound v.items)) }
{
    let mut exprs = Vec::new(alloc);
    for arg in args {
        let Some(expr) = arg.expr else {
            return Ok(None);
        };
        expr.soundness();
        exprs.push(expr)?;
    }
    Ok(Some(exprs))
}

// The call of a function, or of a name that no function has, with these arguments, if there are some.
fn call_of(
    alloc: Global,
    func: Option<Func>,
    name: &str,
    place: Span,
    args: Option<Vec<Expr>>,
) -> Result<Option<Expr>, AllocError>
    requires forward { place.start ≤ place.end }
    requires within { IfSome args (λ v. AreSoundWithin place (trees v.items)) }
    ensures call { IfOk result (λ o. IfSome o (λ e.
        option_map (call_tree func name.now place) (option_map (λ v. v.items) args) ≡ Some e)) }
    ensures none { IfOk result
        (λ o. IfNone o (IfSome args (λ v. refuses func (length v.items) ≡ true))) }
{
    let Some(args) = args else {
        return Ok(None);
    };
    match func {
        Some(func) => Ok(Expr::call(place, func, args)),
        None => {
            let name = String::from_str(alloc, name)?;
            Ok(Some(Expr {
                span: place,
                node: Node::Unknown(name, args),
            }))
        }
    }
}

// Whether the function, if there is one, takes another number of arguments.
fn refuses(func: Option<Func>, arguments: usize) -> bool
    ensures { result ≡ refuses func arguments }
{
    match func {
        Some(func) => !func.takes(arguments),
        None => false,
    }
}

// A call with these arguments.
fn part_of_call(
    alloc: Global,
    func: Option<Func>,
    name: &str,
    place: Span,
    args: Vec<Branch>,
) -> Result<Part, AllocError>
    requires forward { place.start ≤ place.end }
    requires within { All (IsBetween place) args.items }
    ensures made { IfOk result (λ x. x
        ≡ record { branch = over_call func name.now place args.items; place = place }) }
    ensures placed { IfOk result IsPlaced }
{
    let height = taller(greatest_height(&args));
    let faults = all_faults(&args).with_miscounted(refuses(func, args.len()));
    let args = all_exprs(alloc, args)?;
    let expr = call_of(alloc, func, name, place, args)?;
    Ok(Part {
        branch: Branch::of(expr, height, faults),
        place,
    })
}

/// A call of the function with the name, with these arguments, up to the closing parenthesis.
pub fn call_of_name(
    alloc: Global,
    setting: &Setting,
    name: Symbol,
    args: Vec<Branch>,
    close: Symbol,
) -> Result<Part, AllocError>
    requires name { IsInText setting.now.text.now name }
    requires forward { name.span.start ≤ close.span.end }
    requires within { All (IsBetween (from_to name.span close.span)) args.items }
    ensures made { IfOk result (λ x. x ≡ (built (seen setting.now)).called name args.items close) }
    ensures placed { IfOk result IsPlaced }
{
    let place = from_to(name.span, close.span);
    let text = setting.slice(name);
    part_of_call(alloc, Func::find(text), text, place, args)
}
