// Calls of all functions.
ghost use Rattle.std.specs.Prelude.{◌≡◌, IfOk, length};
ghost use Rattle.form_extraction.specs.Formulas.{call_part};
ghost use Rattle.formula_ast.specs.Functions.{Takes};

use crate::branches::if_part;
use crate::choices::{choose_part, iferror_part};
use crate::criteria::sumif_part;
use crate::lookups::{hlookup_part, vlookup_part};
use crate::picks::index_part;
use crate::sizes::{columns_part, rows_part};
use cell_refs::Span;
use form_parts::{FormsOfCells, Part, called_part};
use formula_ast::Func;
use memory::Memory;
use std::alloc::Global;

/// A call of a function at a place in the text.
pub fn call_part<C: FormsOfCells>(
    alloc: Global,
    forms: &C,
    whole: Span,
    function: Func,
    args: Vec<Part>,
) -> Result<Part, Memory>
    requires { Takes function (length args.items) }
    ensures { IfOk result (λ part. part ≡ call_part (C.forms forms.now) whole function args.items) }
{
    match function {
        Func::If => if_part(alloc, whole, &args),
        Func::IfError => iferror_part(alloc, whole, &args),
        Func::Choose => choose_part(alloc, whole, &args),
        Func::Index => index_part(alloc, forms, whole, &args),
        Func::VLookup => vlookup_part(alloc, forms, whole, &args),
        Func::HLookup => hlookup_part(alloc, forms, whole, &args),
        Func::SumIf => sumif_part(alloc, forms, whole, &args),
        Func::Rows => rows_part(alloc, whole, &args),
        Func::Columns => columns_part(alloc, whole, &args),
        _ => called_part(alloc, whole, function, args),
    }
}
