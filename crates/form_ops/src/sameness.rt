// Whether two arguments are one.
ghost use Rattle.std.specs.Prelude.{◌≡◌};
ghost use Rattle.affine_forms.specs.Forms.{same_form};
ghost use Rattle.form_ops.specs.Sides.{side_value};
ghost use Rattle.form_values.specs.declared.abs.AbsArg.TheVariants.{Area};
ghost use Rattle.form_table.specs.Choosing.{order_of, place_of, same_abs, same_arg, same_items, same_logical, same_text, same_value};

use crate::lifting::Side;
use crate::number_tests::are_equal;
use affine_forms::Form;
use cell_refs::ErrorKind;
use form_values::{Abs, AbsGrid, Rel};
use sheet_model::Value;

/// Whether two arguments are one.
pub(crate) fn same_side(first: &Side, second: &Side) -> bool
    ensures { result ≡ same_arg (side_value first.now) (side_value second.now) }
{
    match (first, second) {
        (Side::One(a), Side::One(b)) => same_abs(a, b),
        (Side::Area(g), Side::Area(h)) => same_grid(g, h),
        (Side::One(_), Side::Area(_)) | (Side::Area(_), Side::One(_)) => false,
    }
}

// Whether two grids are one.
fn same_grid(first: &AbsGrid, second: &AbsGrid) -> bool
    ensures { result ≡ same_arg (Area first.now) (Area second.now) }
{
    first.rows() == second.rows()
        && first.cols() == second.cols()
        && same_items(first.items(), second.items())
}

// Whether two lists of values are one.
fn same_items(first: &[Abs], second: &[Abs]) -> bool
    ensures { result ≡ same_items first.now second.now }
{
    if first.len() != second.len() {
        return false;
    }
    for (index, a) in first.iter().enumerate() {
        if !same_abs(a, &second[index]) {
            return false;
        }
    }
    true
}

// Whether two values are one.
fn same_abs(a: &Abs, b: &Abs) -> bool
    ensures { result ≡ same_abs a.now b.now }
{
    match (a, b) {
        (Abs::Known(v), Abs::Known(w)) => same_value(v, w),
        (Abs::Affine(o), Abs::Affine(p)) => same_form(&o.form, &p.form),
        (Abs::Test(o, r), Abs::Test(p, s)) => {
            same_form(&o.form, &p.form) && order_of(*r) == order_of(*s)
        }
        _ => false,
    }
}

// Whether two forms are one.
fn same_form(f: &Form, g: &Form) -> bool
    ensures { result ≡ same_form f.now g.now }
{
    f.same(g)
}

// Whether two known values are one.
fn same_value(v: &Value, w: &Value) -> bool
    ensures { result ≡ same_value v.now w.now }
{
    match (v, w) {
        (Value::Number(x), Value::Number(y)) => are_equal(*x, *y),
        (Value::Text(s), Value::Text(t)) => same_text(s.as_str().as_bytes(), t.as_str().as_bytes()),
        (Value::Logical(b), Value::Logical(c)) => same_logical(*b, *c),
        (Value::Empty, Value::Empty) => true,
        (Value::Error(k), Value::Error(l)) => place_of(*k) == place_of(*l),
        _ => false,
    }
}

// Whether two texts are one.
fn same_text(s: &[u8], t: &[u8]) -> bool
    ensures { result ≡ same_text s.now t.now }
{
    if s.len() != t.len() {
        return false;
    }
    for (index, b) in s.iter().enumerate() {
        if *b != t[index] {
            return false;
        }
    }
    true
}

// Whether two logicals are one.
fn same_logical(b: bool, c: bool) -> bool
    ensures { result ≡ same_logical b c }
{
    if b { c } else { !c }
}

// The place of an error in the list of them.
fn place_of(kind: ErrorKind) -> u8
    ensures { result ≡ place_of kind }
{
    match kind {
        ErrorKind::Div0 => 0,
        ErrorKind::Value => 1,
        ErrorKind::Ref => 2,
        ErrorKind::Num => 3,
        ErrorKind::NotAvailable => 4,
        ErrorKind::Circular => 5,
        ErrorKind::Malformed => 6,
    }
}

// The place of a relation in the list of them.
fn order_of(relation: Rel) -> u8
    ensures { result ≡ order_of relation }
{
    match relation {
        Rel::Lt => 0,
        Rel::Le => 1,
        Rel::Eq => 2,
        Rel::Ne => 3,
        Rel::Ge => 4,
        Rel::Gt => 5,
    }
}
