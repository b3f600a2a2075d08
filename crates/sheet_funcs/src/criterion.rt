// Criteria, each read once for many elements.
ghost use Rattle.std.specs.Prelude.{◌≡◌, ◌≢◌, option_map};
ghost use Rattle.cell_refs.specs.declared.error_kind.ErrorKind.{ErrorKind};
ghost use Rattle.sheet_model.specs.declared.value.Value.{Value};
ghost use Rattle.sheet_model.specs.declared.value.Value.TheVariants.{Error};
ghost use Rattle.sheet_funcs.specs.Criteria.{meets, meets_text, operand, relation_in, stands_in};
ghost use Rattle.sheet_funcs.specs.ReadCriteria.{IsReadOf, behind_greater, behind_less, is_met};

use cell_refs::Op;
use frac128::Frac;
use sheet_model::{Value, asks_for, compare_numbers, compare_texts};

/// When an element meets a criterion: never, where it is empty, where it is neither empty nor an error, where it stands in a
/// relation to a number or to a text, or where it is this logical.
#[derive(Clone, Copy)]
pub(crate) enum Criterion<'a> {
    Never,
    Nothing,
    Something,
    Number(Op, Frac),
    Text(Op, &'a str),
    Logical(bool),
}

/// Whether the element meets the criterion: a text asks for the relation whose sign it begins with, and else for what is equal,
/// in any case of letters.
pub fn meets(item: &Value, criterion: &Value) -> bool
    requires { (k : ErrorKind) → criterion.now ≢ Error k }
    ensures { result ≡ meets criterion.now item.now }
{
    read(criterion).is_met(item)
}

/// The criterion that a value is; an error is met by nothing.
pub(crate) fn read(criterion: &Value) -> Criterion<'_>
    ensures { IsReadOf result criterion.now }
{
    match criterion {
        Value::Text(text) => read_text(text.as_str()),
        Value::Number(number) => Criterion::Number(Op::Eq, *number),
        Value::Logical(holds) => Criterion::Logical(*holds),
        Value::Empty | Value::Error(_) => Criterion::Never,
    }
}

// The criterion that a text is.
fn read_text(text: &str) -> Criterion<'_>
    ensures { (v : Value) → is_met result v ≡ meets_text text.now (relation_in text.now) v }
{
    match relation_in(text) {
        None => by_relation(Op::Eq, text),
        Some((Op::Eq, "")) => Criterion::Nothing,
        Some((Op::Ne, "")) => Criterion::Something,
        Some((relation, "")) => Criterion::Text(relation, ""),
        Some((relation, rest)) => by_relation(relation, rest),
    }
}

// The relation to what a text stands for: a number where it is a numeral, and else itself.
fn by_relation(relation: Op, text: &str) -> Criterion<'_>
    ensures { (v : Value) → is_met result v ≡ stands_in relation (operand text.now) v }
{
    match Frac::read(text) {
        Ok(number) => Criterion::Number(relation, number),
        Err(_) => Criterion::Text(relation, text),
    }
}

// The relation that a text asks for in front, and the rest of the text.
fn relation_in(text: &str) -> Option<(Op, &str)>
    ensures { option_map (λ r. (r.0, r.1.now)) result ≡ relation_in text.now }
{
    if let Some(rest) = text.strip_prefix('<') {
        return Some(behind_less(rest));
    }
    if let Some(rest) = text.strip_prefix('>') {
        return Some(behind_greater(rest));
    }
    let rest = text.strip_prefix('=')?;
    Some((Op::Eq, rest))
}

// The relation that begins with '<', and the rest of the text.
fn behind_less(text: &str) -> (Op, &str)
    ensures { (result.0, result.1.now) ≡ behind_less text.now }
{
    if let Some(rest) = text.strip_prefix('=') {
        return (Op::Le, rest);
    }
    if let Some(rest) = text.strip_prefix('>') {
        return (Op::Ne, rest);
    }
    (Op::Lt, text)
}

// The relation that begins with '>', and the rest of the text.
fn behind_greater(text: &str) -> (Op, &str)
    ensures { (result.0, result.1.now) ≡ behind_greater text.now }
{
    if let Some(rest) = text.strip_prefix('=') {
        return (Op::Ge, rest);
    }
    (Op::Gt, text)
}

impl Criterion<'_> {
    /// Whether the element meets it.
    pub(crate) fn is_met(&self, item: &Value) -> bool
        ensures { result ≡ is_met self.now item.now }
    {
        match (self, item) {
            (Criterion::Never, _) | (_, Value::Error(_)) => false,
            (Criterion::Nothing, _) => matches!(item, Value::Empty),
            (Criterion::Something, _) => !matches!(item, Value::Empty),
            (Criterion::Number(relation, number), Value::Number(found)) => {
                asks_for(*relation, compare_numbers(*found, *number))
            }
            (Criterion::Text(relation, text), Value::Text(found)) => {
                let order = compare_texts(found.as_str().as_bytes(), text.as_bytes());
                asks_for(*relation, order)
            }
            (Criterion::Logical(holds), Value::Logical(found)) => found == holds,
            (Criterion::Number(relation, _) | Criterion::Text(relation, _), _) => {
                *relation == Op::Ne
            }
            (Criterion::Logical(_), _) => false,
        }
    }
}
