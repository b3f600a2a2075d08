// The functions of formulas.
ghost use Rattle.std.specs.Prelude.{◌≡◌, ◌↔◌, IfNone, IfSome, IsTrue};
ghost use Rattle.formula_ast.specs.Functions.{IsNameOf, Takes, func_in, least_of, most_of, name_of, table};
ghost use Rattle.formula_ast.specs.declared.func.Func.{Func};

/// A function of formulas, by its name.
#[derive(Clone, Copy, Debug, PartialEq, Eq)]
pub enum Func {
    Sum,
    Average,
    Count,
    SumProduct,
    MMult,
    Transpose,
    Index,
    Match,
    VLookup,
    HLookup,
    Choose,
    SumIf,
    CountIf,
    If,
    IfError,
    And,
    Or,
    Not,
    True,
    False,
    Abs,
    Min,
    Max,
    Int,
    Mod,
    Round,
    Power,
    N,
    IsNumber,
    IsBlank,
    Rows,
    Columns,
}

impl Func {
    /// All functions.
    const ALL: [Func; 32] = [
        Func::Sum,
        Func::Average,
        Func::Count,
        Func::SumProduct,
        Func::MMult,
        Func::Transpose,
        Func::Index,
        Func::Match,
        Func::VLookup,
        Func::HLookup,
        Func::Choose,
        Func::SumIf,
        Func::CountIf,
        Func::If,
        Func::IfError,
        Func::And,
        Func::Or,
        Func::Not,
        Func::True,
        Func::False,
        Func::Abs,
        Func::Min,
        Func::Max,
        Func::Int,
        Func::Mod,
        Func::Round,
        Func::Power,
        Func::N,
        Func::IsNumber,
        Func::IsBlank,
        Func::Rows,
        Func::Columns,
    ];

    /// The name, in capital letters.
    pub fn name(self) -> &'static str
        ensures { result.now ≡ name_of self }
    {
        row(self).0
    }

    /// The function of this name, in any case of letters.
    pub fn find(name: &str) -> Option<Func>
        ensures found { IfSome result (λ f. IsNameOf f name.now) }
        ensures only { IfSome result (λ f. (other : Func) → IsNameOf other name.now → other ≡ f) }
        ensures none { IfNone result ((f : Func) → IsNameOf f name.now → ⊥) }
        ensures first { result ≡ func_in name.now }
    {
        for func in Func::ALL.iter() {
            if func.name().eq_ignore_ascii_case(name) {
                return Some(*func);
            }
        }
        None
    }

    /// Whether it takes so many arguments.
    pub fn takes(self, arguments: usize) -> bool
        ensures { IsTrue result ↔ Takes self arguments }
    {
        let (least, most) = counts(self);
        least as usize <= arguments && (most == 255 || arguments <= most as usize)
    }
}

/// The least and the greatest number of arguments of a function; 255 stands for no greatest.
pub fn counts(func: Func) -> (u8, u8)
    ensures { result ≡ (least_of func, most_of func) }
{
    let (_, least, most) = row(func);
    (least, most)
}

// The name of a function, and its least and greatest number of arguments.
fn row(func: Func) -> (&'static str, u8, u8)
    ensures { (result.0.now, result.1, result.2) ≡ table func }
{
    match func {
        Func::Sum => ("SUM", 1, 255),
        Func::Average => ("AVERAGE", 1, 255),
        Func::Count => ("COUNT", 1, 255),
        Func::SumProduct => ("SUMPRODUCT", 1, 255),
        Func::MMult => ("MMULT", 2, 2),
        Func::Transpose => ("TRANSPOSE", 1, 1),
        Func::Index => ("INDEX", 2, 3),
        Func::Match => ("MATCH", 2, 3),
        Func::VLookup => ("VLOOKUP", 3, 4),
        Func::HLookup => ("HLOOKUP", 3, 4),
        Func::Choose => ("CHOOSE", 2, 255),
        Func::SumIf => ("SUMIF", 2, 3),
        Func::CountIf => ("COUNTIF", 2, 2),
        Func::If => ("IF", 2, 3),
        Func::IfError => ("IFERROR", 2, 2),
        Func::And => ("AND", 1, 255),
        Func::Or => ("OR", 1, 255),
        Func::Not => ("NOT", 1, 1),
        Func::True => ("TRUE", 0, 0),
        Func::False => ("FALSE", 0, 0),
        Func::Abs => ("ABS", 1, 1),
        Func::Min => ("MIN", 1, 255),
        Func::Max => ("MAX", 1, 255),
        Func::Int => ("INT", 1, 1),
        Func::Mod => ("MOD", 2, 2),
        Func::Round => ("ROUND", 1, 2),
        Func::Power => ("POWER", 2, 2),
        Func::N => ("N", 1, 1),
        Func::IsNumber => ("ISNUMBER", 1, 1),
        Func::IsBlank => ("ISBLANK", 1, 1),
        Func::Rows => ("ROWS", 1, 1),
        Func::Columns => ("COLUMNS", 1, 1),
    }
}
