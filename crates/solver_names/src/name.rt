// The names of the Solver.
ghost use Rattle.std.specs.Prelude.{◌≡◌, ◌≤◌, ◌<◌, ◌++◌, IfOk, IfSome, OnOk, length, option_map, string_bytes};
ghost use Rattle.std.specs.Fmt.{decimal};
ghost use Rattle.cell_refs.specs.declared.limits.TheConstants.{TEXT_BYTES};
ghost use Rattle.solver_names.specs.Texts.{name_text, named};

use cell_refs::SheetId;
use itoa::Buffer;
use memory::Memory;
use std::alloc::Global;
use workbook::Workbook;

/// A name of the Solver; those of a constraint with its number.
#[derive(Clone, Copy)]
pub(crate) enum Name {
    Decisions,
    Objective,
    Goal,
    Value,
    Negative,
    Count,
    Left(u16),
    Code(u16),
    Right(u16),
}

impl Name {
    /// The name as it is spelled.
    pub(crate) fn text(self, alloc: Global) -> Result<String, Memory>
        ensures { IfOk result (λ s. string_bytes s ≡ name_text self) }
    {
        match self {
            Name::Decisions => plain(alloc, "solver_adj"),
            Name::Objective => plain(alloc, "solver_opt"),
            Name::Goal => plain(alloc, "solver_typ"),
            Name::Value => plain(alloc, "solver_val"),
            Name::Negative => plain(alloc, "solver_neg"),
            Name::Count => plain(alloc, "solver_num"),
            Name::Left(k) => with_number(alloc, "solver_lhs", k),
            Name::Code(k) => with_number(alloc, "solver_rel", k),
            Name::Right(k) => with_number(alloc, "solver_rhs", k),
        }
    }

    /// The text of the name, which is that of one sheet.
    pub(crate) fn find(
        self,
        alloc: Global,
        book: &Workbook,
        sheet: SheetId,
    ) -> Result<Option<&str>, Memory>
        ensures text { IfOk result (λ text. option_map (λ t. t.now) text
            ≡ named book.now sheet.0 self) }
        ensures short { IfOk result (λ text. IfSome text (λ t. length t.now ≤ TEXT_BYTES)) }
    {
        let name = self.text(alloc)?;
        book.text_of_name(alloc, Some(sheet), name.as_str())
    }
}

// A name without a number.
fn plain(alloc: Global, word: &str) -> Result<String, Memory>
    ensures { IfOk result (λ s. string_bytes s ≡ word.now) }
{
    Ok(String::from_str(alloc, word)?)
}

// A name with a number behind it.
fn with_number(alloc: Global, word: &str, k: u16) -> Result<String, Memory>
    ensures { IfOk result (λ s. string_bytes s ≡ word.now ++ decimal k) }
{
    let mut name = String::from_str(alloc, word)?;
    let mut buffer = Buffer::new();
    name.push_str(buffer.format(k))?;
    Ok(name)
}
