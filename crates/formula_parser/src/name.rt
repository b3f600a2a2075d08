// The reference that a name stands for.
ghost use Rattle.std.specs.Prelude.{◌≡◌, ◌+◌, ◌<◌, ◌≤◌, IfOk, IfSome, length};
ghost use Rattle.std.specs.Option.{option_and_then};
ghost use Rattle.cell_refs.specs.declared.limits.TheConstants.{TEXT_BYTES};
ghost use Rattle.cell_refs.specs.Areas.{IsOnSheet};
ghost use Rattle.formula_grammar.specs.LeafReading.{reference_at};
ghost use Rattle.formula_parser.specs.Leaves.{area_of};
ghost use Rattle.formula_parser.specs.Placed.{AreSymbols};
ghost use Rattle.formula_parser.specs.Settings.{seen};
ghost use Rattle.formula_parser.specs.TextTrees.{area_in, to_the_end};

use crate::reference::reference;
use crate::setting::Setting;
use crate::stop::Stop;
use crate::symbols::symbols_of;
use cell_refs::{Area, Memory, SheetId, SheetNames};
use formula_grammar::Symbol;
use formula_lexer::{LexFault, tokens};
use std::alloc::Global;

/// The area of a text that is one reference and nothing else, as it stands in a formula on the sheet `home` (OpenDocument 1.2
/// part 2, section 5.8); none where it is no such text, or where there is no such sheet.
pub fn parse_reference(
    alloc: Global,
    text: &str,
    home: SheetId,
    sheets: &SheetNames,
) -> Result<Option<Area>, Memory>
    requires length { length text.now ≤ TEXT_BYTES + 1 }
    requires listed { home.0 < length sheets.now }
    ensures area { IfOk result (λ area. area
        ≡ area_in (record { text = text.now; home = home.0; sheets = sheets.now })) }
    ensures on_sheet { IfOk result (λ area. IfSome area IsOnSheet) }
{
    let cut = match tokens(alloc, text) {
        Ok(cut) => cut,
        Err(LexFault::At(_)) => return Ok(None),
        Err(LexFault::Memory) => return Err(Memory),
    };
    let Ok(symbols) = symbols_of(alloc, text.as_bytes(), &cut) else {
        return Err(Memory);
    };
    let setting = Setting { text, home, sheets };
    whole_reference(alloc, &setting, &symbols)
}

// The area of the reference that all symbols are.
fn whole_reference(
    alloc: Global,
    setting: &Setting,
    symbols: &[Symbol],
) -> Result<Option<Area>, Memory>
    requires { AreSymbols setting.now.text.now symbols.now }
    ensures area { IfOk result (λ area. area
        ≡ option_and_then area_of (to_the_end (reference_at (seen setting.now) symbols.now))) }
    ensures on_sheet { IfOk result (λ area. IfSome area IsOnSheet) }
{
    match reference(alloc, setting, symbols) {
        Ok((area, [])) => Ok(area),
        Ok(_) => Ok(None),
        Err(Stop::Syntax) => Ok(None),
        Err(Stop::Memory) => Err(Memory),
    }
}
