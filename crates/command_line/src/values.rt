// The values of options.
ghost use Rattle.std.specs.Prelude.{◌≡◌, ◌≤◌, IfSome, option_map};
ghost use Rattle.cell_refs.specs.declared.units.TheConstants.{MOST_UNITS};
ghost use Rattle.command_line.specs.Read.{pick_read};
ghost use Rattle.command_line.specs.Words as line;

use crate::words::{DEFAULT_BUDGET, Pick};
use cell_refs::units_in;

/// How many units a search may spend, of the text that is given.
pub(crate) fn budget_of(text: Option<&str>) -> Option<u64>
    ensures read { result ≡ line.budget_of (option_map (λ t. t.now) text.entry) }
    ensures few { IfSome result (λ n. n ≤ MOST_UNITS) }
{
    match text {
        Some(text) => units_in(text),
        None => Some(DEFAULT_BUDGET),
    }
}

/// The picker, of the text that is given.
pub(crate) fn pick_of(text: Option<&str>) -> Option<Pick>
    ensures { option_map pick_read result ≡ line.pick_of (option_map (λ t. t.now) text.entry) }
{
    match text {
        Some("depth") | None => Some(Pick::Depth),
        Some("best") => Some(Pick::Best),
        Some("oldest") => Some(Pick::Oldest),
        Some(_) => None,
    }
}
