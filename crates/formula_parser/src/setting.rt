// Where a formula stands.
ghost use Rattle.std.specs.Prelude.{◌≡◌, ◌≤◌, [], ◌∷◌, length, IfSome, MatchOption};
ghost use Rattle.std.specs.Str.{IsCharBoundary};
ghost use Rattle.formula_grammar.specs.Symbols.{bytes_of};
ghost use Rattle.formula_parser.specs.Settings.{seen};
ghost use Rattle.formula_parser.specs.Placed.{AreSymbols, IsInText};

use cell_refs::{SheetId, SheetNames};
use formula_grammar::Symbol;

/// A formula's text, the sheet on which it stands, and the names of all sheets.
#[derive(Drop)]
pub struct Setting<'a> {
    pub text: &'a str,
    pub home: SheetId,
    pub sheets: &'a SheetNames,
}

impl<'a> Setting<'a> {
    /// The bytes of a symbol, as a text.
    pub fn slice(&self, symbol: Symbol) -> &'a str
        requires { IsInText self.now.text.now symbol }
        ensures { result.now ≡ bytes_of (seen self.now) symbol }
    {
        &self.text[symbol.span.start as usize..symbol.span.end as usize]
    }

    /// The first symbol, and the others.
    pub fn first<'b>(&self, symbols: &'b [Symbol]) -> Option<(Symbol, &'b [Symbol])>
        requires { AreSymbols self.now.text.now symbols.now }
        ensures front { MatchOption result (symbols.now ≡ []) (λ x. symbols.now ≡ x.0 ∷ x.1.now) }
        ensures pieces { IfSome result (λ x. IsInText self.now.text.now x.0
            × AreSymbols self.now.text.now x.1.now) }
    {
        match symbols {
            [] => None,
            [symbol, rest @ ..] => Some((*symbol, rest)),
        }
    }
}
