// Unions: references joined by `~`.
ghost use Rattle.std.specs.Prelude.{◌≡◌, ◌++◌, ◌||◌, All, Bool, false, IfErr, IfOk, IfSome, List, MatchOption, Option, option_map};
ghost use Rattle.formula_grammar.specs.LeafReading.{is_tilde, reference_at, starts_with, union_at};
ghost use Rattle.cell_refs.specs.Areas.{Area, IsOnSheet};
ghost use Rattle.formula_grammar.specs.declared.symbol.Symbol.{Symbol};
ghost use Rattle.formula_parser.specs.Given.{Fails, Gives, StartsWith};
ghost use Rattle.formula_parser.specs.Leaves.{IsAdded, area_of, areas_of, is_missing, some_area};
ghost use Rattle.formula_parser.specs.Placed.{AreSymbols};
ghost use Rattle.formula_parser.specs.Settings.{seen};

use crate::reference::reference;
use crate::setting::Setting;
use crate::stop::Stop;
use cell_refs::Area;
use formula_grammar::{Sign, Symbol};
use std::alloc::{AllocError, Global};

/// The areas of a union that are on listed sheets, and whether one is not.
#[derive(Drop)]
pub struct Union {
    pub areas: Vec<Area>,
    pub lost: bool,
}

impl Union {
    // Adds an area, or that there is no such sheet.
    fn add(&mut self, area: Option<Area>) -> Result<(), AllocError>
        ensures added { IfOk result (λ _. (self.new.areas.items ≡ self.old.areas.items
            ++ some_area area) × (self.new.lost ≡ (self.old.lost || is_missing area))) }
        ensures on_sheet { IfOk result (λ _. All IsOnSheet self.old.areas.items
            → All IsOnSheet self.new.areas.items) }
    {
        match area {
            Some(area) => Ok(self.areas.push(area)?),
            None => {
                self.lost = true;
                Ok(())
            }
        }
    }

    // Adds the reference at the front, and gives the symbols behind it.
    fn add_reference<'a>(
        &mut self,
        alloc: Global,
        setting: &Setting,
        symbols: &'a [Symbol],
    ) -> Result<&'a [Symbol], Stop>
        requires { AreSymbols setting.now.text.now symbols.now }
        ensures ok { IfOk result (λ rest. IsAdded (seen setting.now) symbols.now
            self.old.areas.items self.old.lost self.new.areas.items self.new.lost rest.now) }
        ensures err { IfErr result (λ stop. Fails {Y = Option Area × List Symbol} stop
            (option_map (λ f. (area_of f.0, f.1)) (reference_at (seen setting.now) symbols.now))) }
        ensures on_sheet { IfOk result (λ _. All IsOnSheet self.old.areas.items
            → All IsOnSheet self.new.areas.items) }
        ensures rest { IfOk result (λ rest. AreSymbols setting.now.text.now rest.now) }
    {
        match reference(alloc, setting, symbols) {
            Ok((area, rest)) => {
                self.add(area)?;
                Ok(rest)
            }
            Err(stop) => Err(stop),
        }
    }
}

// The symbols behind a `~` at the front.
fn behind_tilde<'a>(setting: &Setting, symbols: &'a [Symbol]) -> Option<&'a [Symbol]>
    requires { AreSymbols setting.now.text.now symbols.now }
    ensures front { MatchOption result (starts_with is_tilde symbols.now ≡ false)
        (λ rest. StartsWith is_tilde symbols.now rest.now) }
    ensures rest { IfSome result (λ rest. AreSymbols setting.now.text.now rest.now) }
{
    let (symbol, rest) = setting.first(symbols)?;
    match symbol.sign {
        Sign::Tilde => Some(rest),
        _ => None,
    }
}

/// One reference, or several joined by `~`.
pub fn references<'a>(
    alloc: Global,
    setting: &Setting,
    symbols: &'a [Symbol],
) -> Result<(Union, &'a [Symbol]), Stop>
    requires { AreSymbols setting.now.text.now symbols.now }
    ensures gives { Gives {Y = (List Area × Bool) × List Symbol}
        (λ x. ((x.0.areas.items, x.0.lost), x.1.now)) result
        (option_map (λ f. (areas_of f.0, f.1)) (union_at (seen setting.now) symbols.now)) }
    ensures on_sheet { IfOk result (λ x. All IsOnSheet x.0.areas.items) }
    ensures rest { IfOk result (λ x. AreSymbols setting.now.text.now x.1.now) }
{
    let mut union = Union {
        areas: Vec::new(alloc),
        lost: false,
    };
    let mut rest = union.add_reference(alloc, setting, symbols)?;
    while let Some(behind) = behind_tilde(setting, rest) {
        rest = union.add_reference(alloc, setting, behind)?;
    }
    Ok((union, rest))
}
