// What is true of the grammar.
ghost use Rattle.std.specs.Prelude.{◌≡◌, List};
ghost use Rattle.formula_ast.specs.Tree.{Tree};
ghost use Rattle.formula_grammar.specs.Formula.{SpellsFormula, SpellsText};
ghost use Rattle.formula_grammar.specs.Symbols.{Setting};
ghost use Rattle.formula_grammar.specs.declared.symbol.Symbol.{Symbol};

use formula_lexer::one_list;

/// No symbols spell two trees.
pub fn no_symbols_spell_two_trees()
    ensures { (S : Setting) (symbols : List Symbol) (a b : Tree) → SpellsFormula S symbols a
        → SpellsFormula S symbols b → a ≡ b }
{}

/// No text spells two trees, on one sheet and with one list of sheets.
pub fn no_text_spells_two_trees()
    ensures { (S : Setting) (a b : Tree) → SpellsText S a → SpellsText S b → a ≡ b }
{
    one_list();
    no_symbols_spell_two_trees();
}
