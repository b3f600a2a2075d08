//! What is true of texts: of the token in front of one, of the area that one names, of what a cell's text and a name's say, and how large
//! all may be.
//! This crate has laws alone, each a function with an empty body whose contract is the law: `longest_token_is_cut`, `references_are_spelled`,
//! `texts_say`, `names_stand_for`, `limits_are` and others. They say by cases what the definitions of lower crates say step by step.
//! Below it stands `workbook`. Nothing stands above it.
//! Tokens, references and what texts say follow OpenFormula (OpenDocument 1.2 part 2, sections 3.2 and 5). The limits are the program's
//! own.
#![tactic(auto)]

ghost use Rattle.text_laws.specs.Areas.{AreasAreSpelled, NoneIsRead, OneAreaIsSpelled};
ghost use Rattle.text_laws.specs.Examples.{Hold, numbers, others, quotes};
ghost use Rattle.text_laws.specs.FrontTokens.{LongestIsCut, NoneIsCut, TokensAreLongest};
ghost use Rattle.text_laws.specs.Limits.{LimitsAre};
ghost use Rattle.text_laws.specs.References.{ReferencesAreSpelled, WordsAreSpelled};
ghost use Rattle.text_laws.specs.TextKinds.{NamesStandFor, TextsSay};

/// The token that is cut from the front of a text is the longest that stands there, of any kind.
pub fn longest_token_is_cut()
    ensures { LongestIsCut }
{}

/// No token is cut from a text exactly where none stands in front.
pub fn none_is_cut_where_none_stands()
    ensures { NoneIsCut }
{}

/// The tokens of a text are the longest, one behind the other.
pub fn tokens_are_longest()
    ensures { TokensAreLongest }
{}

/// A reference is read of some symbols exactly where they spell it, and a corner of a word.
pub fn references_are_spelled()
    ensures references { ReferencesAreSpelled }
    ensures words { WordsAreSpelled }
{}

/// The area that is read of a text is the one that the text spells. It spells one at most, and none is read exactly where it
/// spells none.
pub fn areas_are_spelled()
    ensures read { AreasAreSpelled }
    ensures one { OneAreaIsSpelled }
    ensures none { NoneIsRead }
{}

/// Tokens by example.
pub fn examples_hold()
    ensures numbers { Hold numbers }
    ensures quotes { Hold quotes }
    ensures others { Hold others }
{}

/// A text says one thing in its cell: a formula's tree, a number, a logical, a plain text, or nothing that is allowed.
pub fn texts_say()
    ensures { TextsSay }
{}

/// The text of a name stands for a number or for an area.
pub fn names_stand_for()
    ensures { NamesStandFor }
{}

/// The limits of sheets, workbooks and files are these numbers.
pub fn limits_are()
    ensures { LimitsAre }
{}
