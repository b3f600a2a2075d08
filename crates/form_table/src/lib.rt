//! The form table: what operators and functions make of values while some decisions are open. This crate has the definitions,
//! and rows by example.
#![tactic(auto)]

ghost use Rattle.form_table.specs.CertainExamples.{index_errors, no_choices};
ghost use Rattle.form_table.specs.CertainRecordExamples.{record_errors};
ghost use Rattle.form_table.specs.Examples.{Hold, certain, choices, choose, functions, operators, picks, records};

/// What the rows make of some values.
pub fn examples_hold()
    ensures operators { Hold operators }
    ensures choices { Hold choices }
    ensures functions { Hold functions }
    ensures picks { Hold picks }
    ensures records { Hold records }
    ensures choose { Hold choose }
    ensures certain { Hold certain }
    ensures no_choices { Hold no_choices }
    ensures index_errors { Hold index_errors }
    ensures record_errors { Hold record_errors }
{}
