//! Tests of the pickers that a run is handed. What a script shows stands in `answers`.
#![tactic(auto)]

#[cfg(test)]
mod picker_tests;
#[cfg(test)]
mod runs;
#[cfg(test)]
mod texts;
