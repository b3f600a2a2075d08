//! Tests of `column_strips`.
#![tactic(auto)]

#[cfg(test)]
mod reach;
#[cfg(test)]
mod written;
