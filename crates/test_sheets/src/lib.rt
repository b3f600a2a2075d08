//! Tests of values, formulas and recalculation that a program can't show. They stand here so that no crate below is proved twice.
#![tactic(auto)]

#[cfg(test)]
mod books;
#[cfg(test)]
mod definition;
#[cfg(test)]
mod parts;
#[cfg(test)]
mod texts;
#[cfg(test)]
mod tours;
