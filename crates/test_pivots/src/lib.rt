//! Tests of dictionaries against plain lists of rows. They stand here so that no crate below is proved twice.
#![tactic(auto)]

#[cfg(test)]
mod kept_entries;
#[cfg(test)]
mod plain_rows;
#[cfg(test)]
mod transport;
