// A memory in a lent row: paired records and tagged words.
#![tactic(auto)]

mod fill;
pub mod row;
#[cfg(test)]
mod tests;
