// The trace of a ring's dealings: its head, and the lines that are printed of it.
#![tactic(auto)]

pub mod head;
pub mod lines;
#[cfg(test)]
mod tests;
