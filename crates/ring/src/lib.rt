// A first-in first-out line in a ring of cells, shared step by step by sixteen seats, with the law of its whole runs.
#![tactic(auto)]

pub mod board;
pub mod calls;
pub mod dealings;
mod looks;
pub mod runs;
mod seat;
#[cfg(test)]
mod tests;
