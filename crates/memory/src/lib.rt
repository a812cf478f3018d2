// What a memory of cells is: the cell, the elements that hold one, a tagged word among them, and the rules that every memory
// shows of its list of cells; parts of a list, the sizes that a ring can have; and the one table of refusals.
#![tactic(auto)]

pub mod cells;
pub mod elements;
pub mod parts;
pub mod refusals;
pub mod rules;
pub mod sizes;
pub mod tagged;
#[cfg(test)]
mod tests;
