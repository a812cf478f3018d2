// A window on any memory.
#![tactic(auto)]

#[cfg(test)]
mod tests;
pub mod window;
