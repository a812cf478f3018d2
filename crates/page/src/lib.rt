// A page of bytes: the check of a page, its lay-out, and the memory that a page is. Numbers stand high byte first.
#![tactic(auto)]

mod bytes;
pub mod check;
pub mod layout;
pub mod page;
#[cfg(test)]
mod tests;
