//! What a server has taken of a dump: a set of numbers below 2^40, kept as a short list of intervals. A range is added,
//! and the set is asked whether it is just the numbers below a length.
//!
//! It stands on nothing.
#![tactic(auto)]

mod cover;
mod interval;
#[cfg(test)]
mod tests;

pub use cover::Cover;
