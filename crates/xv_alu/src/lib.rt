//! The integer results of the rows of I, M and A (Unprivileged ISA 20191213, chapters 2, 5, 7 and
//! 8).
#![tactic(auto)]

mod atomics;
mod numbers;
mod products;
mod quotients;
mod results;
mod shifts;

pub use results::result;

#[cfg(test)]
mod tests;
