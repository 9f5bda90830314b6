//! The program's top call.
#![tactic(auto)]

mod lists;
mod manager;
mod plan;
mod program;
mod read;
mod refusals;
mod report;
mod stop;
mod words;

pub use program::boot;

#[cfg(test)]
mod tests;
