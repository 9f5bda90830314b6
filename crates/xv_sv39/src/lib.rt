//! Sv39 translation (Privileged Architecture 20211203, sections 4.3.2 and 4.4) over any reader of
//! words. A and D are never set: a leaf that lacks them is a page fault.
#![tactic(auto)]

mod leaf;
mod tables;
mod translation;
mod words;

pub use tables::WalkFault;
pub use translation::translate;
pub use words::Words;
pub use xv_pte::Kind3;

#[cfg(test)]
mod tests;
