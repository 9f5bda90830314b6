//! Flattened device trees, read and written (Devicetree Specification v0.4, chapter 5).
#![tactic(auto)]

mod blocks;
mod fault;
mod header;
mod law;
mod name;
mod names;
mod nodes;
mod properties;
mod reading;
#[cfg(test)]
mod tests;
mod token;
mod tree;
mod writing;

pub use fault::{FdtFault, FdtKind};
pub use law::{has_few_nodes, is_shaped, reads_again};
pub use name::NodeName;
pub use reading::read;
pub use tree::{Node, Prop, Tree};
pub use writing::write;
