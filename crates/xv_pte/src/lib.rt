//! Page tables of both stages: the fields of their entries, what Sv39 makes of a virtual address,
//! and the walk that leads a guest physical address to host memory.
//!
//! The definitions follow the Privileged Architecture 20211203, sections 4.4 and 8.5.1. What of the
//! standard is this project's profile: A and D are never set by the hart, so a leaf that lacks them
//! is a page fault, and a pointer whose reserved bits A, D or U are set is one too. In the tables
//! in host memory, which this project alone writes, an entry leads on by its low byte, and no leaf
//! stands in a root.
#![tactic(auto)]

mod access;
mod entry;
mod g_entry;
mod g_stage;
mod law;

pub use access::{Kind3, View};
pub use entry::{
    Kind, is_accessed, is_dirty, is_executable, is_readable, is_users, is_writable, kind_of,
    page_number,
};
pub use g_entry::{GEntry, Mapping, g_entry_of};
pub use g_stage::{Leaf, walk};
pub use law::{walks_are_local, walks_go_by_pages};

#[cfg(test)]
mod tests;
