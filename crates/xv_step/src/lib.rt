//! One hart over a bus of memory: its state, and one step of it. The lone machine and the hart that
//! runs over host memory both read this one step; they differ in the bus, and in what they make of
//! an ask, which is what memory alone can't answer.
//!
//! The definitions follow the Unprivileged ISA 20191213 and the Privileged Architecture 20211203,
//! supervisor level. What of them is this project's profile: a misaligned access always traps, A
//! and D are never set, an SC checks address and permission also where it will fail, and a
//! reservation is of one place and one width.
#![tactic(auto)]
