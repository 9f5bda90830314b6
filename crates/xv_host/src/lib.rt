//! The host: its live guests, and what each holds of host memory.
#![tactic(auto)]

mod contents;
mod emulate;
mod host;
mod law;
mod lifecycle;
mod monitor;
mod serial;
mod table;
mod turn;

pub use contents::Outside;
pub use host::{Admit, Host};
pub use law::hosts_stand;
pub use lifecycle::{BadState, Change};
pub use xv_lone::TurnEnd;

#[cfg(test)]
mod tests;
