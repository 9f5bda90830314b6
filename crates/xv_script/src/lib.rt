//! The script: its grammar, line by line, word by word and field by field.
#![tactic(auto)]

mod command;
mod count;
mod fault;
mod field;
mod fields;
mod line;
mod script;
#[cfg(test)]
mod tests;
mod text;

pub use command::{Command, Line};
pub use fault::{ScriptFault, ScriptKind};
pub use script::{MOST_BYTES, parse};
