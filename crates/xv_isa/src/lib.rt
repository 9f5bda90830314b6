//! The instruction table of the hypervisor's guests: 97 rows, the decoder and the encoder.
#![tactic(auto)]

mod decoder;
mod encoder;
mod fields;
mod instruction;
mod length;
mod rows;

pub use decoder::decode;
pub use encoder::encode;
pub use instruction::Insn;
pub use length::next_pc;
pub use rows::{
    Form, Op, ROW_COUNT, Row, TABLE, Table, no_two_rows_match, op_of, table_is_the_standards,
};

#[cfg(test)]
mod tests;
