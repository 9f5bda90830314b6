//! The decoded instruction.

/// An instruction: the place of its row in the table, and its operands. Register numbers are below
/// 32; `imm` is the immediate with its sign, the shift amount, the number of a CSR or the sets of a
/// fence; `extra` is the ordering of an atomic (aq is 2, rl is 1). A field that the row's form
/// doesn't fill is 0.
#[derive(Clone, Copy, PartialEq, Eq, Debug)]
pub struct Insn {
    pub row: u8,
    pub rd: u8,
    pub rs1: u8,
    pub rs2: u8,
    pub imm: i64,
    pub extra: u8,
}
