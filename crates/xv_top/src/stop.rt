//! Why a run of the program ended before its last line.

/// Each reason has the status that the program ends with.
#[derive(Clone, Copy)]
pub enum Stop {
    /// The script is outside of the grammar, and its line was written.
    Refused,
    /// The source failed.
    ReadFault,
    /// The sink failed.
    WriteFault,
    /// Want of memory, before the first line.
    NoMemory,
    /// A line stopped, and nothing of it was written.
    InLine(LineStop),
}

/// Why a line has no answer.
#[derive(Clone, Copy)]
pub enum LineStop {
    /// A file could not be read.
    FileFault,
    /// Want of memory for a file, for what is made of it, or for a guest.
    NoMemory,
}
