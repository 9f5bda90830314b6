//! The line on standard error for each status but 0.
use thiserror::Error;

/// Why the program ends with a status other than 0.
#[derive(Clone, Copy, Debug, Drop, Error)]
pub enum Fault {
    #[error("xv: usage")]
    Usage,
    #[error("xv: script refused")]
    Script,
    #[error("xv: read fault")]
    Read,
    #[error("xv: write fault")]
    Write,
    #[error("xv: file fault")]
    File,
    #[error("xv: no memory")]
    NoMemory,
}

impl Fault {
    /// The fault of a status, or none where every line of the script was run.
    pub fn of(status: u8) -> Option<Fault> {
        match status {
            2 => Some(Fault::Usage),
            3 => Some(Fault::Script),
            4 => Some(Fault::Read),
            5 => Some(Fault::Write),
            6 => Some(Fault::File),
            7 => Some(Fault::NoMemory),
            _ => None,
        }
    }
}
