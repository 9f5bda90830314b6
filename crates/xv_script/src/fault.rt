//! Why a script gives no commands.
ghost use Rattle.std.specs.Prelude.{◌≡◌};
ghost use Rattle.xv_script.specs.declared.fault.LineFault.TheVariants as line;
ghost use Rattle.xv_script.specs.declared.fault.ScriptFault.TheVariants as script;

use std::alloc::AllocError;
use xv_base::NoMemory;

/// Which rule a script breaks. Of the rules for one line, the first that it breaks is named, in
/// this order, but that names, numbers, ranges and pairs of digits go field by field.
#[derive(Clone, Copy, Debug, PartialEq, Eq)]
pub enum ScriptKind {
    /// The script has more than 1,048,576 bytes.
    Long,
    /// A byte other than a tab and 0x20 to 0x7E.
    Byte,
    /// The first words are those of no command.
    Word,
    /// There are more or fewer words than the command has.
    Count,
    /// A field is no name of a guest, of a file, or of a guest and its device.
    Name,
    /// A field is no number below 2^64.
    Number,
    /// A number is below the least or above the greatest that the field may have.
    Range,
    /// A field is none of pairs of hexadecimal digits.
    Hex,
}

/// Why a script gives no commands: the first line that breaks a rule, counted from 1, or 0 where
/// the script is too long; or want of memory.
#[derive(Clone, Copy, Debug, PartialEq, Eq)]
pub enum ScriptFault {
    At { line: u32, kind: ScriptKind },
    NoMemory,
}

/// Why a line gives no command.
#[derive(Clone, Copy)]
pub enum LineFault {
    Kind(ScriptKind),
    NoMemory,
}

impl From<ScriptKind> for LineFault {
    ghost from_gives = { λ kind given. given ≡ line.Kind kind };

    fn from(kind: ScriptKind) -> LineFault {
        LineFault::Kind(kind)
    }
}

impl From<NoMemory> for LineFault {
    ghost from_gives = { λ _ given. given ≡ line.NoMemory };

    fn from(_: NoMemory) -> LineFault {
        LineFault::NoMemory
    }
}

impl From<AllocError> for LineFault {
    ghost from_gives = { λ _ given. given ≡ line.NoMemory };

    fn from(_: AllocError) -> LineFault {
        LineFault::NoMemory
    }
}
