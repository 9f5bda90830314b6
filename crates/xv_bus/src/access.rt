//! What an access to a device is, and what it comes to.
ghost use Rattle.std.specs.Prelude.{◌↔◌, IsTrue};
ghost use Rattle.xv_bus.specs.Access.{Fits};

/// How many bytes an access has: 1, 2, 4 or 8.
#[derive(Clone, Copy, Debug, PartialEq, Eq)]
pub enum Width {
    W1,
    W2,
    W4,
    W8,
}

/// A load, or a store of a value, which is below 2^8, 2^16, 2^32 or 2^64 by its width.
#[derive(Clone, Copy, Debug, PartialEq, Eq)]
pub enum Access {
    Load(Width),
    Store(Width, u64),
}

impl Access {
    /// Whether what is stored has no more bytes than the access, as a device wants it.
    pub fn fits(self) -> bool
        ensures { IsTrue result ↔ Fits self }
    {
        match self {
            Access::Load(_) => true,
            Access::Store(Width::W1, value) => value < 1 << 8,
            Access::Store(Width::W2, value) => value < 1 << 16,
            Access::Store(Width::W4, value) => value < 1 << 32,
            Access::Store(Width::W8, _) => true,
        }
    }
}

/// Why a guest has halted: by a command, by its finisher, or by a call to shut down.
#[derive(Clone, Copy, Debug, PartialEq, Eq)]
pub enum Ending {
    Command,
    Pass,
    /// The code that the guest gave.
    Fail(u16),
    Shutdown,
}

/// What an access to a device comes to.
#[derive(Clone, Copy, Debug, PartialEq, Eq)]
pub enum Outcome {
    /// What a load gives, not yet extended.
    Value(u64),
    /// A store is done.
    Done,
    /// The device takes no such access.
    Refused,
    /// A store is done, and the guest halts.
    Halt(Ending),
    /// A store is done, and the guest starts again.
    Reboot,
}
