//! The three traits of the outside.
ghost use Rattle.std.specs.Prelude.{◌≡◌, ◌<◌, ◌≤◌, ℕ, List, Option, length, IfOk, OnOk, OnErr};
ghost use Rattle.std.specs.Prelude.{IsErrOf};
ghost use Rattle.xv_base.specs.Fault.{Rose};
ghost use Rattle.xv_outside.specs.Outside.{GivesFront, EndsWithTheBytes, left_after, taken_with};
ghost use Rattle.xv_outside.specs.Outside.{TookFront};

use std::alloc::Global;

/// A call of the outside failed.
#[derive(Clone, Copy, Debug, PartialEq, Eq)]
pub struct Failed;

/// Where a script comes from.
pub trait Source {
    /// The bytes left, where the source tells them.
    ghost left: { Self → Option (List ℕ) };

    /// How many reads have failed.
    ghost faults: { Self → ℕ };

    /// Moves the first bytes left into the buffer, and answers how many; 0 is the end. After a
    /// failure nothing is said of the buffer's bytes.
    fn read(&mut self, buf: &mut [u8]) -> Result<usize, Failed>
        requires { 0 < length buf.old }
        ensures within { IfOk result (λ n. n ≤ length buf.new) }
        ensures front { IfOk result (λ n. GivesFront (left self.old) buf.new n) }
        ensures end { IfOk result (λ n. EndsWithTheBytes (left self.old) n) }
        ensures moved { IfOk result (λ n. left self.new ≡ left_after (left self.old) n) }
        ensures kept { OnErr result (left self.new ≡ left self.old) }
        ensures quiet { OnOk result (faults self.new ≡ faults self.old) }
        ensures cause { OnErr result (Rose (faults self.old) (faults self.new)) }
        ensures later { faults self.old ≤ faults self.new };
}

/// Where answers go.
pub trait Sink {
    /// The bytes taken, where the sink tells them.
    ghost taken: { Self → Option (List ℕ) };

    /// How many puts have failed.
    ghost faults: { Self → ℕ };

    /// Appends the whole piece, or fails after a front of it.
    fn put(&mut self, piece: &[u8]) -> Result<(), Failed>
        ensures appended { OnOk result (taken self.new ≡ taken_with (taken self.old) piece.now) }
        ensures front { OnErr result (TookFront (taken self.old) (taken self.new) piece.now) }
        ensures quiet { OnOk result (faults self.new ≡ faults self.old) }
        ensures cause { OnErr result (Rose (faults self.old) (faults self.new)) }
        ensures later { faults self.old ≤ faults self.new };
}

/// What a fetch answers.
#[derive(Debug, Drop)]
pub enum Fetched {
    /// All the bytes under the name.
    Bytes(Vec<u8>),
    /// There is no such name.
    Missing,
    /// The bytes under the name are longer than the limit.
    TooBig,
}

/// Why a fetch answers nothing.
#[derive(Clone, Copy, Debug, PartialEq, Eq)]
pub enum FetchFault {
    /// A call of the outside failed.
    Failed,
    /// Want of memory for the bytes.
    NoMemory,
}

/// Where files are read.
pub trait Files {
    ghost use Rattle.std.specs.Prelude.{◌≡◌, ◌≤◌, ℕ, Option, IfOk, OnOk, OnErr, IsErrOf};
    ghost use Rattle.xv_base.specs.Fault.{Rose};
    ghost use Rattle.xv_outside.specs.Fetch.{FileMap, TellsOf};

    /// The bytes under each name, where the files tell them.
    ghost map: { Self → Option FileMap };

    /// How many fetches have failed.
    ghost faults: { Self → ℕ };

    /// The bytes under a name, if they are at most `limit`.
    fn fetch(&mut self, alloc: Global, name: &str, limit: usize) -> Result<Fetched, FetchFault>
        ensures told { IfOk result (λ fetched. TellsOf (map self.old) name.now limit fetched) }
        ensures kept { map self.new ≡ map self.old }
        ensures quiet { OnOk result (faults self.new ≡ faults self.old) }
        ensures cause { IsErrOf result FetchFault.Failed
            → Rose (faults self.old) (faults self.new) }
        ensures want { IsErrOf result FetchFault.NoMemory → faults self.new ≡ faults self.old }
        ensures later { faults self.old ≤ faults self.new };
}
