//! A thin adapter over the files of the current folder, and its reading of one file.
ghost use Rattle.std.specs.Prelude.{◌≡◌, ◌<◌, ◌≤◌, None, IfOk, OnOk, OnErr, IsErrOf};
ghost use Rattle.xv_base.specs.Fault.{Rose};
ghost use Rattle.xv_outside.specs.Memory.{next_count};
ghost use Rattle.xv_outside.specs.Stream.{ReadsOn, IsReadWithin};

use crate::adapters::read_some;
use crate::outside::{Failed, FetchFault, Fetched, Files};
use std::alloc::Global;
use std::fs;
use std::io::{ErrorKind, Read};
use std::marker::Model;

/// How many bytes are read from a file at a time.
const PIECE: usize = 4096;

/// The files of the current folder, seen by contracts as how many fetches failed. As files they
/// tell no bytes. A name is opened as it stands, so that one with `/` is a path.
#[derive(Drop)]
pub struct DirFiles<R: fs::Files = HostRuntime> {
    system: R,
    faults: u64,
}

impl<R: fs::Files> Model for DirFiles<R> {
    ghost use Rattle.std.specs.Prelude.{ℕ};

    ghost Value = { ℕ };

    ghost view = { λ files. files.faults };
}

impl<R: fs::Files> DirFiles<R> {
    /// The files of the folder in which the system opens a name without `/`.
    pub fn new(system: R) -> DirFiles<R>
        ensures { result ≡ 0 }
    {
        DirFiles { system, faults: 0 }
    }
}

// One more piece of at most `most` bytes, appended; 0 bytes are the end.
fn read_piece<R: Read>(
    reader: &mut R,
    bytes: &mut Vec<u8>,
    most: usize,
) -> Result<usize, FetchFault>
    requires { 0 < most }
    ensures piece { IfOk result (λ n. ReadsOn (R.remaining reader.old) (R.remaining reader.new)
        bytes.old.items bytes.new.items most n) }
{
    let mut buf = [0; PIECE];
    let size = most.min(PIECE);
    let Ok(n) = read_some(reader, &mut buf[..size]) else {
        return Err(FetchFault::Failed);
    };
    match bytes.extend_from_slice(&buf[..n]) {
        Ok(()) => Ok(n),
        Err(_) => Err(FetchFault::NoMemory),
    }
}

// Reads to the end, or to one byte past the limit.
fn read_within<R: Read>(alloc: Global, reader: &mut R, limit: usize) -> Result<Fetched, FetchFault>
    ensures told { IfOk result (λ fetched. IsReadWithin (R.remaining reader.old) limit fetched) }
{
    let mut bytes = Vec::new(alloc);
    while bytes.len() < limit {
        let most = limit - bytes.len();
        if read_piece(reader, &mut bytes, most)? == 0 {
            return Ok(Fetched::Bytes(bytes));
        }
    }
    match read_some(reader, &mut [0; 1]) {
        Ok(0) => Ok(Fetched::Bytes(bytes)),
        Ok(_) => Ok(Fetched::TooBig),
        Err(Failed) => Err(FetchFault::Failed),
    }
}

fn fetch_from<R: fs::Files>(
    system: &R,
    alloc: Global,
    name: &str,
    limit: usize,
) -> Result<Fetched, FetchFault> {
    match fs::open(system, name) {
        Ok(mut file) => read_within(alloc, &mut file, limit),
        Err(error) if error.kind() == ErrorKind::NotFound => Ok(Fetched::Missing),
        Err(_) => Err(FetchFault::Failed),
    }
}

impl<R: fs::Files> Files for DirFiles<R> {
    ghost map = { λ _. None };

    ghost faults = { λ files. files };

    /// Missing is the answer where opening tells that there is no such file. A read that a signal
    /// cut off is made again.
    fn fetch(&mut self, alloc: Global, name: &str, limit: usize) -> Result<Fetched, FetchFault>
        ensures quiet { OnOk result (self.new ≡ self.old) }
        ensures cause { IsErrOf result FetchFault.Failed → Rose self.old self.new }
        ensures once { IsErrOf result FetchFault.Failed → self.new ≡ next_count self.old }
        ensures want { IsErrOf result FetchFault.NoMemory → self.new ≡ self.old }
        ensures later { self.old ≤ self.new }
    {
        let result = fetch_from(&self.system, alloc, name, limit);
        if let Err(FetchFault::Failed) = result {
            self.faults = self.faults.saturating_add(1);
        }
        result
    }
}
