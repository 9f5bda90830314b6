//! Host memory: whole frames of 4,096 bytes, read and written by aligned little-endian words.
ghost use Rattle.std.specs.Prelude.{◌≡◌, ℕ, ◌+◌, ◌*◌, ◌%◌, ◌<◌, ◌≤◌, List, [], length, drop};
ghost use Rattle.std.specs.Prelude.{replicate, slice_index, IfOk};
ghost use Rattle.xv_mem.specs.Bytes.{held, word_at, put, put_word, cleared, range};

use crate::counter::Steps;
use byteorder::{ByteOrder, LittleEndian};
use std::alloc::{AllocError, Global};
use std::marker::Model;
use std::sync::ledger::Ledger;

/// Bytes in a frame of host memory.
const FRAME_SIZE: usize = 4096;

/// Want of memory for the host memory that was asked for.
#[derive(Clone, Copy, Debug, PartialEq, Eq)]
pub struct NoMemory;

impl From<AllocError> for NoMemory {
    fn from(_: AllocError) -> Self {
        NoMemory
    }
}

/// Host memory, seen as the list of its bytes from host address 0 on.
#[derive(Drop)]
pub struct HostMem {
    bytes: Option<Vec<u8>>,
    frames: u32,
}

impl Model for HostMem {
    ghost Value = { List ℕ };

    ghost view = { λ m. held m.bytes };

    ghost invariant = { λ m. length (held m.bytes) ≡ 4096 * m.frames };
}

fn bytes_of(bytes: &Option<Vec<u8>>) -> &[u8]
    ensures { result.now ≡ held bytes.now }
{
    match bytes {
        Some(bytes) => bytes.as_slice(),
        None => &[],
    }
}

// Changes nothing, and tells that what lies in memory are bytes.
fn are_bytes(bytes: &[u8])
    ensures { (k : ℕ) → slice_index bytes.now k < 256 }
{
    let _all = bytes;
}

#[tactic(auto, unfolding(crate::specs::Bytes::put))]
fn paste(bytes: &mut [u8], at: usize, piece: &[u8])
    requires { at + length piece.now ≤ length bytes.old }
    ensures { bytes.new ≡ put bytes.old at piece.now }
{
    bytes[at..at + piece.len()].copy_from_slice(piece);
}

#[tactic(auto, unfolding(crate::specs::Bytes::put, crate::specs::Bytes::cleared))]
fn fill_zeros(bytes: &mut [u8], at: usize, len: usize)
    requires { at + len ≤ length bytes.old }
    ensures { bytes.new ≡ cleared bytes.old at len }
{
    bytes[at..at + len].fill(0);
}

#[tactic(auto, unfolding(crate::specs::Bytes::put))]
fn overwrite(bytes: &mut Option<Vec<u8>>, at: usize, piece: &[u8])
    requires { at + length piece.now ≤ length (held bytes.old) }
    ensures bytes { held bytes.new ≡ put (held bytes.old) at piece.now }
    ensures len { length (held bytes.new) ≡ length (held bytes.old) }
{
    if let Some(bytes) = bytes {
        paste(bytes, at, piece);
    }
}

#[tactic(auto, unfolding(crate::specs::Bytes::put, crate::specs::Bytes::cleared))]
fn clear(bytes: &mut Option<Vec<u8>>, at: usize, len: usize)
    requires { at + len ≤ length (held bytes.old) }
    ensures bytes { held bytes.new ≡ cleared (held bytes.old) at len }
    ensures len { length (held bytes.new) ≡ length (held bytes.old) }
{
    if let Some(bytes) = bytes {
        fill_zeros(bytes, at, len);
    }
}

impl HostMem {
    /// No memory at all.
    pub fn empty() -> HostMem
        ensures { result ≡ [] }
    {
        HostMem {
            bytes: None,
            frames: 0,
        }
    }

    /// That many frames of 4,096 bytes, each byte 0.
    pub fn zeroed(alloc: Global, frames: u32) -> Result<HostMem, NoMemory>
        ensures { IfOk result (λ memory. memory ≡ replicate (4096 * frames) 0) }
    {
        let bytes = vec![in alloc; 0u8; FRAME_SIZE * frames as usize]?;
        Ok(HostMem {
            bytes: Some(bytes),
            frames,
        })
    }

    /// How many frames of 4,096 bytes there are.
    pub fn frames(&self) -> u32
        ensures whole { 4096 * result ≡ length self.now }
        ensures bytes { (k : ℕ) → slice_index self.now k < 256 }
    {
        are_bytes(bytes_of(&self.bytes));
        self.frames
    }

    // Counts one read, and gives what stands from a host address on.
    fn bytes_from<L: Ledger>(&self, at: u64, steps: &mut Steps<L>) -> &[u8]
        requires { at ≤ length self.now }
        ensures bytes { result.now ≡ drop at self.now }
        ensures counted { steps.new ≡ steps.old + 1 }
    {
        steps.tick();
        &bytes_of(&self.bytes)[at as usize..]
    }

    // Counts one write, and puts these bytes from a host address on.
    fn store<L: Ledger>(&mut self, at: u64, piece: &[u8], steps: &mut Steps<L>)
        requires { at + length piece.now ≤ length self.old }
        ensures bytes { self.new ≡ put self.old at piece.now }
        ensures len { length self.new ≡ length self.old }
        ensures counted { steps.new ≡ steps.old + 1 }
    {
        steps.tick();
        overwrite(&mut self.bytes, at as usize, piece);
    }

    /// The byte at a host address.
    #[tactic(auto, unfolding(crate::specs::Bytes::word_at))]
    pub fn read8<L: Ledger>(&self, at: u64, steps: &mut Steps<L>) -> u8
        requires { at + 1 ≤ length self.now }
        ensures value { result ≡ word_at 1 self.now at }
        ensures counted { steps.new ≡ steps.old + 1 }
    {
        self.bytes_from(at, steps)[0]
    }

    /// The 2 bytes from a host address on.
    #[tactic(auto, unfolding(crate::specs::Bytes::word_at))]
    pub fn read16<L: Ledger>(&self, at: u64, steps: &mut Steps<L>) -> u16
        requires inside { at + 2 ≤ length self.now }
        requires aligned { at % 2 ≡ 0 }
        ensures value { result ≡ word_at 2 self.now at }
        ensures counted { steps.new ≡ steps.old + 1 }
    {
        LittleEndian::read_u16(self.bytes_from(at, steps))
    }

    /// The 4 bytes from a host address on.
    #[tactic(auto, unfolding(crate::specs::Bytes::word_at))]
    pub fn read32<L: Ledger>(&self, at: u64, steps: &mut Steps<L>) -> u32
        requires inside { at + 4 ≤ length self.now }
        requires aligned { at % 4 ≡ 0 }
        ensures value { result ≡ word_at 4 self.now at }
        ensures counted { steps.new ≡ steps.old + 1 }
    {
        LittleEndian::read_u32(self.bytes_from(at, steps))
    }

    /// The 8 bytes from a host address on.
    #[tactic(auto, unfolding(crate::specs::Bytes::word_at))]
    pub fn read64<L: Ledger>(&self, at: u64, steps: &mut Steps<L>) -> u64
        requires inside { at + 8 ≤ length self.now }
        requires aligned { at % 8 ≡ 0 }
        ensures value { result ≡ word_at 8 self.now at }
        ensures counted { steps.new ≡ steps.old + 1 }
    {
        LittleEndian::read_u64(self.bytes_from(at, steps))
    }

    /// Stores one byte at a host address.
    #[tactic(auto, unfolding(crate::specs::Bytes::put_word))]
    pub fn write8<L: Ledger>(&mut self, at: u64, value: u8, steps: &mut Steps<L>)
        requires { at + 1 ≤ length self.old }
        ensures bytes { self.new ≡ put_word 1 self.old at value }
        ensures len { length self.new ≡ length self.old }
        ensures counted { steps.new ≡ steps.old + 1 }
    {
        self.store(at, &[value], steps);
    }

    /// Stores 2 bytes from a host address on.
    #[tactic(auto, unfolding(crate::specs::Bytes::put_word))]
    pub fn write16<L: Ledger>(&mut self, at: u64, value: u16, steps: &mut Steps<L>)
        requires inside { at + 2 ≤ length self.old }
        requires aligned { at % 2 ≡ 0 }
        ensures bytes { self.new ≡ put_word 2 self.old at value }
        ensures len { length self.new ≡ length self.old }
        ensures counted { steps.new ≡ steps.old + 1 }
    {
        let mut piece = [0; 2];
        LittleEndian::write_u16(&mut piece, value);
        self.store(at, &piece, steps);
    }

    /// Stores 4 bytes from a host address on.
    #[tactic(auto, unfolding(crate::specs::Bytes::put_word))]
    pub fn write32<L: Ledger>(&mut self, at: u64, value: u32, steps: &mut Steps<L>)
        requires inside { at + 4 ≤ length self.old }
        requires aligned { at % 4 ≡ 0 }
        ensures bytes { self.new ≡ put_word 4 self.old at value }
        ensures len { length self.new ≡ length self.old }
        ensures counted { steps.new ≡ steps.old + 1 }
    {
        let mut piece = [0; 4];
        LittleEndian::write_u32(&mut piece, value);
        self.store(at, &piece, steps);
    }

    /// Stores 8 bytes from a host address on.
    #[tactic(auto, unfolding(crate::specs::Bytes::put_word))]
    pub fn write64<L: Ledger>(&mut self, at: u64, value: u64, steps: &mut Steps<L>)
        requires inside { at + 8 ≤ length self.old }
        requires aligned { at % 8 ≡ 0 }
        ensures bytes { self.new ≡ put_word 8 self.old at value }
        ensures len { length self.new ≡ length self.old }
        ensures counted { steps.new ≡ steps.old + 1 }
    {
        let mut piece = [0; 8];
        LittleEndian::write_u64(&mut piece, value);
        self.store(at, &piece, steps);
    }

    /// Makes each byte of a frame 0. It counts as no access.
    pub fn zero_frame(&mut self, frame: u32)
        requires { 4096 * frame + 4096 ≤ length self.old }
        ensures bytes { self.new ≡ cleared self.old (4096 * frame) 4096 }
        ensures len { length self.new ≡ length self.old }
    {
        clear(&mut self.bytes, FRAME_SIZE * frame as usize, FRAME_SIZE);
    }

    /// Stores these bytes from a host address on. It counts as no access.
    pub fn copy_in(&mut self, at: u64, bytes: &[u8])
        requires { at + length bytes.now ≤ length self.old }
        ensures bytes { self.new ≡ put self.old at bytes.now }
        ensures len { length self.new ≡ length self.old }
    {
        overwrite(&mut self.bytes, at as usize, bytes);
    }

    /// The `len` bytes from a host address on. It counts as no access.
    #[tactic(auto, unfolding(crate::specs::Bytes::range))]
    pub fn lend(&self, at: u64, len: usize) -> &[u8]
        requires { at + len ≤ length self.now }
        ensures { result.now ≡ range self.now at len }
    {
        &bytes_of(&self.bytes)[at as usize..at as usize + len]
    }
}
