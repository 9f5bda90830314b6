//! The two queues, each over a ring whose room is taken at the start.
ghost use Rattle.std.specs.Prelude.{◌≡◌, ◌↔◌, ◌<◌, ◌≤◌, [], length, drop, slice_get, IfOk, IfErr};
ghost use Rattle.std.specs.Prelude.{IsErr, OnErr, OnOk};
ghost use Rattle.xv_base.specs.Serial.{empty_serial, kept_size, queue_room, queue_size, received};
ghost use Rattle.xv_base.specs.Serial.{sent};

use circular_buffer::HeapCircularBuffer;
use std::alloc::Global;
use std::marker::Model;
use xv_base::NoMemory;

/// Bytes of input that may wait.
const QUEUE_SIZE: usize = 4096;

/// Bytes of output that are kept.
const KEPT_SIZE: usize = 65536;

/// More bytes came in than there are free places, of which there are `free`.
#[derive(Clone, Copy, Debug, PartialEq, Eq)]
pub struct InputFull {
    pub free: u64,
}

/// Input that waits for a UART, and the output that it sent, seen by contracts as two lists of
/// bytes, the oldest first, and the number of sent bytes that were dropped.
#[derive(Drop)]
pub struct Vserial {
    queue: HeapCircularBuffer<u8>,
    kept: HeapCircularBuffer<u8>,
    lost: u64,
}

impl Model for Vserial {
    ghost use Rattle.std.specs.Prelude.{◌≡◌};
    ghost use Rattle.xv_base.specs.Serial.{Serial, kept_size, queue_size};

    ghost Value = { Serial };

    ghost view = { λ s. record { queue = s.queue.items; kept = s.kept.items; lost = s.lost } };

    ghost invariant = { λ s. (s.queue.capacity ≡ queue_size) × (s.kept.capacity ≡ kept_size) };
}

impl Vserial {
    /// Empty queues, with room for 4,096 bytes of input and 65,536 of output.
    pub fn new(alloc: Global) -> Result<Vserial, NoMemory>
        ensures { IfOk result (λ serial. serial ≡ empty_serial) }
    {
        let queue = HeapCircularBuffer::with_capacity(alloc, QUEUE_SIZE)?;
        let kept = HeapCircularBuffer::with_capacity(alloc, KEPT_SIZE)?;
        Ok(Vserial {
            queue,
            kept,
            lost: 0,
        })
    }

    /// Takes bytes of input, all or none.
    pub fn input(&mut self, bytes: &[u8]) -> Result<(), InputFull>
        ensures full { IsErr result ↔ (queue_room self.old < length bytes.now) }
        ensures free { IfErr result (λ full. full.free ≡ queue_room self.old) }
        ensures refused { OnErr result (self.new ≡ self.old) }
        ensures ok { OnOk result (self.new ≡ received bytes.now self.old) }
    {
        let free = QUEUE_SIZE - self.queue.len();
        if bytes.len() > free {
            return Err(InputFull { free: free as u64 });
        }
        self.queue.fill_from_slice(bytes);
        Ok(())
    }

    /// Takes the oldest byte of input out, or None where none waits.
    pub fn next(&mut self) -> Option<u8>
        ensures byte { result ≡ slice_get self.old.queue 0 }
        ensures rest { self.new ≡ record self.old { queue = drop 1 self.old.queue } }
    {
        self.queue.pop_front()
    }

    /// Keeps a byte of output. Where as many are kept as there is room for, the oldest is dropped
    /// and counted.
    #[tactic(auto, unfolding(xv_base::specs::Serial::sent))]
    pub fn put(&mut self, byte: u8)
        ensures { self.new ≡ sent byte self.old }
    {
        if self.kept.is_full() {
            self.lost = self.lost.saturating_add(1);
        }
        self.kept.push_back(byte);
    }

    /// How many bytes of output are kept.
    pub fn kept_len(&self) -> usize
        ensures len { result ≡ length self.now.kept }
        ensures within { result ≤ kept_size }
    {
        self.kept.len()
    }

    /// The byte of output at a place, from 0 on, the oldest first, or None where none is there.
    pub fn kept_at(&self, at: usize) -> Option<u8>
        ensures { result ≡ slice_get self.now.kept at }
    {
        self.kept.get(at).copied()
    }

    /// How many bytes of output were dropped. The count stands still at its greatest value.
    pub fn lost(&self) -> u64
        ensures { result ≡ self.now.lost }
    {
        self.lost
    }

    /// Drops the output that is kept, and sets the count of dropped bytes to 0.
    pub fn clear_kept(&mut self)
        ensures { self.new ≡ record self.old { kept = []; lost = 0 } }
    {
        self.kept.clear();
        self.lost = 0;
    }

    /// Drops the input that waits.
    pub fn clear_input(&mut self)
        ensures { self.new ≡ record self.old { queue = [] } }
    {
        self.queue.clear();
    }

    /// How many bytes of input wait.
    pub fn queue_len(&self) -> usize
        ensures len { result ≡ length self.now.queue }
        ensures within { result ≤ queue_size }
    {
        self.queue.len()
    }

    /// The byte of input at a place, from 0 on, the oldest first, or None where none is there.
    pub fn queue_at(&self, at: usize) -> Option<u8>
        ensures { result ≡ slice_get self.now.queue at }
    {
        self.queue.get(at).copied()
    }

    /// Puts these bytes and this count in the place of all that is there.
    pub fn refill(&mut self, queue: &[u8], kept: &[u8], lost: u64)
        requires queue { length queue.now ≤ queue_size }
        requires kept { length kept.now ≤ kept_size }
        ensures { self.new ≡ record { queue = queue.now; kept = kept.now; lost = lost } }
    {
        self.queue.clear();
        self.queue.fill_from_slice(queue);
        self.kept.clear();
        self.kept.fill_from_slice(kept);
        self.lost = lost;
    }
}
