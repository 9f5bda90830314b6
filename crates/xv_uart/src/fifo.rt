//! The FIFO of what was received (sections 8.4, 8.5 and 8.11).
ghost use Rattle.std.specs.Prelude.{◌≡◌, ◌<◌, ◌-◌, true, false, length, IsTrue};
ghost use Rattle.xv_bus.specs.Uart as ports;

use crate::flags::{FifoControl, ModemControl};
use crate::uart::{FIFO_SIZE, Uart};
use bitflags::Flags;

/// The trigger levels by bits 7:6 of FIFO control.
const TRIGGER_LEVELS: [u8; 4] = [1, 4, 8, 14];

impl Uart {
    /// Whether what is sent comes back.
    #[tactic(auto, using(crate::proofs::BitLemmas::contained))]
    pub(crate) fn is_loop(&self) -> bool
        ensures { result ≡ ports.is_loop self.now }
    {
        ModemControl::from_bits_retain(self.mcr).contains(ModemControl::LOOP)
    }

    /// How many bytes the FIFO holds: one where FIFOs are off.
    fn fifo_size(&self) -> usize
        ensures { result ≡ ports.fifo_size self.now.fifo_on }
    {
        if self.fifo_on { FIFO_SIZE } else { 1 }
    }

    /// Takes bytes from the queue of input while the FIFO has room, unless what is sent comes back.
    pub(crate) fn receive(&mut self)
        ensures { self.new ≡ ports.moved self.old }
    {
        if self.is_loop() {
            return;
        }
        while self.receive_byte() {}
    }

    /// Takes one byte from the queue of input, where there is one and the FIFO has room.
    fn receive_byte(&mut self) -> bool
        requires { ports.is_loop self.old ≡ false }
        ensures direct { ports.is_loop self.new ≡ false }
        ensures same { ports.moved self.new ≡ ports.moved self.old }
        ensures end { result ≡ false → ports.moved self.new ≡ self.new }
        ensures more { result ≡ true → 16 - length self.new.fifo < 16 - length self.old.fifo }
    {
        if self.fifo.len() >= self.fifo_size() {
            return false;
        }
        match self.serial.next() {
            Some(byte) => {
                self.fifo.push_back(byte);
                true
            }
            None => false,
        }
    }

    /// A byte comes: where there is no room it is lost, or replaces the one that is held.
    pub(crate) fn arrive(&mut self, byte: u8)
        ensures { self.new ≡ ports.arrived byte self.old }
    {
        if self.fifo.len() < self.fifo_size() {
            self.fifo.push_back(byte);
        } else {
            self.overrun = true;
            if !self.fifo_on {
                self.fifo.clear();
                self.fifo.push_back(byte);
            }
        }
    }

    /// A write of FIFO control.
    #[tactic(auto, using(crate::proofs::BitLemmas::contained))]
    pub(crate) fn control_fifo(&mut self, value: u8)
        ensures { self.new ≡ ports.controlled self.old value }
    {
        if is_emptied(self.fifo_on, value) {
            self.fifo.clear();
        }
        self.fifo_on = FifoControl::from_bits_retain(value).contains(FifoControl::ENABLE);
        if self.fifo_on {
            self.trigger = trigger_of(value);
        }
    }
}

/// Whether a write of FIFO control empties the FIFO.
#[tactic(auto, using(crate::proofs::BitLemmas::contained))]
fn is_emptied(on: bool, value: u8) -> bool
    ensures { result ≡ ports.is_emptied on value }
{
    let control = FifoControl::from_bits_retain(value);
    if control.contains(FifoControl::ENABLE) {
        !on || control.contains(FifoControl::RECEIVER_RESET)
    } else {
        on
    }
}

/// The trigger level that a write of FIFO control sets.
fn trigger_of(value: u8) -> u8
    ensures level { result ≡ ports.trigger_of value }
    ensures known { IsTrue (ports.is_trigger result) }
{
    TRIGGER_LEVELS[(value >> 6) as usize]
}
