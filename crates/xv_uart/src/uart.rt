//! The UART as a device, its input, and its queues.
ghost use Rattle.std.specs.Prelude.{◌≡◌, ◌↔◌, ◌+◌, ◌<◌, ◌≤◌, length, IfOk, IfErr, IsErr, OnErr};
ghost use Rattle.std.specs.Prelude.{OnOk};
ghost use Rattle.std.specs.Borrow.{sem};
ghost use Rattle.xv_base.specs.Padded.{padded};
ghost use Rattle.xv_base.specs.Serial.{empty_serial, queue_room};
ghost use Rattle.xv_bus.specs.Memory.{overwritten};
ghost use Rattle.xv_bus.specs.Uart as ports;

use crate::state::UartState;
use circular_buffer::HeapCircularBuffer;
use std::alloc::Global;
use std::marker::Model;
use xv_base::NoMemory;
use xv_bus::{Access, Device, GuestMem, Outcome};
use xv_vserial::{InputFull, Vserial};

/// Bytes that the FIFO holds.
pub(crate) const FIFO_SIZE: usize = 16;

/// The trigger level after a reset.
const FIRST_TRIGGER: u8 = 1;

/// A UART, seen by contracts as its registers, its FIFO and its queues.
#[derive(Drop)]
pub struct Uart {
    pub(crate) shift: u8,
    pub(crate) ier: u8,
    pub(crate) fifo_on: bool,
    pub(crate) trigger: u8,
    pub(crate) lcr: u8,
    pub(crate) mcr: u8,
    pub(crate) msr: u8,
    pub(crate) scr: u8,
    pub(crate) dll: u8,
    pub(crate) dlm: u8,
    pub(crate) overrun: bool,
    pub(crate) thre: bool,
    pub(crate) fifo: HeapCircularBuffer<u8>,
    pub(crate) serial: Vserial,
}

impl Model for Uart {
    ghost use Rattle.xv_bus.specs.Uart.{UartPort};

    ghost Value = { UartPort };

    ghost use Rattle.xv_uart.specs.Inside.{IsUart, port_of};

    ghost view = { port_of };

    ghost invariant = { IsUart };
}

impl Uart {
    ghost use Rattle.xv_uart.specs.Lending.{LendsSerial};
    ghost use Rattle.xv_uart.specs.State.{IsState, state_of, with_state};

    /// A UART after a reset, with registers 2^shift bytes apart. `shift` is at most 2.
    #[tactic(auto, unfolding(xv_bus::specs::Uart::new_port))]
    pub fn new(alloc: Global, shift: u8) -> Result<Uart, NoMemory>
        requires { shift ≤ 2 }
        ensures { IfOk result (λ uart. uart ≡ ports.new_port shift empty_serial) }
    {
        let serial = Vserial::new(alloc)?;
        let fifo = HeapCircularBuffer::with_capacity(alloc, FIFO_SIZE)?;
        Ok(Uart {
            shift,
            ier: 0,
            fifo_on: false,
            trigger: FIRST_TRIGGER,
            lcr: 0,
            mcr: 0,
            msr: 0,
            scr: 0,
            dll: 0,
            dlm: 0,
            overrun: false,
            thre: false,
            fifo,
            serial,
        })
    }

    /// Takes bytes of input, all or none, and receives as many as the FIFO has room for.
    #[tactic(auto, unfolding(xv_bus::specs::Uart::uart_input))]
    pub fn input(&mut self, bytes: &[u8]) -> Result<(), InputFull>
        ensures full { IsErr result ↔ (queue_room self.old.serial < length bytes.now) }
        ensures free { IfErr result (λ full. full.free ≡ queue_room self.old.serial) }
        ensures refused { OnErr result (self.new ≡ self.old) }
        ensures ok { OnOk result (self.new ≡ ports.uart_input bytes.now self.old) }
    {
        self.serial.input(bytes)?;
        self.receive();
        Ok(())
    }

    /// Its queues of input and output.
    pub fn serial(&mut self) -> &mut Vserial
        ensures* lends { sem 𝓛 (LendsSerial self.entry result) }
        ensures value { result.now ≡ self.old.serial }
    {
        &mut self.serial
    }

    /// Its queues, to be read.
    pub fn port(&self) -> &Vserial
        ensures { result.now ≡ self.now.serial }
    {
        &self.serial
    }

    /// The registers and the FIFO as plain data.
    pub fn state(&self) -> UartState
        ensures state { result ≡ state_of self.now }
        ensures held { IsState result }
    {
        UartState {
            ier: self.ier,
            fifo_on: self.fifo_on,
            trigger: self.trigger,
            lcr: self.lcr,
            mcr: self.mcr,
            msr: self.msr,
            scr: self.scr,
            dll: self.dll,
            dlm: self.dlm,
            overrun: self.overrun,
            thre: self.thre,
            fifo_len: self.fifo.len() as u8,
            fifo: padded(&self.fifo),
        }
    }

    /// Puts these registers and this FIFO in the place of its own. Shift and queues stay.
    pub fn put_state(&mut self, state: &UartState)
        requires { IsState state.now }
        ensures { self.new ≡ with_state self.old state.now }
    {
        self.ier = state.ier;
        self.fifo_on = state.fifo_on;
        self.trigger = state.trigger;
        self.lcr = state.lcr;
        self.mcr = state.mcr;
        self.msr = state.msr;
        self.scr = state.scr;
        self.dll = state.dll;
        self.dlm = state.dlm;
        self.overrun = state.overrun;
        self.thre = state.thre;
        self.fifo.clear();
        self.fifo
            .fill_from_slice(&state.fifo[..state.fifo_len as usize]);
    }
}

impl Device for Uart {
    ghost use Rattle.xv_bus.specs.Device.{over};
    ghost use Rattle.xv_bus.specs.Uart.{uart_accessed, uart_line, uart_reset};

    ghost accessed = { λ uart flat at access. over flat (uart_accessed uart at access) };

    ghost is_up = { uart_line };

    ghost after_reset = { uart_reset };

    #[tactic(auto, unfolding(xv_bus::specs::Uart::uart_accessed))]
    fn access<M: GuestMem>(&mut self, at: u64, access: Access, _mem: &mut M) -> Outcome {
        let outcome = self.reach(at, access);
        self.receive();
        outcome
    }

    #[tactic(auto, unfolding(xv_bus::specs::Uart::uart_line))]
    fn line(&self) -> bool {
        self.has_cause()
    }

    #[tactic(auto, unfolding(xv_bus::specs::Uart::new_port, xv_bus::specs::Uart::uart_reset))]
    fn reset(&mut self) {
        self.ier = 0;
        self.fifo_on = false;
        self.trigger = FIRST_TRIGGER;
        self.lcr = 0;
        self.mcr = 0;
        self.msr = 0;
        self.scr = 0;
        self.dll = 0;
        self.dlm = 0;
        self.overrun = false;
        self.thre = false;
        self.fifo.clear();
        self.serial.clear_input();
    }
}

/// The bytes of a FIFO, and zeros behind them.
fn padded(fifo: &HeapCircularBuffer<u8>) -> [u8; FIFO_SIZE]
    requires { length fifo.now.items ≤ 16 }
    ensures { result ≡ padded 16 fifo.now.items }
{
    let mut bytes = [0; FIFO_SIZE];
    let (front, back) = fifo.as_slices();
    overwrite(&mut bytes, 0, front);
    overwrite(&mut bytes, front.len(), back);
    bytes
}

/// Puts a piece over the bytes from a place on.
fn overwrite(bytes: &mut [u8], at: usize, piece: &[u8])
    requires { at + length piece.now ≤ length bytes.old }
    ensures { bytes.new ≡ overwritten bytes.old at piece.now }
{
    bytes[at..at + piece.len()].copy_from_slice(piece);
}
