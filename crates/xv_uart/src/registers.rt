//! The registers, and what reads and writes make of them.
ghost use Rattle.std.specs.Prelude.{◌≡◌, ◌^◌, ◌<◌, ◌≤◌, false};
ghost use Rattle.xv_bus.specs.Access.{Fits};
ghost use Rattle.xv_bus.specs.Uart as ports;

use crate::flags::{InterruptEnable, LineControl};
use crate::modem::{change_bits, input_bits, modem_of};
use crate::uart::Uart;
use bitflags::Flags;
use xv_bus::{Access, Outcome, UartRegister, Width};

/// The bits of the line status register that say that the transmitter is empty.
const TRANSMITTER_EMPTY: u8 = 0x60;

impl Uart {
    /// What an access at an offset does, before bytes are received.
    pub(crate) fn reach(&mut self, at: u64, access: Access) -> Outcome
        requires { Fits access }
        ensures outcome { result ≡ (ports.register_answer self.old at access).outcome }
        ensures device { self.new ≡ (ports.register_answer self.old at access).device }
    {
        match access {
            Access::Load(Width::W1) => self.load(at),
            Access::Store(Width::W1, value) => self.store(at, value as u8),
            _ => Outcome::Refused,
        }
    }

    fn load(&mut self, at: u64) -> Outcome
        ensures outcome { result ≡ (ports.uart_load self.old at).outcome }
        ensures device { self.new ≡ (ports.uart_load self.old at).device }
    {
        match register_at(self.shift, at) {
            Some(register) => Outcome::Value(self.read(register) as u64),
            None => Outcome::Value(0),
        }
    }

    fn store(&mut self, at: u64, value: u8) -> Outcome
        ensures outcome { result ≡ (ports.uart_store self.old at value).outcome }
        ensures device { self.new ≡ (ports.uart_store self.old at value).device }
    {
        if let Some(register) = register_at(self.shift, at) {
            self.write(register, value);
        }
        Outcome::Done
    }

    #[tactic(auto, unfolding(xv_bus::specs::Uart::shown, xv_bus::specs::Uart::after_read))]
    fn read(&mut self, register: UartRegister) -> u8
        ensures value { result ≡ ports.shown self.old register }
        ensures after { self.new ≡ ports.after_read self.old register }
    {
        match register {
            UartRegister::Data => self.read_data(),
            UartRegister::InterruptEnable => self.enabled(),
            UartRegister::InterruptIdent => self.read_ident(),
            UartRegister::LineControl => self.lcr,
            UartRegister::ModemControl => self.mcr,
            UartRegister::LineStatus => self.read_line_status(),
            UartRegister::ModemStatus => self.read_modem_status(),
            UartRegister::Scratch => self.scr,
        }
    }

    #[tactic(auto, unfolding(xv_bus::specs::Uart::written))]
    fn write(&mut self, register: UartRegister, value: u8)
        ensures { self.new ≡ ports.written self.old register value }
    {
        match register {
            UartRegister::Data => self.write_data(value),
            UartRegister::InterruptEnable => self.write_enable(value),
            UartRegister::InterruptIdent => self.control_fifo(value),
            UartRegister::LineControl => self.lcr = value,
            UartRegister::ModemControl => self.control_modem(value % (1 << 5)),
            UartRegister::LineStatus | UartRegister::ModemStatus => {}
            UartRegister::Scratch => self.scr = value,
        }
    }

    #[tactic(auto, using(crate::proofs::BitLemmas::contained))]
    fn has_dlab(&self) -> bool
        ensures { result ≡ ports.has_dlab self.now }
    {
        LineControl::from_bits_retain(self.lcr).contains(LineControl::DIVISOR_LATCH)
    }

    #[tactic(auto, unfolding(xv_bus::specs::Uart::shown, xv_bus::specs::Uart::after_read))]
    fn read_data(&mut self) -> u8
        ensures value { result ≡ ports.shown self.old UartRegister.Data }
        ensures after { self.new ≡ ports.after_read self.old UartRegister.Data }
    {
        if self.has_dlab() {
            self.dll
        } else {
            self.fifo.pop_front().unwrap_or(0)
        }
    }

    #[tactic(auto, unfolding(xv_bus::specs::Uart::shown))]
    fn enabled(&self) -> u8
        ensures { result ≡ ports.shown self.now UartRegister.InterruptEnable }
    {
        if self.has_dlab() { self.dlm } else { self.ier }
    }

    #[tactic(auto, unfolding(xv_bus::specs::Uart::shown, xv_bus::specs::Uart::after_read))]
    fn read_ident(&mut self) -> u8
        ensures value { result ≡ ports.shown self.old UartRegister.InterruptIdent }
        ensures after { self.new ≡ ports.after_read self.old UartRegister.InterruptIdent }
    {
        let cause = self.cause();
        if cause == 0x02 {
            self.thre = false;
        }
        if self.fifo_on { cause + 0xC0 } else { cause }
    }

    fn read_line_status(&mut self) -> u8
        ensures value { result ≡ ports.line_status self.old }
        ensures after { self.new ≡ record self.old { overrun = false } }
    {
        let ready = if self.fifo.is_empty() { 0 } else { 1 << 0 };
        let overrun = if self.overrun { 1 << 1 } else { 0 };
        self.overrun = false;
        TRANSMITTER_EMPTY + ready + overrun
    }

    fn read_modem_status(&mut self) -> u8
        ensures value { result ≡ ports.modem_status self.old }
        ensures after { self.new ≡ record self.old { msr = 0 } }
    {
        let status = input_bits(modem_of(self.mcr)) + self.msr;
        self.msr = 0;
        status
    }

    #[tactic(auto, unfolding(xv_bus::specs::Uart::written))]
    fn write_data(&mut self, value: u8)
        ensures { self.new ≡ ports.written self.old UartRegister.Data value }
    {
        if self.has_dlab() {
            self.dll = value;
        } else {
            self.transmit(value);
        }
    }

    #[tactic(auto, unfolding(xv_bus::specs::Uart::written))]
    fn write_enable(&mut self, value: u8)
        ensures { self.new ≡ ports.written self.old UartRegister.InterruptEnable value }
    {
        if self.has_dlab() {
            self.dlm = value;
        } else {
            self.enable(value % (1 << 4));
        }
    }

    #[tactic(auto, using(crate::proofs::BitLemmas::contained))]
    fn enable(&mut self, value: u8)
        requires { value < 2 ^ 4 }
        ensures { self.new ≡ ports.enabled self.old value }
    {
        let old = InterruptEnable::from_bits_retain(self.ier);
        let new = InterruptEnable::from_bits_retain(value);
        if new.contains(InterruptEnable::TRANSMITTER_EMPTY)
            && !old.contains(InterruptEnable::TRANSMITTER_EMPTY)
        {
            self.thre = true;
        }
        self.ier = value;
    }

    #[tactic(auto, using(crate::proofs::PortLemmas::or_of_4))]
    fn control_modem(&mut self, value: u8)
        requires { value < 2 ^ 5 }
        ensures { self.new ≡ ports.modem_controlled self.old value }
    {
        self.msr |= change_bits(modem_of(self.mcr), modem_of(value));
        self.mcr = value;
    }

    #[tactic(auto, unfolding(xv_bus::specs::Uart::transmitted))]
    fn transmit(&mut self, byte: u8)
        ensures { self.new ≡ ports.transmitted self.old byte }
    {
        if self.is_loop() {
            self.arrive(byte);
        } else {
            self.serial.put(byte);
        }
        self.thre = true;
    }
}

/// The register at an offset, or None where none is.
#[tactic(auto, unfolding(xv_bus::specs::Uart::register_at))]
fn register_at(shift: u8, at: u64) -> Option<UartRegister>
    requires { shift ≤ 2 }
    ensures { result ≡ ports.register_at shift at }
{
    if at % (1 << shift) == 0 {
        register_of(at >> shift)
    } else {
        None
    }
}

#[tactic(auto, unfolding(xv_bus::specs::Uart::register_of))]
fn register_of(number: u64) -> Option<UartRegister>
    ensures { result ≡ ports.register_of number }
{
    match number {
        0 => Some(UartRegister::Data),
        1 => Some(UartRegister::InterruptEnable),
        2 => Some(UartRegister::InterruptIdent),
        3 => Some(UartRegister::LineControl),
        4 => Some(UartRegister::ModemControl),
        5 => Some(UartRegister::LineStatus),
        6 => Some(UartRegister::ModemStatus),
        7 => Some(UartRegister::Scratch),
        _ => None,
    }
}
