//! The device of a region, whichever it is.
ghost use Rattle.std.specs.Prelude.{◌≡◌, ◌↔◌, ◌<◌, ◌≤◌, length, false, IfOk, IfErr, IsErr, IsTrue};
ghost use Rattle.std.specs.Prelude.{OnErr, OnOk, option_copied};
ghost use Rattle.std.specs.Borrow.{sem};
ghost use Rattle.xv_base.specs.Bits.{has_bit};
ghost use Rattle.xv_base.specs.Serial.{queue_room};
ghost use Rattle.xv_region.specs.Rules.{is_sound_kind};
ghost use Rattle.xv_lone.specs.Device as devices;
ghost use Rattle.xv_guest.specs.Devices.{PlicShape, UartShape, shape_of};

use std::alloc::Global;
use std::marker::Model;
use xv_base::NoMemory;
use xv_bus::{Access, Device, GuestMem, Outcome};
use xv_finisher::Finisher;
use xv_plic::Plic;
use xv_region::{DeviceKind, Kind};
use xv_uart::Uart;
use xv_vserial::InputFull;

/// A region of memory has no device.
#[derive(Drop)]
enum AnyDevice {
    Absent,
    Uart(Uart),
    Plic(Plic),
    Finisher(Finisher),
}

impl AnyDevice {
    ghost use Rattle.xv_guest.specs.Lending.{LendsAny, LendsAnyPlic};
    ghost use Rattle.xv_guest.specs.State.{state_of};

    fn plic_mut(&mut self) -> &mut Plic
        requires plic { shape_of (state_of self.old) ≡ PlicShape }
        ensures* lends { sem 𝓛 (LendsAnyPlic self.entry result) }
        ensures value { state_of self.old ≡ devices.Plic result.now }
    {
        match self {
            AnyDevice::Plic(plic) => plic,
            _ => unreachable!("the device is a PLIC"),
        }
    }

    fn uart_mut(&mut self) -> &mut Uart
        requires uart { shape_of (state_of self.old) ≡ UartShape }
        ensures* lends { sem 𝓛 (LendsAny self.entry result) }
        ensures value { state_of self.old ≡ devices.Uart result.now }
    {
        match self {
            AnyDevice::Uart(uart) => uart,
            _ => unreachable!("the device is a UART"),
        }
    }
}

/// What stands in a guest for one of its regions, seen by contracts as the device's automaton.
#[derive(Drop)]
pub(crate) struct RegionDevice {
    device: AnyDevice,
}

impl Model for RegionDevice {
    ghost use Rattle.xv_lone.specs.Device.{DeviceState};

    ghost Value = { DeviceState };

    ghost use Rattle.xv_guest.specs.State.{state_of};

    ghost view = { λ d. state_of d.device };
}

impl RegionDevice {
    ghost use Rattle.xv_guest.specs.Lending.{LendsDevice, LendsDevicePlic};
    ghost use Rattle.xv_guest.specs.State.{plic_of};

    /// That of a region of this kind, after a reset. A PLIC has so many contexts, at most 8.
    pub(crate) fn make(alloc: Global, kind: Kind, contexts: u8) -> Result<RegionDevice, NoMemory>
        requires sound { IsTrue (is_sound_kind kind) }
        requires contexts { contexts ≤ 8 }
        ensures { IfOk result (λ device. device ≡ devices.new_device contexts kind) }
    {
        let Kind::Device(kind) = kind else {
            return Ok(RegionDevice::absent());
        };
        let device = match kind {
            DeviceKind::Uart { shift, irq: _ } => AnyDevice::Uart(Uart::new(alloc, shift)?),
            DeviceKind::Plic => AnyDevice::Plic(Plic::new(contexts)),
            DeviceKind::Finisher => AnyDevice::Finisher(Finisher::new()),
        };
        Ok(RegionDevice { device })
    }

    /// None.
    pub(crate) fn absent() -> RegionDevice
        ensures { result ≡ devices.Absent }
    {
        RegionDevice {
            device: AnyDevice::Absent,
        }
    }

    /// The gateways' step, where it is an interrupt controller.
    pub(crate) fn lift(&mut self, sources: u64)
        requires { has_bit 0 sources ≡ false }
        ensures { self.new ≡ devices.lifted_by sources self.old }
    {
        match &mut self.device {
            AnyDevice::Absent => {}
            AnyDevice::Uart(_) => {}
            AnyDevice::Plic(plic) => plic.lift(sources),
            AnyDevice::Finisher(_) => {}
        }
    }

    /// Gives bytes to a UART, all or none.
    pub(crate) fn input(&mut self, bytes: &[u8]) -> Result<(), InputFull>
        requires uart { shape_of self.old ≡ UartShape }
        ensures full { IsErr result ↔ (queue_room (devices.serial_of self.old)
            < length bytes.now) }
        ensures free { IfErr result (λ full. full.free ≡ queue_room (devices.serial_of self.old)) }
        ensures refused { OnErr result (self.new ≡ self.old) }
        ensures input { OnOk result (self.new ≡ devices.device_input bytes.now self.old) }
    {
        match &mut self.device {
            AnyDevice::Uart(uart) => uart.input(bytes),
            _ => unreachable!("the device is a UART"),
        }
    }

    /// The UART that it is.
    pub(crate) fn uart(&self) -> &Uart
        requires uart { shape_of self.now ≡ UartShape }
        ensures { self.now ≡ devices.Uart result.now }
    {
        match &self.device {
            AnyDevice::Uart(uart) => uart,
            _ => unreachable!("the device is a UART"),
        }
    }

    /// The UART that it is, to be changed.
    pub(crate) fn uart_mut(&mut self) -> &mut Uart
        requires uart { shape_of self.old ≡ UartShape }
        ensures* lends { sem 𝓛 (LendsDevice self.entry result) }
        ensures value { self.old ≡ devices.Uart result.now }
    {
        self.device.uart_mut()
    }

    /// The PLIC that it is, to be changed.
    pub(crate) fn plic_mut(&mut self) -> &mut Plic
        requires plic { shape_of self.old ≡ PlicShape }
        ensures* lends { sem 𝓛 (LendsDevicePlic self.entry result) }
        ensures value { self.old ≡ devices.Plic result.now }
    {
        self.device.plic_mut()
    }

    /// The interrupt controller, where it is one.
    pub(crate) fn plic(&self) -> Option<&Plic>
        ensures { option_copied result ≡ plic_of self.now }
    {
        match &self.device {
            AnyDevice::Absent => None,
            AnyDevice::Uart(_) => None,
            AnyDevice::Plic(plic) => Some(plic),
            AnyDevice::Finisher(_) => None,
        }
    }
}

impl Device for RegionDevice {
    ghost use Rattle.xv_lone.specs.Device.{device_accessed, device_reset, line_of};

    ghost accessed = { λ device flat at access. device_accessed flat device at access };

    ghost is_up = { line_of };

    ghost after_reset = { device_reset };

    fn access<M: GuestMem>(&mut self, at: u64, access: Access, mem: &mut M) -> Outcome {
        match &mut self.device {
            AnyDevice::Absent => Outcome::Refused,
            AnyDevice::Uart(uart) => uart.access(at, access, mem),
            AnyDevice::Plic(plic) => plic.access(at, access, mem),
            AnyDevice::Finisher(finisher) => finisher.access(at, access, mem),
        }
    }

    fn line(&self) -> bool {
        match &self.device {
            AnyDevice::Absent => false,
            AnyDevice::Uart(uart) => uart.line(),
            AnyDevice::Plic(plic) => plic.line(),
            AnyDevice::Finisher(finisher) => finisher.line(),
        }
    }

    fn reset(&mut self) {
        match &mut self.device {
            AnyDevice::Absent => {}
            AnyDevice::Uart(uart) => uart.reset(),
            AnyDevice::Plic(plic) => plic.reset(),
            AnyDevice::Finisher(finisher) => finisher.reset(),
        }
    }
}
