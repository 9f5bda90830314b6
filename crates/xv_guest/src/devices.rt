//! The devices of a guest: accesses, input, lines, and what lends one of them.
ghost use Rattle.std.specs.Prelude.{◌≡◌, ◌↔◌, ◌<◌, length, IsErr, IfErr, OnErr, OnOk};
ghost use Rattle.std.specs.Prelude.{IfSome, option_copied};
ghost use Rattle.std.specs.List.{position};
ghost use Rattle.std.specs.Borrow.{sem};
ghost use Rattle.xv_base.specs.Serial.{queue_room};
ghost use Rattle.xv_bus.specs.Access.{Fits};
ghost use Rattle.xv_lone.specs.Device as lone;
ghost use Rattle.xv_lone.specs.Device.{after_input, controller, device_accessed, device_at};
ghost use Rattle.xv_lone.specs.Device.{external_line, serial_of};
ghost use Rattle.xv_lone.specs.Machine.{access_in, after_access};
ghost use Rattle.xv_guest.specs.Devices.{IsController, IsUart, has_plic};
ghost use Rattle.xv_guest.specs.Guest.{held_of, lone_of};
ghost use Rattle.xv_guest.specs.Held.{IsHeld, Within, WithinMemory, memory_of};
ghost use Rattle.xv_guest.specs.OwnMemory.{flat_memory};

use crate::Guest;
use crate::device::RegionDevice;
use crate::device_list::step_gateways;
use crate::held::Held;
use crate::own_memory::OwnMemory;
use xv_base::VcpuNo;
use xv_bus::{Access, Device, Outcome};
use xv_mem::HostMem;
use xv_plic::Plic;
use xv_uart::Uart;
use xv_vserial::InputFull;

impl Guest {
    ghost use Rattle.xv_guest.specs.Lending.{LendsPlic, LendsUart};

    /// One access to the device of a region, at an offset there; then the gateways make their step.
    /// The device may reach the guest's own memory, and nothing else.
    pub fn access(&mut self, mem: &mut HostMem, region: u8, at: u64, access: Access) -> Outcome
        requires held { IsHeld mem.old (held_of self.old) }
        requires fits { Fits access }
        requires region { region < length self.old.devices }
        ensures outcome { result ≡ (access_in self.old.plan region at access
            (lone_of self.old mem.old)).outcome }
        ensures machine { lone_of self.new mem.new ≡ after_access self.old.plan region
            (access_in self.old.plan region at access (lone_of self.old mem.old))
            (lone_of self.old mem.old) }
        ensures guest { self.new ≡ record self.old { devices = self.new.devices } }
        ensures held { IsHeld mem.new (held_of self.old) }
        ensures memory { WithinMemory (held_of self.old) mem.old mem.new }
        ensures within { Within (held_of self.old) mem.old mem.new }
    {
        let held = Held::new(self.root, &self.map, &self.frames);
        let outcome = reach(&mut self.devices[region as usize], held, mem, at, access);
        step_gateways(self.map.regions(), &mut self.devices);
        outcome
    }

    /// Gives bytes to the UART of a region, all or none; then the gateways make their step.
    pub fn input(&mut self, region: u8, bytes: &[u8]) -> Result<(), InputFull>
        requires uart { IsUart self.old.devices region }
        ensures full { IsErr result ↔ (queue_room (serial_of (device_at self.old.devices region))
            < length bytes.now) }
        ensures free { IfErr result (λ full. full.free
            ≡ queue_room (serial_of (device_at self.old.devices region))) }
        ensures refused { OnErr result (self.new ≡ self.old) }
        ensures input { OnOk result (self.new ≡ record self.old {
          devices =
              after_input self.old.plan.regions region bytes.now self.old.devices;
        }) }
    {
        self.devices[region as usize].input(bytes)?;
        step_gateways(self.map.regions(), &mut self.devices);
        Ok(())
    }

    /// Whether the interrupt controller raises the line of a VCPU, whose context has its number.
    /// Without a controller none does.
    pub fn external(&self, vcpu: VcpuNo) -> bool
        ensures { result ≡ external_line vcpu self.now.devices }
    {
        match self.plic() {
            Some(plic) => plic.context_line(vcpu.0),
            None => false,
        }
    }

    /// The UART of a region.
    pub fn uart(&self, region: u8) -> &Uart
        requires uart { IsUart self.now.devices region }
        ensures { device_at self.now.devices region ≡ lone.Uart result.now }
    {
        self.devices[region as usize].uart()
    }

    /// The UART of a region, to be changed.
    pub fn uart_mut(&mut self, region: u8) -> &mut Uart
        requires uart { IsUart self.old.devices region }
        ensures* lends { sem 𝓛 (LendsUart self.entry region result) }
        ensures value { device_at self.old.devices region ≡ lone.Uart result.now }
    {
        self.devices[region as usize].uart_mut()
    }

    /// The interrupt controller, where the plan has one.
    pub fn plic(&self) -> Option<&Plic>
        ensures { option_copied result ≡ controller self.now.devices }
    {
        match self.controller {
            Some(region) => self.devices[region].plic(),
            None => None,
        }
    }

    /// The region of the interrupt controller, where the plan has one.
    pub fn controller(&self) -> Option<usize>
        ensures region { result ≡ position has_plic self.now.plan.regions }
        ensures plic { IfSome result (λ region. IsController self.now.devices region) }
    {
        self.controller
    }

    /// The interrupt controller of a region, to be changed.
    pub fn plic_mut(&mut self, region: usize) -> &mut Plic
        requires plic { IsController self.old.devices region }
        ensures* lends { sem 𝓛 (LendsPlic self.entry region result) }
        ensures value { device_at self.old.devices region ≡ lone.Plic result.now }
    {
        self.devices[region].plic_mut()
    }
}

/// One access to a device over what its guest holds.
fn reach(
    device: &mut RegionDevice,
    held: Held<'_>,
    mem: &mut HostMem,
    at: u64,
    access: Access,
) -> Outcome
    requires held { IsHeld mem.old held }
    requires fits { Fits access }
    ensures outcome { result ≡ (device_accessed (flat_memory (record {
      held = held.entry;
      bytes = mem.old;
    })) device.old at access).outcome }
    ensures device { device.new ≡ (device_accessed (flat_memory (record {
      held = held.entry;
      bytes = mem.old;
    })) device.old at access).device }
    ensures cells { memory_of mem.new held.entry ≡ (device_accessed (flat_memory (record {
      held = held.entry;
      bytes = mem.old;
    })) device.old at access).cells }
    ensures held { IsHeld mem.new held.entry }
    ensures memory { WithinMemory held.entry mem.old mem.new }
    ensures within { Within held.entry mem.old mem.new }
{
    let mut own = OwnMemory::new(held, std::mem::replace(mem, HostMem::empty()));
    let outcome = device.access(at, access, &mut own);
    *mem = own.into_mem();
    outcome
}
