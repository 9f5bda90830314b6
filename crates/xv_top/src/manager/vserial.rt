//! `vserial list`, `vserial input` and `vserial dump`
ghost use Rattle.std.specs.Prelude.{◌≡◌, [], IfSome, IsSome};

use super::Manager;
use crate::{lists, refusals};
use xv_base::{DevName, GuestKey, GuestName};
use xv_print::Printer;

impl Manager {
    ghost use Rattle.xv_guest.specs.Devices.{IsUart};
    ghost use Rattle.xv_host.specs.Change.{OfGuest};
    ghost use Rattle.xv_host.specs.Places.{guest_at};
    ghost use Rattle.xv_top.specs.Commands.{dump_guest, input_guest, ports_answer};
    ghost use Rattle.xv_top.specs.Lists.{uart_named};
    ghost use Rattle.xv_top.specs.Manager.{world_of, Gives, HasGuests, IsSound};
    ghost use Rattle.xv_top.specs.World.{guest_named};
    ghost use Rattle.xv_hart.specs.declared.machine.Machine.{Machine};

    /// `vserial list`
    pub(super) fn ports(&self, printer: &mut Printer)
        requires empty { printer.old ≡ [] }
        requires guests { HasGuests self.now.guest self.now.host.guests }
        ensures { (machine : Machine) → Gives (ports_answer (world_of self.now machine.mem))
            self.now self.now machine machine printer.new }
    {
        let Some(one) = self.guest else {
            return lists::ports(printer, 0);
        };
        let regions = self.host.guest(one.key).map().regions();
        lists::ports(printer, lists::port_count(regions));
        lists::ports_of(printer, one.name.bytes(), regions);
    }

    /// `vserial input NAME/DEV BYTES`
    pub(super) fn input(
        &mut self,
        name: &GuestName,
        dev: &DevName,
        bytes: &[u8],
        printer: &mut Printer,
    )
        requires empty { printer.old ≡ [] }
        requires guests { HasGuests self.old.guest self.old.host.guests }
        ensures answer { (machine : Machine) → let w = world_of self.old machine.mem in
            Gives (input_guest w name.now dev.now bytes.now (guest_named name.now w))
            self.old self.new machine machine printer.new }
        ensures sound { (machine : Machine) → IsSound self.old machine → IsSound self.new machine }
    {
        let Some(key) = self.there(name, printer) else {
            return;
        };
        let Some(region) = self.port(key, dev) else {
            return refusals::refused(printer, b"device");
        };
        match self.host.input(key, region, bytes) {
            Ok(()) => lists::input(printer, name.bytes(), dev, bytes.len() as u64),
            Err(full) => refusals::full(printer, full.free),
        }
    }

    /// `vserial dump NAME/DEV`
    pub(super) fn dump(&mut self, name: &GuestName, dev: &DevName, printer: &mut Printer)
        requires empty { printer.old ≡ [] }
        requires guests { HasGuests self.old.guest self.old.host.guests }
        ensures answer { (machine : Machine) → let w = world_of self.old machine.mem in
            Gives (dump_guest w name.now dev.now (guest_named name.now w))
            self.old self.new machine machine printer.new }
        ensures sound { (machine : Machine) → IsSound self.old machine → IsSound self.new machine }
    {
        let Some(key) = self.there(name, printer) else {
            return;
        };
        let Some(region) = self.port(key, dev) else {
            return refusals::refused(printer, b"device");
        };
        let serial = self.host.uart(key, region).serial();
        lists::dump(printer, name.bytes(), dev, serial);
        serial.clear_kept();
    }

    /// The region of the serial port of that name of a live guest.
    fn port(&self, key: GuestKey, dev: &DevName) -> Option<u8>
        requires live { IsSome (guest_at self.now.host.guests key) }
        ensures region { OfGuest self.now.host.guests key
            (λ g. result ≡ uart_named dev.now g.plan) }
        ensures uart { OfGuest self.now.host.guests key
            (λ g. IfSome result (IsUart g.devices)) }
    {
        let guest = self.host.guest(key);
        let _plan = guest.plan();
        let region = lists::port_named(guest.map().regions(), dev)?;
        Some(region as u8)
    }
}
