//! The serial ports of a live guest: their input, and what lends one.
ghost use Rattle.std.specs.Prelude.{◌≡◌, ◌↔◌, ◌<◌, ℕ, List, length, IsSome, IfErr, IsErr, OnErr};
ghost use Rattle.std.specs.Prelude.{OnOk};
ghost use Rattle.std.specs.Borrow.{sem};
ghost use Rattle.xv_base.specs.Serial.{queue_room};
ghost use Rattle.xv_lone.specs.Device as devices;
ghost use Rattle.xv_lone.specs.Device.{device_at, serial_of};
ghost use Rattle.xv_lone.specs.Journal as journal;
ghost use Rattle.xv_guest.specs.Devices.{IsUart};
ghost use Rattle.xv_host.specs.Change.{IsChange, OfGuest};
ghost use Rattle.xv_host.specs.Host.{IsHosted};
ghost use Rattle.xv_host.specs.Places.{guest_at};

use crate::host::Host;
use xv_base::GuestKey;
use xv_guest::Guest;
use xv_uart::Uart;
use xv_vserial::InputFull;

impl Host {
    ghost use Rattle.xv_host.specs.Lending.{LendsUart};

    /// Gives bytes to the UART of a region of a live guest, all or none; then the gateways of the
    /// guest make their step. It is refused where the bytes are more than the free places of the
    /// queue, and then nothing changes.
    pub fn input(&mut self, key: GuestKey, region: u8, bytes: &[u8]) -> Result<(), InputFull>
        requires live { IsSome (guest_at self.old.guests key) }
        requires uart { OfGuest self.old.guests key (λ g. IsUart g.devices region) }

        ensures input { OnOk result ((host : List ℕ) →
            IsChange (journal.Input region bytes.now) key self.old self.new host host) }
        ensures full { OfGuest self.old.guests key (λ g. IsErr result
            ↔ (queue_room (serial_of (device_at g.devices region)) < length bytes.now)) }
        ensures free { IfErr result (λ full. OfGuest self.old.guests key (λ g. full.free
            ≡ queue_room (serial_of (device_at g.devices region)))) }
        ensures pool { self.new.pool ≡ self.old.pool }
        ensures unchanged { OnErr result (self.new ≡ self.old) }
        ensures hosted { (host : List ℕ) → IsHosted self.old host → IsHosted self.new host }
    {
        let guest = self.guests.value_mut(key);
        guest.input(region, bytes)?;
        Ok(())
    }

    /// The UART of a region of a live guest, to be changed. Whatever it becomes, the guest holds
    /// what it held.
    pub fn uart(&mut self, key: GuestKey, region: u8) -> &mut Uart
        requires live { IsSome (guest_at self.old.guests key) }
        requires uart { OfGuest self.old.guests key (λ g. IsUart g.devices region) }
        ensures* lends { sem 𝓛 (LendsUart self.entry key region result) }
        ensures value { OfGuest self.old.guests key (λ g. device_at g.devices region
            ≡ devices.Uart result.now) }
    {
        self.guests.value_mut(key).uart_mut(region)
    }
}
