//! The modem's inputs (sections 8.8 and 8.9).
ghost use Rattle.std.specs.Prelude.{◌≡◌, ◌^◌, ◌<◌, ◌≤◌};
ghost use Rattle.xv_bus.specs.Uart as ports;

use crate::flags::ModemControl;
use bitflags::Flags;
use xv_bus::Modem;

/// The inputs by modem control: with loop back they are its outputs.
#[tactic(auto, using(crate::proofs::BitLemmas::contained))]
pub fn modem_of(mcr: u8) -> Modem
    ensures { result ≡ ports.modem mcr }
{
    let control = ModemControl::from_bits_retain(mcr);
    if control.contains(ModemControl::LOOP) {
        Modem {
            cts: control.contains(ModemControl::RTS),
            dsr: control.contains(ModemControl::DTR),
            ri: control.contains(ModemControl::OUT1),
            dcd: control.contains(ModemControl::OUT2),
        }
    } else {
        Modem {
            cts: true,
            dsr: true,
            ri: false,
            dcd: true,
        }
    }
}

/// The inputs as bits 7:4 of modem status.
pub fn input_bits(inputs: Modem) -> u8
    ensures bits { result ≡ ports.input_bits inputs }
    ensures high { result ≤ 0xF0 }
{
    let cts = if inputs.cts { 1 << 4 } else { 0 };
    let dsr = if inputs.dsr { 1 << 5 } else { 0 };
    let ri = if inputs.ri { 1 << 6 } else { 0 };
    let dcd = if inputs.dcd { 1 << 7 } else { 0 };
    cts + dsr + ri + dcd
}

/// What has changed, as bits 3:0 of modem status.
pub fn change_bits(old: Modem, new: Modem) -> u8
    ensures bits { result ≡ ports.change_bits old new }
    ensures low { result < 2 ^ 4 }
{
    let cts = if differ(old.cts, new.cts) { 1 << 0 } else { 0 };
    let dsr = if differ(old.dsr, new.dsr) { 1 << 1 } else { 0 };
    let ri = if old.ri && !new.ri { 1 << 2 } else { 0 };
    let dcd = if differ(old.dcd, new.dcd) { 1 << 3 } else { 0 };
    cts + dsr + ri + dcd
}

fn differ(old: bool, new: bool) -> bool
    ensures { result ≡ ports.differ old new }
{
    old != new
}
