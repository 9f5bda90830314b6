//! The lists of guests and of serial ports, printed.
ghost use Rattle.std.specs.Prelude.{◌≡◌, ◌+◌, ◌*◌, ◌≤◌, ◌&&◌, [], ◌++◌, length, count_by};
ghost use Rattle.std.specs.List.{filter, flat_map, position};
ghost use Rattle.std.specs.Str.{bytes_eq};
ghost use Rattle.xv_lone.specs.declared.vcpu.GuestState.TheVariants as states;
ghost use Rattle.xv_print.specs.Escape.{escaped};
ghost use Rattle.xv_print.specs.declared.printer.TheConstants.{ROOM};
ghost use Rattle.xv_top.specs.Lists as lists;

use xv_base::DevName;
use xv_bus::Ending;
use xv_lone::GuestState;
use xv_print::Printer;
use xv_region::{DeviceKind, Kind, Region};
use xv_vserial::Vserial;

/// `guests COUNT`
#[tactic(auto, unfolding(crate::specs::Lists::guests_head))]
pub fn guests(printer: &mut Printer, count: u64)
    requires { printer.old ≡ [] }
    ensures text { printer.new ≡ lists.guests_head count }
    ensures short { length printer.new ≤ 40 }
{
    printer.text(b"guests ");
    printer.number(count);
    printer.text(b"\n");
}

/// `NAME STATE vcpus VCPUS`
#[tactic(auto, unfolding(crate::specs::Lists::guest_line))]
pub fn guest(printer: &mut Printer, name: &[u8], standing: GuestState, vcpus: u64)
    requires room { length printer.old + 120 ≤ ROOM }
    requires short { length name.now ≤ 40 }
    ensures text { printer.new ≡ printer.old ++ lists.guest_line name.now standing vcpus }
    ensures short { length printer.new ≤ length printer.old + 120 }
{
    printer.text(name);
    printer.text(b" ");
    state(printer, standing);
    printer.text(b" vcpus ");
    printer.number(vcpus);
    printer.text(b"\n");
}

fn state(printer: &mut Printer, state: GuestState)
    requires room { length printer.old + 40 ≤ ROOM }
    ensures text { printer.new ≡ printer.old ++ lists.state_text state }
    ensures short { length printer.new ≤ length printer.old + 40 }
{
    match state {
        GuestState::Reset => printer.text(b"reset"),
        GuestState::Running => printer.text(b"running"),
        GuestState::Paused => printer.text(b"paused"),
        GuestState::Halted(ending) => halted(printer, ending),
    }
}

fn halted(printer: &mut Printer, ending: Ending)
    requires room { length printer.old + 40 ≤ ROOM }
    ensures text { printer.new ≡ printer.old ++ lists.state_text (states.Halted ending) }
    ensures short { length printer.new ≤ length printer.old + 40 }
{
    printer.text(b"halted ");
    match ending {
        Ending::Command => printer.text(b"command"),
        Ending::Pass => printer.text(b"pass"),
        Ending::Fail(code) => {
            printer.text(b"fail ");
            printer.number(u64::from(code));
        }
        Ending::Shutdown => printer.text(b"shutdown"),
    }
}

/// `vserial COUNT`
#[tactic(auto, unfolding(crate::specs::Lists::ports_head))]
pub fn ports(printer: &mut Printer, count: u64)
    requires { printer.old ≡ [] }
    ensures text { printer.new ≡ lists.ports_head count }
    ensures short { length printer.new ≤ 40 }
{
    printer.text(b"vserial ");
    printer.number(count);
    printer.text(b"\n");
}

/// `NAME/DEV` for each serial port among these regions, one a line.
pub fn ports_of(printer: &mut Printer, name: &[u8], regions: &[Region])
    requires room { length printer.old + 120 * length regions.now ≤ ROOM }
    requires short { length name.now ≤ 40 }
    ensures { printer.new ≡ printer.old
        ++ flat_map (lists.port_line name.now) (filter lists.is_port regions.now) }
{
    for region in regions {
        if is_port(region) {
            port(printer, name, region);
        }
    }
}

/// The line `NAME/DEV`
fn port(printer: &mut Printer, name: &[u8], region: &Region)
    requires room { length printer.old + 120 ≤ ROOM }
    requires short { length name.now ≤ 40 }
    ensures text { printer.new ≡ printer.old ++ lists.port_line name.now region.now }
    ensures short { length printer.new ≤ length printer.old + 120 }
{
    port_name(printer, name, &region.name);
    printer.text(b"\n");
}

/// `NAME/DEV`
#[tactic(auto, using(crate::proofs::Names::dev_short), unfolding(crate::specs::Lists::port_text))]
pub fn port_name(printer: &mut Printer, name: &[u8], dev: &DevName)
    requires room { length printer.old + 110 ≤ ROOM }
    requires short { length name.now ≤ 40 }
    ensures text { printer.new ≡ printer.old ++ lists.port_text name.now dev.now }
    ensures short { length printer.new ≤ length printer.old + 110 }
{
    printer.text(name);
    printer.text(b"/");
    printer.text(dev.bytes());
}

/// `input NAME/DEV COUNT`
#[tactic(auto, unfolding(crate::specs::Lists::input_text))]
pub fn input(printer: &mut Printer, name: &[u8], dev: &DevName, count: u64)
    requires empty { printer.old ≡ [] }
    requires short { length name.now ≤ 40 }
    ensures { printer.new ≡ lists.input_text name.now dev.now count }
{
    printer.text(b"input ");
    port_name(printer, name, dev);
    printer.text(b" ");
    printer.number(count);
    printer.text(b"\n");
}

/// `dump NAME/DEV lost LOST bytes COUNT`, and a line with the output that is kept
pub fn dump(printer: &mut Printer, name: &[u8], dev: &DevName, serial: &Vserial)
    requires empty { printer.old ≡ [] }
    requires short { length name.now ≤ 40 }
    ensures { printer.new ≡ lists.dump_text name.now dev.now serial.now }
{
    dump_head(printer, name, dev, serial.lost(), serial.kept_len() as u64);
    kept(printer, serial);
    printer.text(b"\n");
}

/// `dump NAME/DEV lost LOST bytes COUNT`
#[tactic(auto, unfolding(crate::specs::Lists::dump_head))]
fn dump_head(printer: &mut Printer, name: &[u8], dev: &DevName, lost: u64, count: u64)
    requires empty { printer.old ≡ [] }
    requires short { length name.now ≤ 40 }
    ensures text { printer.new ≡ lists.dump_head name.now dev.now lost count }
    ensures short { length printer.new ≤ 200 }
{
    printer.text(b"dump ");
    port_name(printer, name, dev);
    printer.text(b" lost ");
    printer.number(lost);
    printer.text(b" bytes ");
    printer.number(count);
    printer.text(b"\n");
}

/// The output that is kept, the oldest byte first.
fn kept(printer: &mut Printer, serial: &Vserial)
    requires room { length printer.old + 4 * length serial.now.kept ≤ ROOM }
    ensures text { printer.new ≡ printer.old ++ flat_map escaped serial.now.kept }
    ensures short { length printer.new ≤ length printer.old + 4 * length serial.now.kept }
{
    for at in 0..serial.kept_len() {
        if let Some(byte) = serial.kept_at(at) {
            printer.escaped(byte);
        }
    }
}

/// The first of these regions that is the serial port of that name.
pub fn port_named(regions: &[Region], dev: &DevName) -> Option<usize>
    ensures { result
        ≡ position (λ r. lists.is_port r && bytes_eq r.name dev.now) regions.now }
{
    regions.iter().position(|region| is_named(region, dev))
}

/// Whether a region is the serial port of that name.
fn is_named(region: &Region, dev: &DevName) -> bool
    ensures { result ≡ (lists.is_port region.now && bytes_eq region.now.name dev.now) }
{
    is_port(region) && region.name.bytes() == dev.bytes()
}

/// How many of these regions are serial ports.
pub fn port_count(regions: &[Region]) -> u64
    ensures { result ≡ count_by lists.is_port regions.now }
{
    regions.iter().filter(|region| is_port(region)).count() as u64
}

/// Whether a UART stands behind the addresses of a region.
fn is_port(region: &Region) -> bool
    ensures { result ≡ lists.is_port region.now }
{
    matches!(region.kind, Kind::Device(DeviceKind::Uart { .. }))
}
