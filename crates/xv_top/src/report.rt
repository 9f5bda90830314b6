//! The lines of the answers, printed.
ghost use Rattle.std.specs.Prelude.{◌≡◌, ◌+◌, ◌*◌, ◌<◌, ◌≤◌, [], ◌++◌, length};
ghost use Rattle.xv_print.specs.declared.printer.TheConstants.{ROOM};
ghost use Rattle.xv_top.specs.Texts as texts;

use xv_csr::SCsrs;
use xv_lone::{HartState, VcpuView};
use xv_print::Printer;

/// `created NAME vcpus VCPUS regions REGIONS frames FRAMES`
#[tactic(auto, unfolding(crate::specs::Texts::created_text))]
pub fn created(printer: &mut Printer, name: &[u8], vcpus: u64, regions: u64, frames: u64)
    requires empty { printer.old ≡ [] }
    requires short { length name.now ≤ 40 }
    ensures { printer.new ≡ texts.created_text name.now vcpus regions frames }
{
    printer.text(b"created ");
    printer.text(name);
    printer.text(b" vcpus ");
    printer.number(vcpus);
    printer.text(b" regions ");
    printer.number(regions);
    printer.text(b" frames ");
    printer.number(frames);
    printer.text(b"\n");
}

/// `poked NAME COUNT`
#[tactic(auto, unfolding(crate::specs::Texts::poked_text))]
pub fn poked(printer: &mut Printer, name: &[u8], count: u64)
    requires empty { printer.old ≡ [] }
    requires short { length name.now ≤ 40 }
    ensures { printer.new ≡ texts.poked_text name.now count }
{
    printer.text(b"poked ");
    printer.text(name);
    printer.text(b" ");
    printer.number(count);
    printer.text(b"\n");
}

/// `loaded NAME COUNT`
#[tactic(auto, unfolding(crate::specs::Texts::loaded_text))]
pub fn loaded(printer: &mut Printer, name: &[u8], count: u64)
    requires empty { printer.old ≡ [] }
    requires short { length name.now ≤ 40 }
    ensures { printer.new ≡ texts.loaded_text name.now count }
{
    printer.text(b"loaded ");
    printer.text(name);
    printer.text(b" ");
    printer.number(count);
    printer.text(b"\n");
}

/// `mem NAME GPA HEX`
#[tactic(auto, unfolding(crate::specs::Texts::mem_text))]
pub fn mem(printer: &mut Printer, name: &[u8], gpa: u64, bytes: &[u8])
    requires empty { printer.old ≡ [] }
    requires short { length name.now ≤ 40 }
    requires few { length bytes.now ≤ 4096 }
    ensures { printer.new ≡ texts.mem_text name.now gpa bytes.now }
{
    printer.text(b"mem ");
    printer.text(name);
    printer.text(b" ");
    printer.hex16(gpa);
    printer.text(b" ");
    printer.hex(bytes);
    printer.text(b"\n");
}

/// `digest NAME HEX`
#[tactic(auto, unfolding(crate::specs::Texts::digest_text))]
pub fn digest(printer: &mut Printer, name: &[u8], digest: &[u8; 32])
    requires empty { printer.old ≡ [] }
    requires short { length name.now ≤ 40 }
    ensures { printer.new ≡ texts.digest_text name.now digest.now }
{
    printer.text(b"digest ");
    printer.text(name);
    printer.text(b" ");
    printer.hex(digest);
    printer.text(b"\n");
}

/// `audit NAME PAGES`
#[tactic(auto, unfolding(crate::specs::Texts::audit_text))]
pub fn audit(printer: &mut Printer, name: &[u8], pages: u64)
    requires empty { printer.old ≡ [] }
    requires short { length name.now ≤ 40 }
    ensures { printer.new ≡ texts.audit_text name.now pages }
{
    printer.text(b"audit ");
    printer.text(name);
    printer.text(b" ");
    printer.number(pages);
    printer.text(b"\n");
}

/// `kicked NAME`
#[tactic(auto, unfolding(crate::specs::Texts::kicked_text))]
pub fn kicked(printer: &mut Printer, name: &[u8])
    requires empty { printer.old ≡ [] }
    requires short { length name.now ≤ 40 }
    ensures { printer.new ≡ texts.kicked_text name.now }
{
    printer.text(b"kicked ");
    printer.text(name);
    printer.text(b"\n");
}

/// `ran TURNS idle IDLE now CLOCK`
#[tactic(auto, unfolding(crate::specs::Texts::ran_text))]
pub fn ran(printer: &mut Printer, turns: u64, idle: u64, clock: u64)
    requires { printer.old ≡ [] }
    ensures { printer.new ≡ texts.ran_text turns idle clock }
{
    printer.text(b"ran ");
    printer.number(turns);
    printer.text(b" idle ");
    printer.number(idle);
    printer.text(b" now ");
    printer.number(clock);
    printer.text(b"\n");
}

/// `clock VALUE`
#[tactic(auto, unfolding(crate::specs::Texts::clock_text))]
pub fn clock(printer: &mut Printer, value: u64)
    requires { printer.old ≡ [] }
    ensures { printer.new ≡ texts.clock_text value }
{
    printer.text(b"clock ");
    printer.number(value);
    printer.text(b"\n");
}

/// `tick VALUE`
#[tactic(auto, unfolding(crate::specs::Texts::tick_text))]
pub fn tick(printer: &mut Printer, value: u64)
    requires { printer.old ≡ [] }
    ensures { printer.new ≡ texts.tick_text value }
{
    printer.text(b"tick ");
    printer.number(value);
    printer.text(b"\n");
}

fn hart_state_name(state: HartState) -> &'static [u8]
    ensures text { result.now ≡ texts.hart_state_text state }
    ensures short { length result.now ≤ 9 }
{
    match state {
        HartState::Started => b"started",
        HartState::Waiting => b"waiting",
        HartState::Suspended => b"suspended",
        HartState::Stopped => b"stopped",
    }
}

fn mode_name(user: bool) -> &'static [u8]
    ensures text { result.now ≡ texts.mode_text user }
    ensures short { length result.now ≤ 1 }
{
    if user { b"U" } else { b"S" }
}

#[tactic(auto, unfolding(crate::specs::Texts::regs_head))]
fn head(printer: &mut Printer, name: &[u8], vcpu: u64, view: &VcpuView)
    requires empty { printer.old ≡ [] }
    requires short { length name.now ≤ 40 }
    ensures text { printer.new ≡ texts.regs_head name.now vcpu view.now }
    ensures short { length printer.new ≤ 200 }
{
    printer.text(b"regs ");
    printer.text(name);
    printer.text(b" ");
    printer.number(vcpu);
    printer.text(b" ");
    printer.text(hart_state_name(view.hart));
    printer.text(b" ");
    printer.text(mode_name(view.user));
    printer.text(b" pc=");
    printer.hex16(view.pc);
    printer.text(b"\n");
}

fn separator(number: u64) -> &'static [u8]
    ensures text { result.now ≡ texts.register_end number }
    ensures short { length result.now ≤ 1 }
{
    if number % 4 == 3 { b"\n" } else { b" " }
}

#[tactic(auto, unfolding(crate::specs::Texts::register_text))]
fn register(printer: &mut Printer, x: &[u64; 32], number: u64)
    requires number { number < 32 }
    requires room { length printer.old + 40 ≤ ROOM }
    ensures text { printer.new ≡ printer.old ++ texts.register_text x.now number }
    ensures short { length printer.new ≤ length printer.old + 40 }
{
    printer.text(b"x");
    printer.number(number);
    printer.text(b"=");
    printer.hex16(x[number as usize]);
    printer.text(separator(number));
}

fn registers(printer: &mut Printer, x: &[u64; 32])
    requires { length printer.old ≤ 200 }
    ensures text { printer.new ≡ printer.old ++ texts.registers_text x.now 32 }
    ensures short { length printer.new ≤ length printer.old + 1280 }
{
    for number in 0..32 {
        register(printer, x, number);
    }
}

/// One CSR, by its name: `NAME=VALUE` and then the bytes behind it.
#[tactic(auto, unfolding(crate::specs::Texts::named_text))]
fn named(printer: &mut Printer, name: &[u8], value: u64, behind: &[u8])
    requires room { length printer.old + 40 ≤ ROOM }
    requires short { length name.now + length behind.now ≤ 20 }
    ensures text { printer.new ≡ printer.old ++ texts.named_text name.now value ++ behind.now }
    ensures short { length printer.new ≤ length printer.old + 40 }
{
    printer.text(name);
    printer.text(b"=");
    printer.hex16(value);
    printer.text(behind);
}

fn ssip_value(ssip: bool) -> u64
    ensures { result ≡ texts.ssip_value ssip }
{
    if ssip { 2 } else { 0 }
}

#[tactic(auto, unfolding(crate::specs::Texts::status_line))]
fn status(printer: &mut Printer, csrs: &SCsrs)
    requires { length printer.old + 160 ≤ ROOM }
    ensures text { printer.new ≡ printer.old ++ texts.status_line csrs.now }
    ensures short { length printer.new ≤ length printer.old + 160 }
{
    named(printer, b"sstatus", csrs.sstatus, b" ");
    named(printer, b"sie", csrs.sie, b" ");
    named(printer, b"ssip", ssip_value(csrs.ssip), b" ");
    named(printer, b"stvec", csrs.stvec, b"\n");
}

#[tactic(auto, unfolding(crate::specs::Texts::trap_line))]
fn traps(printer: &mut Printer, csrs: &SCsrs)
    requires { length printer.old + 160 ≤ ROOM }
    ensures text { printer.new ≡ printer.old ++ texts.trap_line csrs.now }
    ensures short { length printer.new ≤ length printer.old + 160 }
{
    named(printer, b"sscratch", csrs.sscratch, b" ");
    named(printer, b"sepc", csrs.sepc, b" ");
    named(printer, b"scause", csrs.scause, b" ");
    named(printer, b"stval", csrs.stval, b"\n");
}

#[tactic(auto, unfolding(crate::specs::Texts::last_line))]
fn last(printer: &mut Printer, csrs: &SCsrs, timer: u64)
    requires { length printer.old + 160 ≤ ROOM }
    ensures { printer.new ≡ printer.old ++ texts.last_line csrs.now timer }
{
    named(printer, b"satp", csrs.satp, b" ");
    named(printer, b"scounteren", csrs.scounteren, b" ");
    named(printer, b"senvcfg", csrs.senvcfg, b" ");
    named(printer, b"timer", timer, b"\n");
}

/// The twelve lines of a VCPU's registers.
#[tactic(auto, unfolding(crate::specs::Texts::regs_text))]
pub fn regs(printer: &mut Printer, name: &[u8], vcpu: u64, view: &VcpuView)
    requires empty { printer.old ≡ [] }
    requires short { length name.now ≤ 40 }
    ensures { printer.new ≡ texts.regs_text name.now vcpu view.now }
{
    head(printer, name, vcpu, view);
    registers(printer, &view.x);
    status(printer, &view.csrs);
    traps(printer, &view.csrs);
    last(printer, &view.csrs, view.timer);
}
