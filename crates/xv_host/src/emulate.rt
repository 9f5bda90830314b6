//! Loads and stores that lead to no memory: a device answers them, or they are access faults.
ghost use Rattle.std.specs.Prelude.{◌≡◌, ◌≢◌, ℕ, ◌+◌, ◌<◌, ◌≤◌, List, length, None, Some, IfSome};
ghost use Rattle.std.specs.Prelude.{unwrap_or};
ghost use Rattle.xv_bus.specs.Access.{Fits};
ghost use Rattle.xv_csr.specs.Cause as causes;
ghost use Rattle.xv_csr.specs.Fields.{IsInstructionAddress};
ghost use Rattle.xv_isa.specs.Effects as effects;
ghost use Rattle.xv_isa.specs.Encoding.{InRange};
ghost use Rattle.xv_isa.specs.Length.{next_pc};
ghost use Rattle.xv_emul.specs.Emulation.{access_of, after_load, at_bus, is_bus_load, is_load};
ghost use Rattle.xv_region.specs.Cell.{cell};
ghost use Rattle.xv_region.specs.Plan.{Plan};
ghost use Rattle.xv_region.specs.Rules.{Accepted};
ghost use Rattle.xv_step.specs.Outcome.{access_fault, access_kind, address_of};
ghost use Rattle.xv_hart.specs.Memory.{HasMemory};
ghost use Rattle.xv_hart.specs.Step.{IsWellFormed};
ghost use Rattle.xv_guest.specs.Guest.{held_of};
ghost use Rattle.xv_guest.specs.Held.{IsHeld};
ghost use Rattle.xv_lone.specs.Step.{by_device};
ghost use Rattle.xv_lone.specs.declared.vcpu.HartState.TheVariants as states;
ghost use Rattle.xv_host.specs.Join.{IsGoodFor};
ghost use Rattle.xv_host.specs.Monitor.{IsAbout, IsEmulated, TellsAccess, access_by};
ghost use Rattle.xv_host.specs.Monitor.{device_access, gpa_of, kind_of_cause, page_faulted};
ghost use Rattle.xv_host.specs.Monitor.{word_of};
ghost use Rattle.xv_host.specs.Monitor.{width_of_bus};
ghost use Rattle.xv_host.specs.OnHart.{AccessLeaves, after_of, on_hart_of, view_of};

use crate::monitor::fault;
use std::sync::ledger::Ledger;
use xv_base::VcpuNo;
use xv_bus::{Access, Outcome, Width};
use xv_csr::cause::{
    INSTRUCTION_ACCESS_FAULT, INSTRUCTION_GUEST_PAGE_FAULT, LOAD_ACCESS_FAULT,
    LOAD_GUEST_PAGE_FAULT, STORE_ACCESS_FAULT,
};
use xv_emul::{emulate, write_back};
use xv_firmware::{Progress, reboot};
use xv_guest::{Guest, GuestState, HartState, VcpuView};
use xv_hart::{HTrap, Regs};
use xv_isa::{Insn, decode, next_pc};
use xv_mem::{HostMem, Steps};
use xv_region::{Cell, RegionMap};

/// An instruction whose access a device answers: the one of a region, at an offset there. Behind it
/// the next instruction stands at `next`.
#[derive(Clone, Copy)]
pub(crate) struct Emulated {
    insn: Insn,
    access: Access,
    region: u8,
    offset: u64,
    next: u64,
}

/// Answers a load or a store that led to no memory, or an access of the hart to a page table for
/// one.
pub(crate) fn page_fault<L: Ledger>(
    guest: &mut Guest,
    vcpu: VcpuNo,
    view: &VcpuView,
    regs: &mut Regs,
    mem: &mut HostMem,
    trap: &HTrap,
    steps: &mut Steps<L>,
) -> Progress
    requires number { vcpu < length guest.old.vcpus }
    requires formed { IsWellFormed regs.old }
    requires memory { HasMemory regs.old mem.old }
    requires held { IsHeld mem.old (held_of guest.old) }
    requires accepted { Accepted guest.old.plan.regions }
    requires tells { TellsAccess (access_by (word_of regs.old mem.old) regs.old.x) trap.now }
    requires no_call { trap.now.cause ≢ causes.environment_call_from_vs }
    requires no_wait { trap.now.cause ≢ causes.virtual_instruction }
    requires no_fetch { trap.now.cause ≢ causes.instruction_guest_page_fault }
    ensures faulted { (t : ℕ) → after_of guest.new vcpu view.now regs.new mem.new result
        ≡ page_faulted guest.old.plan vcpu t
        (on_hart_of guest.old vcpu view.now regs.old mem.old states.Started)
        (view_of view.now regs.old states.Started) (word_of regs.old mem.old) trap.now
        (device_access guest.old.plan (word_of regs.old mem.old) regs.old.x trap.now) }
    ensures leaves { AccessLeaves result guest.old guest.new }
    ensures time { regs.new.time ≡ regs.old.time }
    ensures h { regs.new.h ≡ regs.old.h }
    ensures held { regs.new.held ≡ regs.old.held }
    ensures formed { IsWellFormed regs.new }
    ensures good { IsGoodFor (held_of guest.old) mem.old mem.new }
    ensures counted { steps.new ≤ steps.old + 16 }
{
    let _plan = guest.plan();
    let cause = access_fault_of(trap.cause);
    match find_access(guest.map(), regs, mem, trap, steps) {
        Some(emulated) => answer_access(guest, vcpu, view, regs, mem, &emulated, cause, trap.tval),
        None => Progress::Goes(fault(regs, cause, trap.tval)),
    }
}

/// The cause of the access fault that a guest-page fault is to the guest.
fn access_fault_of(cause: u8) -> u64
    ensures { result ≡ access_fault (kind_of_cause cause) }
{
    match cause as u64 {
        INSTRUCTION_GUEST_PAGE_FAULT => INSTRUCTION_ACCESS_FAULT,
        LOAD_GUEST_PAGE_FAULT => LOAD_ACCESS_FAULT,
        _ => STORE_ACCESS_FAULT,
    }
}

/// The access to a device that a fault is about, or None where it isn't about one.
fn find_access<L: Ledger>(
    map: &RegionMap,
    regs: &Regs,
    mem: &HostMem,
    trap: &HTrap,
    steps: &mut Steps<L>,
) -> Option<Emulated>
    requires formed { IsWellFormed regs.now }
    requires memory { HasMemory regs.now mem.now }
    requires accepted { Accepted map.now }
    ensures none { (plan : Plan) → plan.regions ≡ map.now → result ≡ None →
        device_access plan (word_of regs.now mem.now) regs.now.x trap.now ≡ None }
    ensures some { (plan : Plan) → plan.regions ≡ map.now →
        IfSome result (IsEmulated plan regs.now mem.now trap.now) }
    ensures counted { steps.new ≤ steps.old + 16 }
{
    if trap.htinst != 0 {
        return None;
    }
    let word = regs.fetch(mem, steps)?;
    let insn = decode(word)?;
    let access = emulate(&insn, &regs.x)?;
    match cell_of(map, trap, &access) {
        Cell::Device { region, offset } => Some(Emulated {
            insn,
            access,
            region,
            offset,
            next: next_pc(regs.pc, word),
        }),
        Cell::Memory {
            region: _,
            offset: _,
            writable: _,
        } => None,
        Cell::Nothing => None,
    }
}

/// What the bytes of an access name, whose fault this is.
fn cell_of(map: &RegionMap, trap: &HTrap, access: &Access) -> Cell
    requires { Accepted map.now }
    ensures { result ≡ cell map.now (gpa_of trap.now) (width_of_bus access.now) }
{
    if trap.htval >= 1 << 62 {
        return Cell::Nothing;
    }
    map.cell(trap.htval * 4 + trap.tval % 4, bytes_of(access))
}

/// How many bytes an access has.
fn bytes_of(access: &Access) -> u64
    ensures { result ≡ width_of_bus access.now }
{
    let (Access::Load(width) | Access::Store(width, _)) = access;
    match width {
        Width::W1 => 1,
        Width::W2 => 2,
        Width::W4 => 4,
        Width::W8 => 8,
    }
}

/// The device answers. What it refuses is an access fault, of this cause and at this address.
fn answer_access(
    guest: &mut Guest,
    vcpu: VcpuNo,
    view: &VcpuView,
    regs: &mut Regs,
    mem: &mut HostMem,
    emulated: &Emulated,
    cause: u64,
    va: u64,
) -> Progress
    requires number { vcpu < length guest.old.vcpus }
    requires formed { IsWellFormed regs.old }
    requires held { IsHeld mem.old (held_of guest.old) }
    requires region { emulated.now.region < length guest.old.devices }
    requires fits { Fits emulated.now.access }
    requires range { InRange emulated.now.insn }
    requires next { IsInstructionAddress emulated.now.next }
    requires load { is_bus_load (Some emulated.now.access)
        ≡ is_load (access_of emulated.now.insn regs.old.x) }
    ensures reached { (plain : effects.Access) → access_of emulated.now.insn regs.old.x ≡ Some plain
        → at_bus plain ≡ emulated.now.access → access_fault (access_kind plain) ≡ cause
        → address_of plain ≡ va → after_of guest.new vcpu view.now regs.new mem.new result
        ≡ by_device guest.old.plan vcpu (view_of view.now regs.old states.Started) plain
        emulated.now.next (on_hart_of guest.old vcpu view.now regs.old mem.old states.Started)
        emulated.now.region emulated.now.offset }
    ensures leaves { AccessLeaves result guest.old guest.new }
    ensures time { regs.new.time ≡ regs.old.time }
    ensures h { regs.new.h ≡ regs.old.h }
    ensures held { regs.new.held ≡ regs.old.held }
    ensures formed { IsWellFormed regs.new }
    ensures good { IsGoodFor (held_of guest.old) mem.old mem.new }
{
    match guest.access(mem, emulated.region, emulated.offset, emulated.access) {
        Outcome::Value(value) => {
            retire(regs, emulated, value);
            Progress::Goes(HartState::Started)
        }
        Outcome::Done => {
            retire(regs, emulated, 0);
            Progress::Goes(HartState::Started)
        }
        Outcome::Refused => Progress::Goes(fault(regs, cause, va)),
        Outcome::Halt(ending) => {
            retire(regs, emulated, 0);
            let birth = guest.birth();
            guest.put(GuestState::Halted(ending), birth);
            Progress::Halts
        }
        Outcome::Reboot => {
            reboot(guest);
            Progress::Reboots
        }
    }
}

/// The instruction has made its access, which gave this value, and the next one follows.
fn retire(regs: &mut Regs, emulated: &Emulated, value: u64)
    requires range { InRange emulated.now.insn }
    requires load { is_bus_load (Some emulated.now.access)
        ≡ is_load (access_of emulated.now.insn regs.old.x) }
    ensures retired { regs.new ≡ record regs.old {
      x = after_load (access_of emulated.now.insn regs.old.x) value regs.old.x;
      pc = emulated.now.next;
    } }
{
    if let Access::Load(_) = emulated.access {
        write_back(&emulated.insn, &mut regs.x, value);
    }
    regs.pc = emulated.next;
}
