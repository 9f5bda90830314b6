//! What each call comes to, and what it does to the VCPUs of its guest.
ghost use Rattle.std.specs.Prelude.{◌≡◌, ℕ, ◌<◌, ◌≤◌, List, length, slice_get, slice_set, Some};
ghost use Rattle.std.specs.Prelude.{None};
ghost use Rattle.std.specs.Prelude.{IfSome, if◌then◌else◌};
ghost use Rattle.xv_region.specs.Plan.{Plan};
ghost use Rattle.xv_sbi.specs.Mask.{mask_ok, names};
ghost use Rattle.xv_guest.specs.Guest.{Guest, lone_of};
ghost use Rattle.xv_lone.specs.Calls as lone;
ghost use Rattle.xv_lone.specs.Machine.{Machine, on_vcpu};
ghost use Rattle.xv_lone.specs.declared.vcpu.VcpuView.{VcpuView};
ghost use Rattle.xv_firmware.specs.Calls.{Changes, is_stopped, reply_of};

use xv_base::VcpuNo;
use xv_bus::Ending;
use xv_guest::{Guest, HartState, VcpuView};
use xv_region::{Cell, RegionMap};
use xv_sbi::{Call, mask_ok};

// errors, as numbers of 64 bits: -2, -3, -5 and -6
const NOT_SUPPORTED: u64 = u64::MAX - 1;

const INVALID_PARAM: u64 = u64::MAX - 2;

const INVALID_ADDRESS: u64 = u64::MAX - 4;

const ALREADY_AVAILABLE: u64 = u64::MAX - 5;

// version 1.0
const SPEC_VERSION: u64 = 1 << 24;

// the number of Xvisor among the implementations
const IMPL_ID: u64 = 2;

// the base of a mask that names every VCPU
const ALL_VCPUS: u64 = u64::MAX;

// the registers of the first two arguments
const A0: usize = 10;

const A1: usize = 11;

/// What a call comes to.
#[derive(Clone, Copy)]
pub(crate) enum Reply {
    /// Error and value.
    Returns(u64, u64),
    /// The VCPU that called is stopped.
    StopsCaller,
    HaltsGuest(Ending),
    RebootsGuest,
}

/// What a call comes to, and what it does to the VCPUs of its guest but for its return.
pub(crate) fn reply_to(guest: &mut Guest, vcpu: VcpuNo, call: Call) -> Reply
    requires number { vcpu < length guest.old.vcpus }
    ensures replied { (bytes : List ℕ) →
        lone.replied guest.old.plan vcpu (lone_of guest.old bytes) call
        ≡ reply_of result (lone_of guest.new bytes) }
    ensures changes { Changes result guest.old guest.new }
    ensures count { length guest.new.vcpus ≡ length guest.old.vcpus }
{
    match call {
        Call::SpecVersion => Reply::Returns(0, SPEC_VERSION),
        Call::ImplId => Reply::Returns(0, IMPL_ID),
        Call::ImplVersion => Reply::Returns(0, 0),
        Call::Probe { extension } => Reply::Returns(0, probed(extension)),
        Call::VendorId => Reply::Returns(0, 0),
        Call::ArchId => Reply::Returns(0, 0),
        Call::MachineId => Reply::Returns(0, 0),
        Call::SetTimer { compare } => set_timer(guest, vcpu, compare),
        Call::Ipi { mask, base } => signal(guest, mask, base),
        Call::Fence { mask, base } => fence(guest, mask, base),
        Call::HartStart {
            hart,
            address,
            opaque,
        } => start(guest, hart, address, opaque),
        Call::HartStop => Reply::StopsCaller,
        Call::HartStatus { hart } => status(guest, hart),
        Call::HartSuspend { kind } => suspend(guest, vcpu, kind),
        Call::SystemReset { kind, reason } => reset(kind, reason),
        Call::Unknown => Reply::Returns(NOT_SUPPORTED, 0),
    }
}

/// 1 where there is a call of the extension, and else 0.
fn probed(extension: u64) -> u64
    ensures { result ≡ lone.probed extension }
{
    match extension {
        0x10 | 0x5449_4D45 | 0x73_5049 | 0x5246_4E43 | 0x48_534D | 0x5352_5354 => 1,
        _ => 0,
    }
}

/// Sets the guest time from which on the timer interrupt of a VCPU is pending.
fn set_timer(guest: &mut Guest, vcpu: VcpuNo, compare: u64) -> Reply
    requires number { vcpu < length guest.old.vcpus }
    ensures replied { (bytes : List ℕ) →
        lone.gives 0 (on_vcpu vcpu (λ v. record v { timer = compare }) (lone_of guest.old bytes))
        ≡ reply_of result (lone_of guest.new bytes) }
    ensures changes { Changes result guest.old guest.new }
    ensures count { length guest.new.vcpus ≡ length guest.old.vcpus }
{
    let mut view = guest.view(vcpu);
    view.timer = compare;
    guest.set_view(vcpu, &view);
    Reply::Returns(0, 0)
}

/// Signals a software interrupt to each VCPU that the mask names, where they are all there.
fn signal(guest: &mut Guest, mask: u64, base: u64) -> Reply
    ensures replied { (bytes : List ℕ) → lone.where_named mask base (lone_of guest.old bytes)
        (lone.with_signals mask base (lone_of guest.old bytes))
        ≡ reply_of result (lone_of guest.new bytes) }
    ensures changes { Changes result guest.old guest.new }
    ensures count { length guest.new.vcpus ≡ length guest.old.vcpus }
{
    if !are_there(guest, mask, base) {
        return Reply::Returns(INVALID_PARAM, 0);
    }
    signal_each(guest, mask, base);
    Reply::Returns(0, 0)
}

/// Whether each VCPU that the mask names is there.
fn are_there(guest: &Guest, mask: u64, base: u64) -> bool
    ensures { result ≡ mask_ok mask base (length guest.now.vcpus) }
{
    mask_ok(mask, base, vcpu_count(guest))
}

/// How many VCPUs a guest has.
fn vcpu_count(guest: &Guest) -> u8
    ensures count { result ≡ length guest.now.vcpus }
    ensures few { result ≤ 8 }
{
    guest.plan().vcpus.len() as u8
}

fn signal_each(guest: &mut Guest, mask: u64, base: u64)
    ensures signalled { guest.new ≡ record guest.old {
      vcpus = lone.signalled_from mask base 0 guest.old.vcpus;
    } }
    ensures count { length guest.new.vcpus ≡ length guest.old.vcpus }
{
    for number in 0..vcpu_count(guest) {
        signal_one(guest, mask, base, VcpuNo(number));
    }
}

fn signal_one(guest: &mut Guest, mask: u64, base: u64, number: VcpuNo)
    requires number { number < length guest.old.vcpus }
    ensures { (v : VcpuView) → slice_get guest.old.vcpus number ≡ Some v →
        guest.new ≡ record guest.old {
          vcpus = slice_set guest.old.vcpus number
              (if names mask base number then lone.signalled v else v);
        } }
{
    let mut view = guest.view(number);
    if names(mask, base, number.0 as u64) {
        view.csrs.ssip = true;
    }
    guest.set_view(number, &view);
}

/// Whether a mask names a VCPU.
fn names(mask: u64, base: u64, vcpu: u64) -> bool
    ensures { result ≡ names mask base vcpu }
{
    base == ALL_VCPUS || (base <= vcpu && vcpu - base < 64 && mask >> (vcpu - base) & 1 == 1)
}

/// A fence on other VCPUs, which has nothing to do.
fn fence(guest: &Guest, mask: u64, base: u64) -> Reply
    ensures replied { (bytes : List ℕ) → lone.where_named mask base (lone_of guest.now bytes)
        (lone_of guest.now bytes) ≡ reply_of result (lone_of guest.now bytes) }
    ensures changes { Changes result guest.now guest.now }
{
    if are_there(guest, mask, base) {
        Reply::Returns(0, 0)
    } else {
        Reply::Returns(INVALID_PARAM, 0)
    }
}

/// Starts a VCPU that is stopped, at an address.
fn start(guest: &mut Guest, hart: u64, address: u64, opaque: u64) -> Reply
    ensures replied { (bytes : List ℕ) → lone.start guest.old.plan hart address opaque
        (lone_of guest.old bytes) (slice_get guest.old.vcpus hart)
        ≡ reply_of result (lone_of guest.new bytes) }
    ensures changes { Changes result guest.old guest.new }
    ensures count { length guest.new.vcpus ≡ length guest.old.vcpus }
{
    let Some(vcpu) = numbered(guest, hart) else {
        return Reply::Returns(INVALID_PARAM, 0);
    };
    if !is_stopped(guest.view(vcpu).hart) {
        return Reply::Returns(ALREADY_AVAILABLE, 0);
    }
    if !may_start(guest.map(), address) {
        return Reply::Returns(INVALID_ADDRESS, 0);
    }
    let mut view = VcpuView::reset(address);
    view.x[A0] = hart;
    view.x[A1] = opaque;
    view.hart = HartState::Started;
    guest.set_view(vcpu, &view);
    Reply::Returns(0, 0)
}

/// The VCPU of a number, if there is one.
fn numbered(guest: &Guest, hart: u64) -> Option<VcpuNo>
    ensures some { IfSome result (λ vcpu. (vcpu ≡ hart) × (vcpu < length guest.now.vcpus)) }
    ensures none { result ≡ None → slice_get guest.now.vcpus hart ≡ None }
{
    if hart < vcpu_count(guest) as u64 {
        Some(VcpuNo(hart as u8))
    } else {
        None
    }
}

fn is_stopped(hart: HartState) -> bool
    ensures { result ≡ is_stopped hart }
{
    matches!(hart, HartState::Stopped)
}

/// Whether an instruction may stand at an address.
fn may_start(map: &RegionMap, address: u64) -> bool
    ensures { (plan : Plan) → plan.regions ≡ map.now → result ≡ lone.may_start plan address }
{
    address % 4 == 0 && is_memory(map.cell(address, 4))
}

fn is_memory(cell: Cell) -> bool
    ensures { result ≡ lone.is_memory cell }
{
    matches!(
        cell,
        Cell::Memory {
            region: _,
            offset: _,
            writable: _,
        }
    )
}

/// The state of a VCPU.
fn status(guest: &Guest, hart: u64) -> Reply
    ensures replied { (bytes : List ℕ) → lone.status (lone_of guest.now bytes)
        (slice_get guest.now.vcpus hart) ≡ reply_of result (lone_of guest.now bytes) }
    ensures changes { Changes result guest.now guest.now }
{
    let Some(vcpu) = numbered(guest, hart) else {
        return Reply::Returns(INVALID_PARAM, 0);
    };
    Reply::Returns(0, state_number(guest.view(vcpu).hart))
}

fn state_number(hart: HartState) -> u64
    ensures { result ≡ lone.state_number hart }
{
    match hart {
        HartState::Started | HartState::Waiting => 0,
        HartState::Stopped => 1,
        HartState::Suspended => 4,
    }
}

/// Suspends the VCPU that called, where there is such a kind of suspension.
fn suspend(guest: &mut Guest, vcpu: VcpuNo, kind: u32) -> Reply
    requires number { vcpu < length guest.old.vcpus }
    ensures replied { (bytes : List ℕ) → lone.suspend vcpu kind (lone_of guest.old bytes)
        ≡ reply_of result (lone_of guest.new bytes) }
    ensures changes { Changes result guest.old guest.new }
    ensures count { length guest.new.vcpus ≡ length guest.old.vcpus }
{
    if kind != 0 {
        return Reply::Returns(no_suspension(kind), 0);
    }
    let mut view = guest.view(vcpu);
    view.hart = HartState::Suspended;
    guest.set_view(vcpu, &view);
    Reply::Returns(0, 0)
}

/// The error of a kind of suspension that there isn't: the standard reserves some.
fn no_suspension(kind: u32) -> u64
    ensures { result ≡ (if lone.is_reserved kind then lone.invalid_param else lone.not_supported) }
{
    match kind {
        0x0000_0001..=0x0FFF_FFFF | 0x8000_0001..=0x8FFF_FFFF => INVALID_PARAM,
        _ => NOT_SUPPORTED,
    }
}

/// The end or the reboot of the guest, where kind and reason are known.
fn reset(kind: u32, reason: u32) -> Reply
    ensures replied { (m : Machine) → lone.reset kind reason m ≡ reply_of result m }
    ensures changes { (guest : Guest) → Changes result guest guest }
{
    if kind > 2 || reason > 1 {
        return Reply::Returns(INVALID_PARAM, 0);
    }
    if kind == 0 {
        Reply::HaltsGuest(Ending::Shutdown)
    } else {
        Reply::RebootsGuest
    }
}
