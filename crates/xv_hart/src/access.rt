//! Accesses of the hart to memory: alignment, the host address, and the bytes there.
ghost use Rattle.std.specs.Prelude.{◌≡◌, ℕ, ◌+◌, ◌-◌, ◌*◌, ◌/◌, ◌%◌, ◌^◌, ◌<◌, ◌≤◌};
ghost use Rattle.std.specs.Prelude.{List, length, Err, option_map, IfOk, IfErr, IfSome};
ghost use Rattle.xv_isa.specs.Effects.{extended, low_bytes};
ghost use Rattle.xv_mem.specs.Bytes.{word_at, put_word};
ghost use Rattle.xv_pte.specs.Sv39.{verdict};
ghost use Rattle.xv_step.specs.Bus.{reader};
ghost use Rattle.xv_step.specs.Outcome.{Ask, Outcome, misaligned, page_fault};
ghost use Rattle.xv_step.specs.State.{view};
ghost use Rattle.xv_sv39.specs.Translate.{verdict_of};
ghost use Rattle.xv_pte.specs.GStage.{walked};
ghost use Rattle.xv_hcsr.specs.Stage.{root_of};
ghost use Rattle.xv_step.specs.Memory.{accessed, translated, by_verdict, usable_spot};
ghost use Rattle.xv_hart.specs.Stage.{spot_of, IsUnled, IsLedTo};
ghost use Rattle.xv_hart.specs.Action.{bytes_of};
ghost use Rattle.xv_hart.specs.Memory.{bus_of, HasMemory};
ghost use Rattle.xv_hart.specs.Step.{came, exit_of, state_of, IsLeftAs};
ghost use Rattle.xv_hart.specs.Step.{guest_page_fault, fault_trap, IsWellFormed};

use crate::action::Width;
use crate::exit::{Exit, HTrap};
use crate::regs::Regs;
use crate::tables::translated;
use std::sync::ledger::Ledger;
use xv_csr::cause::{
    INSTRUCTION_ADDRESS_MISALIGNED, INSTRUCTION_GUEST_PAGE_FAULT, INSTRUCTION_PAGE_FAULT,
    LOAD_ADDRESS_MISALIGNED, LOAD_GUEST_PAGE_FAULT, LOAD_PAGE_FAULT, STORE_ADDRESS_MISALIGNED,
    STORE_GUEST_PAGE_FAULT, STORE_PAGE_FAULT,
};
use xv_mem::{HostMem, Steps};
use xv_pte::{Kind3, View, walk};
use xv_sv39::WalkFault;

/// htinst of an access to an entry of a page table, of 64 bits: the pseudoinstruction of its load
/// (Privileged Architecture 20211203, table 8.12).
const ENTRY_READ: u64 = 0x3000;

/// The number in the bytes at a host address, the lowest byte first.
pub(crate) fn read<L: Ledger>(mem: &HostMem, width: Width, at: u64, steps: &mut Steps<L>) -> u64
    requires inside { at + bytes_of width ≤ length mem.now }
    requires aligned { at % bytes_of width ≡ 0 }
    ensures value { result ≡ word_at (bytes_of width) mem.now at }
    ensures small { result < 2 ^ (8 * bytes_of width) }
    ensures counted { steps.new ≡ steps.old + 1 }
{
    match width {
        Width::W1 => mem.read8(at, steps) as u64,
        Width::W2 => mem.read16(at, steps) as u64,
        Width::W4 => mem.read32(at, steps) as u64,
        Width::W8 => mem.read64(at, steps),
    }
}

/// Stores a number in the bytes at a host address, the lowest byte first.
pub(crate) fn write<L: Ledger>(
    mem: &mut HostMem,
    width: Width,
    at: u64,
    value: u64,
    steps: &mut Steps<L>,
)
    requires inside { at + bytes_of width ≤ length mem.old }
    requires aligned { at % bytes_of width ≡ 0 }
    requires small { value < 2 ^ (8 * bytes_of width) }
    ensures value { mem.new ≡ put_word (bytes_of width) mem.old at value }
    ensures size { length mem.new ≡ length mem.old }
    ensures counted { steps.new ≡ steps.old + 1 }
{
    match width {
        Width::W1 => mem.write8(at, value as u8, steps),
        Width::W2 => mem.write16(at, value as u16, steps),
        Width::W4 => mem.write32(at, value as u32, steps),
        Width::W8 => mem.write64(at, value, steps),
    }
}

/// The low `width` bytes of a number.
pub(crate) fn low_bytes(width: Width, value: u64) -> u64
    ensures value { result ≡ low_bytes (bytes_of width) value }
    ensures small { result < 2 ^ (8 * bytes_of width) }
{
    match width {
        Width::W1 => value % (1 << 8),
        Width::W2 => value % (1 << 16),
        Width::W4 => value % (1 << 32),
        Width::W8 => value,
    }
}

/// A number of `width` bytes, extended to 64 bits with its sign or with zeros.
pub(crate) fn extended(signed: bool, width: Width, value: u64) -> u64
    requires { value < 2 ^ (8 * bytes_of width) }
    ensures { result ≡ extended signed (bytes_of width) value }
{
    if signed {
        match width {
            Width::W1 => with_sign(value, 1 << 7),
            Width::W2 => with_sign(value, 1 << 15),
            Width::W4 => with_sign(value, 1 << 31),
            Width::W8 => value,
        }
    } else {
        value
    }
}

// A number of which `sign` is the highest bit, extended with that bit.
fn with_sign(value: u64, sign: u64) -> u64
    requires low { sign < 2 ^ 62 }
    requires small { value < 2 * sign }
    ensures low { value < sign → result ≡ value }
    ensures high { sign ≤ value → result ≡ value + (2 ^ 64 - 2 * sign) }
{
    if value < sign {
        value
    } else {
        value + (u64::MAX - (2 * sign - 1))
    }
}

/// The cause of a guest-page fault (Privileged Architecture 20211203, 8.6.1).
fn guest_page_fault(kind: Kind3) -> u8
    ensures { result ≡ guest_page_fault kind }
{
    match kind {
        Kind3::Fetch => INSTRUCTION_GUEST_PAGE_FAULT as u8,
        Kind3::Load => LOAD_GUEST_PAGE_FAULT as u8,
        Kind3::Store => STORE_GUEST_PAGE_FAULT as u8,
    }
}

/// The cause of the exception that a misaligned access raises (Privileged Architecture 20211203,
/// table 4.2).
fn misaligned(kind: Kind3) -> u64
    ensures cause { result ≡ misaligned kind }
    ensures small { result < 64 }
{
    match kind {
        Kind3::Fetch => INSTRUCTION_ADDRESS_MISALIGNED,
        Kind3::Load => LOAD_ADDRESS_MISALIGNED,
        Kind3::Store => STORE_ADDRESS_MISALIGNED,
    }
}

/// The cause of a page fault (Privileged Architecture 20211203, table 4.2).
fn page_fault(kind: Kind3) -> u64
    ensures cause { result ≡ page_fault kind }
    ensures small { result < 64 }
{
    match kind {
        Kind3::Fetch => INSTRUCTION_PAGE_FAULT,
        Kind3::Load => LOAD_PAGE_FAULT,
        Kind3::Store => STORE_PAGE_FAULT,
    }
}

impl Regs {
    /// The guest physical address of a virtual one, for an access of this kind.
    #[inline(always)]
    pub(crate) fn translate<L: Ledger>(
        &self,
        mem: &HostMem,
        kind: Kind3,
        va: u64,
        steps: &mut Steps<L>,
    ) -> Result<u64, WalkFault>
        requires formed { IsWellFormed self.now }
        requires memory { HasMemory self.now mem.now }
        ensures verdict { verdict_of result ≡ verdict (reader (bus_of self.now mem.now) mem.now)
            (view (state_of self.now mem.now)) va kind }
        ensures counted { steps.new ≤ steps.old + 12 }
    {
        // Bare, which is frequent, makes nothing for a walk, and calls nothing.
        if self.csrs.satp >> 60 == 0 {
            return Ok(va);
        }
        self.walk(mem, kind, va, steps)
    }

    /// The same, where satp may name tables of the guest. It is kept out of its callers, which are
    /// short then.
    #[inline(never)]
    fn walk<L: Ledger>(
        &self,
        mem: &HostMem,
        kind: Kind3,
        va: u64,
        steps: &mut Steps<L>,
    ) -> Result<u64, WalkFault>
        requires formed { IsWellFormed self.now }
        requires memory { HasMemory self.now mem.now }
        ensures verdict { verdict_of result ≡ verdict (reader (bus_of self.now mem.now) mem.now)
            (view (state_of self.now mem.now)) va kind }
        ensures counted { steps.new ≤ steps.old + 12 }
    {
        let view = View {
            satp: self.csrs.satp,
            user: self.user,
            sum: self.csrs.sum(),
            mxr: self.csrs.mxr(),
        };
        translated(mem, self.root(), &view, kind, va, steps)
    }

    /// A fault of the G stage, for an access at a virtual address.
    #[cold]
    fn guest_fault(&self, kind: Kind3, va: u64, gpa: u64, htinst: u64) -> Exit
        ensures { result ≡ Exit.Trap (fault_trap self.now.user kind va gpa htinst) }
    {
        Exit::Trap(HTrap {
            cause: guest_page_fault(kind),
            tval: va,
            htval: gpa / 4,
            htinst,
            word: 0,
            user: self.user,
        })
    }

    /// The exit where a virtual address has no guest physical one.
    #[cold]
    fn faulted(&mut self, kind: Kind3, va: u64, fault: WalkFault) -> Exit
        requires formed { IsWellFormed self.old }
        ensures came { (bytes : List ℕ) (width : ℕ) (lacks : ℕ → Ask)
            (done : ℕ → Outcome (List ℕ) ℕ) →
            came result self.new bytes ≡ exit_of self.old bytes
            (by_verdict (bus_of self.old bytes) (state_of self.old bytes) kind width va lacks done
            (verdict_of (Err fault))) }
        ensures formed { IsWellFormed self.new }
    {
        match fault {
            WalkFault::Page => self.trap(page_fault(kind), va),
            WalkFault::Entry { gpa } => self.guest_fault(kind, va, gpa, ENTRY_READ),
        }
    }

    /// The host address that a guest physical one leads to, for an access of this kind; None where
    /// it leads to none, or the access is a store and may not write there.
    pub(crate) fn place<L: Ledger>(
        &self,
        mem: &HostMem,
        kind: Kind3,
        gpa: u64,
        steps: &mut Steps<L>,
    ) -> Option<u64>
        requires formed { IsWellFormed self.now }
        requires memory { HasMemory self.now mem.now }
        ensures place { result ≡ option_map (λ spot. spot.place)
            (usable_spot kind (option_map spot_of (walked mem.now (root_of self.now.h) gpa))) }
        ensures led { IfSome result (λ at. IsLedTo mem.now (root_of self.now.h) gpa at) }
        ensures counted { steps.new ≤ steps.old + 3 }
    {
        let leaf = walk(mem, self.root(), gpa, steps)?;
        match kind {
            Kind3::Fetch | Kind3::Load => Some(leaf.host),
            Kind3::Store => { if leaf.writable { Some(leaf.host) } else { None } }
        }
    }

    /// The host address of an aligned access to memory, or the exit where it leads to none.
    #[inline]
    pub(crate) fn reach<L: Ledger>(
        &mut self,
        mem: &HostMem,
        kind: Kind3,
        width: Width,
        va: u64,
        steps: &mut Steps<L>,
    ) -> Result<u64, Exit>
        requires formed { IsWellFormed self.old }
        requires memory { HasMemory self.old mem.now }
        requires aligned { va % bytes_of width ≡ 0 }
        ensures stays { IfOk result (λ _. self.new ≡ self.old) }
        ensures inside { IfOk result (λ at. at + bytes_of width ≤ length mem.now) }
        ensures aligned { IfOk result (λ at. at % bytes_of width ≡ 0) }
        ensures led { IfOk result (λ at.
            IsUnled mem.now (root_of self.old.h) (at / 4096) → ⊥) }
        ensures reaches { IfOk result (λ at.
            (lacks : ℕ → Ask) (done : ℕ → Outcome (List ℕ) ℕ) →
            translated (bus_of self.old mem.now) (state_of self.old mem.now) kind
            (bytes_of width) va lacks done ≡ done at) }
        ensures stops { IfErr result (λ exit.
            (lacks : ℕ → Ask) (done : ℕ → Outcome (List ℕ) ℕ) →
            IsLeftAs self.old.user kind va lacks →
            came exit self.new mem.now ≡ exit_of self.old mem.now
            (translated (bus_of self.old mem.now) (state_of self.old mem.now) kind
            (bytes_of width) va lacks done)) }
        ensures formed { IsWellFormed self.new }
        ensures counted { steps.new ≤ steps.old + 15 }
    {
        let gpa = match self.translate(mem, kind, va, steps) {
            Ok(gpa) => gpa,
            Err(fault) => return Err(self.faulted(kind, va, fault)),
        };
        match self.place(mem, kind, gpa, steps) {
            Some(at) => Ok(at),
            None => Err(self.guest_fault(kind, va, gpa, 0)),
        }
    }

    /// The host address of an access to memory, or the exit where it is misaligned, which is an
    /// exception of the hart's own, or leads to none.
    pub(crate) fn access<L: Ledger>(
        &mut self,
        mem: &HostMem,
        kind: Kind3,
        width: Width,
        va: u64,
        steps: &mut Steps<L>,
    ) -> Result<u64, Exit>
        requires formed { IsWellFormed self.old }
        requires memory { HasMemory self.old mem.now }
        ensures stays { IfOk result (λ _. self.new ≡ self.old) }
        ensures inside { IfOk result (λ at. at + bytes_of width ≤ length mem.now) }
        ensures aligned { IfOk result (λ at. at % bytes_of width ≡ 0) }
        ensures led { IfOk result (λ at.
            IsUnled mem.now (root_of self.old.h) (at / 4096) → ⊥) }
        ensures reaches { IfOk result (λ at.
            (lacks : ℕ → Ask) (done : ℕ → Outcome (List ℕ) ℕ) →
            accessed (bus_of self.old mem.now) (state_of self.old mem.now) kind
            (bytes_of width) va lacks done ≡ done at) }
        ensures stops { IfErr result (λ exit.
            (lacks : ℕ → Ask) (done : ℕ → Outcome (List ℕ) ℕ) →
            IsLeftAs self.old.user kind va lacks →
            came exit self.new mem.now ≡ exit_of self.old mem.now
            (accessed (bus_of self.old mem.now) (state_of self.old mem.now) kind
            (bytes_of width) va lacks done)) }
        ensures formed { IsWellFormed self.new }
        ensures counted { steps.new ≤ steps.old + 15 }
    {
        if va % width.bytes() as u64 != 0 {
            return Err(self.trap(misaligned(kind), va));
        }
        self.reach(mem, kind, width, va, steps)
    }
}
