//! A machine that is fitted, and single steps of its hart over tables in its memory.
ghost use Rattle.std.specs.Prelude.{◌≡◌, ◌*◌, ◌≤◌, ◌<◌, false, [], length, IfOk};
ghost use Rattle.xv_csr.specs.Kept.{IsKept};
ghost use Rattle.xv_hart.specs.Hart.{taken_by, trail_of};
ghost use Rattle.xv_hart.specs.Machine.{IsFit};
ghost use Rattle.xv_hart.specs.Step.{IsWellFormed};
ghost use Rattle.xv_pte.specs.GStage.{entry_of};
ghost use Rattle.xv_hart.specs.Closed.{IsClosed, NamesInside};
ghost use Rattle.xv_hcsr.specs.Stage.{root_of};

use crate::{Exit, HTrap, Held, Machine, Regs};
use std::alloc::Global;
use std::marker::Brand;
use std::sync::ledger::{Blank, Ledger};
use std::test::Fail;
use xv_base::{GuestKey, NoMemory, Span};
use xv_csr::SCsrs;
use xv_hcsr::HCsrs;
use xv_mem::{HostMem, Steps};
use xv_pte::{GEntry, g_entry_of};

/// The instruction, eight bytes of data, the handler of traps, and where SRET leads, all in one
/// page of RAM; and an address that leads nowhere.
const PC: u64 = 0x8000_0000;

const DATA: u64 = 0x8000_0100;

const HANDLER: u64 = 0x8000_0400;

const RETURN: u64 = 0x8000_0800;

const OUTSIDE: u64 = 0x9000_0000;

/// A page of ROM.
const ROM: u64 = 0x8000_2000;

/// The host addresses of the instruction and of the data.
const HOST_PC: u64 = 0x10_0000;

const HOST_DATA: u64 = 0x10_0100;

/// The root table is frames 12 to 15, the middle one frame 16, the last one frame 17.
const ROOT: u8 = 3;

/// Words of host memory and their slots. Pages 0x80000 to 0x80005 are frames 0x100 to 0x105, one of
/// them ROM; the other pages of their 2 MiB lead nowhere, and the 2 MiB behind them are one leaf.
const STAGE: [(u64, u64); 9] = [
    (2048 * 3 + 2, (16 << 10) | 0x01),
    (512 * 16, (17 << 10) | 0x01),
    (512 * 16 + 1, (0x400 << 10) | 0xDF),
    (512 * 17, (0x100 << 10) | 0xDF),
    (512 * 17 + 1, (0x101 << 10) | 0xDF),
    (512 * 17 + 2, (0x102 << 10) | 0x5B),
    (512 * 17 + 3, (0x103 << 10) | 0xDF),
    (512 * 17 + 4, (0x104 << 10) | 0xDF),
    (512 * 17 + 5, (0x105 << 10) | 0xDF),
];

/// The data before each step.
const OLD: u64 = 0x0123_4567_89ab_cdef;

/// What a load of its low four bytes gives.
const SIGNED: u64 = 0xffff_ffff_89ab_cdef;

/// The pc after an instruction that goes on.
const NEXT: u64 = 0x8000_0004;

/// x5 before each step: -128.
const MINUS_128: u64 = 0xffff_ffff_ffff_ff80;

/// The word of `sb x5, 0(x10)`.
const SB: u32 = 0x0055_0023;

/// The word of `lr.w x8, (x10)`.
const LR_W: u32 = 0x1005_242f;

/// The word of `lr.d x8, (x10)`.
const LR_D: u32 = 0x1005_342f;

/// The word of `sc.w x9, x5, (x10)`.
const SC_W: u32 = 0x1855_24af;

/// The word of `sc.d x9, x5, (x10)`.
const SC_D: u32 = 0x1855_34af;

/// The words of `lw x13, 0(x14)` and `sw x13, 0(x14)`.
const LW: u32 = 0x0007_2683;

const SW: u32 = 0x00d7_2023;

/// htinst of an entry's read.
const ENTRY: u64 = 0x3000;

/// The word of `ecall`.
const ECALL: u32 = 0x0000_0073;

/// The word of `ebreak`.
const EBREAK: u32 = 0x0010_0073;

/// The word of `sret`.
const SRET: u32 = 0x1020_0073;

/// The word of `wfi`.
const WFI: u32 = 0x1050_0073;

/// The host's clock, and htimedelta of a guest that was born at 9.
const CLOCK: u64 = 12;

const DELTA: u64 = 0xffff_ffff_ffff_fff7;

const HELD_WORD: Option<Held> = Some(Held {
    host: HOST_DATA,
    width: 4,
});

const HELD_DOUBLE: Option<Held> = Some(Held {
    host: HOST_DATA,
    width: 8,
});

const HELD_APART: Option<Held> = Some(Held {
    host: HOST_DATA + 4,
    width: 4,
});

/// The CSRs before each step.
fn csrs() -> SCsrs
    ensures kept { IsKept result }
    ensures ssip { result.ssip ≡ false }
{
    let mut csrs = SCsrs::reset();
    csrs.write(0x104, false, 0x20);
    csrs.write(0x105, false, HANDLER);
    csrs.write(0x141, false, RETURN);
    SCsrs {
        ssip: false,
        ..csrs
    }
}

/// The registers before each step.
fn before() -> Regs
    ensures formed { IsWellFormed result }
    ensures root { root_of result.h ≡ 3 }
    ensures ssip { result.csrs.ssip ≡ false }
{
    let mut x = [0; 32];
    x[1] = 9;
    x[5] = MINUS_128;
    x[9] = 7;
    x[10] = DATA;
    x[14] = OUTSIDE;
    x[15] = ROM;
    Regs {
        x,
        pc: PC,
        user: false,
        csrs: csrs(),
        h: HCsrs::for_guest(ROOT, GuestKey(5), DELTA),
        time: CLOCK,
        held: None,
    }
}

fn fitted(alloc: Global, mib: u32) -> Result<Machine, NoMemory>
    requires least { 8 ≤ mib }
    requires most { mib ≤ 512 }
    ensures memory { IfOk result (λ machine. 0x80_0000 ≤ length machine.mem) }
    ensures closed { IfOk result (λ machine. IsClosed machine.mem) }
    ensures fit { IfOk result (λ machine. IsFit machine) }
    ensures taken { IfOk result (λ machine. taken_by machine.hart ≡ 0) }
    ensures trail { IfOk result (λ machine. trail_of machine.hart ≡ []) }
{
    let mut machine = Machine::bare();
    machine.fit(alloc, mib, 2)?;
    Ok(machine)
}

/// Whether a word is a pointer or a leaf out of a memory of so many frames.
fn leads_out(word: u64, frames: u64) -> bool
    ensures { result ≡ false → NamesInside (4096 * frames) (entry_of word) }
{
    match g_entry_of(word) {
        GEntry::Pointer(table) => table >= frames,
        GEntry::Page(mapping) => mapping.frame + 512 > frames,
        GEntry::Nothing => false,
    }
}

/// Stores a word, unless it has no slot, or is a pointer or a leaf out of the memory.
fn store<L: Ledger>(memory: &mut HostMem, slot: u64, word: u64, steps: &mut Steps<L>)
    requires { IsClosed memory.old }
    ensures closed { IsClosed memory.new }
    ensures len { length memory.new ≡ length memory.old }
{
    let frames = memory.frames() as u64;
    if slot >= 512 * frames {
        return;
    }
    if leads_out(word, frames) {
        return;
    }
    memory.write64(8 * slot, word, steps);
}

/// Stores words, each in its slot.
fn store_all<L: Ledger>(memory: &mut HostMem, words: &[(u64, u64)], steps: &mut Steps<L>)
    requires { IsClosed memory.old }
    ensures closed { IsClosed memory.new }
    ensures len { length memory.new ≡ length memory.old }
{
    for (slot, word) in words {
        store(memory, *slot, *word, steps);
    }
}

/// The word that was fetched before a step, what the step came to, the machine then, and the data.
#[derive(Drop)]
struct After {
    fetched: Option<u32>,
    exit: Exit,
    machine: Machine,
    data: u64,
}

/// One step from these registers, over one instruction, the data `OLD`, and the guest's own tables.
fn step_from<L: Ledger>(
    alloc: Global,
    regs: &Regs,
    word: u32,
    blank: Blank,
) -> Result<After, NoMemory>
    requires formed { IsWellFormed regs.now }
    requires root { root_of regs.now.h ≡ 3 }
    requires name { blank.name ≡ L.name }
    requires parts { blank.parts ≡ L.parts }
    requires some { 0 < blank.parts }
{
    let mut machine = fitted(alloc, 8)?;
    let mut steps = Steps::<L>::open(blank);
    store_all(&mut machine.mem, &STAGE, &mut steps);
    store_all(&mut machine.mem, &OWN, &mut steps);
    store(&mut machine.mem, HOST_PC / 8, word as u64, &mut steps);
    store(&mut machine.mem, HOST_DATA / 8, OLD, &mut steps);
    let fetched = regs.fetch(&machine.mem, &mut steps);
    machine.hart.set_regs(regs);
    let exit = machine.hart.step(&mut machine.mem, &mut steps);
    let data = machine.mem.read64(HOST_DATA, &mut steps);
    Ok(After {
        fetched,
        exit,
        machine,
        data,
    })
}

fn step_once(alloc: Global, regs: &Regs, word: u32) -> Result<After, NoMemory>
    requires formed { IsWellFormed regs.now }
    requires root { root_of regs.now.h ≡ 3 }
{
    step_from::<Brand>(alloc, regs, word, Blank::new(1))
}

#[test]
fn a_machine_of_8_mib(rt: HostRuntime) -> Result<(), Fail> {
    let mut machine = Machine::bare();
    assert!(rt; machine.is_bare());
    assert!(rt; machine.hart.trail().is_empty());
    machine.fit(rt.alloc(), 8, 2).ok().ok_or("no memory")?;
    assert!(rt; !machine.is_bare());
    assert_eq!(rt; machine.mem.frames(), 2048);
    let area = Span {
        start: 0x60_0000,
        len: 0x20_0000,
    };
    assert_eq!(rt; machine.area(), area);
    Ok(())
}

// in S: an instruction; a register and its value, the data, and the pc after it
const EXECUTED: [(u32, usize, u64, u64, u64); 15] = [
    // addi x6, x5, 1
    (0x0012_8313, 6, 0xffff_ffff_ffff_ff81, OLD, NEXT),
    // lb x6, 0(x10); lbu x7, 0(x10); lw x7, 0(x10)
    (0x0005_0303, 6, 0xffff_ffff_ffff_ffef, OLD, NEXT),
    (0x0005_4383, 7, 0xef, OLD, NEXT),
    (0x0005_2383, 7, SIGNED, OLD, NEXT),
    // sb x5, 0(x10); sh x5, 2(x10)
    (SB, 9, 7, 0x0123_4567_89ab_cd80, NEXT),
    (0x0055_1123, 9, 7, 0x0123_4567_ff80_cdef, NEXT),
    // amoadd.w x11, x5, (x10); amoswap.d x11, x5, (x10)
    (0x0055_25af, 11, SIGNED, 0x0123_4567_89ab_cd6f, NEXT),
    (0x0855_35af, 11, OLD, MINUS_128, NEXT),
    // csrrs x12, sepc, x5; csrrs x12, time, x0
    (0x1412_a673, 12, RETURN, OLD, NEXT),
    (0xc010_2673, 12, 3, OLD, NEXT),
    // jal x1, 8; jalr x1, 0(x10)
    (0x0080_00ef, 1, NEXT, OLD, 0x8000_0008),
    (0x0005_00e7, 1, NEXT, OLD, DATA),
    // bne x5, x0, 8; beq x5, x0, 8
    (0x0002_9463, 1, 9, OLD, 0x8000_0008),
    (0x0002_8463, 1, 9, OLD, NEXT),
    (SRET, 1, 9, OLD, RETURN),
];

#[test]
fn executed(rt: HostRuntime) -> Result<(), Fail> {
    for (word, rd, value, data, pc) in EXECUTED {
        let after = step_once(rt.alloc(), &before(), word)?;
        let regs = after.machine.hart.regs();
        assert_eq!(rt; after.exit, Exit::Done, "{word:#x}");
        assert_eq!(rt; after.data, data, "{word:#x}");
        assert_eq!(rt; regs.pc, pc, "{word:#x}");
        assert_eq!(rt; regs.x.get(rd), Some(&value), "{word:#x}");
    }
    Ok(())
}

// an instruction and the reservation before it; a register and its value, the data, and the
// reservation after it
const RESERVED: [(u32, Option<Held>, usize, u64, u64, Option<Held>); 9] = [
    (LR_W, None, 8, SIGNED, OLD, HELD_WORD),
    (LR_D, HELD_WORD, 8, OLD, OLD, HELD_DOUBLE),
    (SC_W, HELD_WORD, 9, 0, 0x0123_4567_ffff_ff80, None),
    (SC_D, HELD_DOUBLE, 9, 0, MINUS_128, None),
    // not of its width, none, and at another place
    (SC_D, HELD_WORD, 9, 1, OLD, None),
    (SC_W, HELD_DOUBLE, 9, 1, OLD, None),
    (SC_W, None, 9, 1, OLD, None),
    (SC_W, HELD_APART, 9, 1, OLD, None),
    // a store leaves it
    (SB, HELD_WORD, 9, 7, 0x0123_4567_89ab_cd80, HELD_WORD),
];

#[test]
fn reservations(rt: HostRuntime) -> Result<(), Fail> {
    for (word, held, rd, value, data, held_after) in RESERVED {
        let regs = Regs { held, ..before() };
        let after = step_once(rt.alloc(), &regs, word)?;
        let regs = after.machine.hart.regs();
        assert_eq!(rt; after.exit, Exit::Done, "{word:#x} {held:?}");
        assert_eq!(rt; after.data, data, "{word:#x} {held:?}");
        assert_eq!(rt; regs.held, held_after, "{word:#x} {held:?}");
        assert_eq!(rt; regs.x.get(rd), Some(&value), "{word:#x} {held:?}");
    }
    Ok(())
}

// an instruction, whether the mode is U, whether the timer's line is raised; scause and stval after
const TRAPS: [(u32, bool, bool, u64, u64); 13] = [
    (0, false, false, 2, 0),
    // csrrw x0, cycle, x5
    (0xc002_9073, false, false, 2, 0xc002_9073),
    // csrrw x0, sscratch, x5
    (0x1402_9073, true, false, 2, 0x1402_9073),
    (SRET, true, false, 2, SRET as u64),
    (WFI, true, false, 2, WFI as u64),
    // sfence.vma
    (0x1200_0073, true, false, 2, 0x1200_0073),
    (ECALL, true, false, 8, 0),
    (EBREAK, false, false, 3, PC),
    // jalr x1, 2(x10), and lh x13, 1(x14) and sh x13, 1(x14), where there is no memory
    (0x0025_00e7, false, false, 0, 0x8000_0102),
    (0x0017_1683, false, false, 4, 0x9000_0001),
    (0x00d7_10a3, false, false, 6, 0x9000_0001),
    // the timer is taken in U, and waits in S for SIE
    (EBREAK, true, true, 0x8000_0000_0000_0005, 0),
    (EBREAK, false, true, 3, PC),
];

#[test]
fn traps(rt: HostRuntime) -> Result<(), Fail> {
    for (word, user, timer, scause, stval) in TRAPS {
        let mut h = before().h;
        h.set_lines(false, timer, false);
        let regs = Regs {
            user,
            h,
            ..before()
        };
        let after = step_once(rt.alloc(), &regs, word)?;
        assert_eq!(rt; after.exit, Exit::Done, "{word:#x} {user}");
        assert_eq!(rt; after.data, OLD, "{word:#x} {user}");
        let csrs = SCsrs {
            sstatus: if user { 0x2_0000_0000 } else { 0x2_0000_0100 },
            sepc: PC,
            scause,
            stval,
            ..csrs()
        };
        let handled = Regs {
            pc: HANDLER,
            user: false,
            csrs,
            ..regs
        };
        assert!(rt; *after.machine.hart.regs() == handled, "{word:#x} {user}");
    }
    Ok(())
}

// the lines of the guest's software interrupt, timer and interrupt controller; what sip reads in S,
// and the cause of the interrupt that is taken in U where sie has all three
const LINES: [(bool, bool, bool, u64, u64); 4] = [
    (true, false, false, 0x2, 0x8000_0000_0000_0001),
    (false, true, false, 0x20, 0x8000_0000_0000_0005),
    (false, false, true, 0x200, 0x8000_0000_0000_0009),
    (true, true, true, 0x222, 0x8000_0000_0000_0009),
];

#[test]
fn lines(rt: HostRuntime) -> Result<(), Fail> {
    for (ssip, timer, external, sip, scause) in LINES {
        let mut h = before().h;
        h.set_lines(ssip, timer, external);
        let mut csrs = before().csrs;
        csrs.write(0x104, false, 0x222);
        let csrs = SCsrs { ssip, ..csrs };
        let regs = Regs {
            csrs,
            h,
            ..before()
        };
        // csrrs x12, sip, x0
        let read = step_once(rt.alloc(), &regs, 0x1440_2673)?;
        assert_eq!(rt; read.machine.hart.regs().x.get(12), Some(&sip), "{sip:#x}");
        let taken = step_once(rt.alloc(), &Regs { user: true, ..regs }, ECALL)?;
        assert_eq!(rt; taken.machine.hart.regs().csrs.scause, scause, "{sip:#x}");
    }
    Ok(())
}

// the pc, x14, the instruction at `PC`; cause, tval, htval and word of the trap to the monitor
const LEFT: [(u64, u64, u32, u8, u64, u64, u32); 14] = [
    (PC, OUTSIDE, ECALL, 10, 0, 0, 0),
    (PC, OUTSIDE, WFI, 22, 0x1050_0073, 0, 0x1050_0073),
    (OUTSIDE, OUTSIDE, ECALL, 20, OUTSIDE, 0x2400_0000, 0),
    (0x8000_6004, OUTSIDE, ECALL, 20, 0x8000_6004, 0x2000_1801, 0),
    // lw, sw, lr.w, sc.w and amoswap.w of x13 at x14
    (PC, OUTSIDE, LW, 21, OUTSIDE, 0x2400_0000, 0),
    (PC, OUTSIDE, SW, 23, OUTSIDE, 0x2400_0000, 0),
    (PC, OUTSIDE, 0x1007_26af, 21, OUTSIDE, 0x2400_0000, 0),
    (PC, OUTSIDE, 0x18d7_26af, 23, OUTSIDE, 0x2400_0000, 0),
    (PC, OUTSIDE, 0x08d7_26af, 23, OUTSIDE, 0x2400_0000, 0),
    // a leaf without W
    (PC, ROM, SW, 23, ROM, 0x2000_0800, 0),
    (PC, ROM, 0x18d7_26af, 23, ROM, 0x2000_0800, 0),
    (PC, ROM, 0x08d7_26af, 23, ROM, 0x2000_0800, 0),
    // bits above 40
    (
        PC,
        0x200_8000_0100,
        LW,
        21,
        0x200_8000_0100,
        0x80_2000_0040,
        0,
    ),
    (
        PC,
        0x8000_0000_8000_0100,
        SW,
        23,
        0x8000_0000_8000_0100,
        0x2000_0000_2000_0040,
        0,
    ),
];

#[test]
fn left_to_the_monitor(rt: HostRuntime) -> Result<(), Fail> {
    for (pc, at, instruction, cause, tval, htval, word) in LEFT {
        assert!(rt; pc % 4 == 0, "{pc:#x}");
        let mut x = before().x;
        x[14] = at;
        let regs = Regs {
            x,
            pc,
            held: HELD_WORD,
            ..before()
        };
        let after = step_once(rt.alloc(), &regs, instruction)?;
        let trap = HTrap {
            cause,
            tval,
            htval,
            htinst: 0,
            word,
            user: false,
        };
        assert_eq!(rt; after.exit, Exit::Trap(trap), "{instruction:#x}");
        assert_eq!(rt; after.data, OLD, "{instruction:#x}");
        assert!(rt; *after.machine.hart.regs() == regs, "{instruction:#x}");
    }
    Ok(())
}

// the guest's own tables: the root in page 0x80003, the middle one in page 0x80004, the last one in
// page 0x80005, and a table in the ROM. Their pointers have G, which means nothing in a pointer,
// and so are none of the second stage
const OWN: [(u64, u64); 10] = [
    (512 * 0x103 + 2, (0x80004 << 10) | 0x21),
    // tables where no leaf is
    (512 * 0x103 + 3, (0x80006 << 10) | 0x21),
    (512 * 0x103 + 4, (0x90000 << 10) | 0x21),
    (512 * 0x103 + 5, (0x80002 << 10) | 0x21),
    (512 * 0x104, (0x80005 << 10) | 0x21),
    // pages: code, data without D, ROM, and one that leads nowhere
    (512 * 0x105, (0x80000 << 10) | 0xcb),
    (512 * 0x105 + 1, (0x80000 << 10) | 0x47),
    (512 * 0x105 + 2, (0x80002 << 10) | 0xc7),
    (512 * 0x105 + 3, (0x80006 << 10) | 0xcf),
    // 2 MiB of data
    (512 * 0x102, (0x80000 << 10) | 0xc7),
];

// satp of the tables above, and one whose root table leads nowhere
const SATP: u64 = (8 << 60) | 0x80003;

const LOST: u64 = (8 << 60) | 0x80006;

// satp, the pc, x14, the instruction at `PC`; cause, tval, htval and htinst of the trap to the
// monitor, whose cause is 0 where there is none; scause then
const WALKS: [(u64, u64, u64, u32, u8, u64, u64, u64, u64); 14] = [
    // a walk of three entries, each found by a walk of its own: 15 reads
    (SATP, PC, 0x8000_1100, LW, 0, 0, 0, 0, 0),
    (SATP, PC, 0x8000_1100, SW, 0, 0, 0, 0, 15),
    // the guest may write there, but its leaf is ROM's
    (SATP, PC, 0x8000_2100, LW, 0, 0, 0, 0, 0),
    (
        SATP,
        PC,
        0x8000_2100,
        SW,
        23,
        0x8000_2100,
        0x2000_0840,
        0,
        0,
    ),
    // a page that leads nowhere
    (
        SATP,
        PC,
        0x8000_3100,
        LW,
        21,
        0x8000_3100,
        0x2000_1840,
        0,
        0,
    ),
    (
        SATP,
        PC,
        0x8000_3100,
        SW,
        23,
        0x8000_3100,
        0x2000_1840,
        0,
        0,
    ),
    (SATP, 0x8000_3100, 0, LW, 20, 0x8000_3100, 0x2000_1840, 0, 0),
    // entries that lead nowhere
    (
        SATP,
        PC,
        0xc020_0000,
        LW,
        21,
        0xc020_0000,
        0x2000_1802,
        ENTRY,
        0,
    ),
    (
        SATP,
        PC,
        0xc020_0000,
        SW,
        23,
        0xc020_0000,
        0x2000_1802,
        ENTRY,
        0,
    ),
    (
        SATP,
        0xc020_0000,
        0,
        LW,
        20,
        0xc020_0000,
        0x2000_1802,
        ENTRY,
        0,
    ),
    (
        SATP,
        PC,
        0x1_0000_0000,
        SW,
        23,
        0x1_0000_0000,
        0x2400_0000,
        ENTRY,
        0,
    ),
    (LOST, PC, 0, LW, 20, PC, 0x2000_1804, ENTRY, 0),
    // a table in ROM, with a leaf of 2 MiB
    (SATP, PC, 0x1_4000_0100, SW, 0, 0, 0, 0, 0),
    // no entry
    (SATP, PC, 0x8000_4000, LW, 0, 0, 0, 0, 13),
];

#[test]
fn walks_of_two_stages(rt: HostRuntime) -> Result<(), Fail> {
    for (satp, pc, at, instruction, cause, tval, htval, htinst, scause) in WALKS {
        assert!(rt; pc % 4 == 0, "{pc:#x}");
        let mut csrs = before().csrs;
        csrs.write(0x180, false, satp);
        let csrs = SCsrs {
            ssip: false,
            ..csrs
        };
        let mut x = before().x;
        x[14] = at;
        let regs = Regs {
            x,
            pc,
            csrs,
            ..before()
        };
        let after = step_once(rt.alloc(), &regs, instruction)?;
        let trap = HTrap {
            cause,
            tval,
            htval,
            htinst,
            word: 0,
            user: false,
        };
        let exit = if cause == 0 {
            Exit::Done
        } else {
            Exit::Trap(trap)
        };
        let word = if cause == 20 { None } else { Some(instruction) };
        assert_eq!(rt; after.fetched, word, "{at:#x}");
        assert_eq!(rt; after.exit, exit, "{at:#x}");
        assert_eq!(rt; after.machine.hart.regs().csrs.scause, scause, "{at:#x}");
    }
    Ok(())
}

#[test]
fn a_trail_is_cleared(rt: HostRuntime) -> Result<(), Fail> {
    let first = before();
    let mut after = step_once(rt.alloc(), &first, ECALL)?;
    let hart = &mut after.machine.hart;
    assert_eq!(rt; hart.steps_taken(), 1);
    assert!(rt; hart.trail() == [first].as_slice());
    hart.clear_trail();
    assert!(rt; hart.trail().is_empty());
    hart.set_regs(&Regs {
        pc: HANDLER,
        ..first
    });
    assert_eq!(rt; hart.regs().pc, HANDLER);
    assert_eq!(rt; hart.steps_taken(), 1);
    assert!(rt; hart.trail().is_empty());
    Ok(())
}
