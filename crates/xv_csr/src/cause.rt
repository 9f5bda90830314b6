//! Trap causes as scause has them (Privileged Architecture 20211203, table 4.2, and section 8.6 for
//! those that a hypervisor takes). A store's causes are those of SC and of an AMO too.

/// A jump or a taken branch to an address that isn't an instruction's.
pub const INSTRUCTION_ADDRESS_MISALIGNED: u64 = 0;

/// A fetch where there is no memory.
pub const INSTRUCTION_ACCESS_FAULT: u64 = 1;

/// No instruction, or one that the mode may not execute.
pub const ILLEGAL_INSTRUCTION: u64 = 2;

/// EBREAK.
pub const BREAKPOINT: u64 = 3;

/// A load, or LR, at an address that isn't a multiple of its width.
pub const LOAD_ADDRESS_MISALIGNED: u64 = 4;

/// A load, or LR, where there is nothing to read.
pub const LOAD_ACCESS_FAULT: u64 = 5;

/// A store at an address that isn't a multiple of its width.
pub const STORE_ADDRESS_MISALIGNED: u64 = 6;

/// A store where nothing may be written.
pub const STORE_ACCESS_FAULT: u64 = 7;

/// ECALL in U.
pub const ENVIRONMENT_CALL_FROM_U: u64 = 8;

/// A fetch from an address without a translation.
pub const INSTRUCTION_PAGE_FAULT: u64 = 12;

/// A load, or LR, from an address without a translation.
pub const LOAD_PAGE_FAULT: u64 = 13;

/// A store to an address without a translation.
pub const STORE_PAGE_FAULT: u64 = 15;

/// ECALL in a guest's S.
pub const ENVIRONMENT_CALL_FROM_VS: u64 = 10;

/// A fetch from a guest physical address without a translation.
pub const INSTRUCTION_GUEST_PAGE_FAULT: u64 = 20;

/// A load, or LR, from a guest physical address without a translation.
pub const LOAD_GUEST_PAGE_FAULT: u64 = 21;

/// An instruction that a guest's hypervisor keeps for itself.
pub const VIRTUAL_INSTRUCTION: u64 = 22;

/// A store to a guest physical address without a translation.
pub const STORE_GUEST_PAGE_FAULT: u64 = 23;

/// The top bit of a cause says that it is an interrupt; its other bits are the interrupt's number,
/// which is also its bit of sip and sie (section 4.1.3).
pub const INTERRUPT: u64 = 1 << 63;

/// The supervisor's software interrupt.
pub const SOFTWARE_INTERRUPT: u64 = 1;

/// The supervisor's timer interrupt.
pub const TIMER_INTERRUPT: u64 = 5;

/// The supervisor's external interrupt.
pub const EXTERNAL_INTERRUPT: u64 = 9;
