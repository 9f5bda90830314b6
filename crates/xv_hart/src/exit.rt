//! What a step of the hart comes to, as the monitor sees it.

/// A trap to the monitor. Registers and memory are as before the step.
#[derive(Clone, Copy, Debug, PartialEq, Eq)]
pub struct HTrap {
    /// 10 for ECALL in S; 22 for WFI in S; 20, 21 and 23 where a fetch, a load or a store leads to
    /// no memory (Privileged Architecture 20211203, 8.6.1). LR is a load; SC and an AMO are
    /// stores. Else the cause of an exception that hedeleg doesn't delegate: those of every guest
    /// are delegated.
    pub cause: u8,
    /// The guest virtual address of the access; for WFI its word; for ECALL 0; for an exception
    /// what stval would be.
    pub tval: u64,
    /// The guest physical address of the access, shifted right by 2; else 0.
    pub htval: u64,
    /// 0x3000 where the access was the hart's own, to an entry of the guest's page tables; else 0
    /// (8.6.3).
    pub htinst: u64,
    /// The word of WFI; else 0.
    pub word: u32,
    /// Whether the hart was in U.
    pub user: bool,
}

/// What a step of the hart came to.
#[derive(Clone, Copy, Debug, PartialEq, Eq)]
pub enum Exit {
    /// The hart made its step: an instruction, an interrupt or an exception of its own.
    Done,
    /// The hart made nothing, and the monitor has to answer.
    Trap(HTrap),
}
