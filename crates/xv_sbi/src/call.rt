//! The calls, and which of them the registers ask for.
ghost use Rattle.std.specs.Prelude.{◌≡◌};
ghost use Rattle.xv_sbi.specs.Calls.{call_of, low};

const BASE: u64 = 0x10;

const TIMER: u64 = 0x5449_4D45;

const IPI: u64 = 0x73_5049;

const FENCES: u64 = 0x5246_4E43;

const HART_STATE: u64 = 0x48_534D;

const RESET: u64 = 0x5352_5354;

/// A call of the Supervisor Binary Interface 1.0. Masks name VCPUs by bits from a base on; `kind`
/// and `reason` are the low 32 bits of their arguments; an argument that no field holds has no
/// effect.
#[derive(Clone, Copy, Debug, PartialEq, Eq)]
pub enum Call {
    SpecVersion,
    ImplId,
    ImplVersion,
    Probe {
        extension: u64,
    },
    VendorId,
    ArchId,
    MachineId,
    SetTimer {
        compare: u64,
    },
    Ipi {
        mask: u64,
        base: u64,
    },
    Fence {
        mask: u64,
        base: u64,
    },
    HartStart {
        hart: u64,
        address: u64,
        opaque: u64,
    },
    HartStop,
    HartStatus {
        hart: u64,
    },
    HartSuspend {
        kind: u32,
    },
    SystemReset {
        kind: u32,
        reason: u32,
    },
    /// No call that there is.
    Unknown,
}

/// The call of the extension in a7 and the function in a6 with the arguments a0 to a5, or `Unknown`
/// where there is none.
pub fn call_of(a7: u64, a6: u64, args: [u64; 6]) -> Call
    ensures { result ≡ call_of a7 a6 args }
{
    match a7 {
        BASE => base_call(a6, args),
        TIMER => timer_call(a6, args),
        IPI => ipi_call(a6, args),
        FENCES => fence_call(a6, args),
        HART_STATE => hart_call(a6, args),
        RESET => reset_call(a6, args),
        _ => Call::Unknown,
    }
}

#[tactic(auto, unfolding(crate::specs::Calls::call_of))]
fn base_call(function: u64, args: [u64; 6]) -> Call
    ensures { result ≡ call_of BASE function args }
{
    match function {
        0 => Call::SpecVersion,
        1 => Call::ImplId,
        2 => Call::ImplVersion,
        3 => Call::Probe { extension: args[0] },
        4 => Call::VendorId,
        5 => Call::ArchId,
        6 => Call::MachineId,
        _ => Call::Unknown,
    }
}

#[tactic(auto, unfolding(crate::specs::Calls::call_of))]
fn timer_call(function: u64, args: [u64; 6]) -> Call
    ensures { result ≡ call_of TIMER function args }
{
    match function {
        0 => Call::SetTimer { compare: args[0] },
        _ => Call::Unknown,
    }
}

#[tactic(auto, unfolding(crate::specs::Calls::call_of))]
fn ipi_call(function: u64, args: [u64; 6]) -> Call
    ensures { result ≡ call_of IPI function args }
{
    match function {
        0 => Call::Ipi {
            mask: args[0],
            base: args[1],
        },
        _ => Call::Unknown,
    }
}

#[tactic(auto, unfolding(crate::specs::Calls::call_of))]
fn fence_call(function: u64, args: [u64; 6]) -> Call
    ensures { result ≡ call_of FENCES function args }
{
    match function {
        0..=2 => Call::Fence {
            mask: args[0],
            base: args[1],
        },
        _ => Call::Unknown,
    }
}

#[tactic(auto, unfolding(crate::specs::Calls::call_of))]
fn hart_call(function: u64, args: [u64; 6]) -> Call
    ensures { result ≡ call_of HART_STATE function args }
{
    match function {
        0 => Call::HartStart {
            hart: args[0],
            address: args[1],
            opaque: args[2],
        },
        1 => Call::HartStop,
        2 => Call::HartStatus { hart: args[0] },
        3 => Call::HartSuspend { kind: low(args[0]) },
        _ => Call::Unknown,
    }
}

#[tactic(auto, unfolding(crate::specs::Calls::call_of))]
fn reset_call(function: u64, args: [u64; 6]) -> Call
    ensures { result ≡ call_of RESET function args }
{
    match function {
        0 => Call::SystemReset {
            kind: low(args[0]),
            reason: low(args[1]),
        },
        _ => Call::Unknown,
    }
}

// the low 32 bits
fn low(argument: u64) -> u32
    ensures { result ≡ low argument }
{
    (argument % (1 << 32)) as u32
}
