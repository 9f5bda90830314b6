ghost use Rattle.std.specs.Prelude.{◌≡◌};

use xv_bus::Ending;
use xv_csr::SCsrs;

/// Whether a VCPU's hart runs, in the terms of SBI 1.0, section 9 (hart states). `Waiting` is the
/// stall of WFI.
#[derive(Clone, Copy, Debug, PartialEq, Eq)]
pub enum HartState {
    Started,
    Waiting,
    Suspended,
    Stopped,
}

/// Where a guest stands between its create and its end.
#[derive(Clone, Copy, Debug, PartialEq, Eq)]
pub enum GuestState {
    /// It was created or reset, and not started since.
    Reset,
    Running,
    Paused,
    Halted(Ending),
}

/// How a turn ends.
#[derive(Clone, Copy, Debug, PartialEq, Eq)]
pub enum TurnEnd {
    /// All its steps were made.
    Spent,
    /// The VCPU waits for an interrupt, or is suspended.
    Waits,
    /// The VCPU is stopped.
    Stops,
    /// The guest halted.
    Halted,
    /// The guest rebooted.
    Rebooted,
}

/// The state of one VCPU.
#[derive(Clone, Copy)]
pub struct VcpuView {
    /// The integer registers. `x[0]` is 0.
    pub x: [u64; 32],
    /// The address of the next instruction, a multiple of 4.
    pub pc: u64,
    /// Mode U where true, mode S where false.
    pub user: bool,
    /// The supervisor CSRs.
    pub csrs: SCsrs,
    /// The guest time from which on the timer interrupt is pending.
    pub timer: u64,
    pub hart: HartState,
}

impl VcpuView {
    ghost use Rattle.xv_lone.specs.Vcpu.{reset_vcpu, kicked_vcpu};

    /// The reset values of a VCPU whose first instruction stands at `start`.
    pub fn reset(start: u64) -> VcpuView
        ensures { result ≡ reset_vcpu start }
    {
        VcpuView {
            x: [0; 32],
            pc: start,
            user: false,
            csrs: SCsrs::reset(),
            timer: u64::MAX,
            hart: HartState::Stopped,
        }
    }

    /// The VCPU that starts a guest: it is Started, with `a0` and `a1` 0.
    pub fn kicked(self) -> VcpuView
        ensures { result ≡ kicked_vcpu self }
    {
        let mut x = self.x;
        x[10] = 0;
        x[11] = 0;
        VcpuView {
            x,
            pc: self.pc,
            user: self.user,
            csrs: self.csrs,
            timer: self.timer,
            hart: HartState::Started,
        }
    }
}
