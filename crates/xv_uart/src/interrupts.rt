//! The interrupts, and which comes first (section 8.6, table IV).
ghost use Rattle.std.specs.Prelude.{◌≡◌, ◌≤◌, ◌==◌, not};
ghost use Rattle.xv_bus.specs.Uart as ports;

use crate::flags::InterruptEnable;
use crate::uart::Uart;
use bitflags::Flags;

/// What interrupt identification shows where no interrupt is due.
const NO_CAUSE: u8 = 0x01;

impl Uart {
    /// The first cause that is due, as interrupt identification shows it.
    #[tactic(auto, unfolding(xv_bus::specs::Uart::cause))]
    pub(crate) fn cause(&self) -> u8
        ensures cause { result ≡ ports.cause self.now }
        ensures low { result ≤ 0x0F }
    {
        if self.is_status_due() {
            0x06
        } else if self.is_data_due() {
            0x04
        } else if self.is_timeout_due() {
            0x0C
        } else if self.is_thre_due() {
            0x02
        } else if self.is_modem_due() {
            0x00
        } else {
            NO_CAUSE
        }
    }

    /// Whether any is due.
    pub(crate) fn has_cause(&self) -> bool
        ensures { result ≡ not (ports.cause self.now == ports.no_cause) }
    {
        self.cause() != NO_CAUSE
    }

    #[tactic(auto, using(crate::proofs::BitLemmas::contained))]
    fn is_status_due(&self) -> bool
        ensures { result ≡ ports.is_status_due self.now }
    {
        self.enables().contains(InterruptEnable::LINE_STATUS) && self.overrun
    }

    #[tactic(auto, using(crate::proofs::BitLemmas::contained))]
    fn is_data_due(&self) -> bool
        ensures { result ≡ ports.is_data_due self.now }
    {
        self.enables().contains(InterruptEnable::RECEIVED_DATA)
            && !self.fifo.is_empty()
            && (!self.fifo_on || self.trigger as usize <= self.fifo.len())
    }

    #[tactic(auto, using(crate::proofs::BitLemmas::contained))]
    fn is_timeout_due(&self) -> bool
        ensures { result ≡ ports.is_timeout_due self.now }
    {
        self.enables().contains(InterruptEnable::RECEIVED_DATA) && !self.fifo.is_empty()
    }

    #[tactic(auto, using(crate::proofs::BitLemmas::contained))]
    fn is_thre_due(&self) -> bool
        ensures { result ≡ ports.is_thre_due self.now }
    {
        self.enables().contains(InterruptEnable::TRANSMITTER_EMPTY) && self.thre
    }

    #[tactic(auto, using(crate::proofs::BitLemmas::contained))]
    fn is_modem_due(&self) -> bool
        ensures { result ≡ ports.is_modem_due self.now }
    {
        self.enables().contains(InterruptEnable::MODEM_STATUS) && self.msr != 0
    }

    fn enables(&self) -> InterruptEnable
        ensures { result.0 ≡ self.now.ier }
    {
        InterruptEnable::from_bits_retain(self.ier)
    }
}
