//! `clock` and `tick`
ghost use Rattle.std.specs.Prelude.{◌≡◌, []};

use super::Manager;
use crate::{refusals, report};
use xv_print::Printer;

impl Manager {
    ghost use Rattle.xv_top.specs.Commands.{clock_answer, tick_answer};
    ghost use Rattle.xv_top.specs.Manager.{world_of, Gives, IsSound};
    ghost use Rattle.xv_hart.specs.declared.machine.Machine.{Machine};

    /// `clock VALUE`
    pub(super) fn set_clock(&mut self, value: u64, printer: &mut Printer)
        requires empty { printer.old ≡ [] }
        ensures answer { (machine : Machine) →
            Gives (clock_answer (world_of self.old machine.mem) value)
            self.old self.new machine machine printer.new }
        ensures sound { (machine : Machine) → IsSound self.old machine → IsSound self.new machine }
    {
        if value < self.clock {
            return refusals::refused(printer, b"clock");
        }
        self.clock = value;
        report::clock(printer, value);
    }

    /// `tick VALUE`
    pub(super) fn set_tick(&mut self, value: u64, printer: &mut Printer)
        requires empty { printer.old ≡ [] }
        ensures answer { (machine : Machine) →
            Gives (tick_answer (world_of self.old machine.mem) value)
            self.old self.new machine machine printer.new }
        ensures sound { (machine : Machine) → IsSound self.old machine → IsSound self.new machine }
    {
        self.tick = value;
        report::tick(printer, value);
    }
}
