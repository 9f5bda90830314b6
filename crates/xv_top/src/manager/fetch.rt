//! The file that a line names.
ghost use Rattle.std.specs.Prelude.{◌≡◌, ◌≤◌, List, ℕ, [], Some, None, IfOk, IfSome, OnOk, OnErr};
ghost use Rattle.std.specs.Prelude.{IsErrOf};
ghost use Rattle.xv_base.specs.Fault.{Rose};
ghost use Rattle.xv_outside.specs.Fetch.{FileMap};
ghost use Rattle.xv_top.specs.Answer.{Answer, says, with_file};
ghost use Rattle.xv_top.specs.Files.{file_of};
ghost use Rattle.xv_top.specs.World.{World};

use crate::refusals;
use crate::stop::LineStop;
use std::alloc::Global;
use xv_base::FileName;
use xv_outside::{FetchFault, Fetched, Files};
use xv_print::Printer;

/// The bytes under a name, at most `limit`. Where there are none or more, the line that says so is
/// printed.
pub(super) fn fetch<F: Files>(
    alloc: Global,
    files: &mut F,
    name: &FileName,
    limit: usize,
    printer: &mut Printer,
) -> Result<Option<Vec<u8>>, LineStop>
    requires { printer.old ≡ [] }
    ensures bytes { IfOk result (λ fetched. IfSome fetched (λ bytes.
        (told : FileMap) (w : World) (next : List ℕ → Answer) → F.map files.old ≡ Some told →
        with_file w limit next (file_of told name.now) ≡ next bytes.items)) }
    ensures empty { IfOk result (λ fetched. IfSome fetched (λ bytes. printer.new ≡ [])) }
    ensures refused { IfOk result (λ fetched. fetched ≡ None →
        (told : FileMap) (w : World) (next : List ℕ → Answer) → F.map files.old ≡ Some told →
        with_file w limit next (file_of told name.now) ≡ says w printer.new) }
    ensures stopped { OnErr result (printer.new ≡ []) }
    ensures map { F.map files.new ≡ F.map files.old }
    ensures quiet { OnOk result (F.faults files.new ≡ F.faults files.old) }
    ensures cause { IsErrOf result LineStop.FileFault
        → Rose (F.faults files.old) (F.faults files.new) }
    ensures later { F.faults files.old ≤ F.faults files.new }
{
    match files.fetch(alloc, name.text(), limit) {
        Ok(Fetched::Bytes(bytes)) => Ok(Some(bytes)),
        Ok(Fetched::Missing) => {
            refusals::refused(printer, b"missing");
            Ok(None)
        }
        Ok(Fetched::TooBig) => {
            refusals::refused(printer, b"big");
            Ok(None)
        }
        Err(FetchFault::Failed) => Err(LineStop::FileFault),
        Err(FetchFault::NoMemory) => Err(LineStop::NoMemory),
    }
}
