//! The program's call: from the script's bytes to the transcript's bytes.
ghost use Rattle.std.specs.Prelude.{◌≡◌, ◌↔◌, ◌⊎◌, ◌^◌, ◌<◌, ◌≤◌, ℕ, [], length, map, IfSome};
ghost use Rattle.std.specs.Prelude.{OnOk, IsErrOf, IsErr, IsOk};
ghost use Rattle.std.specs.String.{string_bytes};
ghost use Rattle.xv_base.specs.Fault.{Rose};
ghost use Rattle.xv_outside.specs.Fetch.{FileMap};
ghost use Rattle.xv_outside.specs.Outside.{taken_with, TookFront};
ghost use Rattle.xv_hart.specs.Hart.{taken_by};
ghost use Rattle.xv_hart.specs.Machine.{area_of, IsBare, IsFit};
ghost use Rattle.xv_host.specs.Host.{IsFresh};
ghost use Rattle.xv_script.specs.Command.{AreInRange};
ghost use Rattle.xv_script.specs.Script.{commands};
ghost use Rattle.xv_top.specs.Boot.{AreRight, ReadsAtMost, IsServed, IsRun, IsNoScript, IsRefused};
ghost use Rattle.xv_top.specs.Boot.{IsStopped, IsStoppedIn, IsCutShort, IsCutIn, IsStatus};
ghost use Rattle.xv_top.specs.Boot.{IsUnused, most_read};
ghost use Rattle.xv_top.specs.Commands.{is_fetching, may_want_memory};
ghost use Rattle.xv_top.specs.Files.{StandsFor};
ghost use Rattle.xv_top.specs.Run.{HaveRun, IsCut, IsStop};
ghost use Rattle.xv_top.specs.Transcript.{fetches};
ghost use Rattle.xv_top.specs.Layout.{memory_size};
ghost use Rattle.xv_top.specs.Manager.{world_of, may_stop, IsSound};
ghost use Rattle.xv_top.specs.Texts.{script_text};

use crate::manager::Manager;
use crate::read::{ReadFault, read_script};
use crate::refusals;
use crate::stop::{LineStop, Stop};
use crate::words::are_right;
use std::alloc::Global;
use std::marker::Brand;
use std::sync::ledger::{Blank, Ledger};
use xv_hart::Machine;
use xv_host::hosts_stand;
use xv_mem::Steps;
use xv_outside::{Failed, Files, Sink, Source};
use xv_print::Printer;
use xv_script::{Line, ScriptFault, ScriptKind, parse};

/// Host memory in MiB.
const MEM_MIB: u32 = 64;

/// MiB of it that are reserved.
const NO_RESERVED: u32 = 0;

/// The program: reads the script from the source, runs it over a bare machine, and puts the answers
/// into the sink, one `put` each. The words are those after the program's name; trees and images
/// come from the files.
///
/// | status | what happened | what was written |
/// |---|---|---|
/// | 0 | every line of the script was run | the transcript |
/// | 2 | the words are wrong; nothing was read | nothing |
/// | 3 | the script is outside of the grammar | its one line |
/// | 4 | the source failed | nothing |
/// | 5 | the sink failed | what the lines before answer, and a front of an answer |
/// | 6 | a file failed | what the lines before answer |
/// | 7 | want of memory | nothing, or what the lines before answer |
pub fn boot<S: Source, K: Sink, F: Files>(
    alloc: Global,
    words: &[String],
    source: &mut S,
    sink: &mut K,
    files: &mut F,
    machine: &mut Machine,
) -> u8
    requires { IsBare machine.old }

    // Which statuses there are.
    ensures statuses { IsStatus result }

    // The words alone decide whether it is usage, and then nothing is touched.
    ensures usage { (result ≡ 2) ↔ ¬ (AreRight (map (λ word. string_bytes word) words.now)) }
    ensures usage_source { result ≡ 2 → source.new ≡ source.old }
    ensures usage_sink { result ≡ 2 → sink.new ≡ sink.old }
    ensures usage_files { result ≡ 2 → files.new ≡ files.old }
    ensures usage_machine { result ≡ 2 → machine.new ≡ machine.old }

    // The headline: what was written is the transcript, in which each guest is a lone machine.
    // Files that tell nothing do where no line comes to a fetch.
    ensures run { result ≡ 0 → IsRun MEM_MIB (F.map files.old) (S.left source.old)
        (S.left source.new) (K.taken sink.old) (K.taken sink.new) machine.new }

    // A refused script has one line.
    ensures refused { result ≡ 3 → IsRefused (S.left source.old) (S.left source.new)
        (K.taken sink.old) (K.taken sink.new) }

    // Faults come from outside alone, and what was written then is what the lines before answer.
    ensures read_fault { result ≡ 4 → Rose (S.faults source.old) (S.faults source.new) }
    ensures refused_machine { result ≡ 3 → IsUnused machine.new }
    ensures read_fault_sink { result ≡ 4 → sink.new ≡ sink.old }
    ensures read_fault_machine { result ≡ 4 → IsUnused machine.new }
    ensures write_fault { result ≡ 5 → Rose (K.faults sink.old) (K.faults sink.new) }
    ensures write_fault_sink { result ≡ 5 → IsCutShort MEM_MIB (F.map files.old)
        (S.left source.old) (K.taken sink.old) (K.taken sink.new) machine.new }
    ensures file_fault { result ≡ 6 → Rose (F.faults files.old) (F.faults files.new) }
    ensures file_fault_sink { result ≡ 6 → IsStopped is_fetching MEM_MIB (F.map files.old)
        (S.left source.old) (K.taken sink.old) (K.taken sink.new) machine.new }
    ensures memory_sink { result ≡ 7 → ((sink.new ≡ sink.old) × IsUnused machine.new)
        ⊎ (IsStopped may_want_memory MEM_MIB (F.map files.old) (S.left source.old)
        (K.taken sink.old) (K.taken sink.new) machine.new) }

    // Right words, a script in the grammar, and no fault: every line is run, or memory is wanting.
    ensures complete { AreRight (map (λ word. string_bytes word) words.now) →
        IfSome (S.left source.old) (λ script. IsOk (commands script) →
        ¬ (Rose (S.faults source.old) (S.faults source.new)) →
        ¬ (Rose (K.faults sink.old) (K.faults sink.new)) →
        ¬ (Rose (F.faults files.old) (F.faults files.new)) → (result ≡ 0) ⊎ (result ≡ 7)) }

    ensures within { ReadsAtMost most_read (S.left source.old) (S.left source.new) }
    ensures source_later { S.faults source.old ≤ S.faults source.new }
    ensures sink_later { K.faults sink.old ≤ K.faults sink.new }
    ensures files_map { F.map files.new ≡ F.map files.old }
    ensures files_later { F.faults files.old ≤ F.faults files.new }
{
    if !are_right(words) {
        return 2;
    }
    match serve(alloc, source, sink, files, machine, MEM_MIB) {
        Ok(()) => 0,
        Err(Stop::Refused) => 3,
        Err(Stop::ReadFault) => 4,
        Err(Stop::WriteFault) => 5,
        Err(Stop::InLine(LineStop::FileFault)) => 6,
        Err(Stop::NoMemory) => 7,
        Err(Stop::InLine(LineStop::NoMemory)) => 7,
    }
}

/// Fits the machine, reads the script, and runs it.
fn serve<S: Source, K: Sink, F: Files>(
    alloc: Global,
    source: &mut S,
    sink: &mut K,
    files: &mut F,
    machine: &mut Machine,
    mib: u32,
) -> Result<(), Stop>
    requires bare { IsBare machine.old }
    requires least { 8 ≤ mib }
    requires most { mib ≤ 512 }
    ensures run { OnOk result (IsRun mib (F.map files.old) (S.left source.old)
        (S.left source.new) (K.taken sink.old) (K.taken sink.new) machine.new) }
    ensures refused { IsErrOf result Stop.Refused → IsRefused (S.left source.old)
        (S.left source.new) (K.taken sink.old) (K.taken sink.new) }
    ensures read_fault { IsErrOf result Stop.ReadFault →
        Rose (S.faults source.old) (S.faults source.new) }
    ensures refused_machine { IsErrOf result Stop.Refused → IsUnused machine.new }
    ensures read_fault_sink { IsErrOf result Stop.ReadFault → sink.new ≡ sink.old }
    ensures read_fault_machine { IsErrOf result Stop.ReadFault → IsUnused machine.new }
    ensures write_fault { IsErrOf result Stop.WriteFault →
        Rose (K.faults sink.old) (K.faults sink.new) }
    ensures cut { IsErrOf result Stop.WriteFault → IsCutShort mib (F.map files.old)
        (S.left source.old) (K.taken sink.old) (K.taken sink.new) machine.new }
    ensures file_fault { IsErrOf result (Stop.InLine LineStop.FileFault) →
        Rose (F.faults files.old) (F.faults files.new) }
    ensures stopped { (stop : LineStop) → IsErrOf result (Stop.InLine stop) →
        IsStopped (may_stop stop) mib (F.map files.old) (S.left source.old)
        (K.taken sink.old) (K.taken sink.new) machine.new }
    ensures memory_sink { IsErrOf result Stop.NoMemory → sink.new ≡ sink.old }
    ensures memory_machine { IsErrOf result Stop.NoMemory → IsUnused machine.new }
    ensures within { ReadsAtMost most_read (S.left source.old) (S.left source.new) }
    ensures source_later { S.faults source.old ≤ S.faults source.new }
    ensures sink_later { K.faults sink.old ≤ K.faults sink.new }
    ensures files_map { F.map files.new ≡ F.map files.old }
    ensures files_later { F.faults files.old ≤ F.faults files.new }
{
    let Ok(()) = machine.fit(alloc, mib, NO_RESERVED) else {
        return Err(Stop::NoMemory);
    };
    let Ok(mut printer) = Printer::new(alloc) else {
        return Err(Stop::NoMemory);
    };
    match read_script(alloc, source) {
        Ok(text) => run_script(alloc, sink, files, machine, &text, &mut printer),
        Err(ReadFault::Failed) => Err(Stop::ReadFault),
        Err(ReadFault::NoMemory) => Err(Stop::NoMemory),
    }
}

/// Reads the lines of the script and runs them, or writes the line that refuses the script.
fn run_script<K: Sink, F: Files>(
    alloc: Global,
    sink: &mut K,
    files: &mut F,
    machine: &mut Machine,
    text: &[u8],
    printer: &mut Printer,
) -> Result<(), Stop>
    requires empty { printer.old ≡ [] }
    requires fresh { IsFresh machine.old }
    requires taken { taken_by machine.old.hart ≡ 0 }
    requires fit { IsFit machine.old }
    ensures served { (mib : ℕ) → length machine.old.mem ≡ memory_size mib →
        machine.old.area ≡ area_of mib 0 → OnOk result (IsServed mib (F.map files.old)
        text.now (K.taken sink.old) (K.taken sink.new) machine.new) }
    ensures refused { IsErrOf result Stop.Refused →
        IsNoScript text.now (K.taken sink.old) (K.taken sink.new) }
    ensures cut { (mib : ℕ) → length machine.old.mem ≡ memory_size mib →
        machine.old.area ≡ area_of mib 0 → IsErrOf result Stop.WriteFault →
        IsCutIn mib (F.map files.old) text.now (K.taken sink.old) (K.taken sink.new)
        machine.new }
    ensures cause { IsErrOf result Stop.WriteFault → Rose (K.faults sink.old) (K.faults sink.new) }
    ensures stopped { (mib : ℕ) (stop : LineStop) → length machine.old.mem ≡ memory_size mib →
        machine.old.area ≡ area_of mib 0 → IsErrOf result (Stop.InLine stop) →
        IsStoppedIn (may_stop stop) mib (F.map files.old) text.now (K.taken sink.old)
        (K.taken sink.new) machine.new }
    ensures file_fault { IsErrOf result (Stop.InLine LineStop.FileFault) →
        Rose (F.faults files.old) (F.faults files.new) }
    ensures refused_machine { IsErrOf result Stop.Refused → machine.new ≡ machine.old }
    ensures memory { IsErrOf result Stop.NoMemory → sink.new ≡ sink.old }
    ensures memory_machine { IsErrOf result Stop.NoMemory → machine.new ≡ machine.old }
    ensures read { IsErrOf result Stop.ReadFault → ⊥ }
    ensures later { K.faults sink.old ≤ K.faults sink.new }
    ensures files_map { F.map files.new ≡ F.map files.old }
    ensures files_later { F.faults files.old ≤ F.faults files.new }
{
    let lines = match parse(alloc, text) {
        Ok(lines) => lines,
        Err(ScriptFault::NoMemory) => return Err(Stop::NoMemory),
        Err(ScriptFault::At { line, kind }) => return refuse(sink, printer, line, kind),
    };
    let Ok(mut manager) = Manager::new(alloc, machine) else {
        return Err(Stop::NoMemory);
    };
    hosts_stand();
    run_counted::<K, F, Brand>(
        alloc,
        sink,
        files,
        &mut manager,
        machine,
        &lines,
        printer,
        Blank::new(1),
    )
}

/// Writes the line of a script that is refused.
fn refuse<K: Sink>(
    sink: &mut K,
    printer: &mut Printer,
    line: u32,
    kind: ScriptKind,
) -> Result<(), Stop>
    requires { printer.old ≡ [] }
    ensures err { OnOk result ⊥ }
    ensures refused { IsErrOf result Stop.Refused →
        K.taken sink.new ≡ taken_with (K.taken sink.old) (script_text line kind) }
    ensures write_fault { IsErrOf result Stop.WriteFault →
        TookFront (K.taken sink.old) (K.taken sink.new) (script_text line kind) }
    ensures cause { IsErrOf result Stop.WriteFault → Rose (K.faults sink.old) (K.faults sink.new) }
    ensures others { IsErr result →
        (IsErrOf result Stop.Refused) ⊎ (IsErrOf result Stop.WriteFault) }
    ensures later { K.faults sink.old ≤ K.faults sink.new }
{
    refusals::script(printer, line, kind);
    match sink.put(printer.bytes()) {
        Ok(()) => Err(Stop::Refused),
        Err(Failed) => Err(Stop::WriteFault),
    }
}

/// Runs the lines, with the accesses to host memory counted in a ledger of their own.
fn run_counted<K: Sink, F: Files, L: Ledger>(
    alloc: Global,
    sink: &mut K,
    files: &mut F,
    manager: &mut Manager,
    machine: &mut Machine,
    lines: &[Line],
    printer: &mut Printer,
    blank: Blank,
) -> Result<(), Stop>
    requires name { blank.name ≡ L.name }
    requires parts { blank.parts ≡ L.parts }
    requires part { 0 < blank.parts }
    requires range { AreInRange lines.now }
    requires few { length lines.now ≤ 2 ^ 20 }
    requires sound { IsSound manager.old machine.old }
    requires taken { taken_by machine.old.hart ≡ 0 }
    requires fit { IsFit machine.old }

    ensures ran { OnOk result ((told : FileMap) → StandsFor (F.map files.old) told
        (fetches told (world_of manager.old machine.old.mem) lines.now) →
        HaveRun told lines.now (world_of manager.old machine.old.mem)
        (world_of manager.new machine.new.mem) (K.taken sink.old) (K.taken sink.new)
        (taken_by machine.new.hart)) }
    ensures cut { IsErrOf result Stop.WriteFault →
        IsCut (F.map files.old) lines.now (world_of manager.old machine.old.mem)
        (world_of manager.new machine.new.mem) (K.taken sink.old) (K.taken sink.new)
        (taken_by machine.new.hart) }
    ensures cause { IsErrOf result Stop.WriteFault → Rose (K.faults sink.old) (K.faults sink.new) }
    ensures stopped { (stop : LineStop) → IsErrOf result (Stop.InLine stop) →
        IsStop (may_stop stop) (F.map files.old) lines.now
        (world_of manager.old machine.old.mem) (world_of manager.new machine.new.mem)
        (K.taken sink.old) (K.taken sink.new) (taken_by machine.new.hart) }
    ensures file_fault { IsErrOf result (Stop.InLine LineStop.FileFault) →
        Rose (F.faults files.old) (F.faults files.new) }
    ensures others { (IsErrOf result Stop.Refused → ⊥) × ((IsErrOf result Stop.ReadFault → ⊥)
        × (IsErrOf result Stop.NoMemory → ⊥)) }
    ensures sound { IsSound manager.new machine.new }
    ensures size { length machine.new.mem ≡ length machine.old.mem }
    ensures area { machine.new.area ≡ machine.old.area }
    ensures later { K.faults sink.old ≤ K.faults sink.new }
    ensures files_map { F.map files.new ≡ F.map files.old }
    ensures files_later { F.faults files.old ≤ F.faults files.new }
{
    let mut steps = Steps::open(blank);
    run_all::<K, F, L>(
        alloc, sink, files, manager, machine, lines, printer, &mut steps,
    )
}

/// Runs the lines in order. Each answer is one `put`, and the next line is run only after it.
fn run_all<K: Sink, F: Files, L: Ledger>(
    alloc: Global,
    sink: &mut K,
    files: &mut F,
    manager: &mut Manager,
    machine: &mut Machine,
    lines: &[Line],
    printer: &mut Printer,
    steps: &mut Steps<L>,
) -> Result<(), Stop>
    requires range { AreInRange lines.now }
    requires few { length lines.now ≤ 2 ^ 20 }
    requires sound { IsSound manager.old machine.old }
    requires taken { taken_by machine.old.hart ≡ 0 }
    requires fit { IsFit machine.old }

    ensures ran { OnOk result ((told : FileMap) → StandsFor (F.map files.old) told
        (fetches told (world_of manager.old machine.old.mem) lines.now) →
        HaveRun told lines.now (world_of manager.old machine.old.mem)
        (world_of manager.new machine.new.mem) (K.taken sink.old) (K.taken sink.new)
        (taken_by machine.new.hart)) }
    ensures cut { IsErrOf result Stop.WriteFault →
        IsCut (F.map files.old) lines.now (world_of manager.old machine.old.mem)
        (world_of manager.new machine.new.mem) (K.taken sink.old) (K.taken sink.new)
        (taken_by machine.new.hart) }
    ensures cause { IsErrOf result Stop.WriteFault → Rose (K.faults sink.old) (K.faults sink.new) }
    ensures stopped { (stop : LineStop) → IsErrOf result (Stop.InLine stop) →
        IsStop (may_stop stop) (F.map files.old) lines.now
        (world_of manager.old machine.old.mem) (world_of manager.new machine.new.mem)
        (K.taken sink.old) (K.taken sink.new) (taken_by machine.new.hart) }
    ensures file_fault { IsErrOf result (Stop.InLine LineStop.FileFault) →
        Rose (F.faults files.old) (F.faults files.new) }
    ensures others { (IsErrOf result Stop.Refused → ⊥) × ((IsErrOf result Stop.ReadFault → ⊥)
        × (IsErrOf result Stop.NoMemory → ⊥)) }
    ensures sound { IsSound manager.new machine.new }
    ensures size { length machine.new.mem ≡ length machine.old.mem }
    ensures area { machine.new.area ≡ machine.old.area }
    ensures later { K.faults sink.old ≤ K.faults sink.new }
    ensures files_map { F.map files.new ≡ F.map files.old }
    ensures files_later { F.faults files.old ≤ F.faults files.new }
{
    for line in lines {
        printer.clear();
        match manager.apply(alloc, machine, files, line, printer, steps) {
            Ok(()) => {}
            Err(stop) => return Err(Stop::InLine(stop)),
        }
        match sink.put(printer.bytes()) {
            Ok(()) => {}
            Err(Failed) => return Err(Stop::WriteFault),
        }
    }
    Ok(())
}
