mod rows;
mod tree_rows;
mod trees;

use crate::{boot, lists};
use rows::{FAULT_ROWS, FileOf, ROWS, Row};
use std::alloc::Global;
use std::process::Abort;
use std::test::Fail;
use tree_rows::{TREE_ROWS, TREES, TreeRow};
use trees::filled;
use xv_base::{dev_name_of, file_name_of};
use xv_bus::Ending;
use xv_hart::Machine;
use xv_lone::GuestState;
use xv_outside::{MemFile, MemFiles, MemSink, MemSource};
use xv_print::Printer;
use xv_region::{DeviceKind, Kind, Region};

/// The calls of source, sink and files that fail, by their numbers from 0, and the sink's room.
#[derive(Clone, Copy)]
struct Faults {
    reads: &'static [u64],
    puts: &'static [u64],
    fetches: &'static [u64],
    room: usize,
}

const NO_FAULTS: Faults = Faults {
    reads: &[],
    puts: &[],
    fetches: &[],
    room: 4096,
};

/// The status of a run over these files, and the bytes that the sink took.
fn run(
    alloc: Global,
    words: &[&str],
    script: Vec<u8>,
    files: Vec<MemFile>,
    faults: Faults,
) -> Result<(u8, Vec<u8>), Fail> {
    let mut strings = Vec::new(alloc);
    for word in words {
        strings.push(String::from_str(alloc, word)?)?;
    }
    let mut source = MemSource::new(script, faults.reads.to_vec(alloc)?);
    let puts = faults.puts.to_vec(alloc)?;
    let mut sink = MemSink::new(alloc, puts, faults.room)
        .ok()
        .ok_or("no memory")?;
    let mut files = MemFiles::new(files, faults.fetches.to_vec(alloc)?);
    let mut machine = Machine::bare();
    let status = boot(
        alloc,
        &strings,
        &mut source,
        &mut sink,
        &mut files,
        &mut machine,
    );
    Ok((status, sink.taken().to_vec(alloc)?))
}

fn file(alloc: Global, file: &FileOf) -> Result<MemFile, Fail> {
    Ok(MemFile {
        name: file_name_of(file.name).ok_or("a file's name")?,
        bytes: filled(alloc, file.base, file.len, file.fills)?,
    })
}

/// What a row comes to: its script is run over its files.
fn outcome(alloc: Global, row: &Row) -> Result<(u8, Vec<u8>), Fail> {
    let mut script = row.script.to_vec(alloc)?;
    script.resize(script.len().saturating_add(row.marks), b'#')?;
    let mut files = Vec::new(alloc);
    for one in row.files {
        files.push(file(alloc, one)?)?;
    }
    let faults = Faults {
        reads: row.reads,
        puts: row.puts,
        fetches: row.fetches,
        room: row.room,
    };
    run(alloc, &["boot"], script, files, faults)
}

fn joined(alloc: Global, parts: &[&[u8]]) -> Result<Vec<u8>, Fail> {
    let mut text = Vec::new(alloc);
    for part in parts {
        text.extend_from_slice(part)?;
    }
    Ok(text)
}

// The tables are handed to these two: a function that sees a large table in its own body is slow to
// prove.
fn check_runs(rt: &impl Abort, alloc: Global, rows: &[Row]) -> Result<(), Fail> {
    for row in rows {
        let (status, taken) = outcome(alloc, row)?;
        let transcript = joined(alloc, row.transcript)?;
        assert_eq!(rt;
            (status, taken.as_slice()),
            (row.status, transcript.as_slice()),
            "{}",
            row.message
        );
    }
    Ok(())
}

fn check_trees(rt: &impl Abort, alloc: Global, rows: &[TreeRow]) -> Result<(), Fail> {
    for (message, answer, base, len, fills) in rows {
        let tree = FileOf {
            name: b"t.dtb",
            base: *base,
            len: *len,
            fills,
        };
        let mut files = Vec::new(alloc);
        files.push(file(alloc, &tree)?)?;
        let script = b"guest create a t.dtb\n".to_vec(alloc)?;
        let (status, taken) = run(alloc, &["boot"], script, files, NO_FAULTS)?;
        assert_eq!(rt; (status, taken.as_slice()), (0, *answer), "{message}");
    }
    Ok(())
}

#[test]
fn runs(rt: HostRuntime) -> Result<(), Fail> {
    check_runs(&rt, rt.alloc(), &ROWS)
}

#[test]
fn faults_and_refused_scripts(rt: HostRuntime) -> Result<(), Fail> {
    check_runs(&rt, rt.alloc(), &FAULT_ROWS)
}

#[test]
fn guests_of_trees(rt: HostRuntime) -> Result<(), Fail> {
    check_runs(&rt, rt.alloc(), &TREE_ROWS)
}

#[test]
fn trees_in_files(rt: HostRuntime) -> Result<(), Fail> {
    check_trees(&rt, rt.alloc(), &TREES)
}

#[test]
fn words_that_are_no_usage(rt: HostRuntime) -> Result<(), Fail> {
    let alloc = rt.alloc();
    let rows: [&[&str]; 7] = [
        &[],
        &["start"],
        &[""],
        &["Boot"],
        &["boot", "x"],
        &["boot", "--"],
        &["boot", "boot"],
    ];
    for words in rows {
        let script = b"run 1\n".to_vec(alloc)?;
        let (status, taken) = run(alloc, words, script, Vec::new(alloc), NO_FAULTS)?;
        assert_eq!(rt; (status, taken.len()), (2, 0), "{words:?}");
    }
    Ok(())
}

// Some of these states no guest of a script has yet.
#[test]
fn lists_of_guests_and_ports(rt: HostRuntime) -> Result<(), Fail> {
    let alloc = rt.alloc();
    let mut printer = Printer::new(alloc).ok().ok_or("no memory")?;
    let rows: [(GuestState, &[u8]); 5] = [
        (GuestState::Paused, b"a paused vcpus 2\n"),
        (
            GuestState::Halted(Ending::Command),
            b"a halted command vcpus 2\n",
        ),
        (GuestState::Halted(Ending::Pass), b"a halted pass vcpus 2\n"),
        (
            GuestState::Halted(Ending::Fail(65535)),
            b"a halted fail 65535 vcpus 2\n",
        ),
        (
            GuestState::Halted(Ending::Shutdown),
            b"a halted shutdown vcpus 2\n",
        ),
    ];
    for (state, wanted) in rows {
        printer.clear();
        lists::guest(&mut printer, b"a", state, 2);
        assert_eq!(rt; printer.bytes(), wanted);
    }

    let uart = Kind::Device(DeviceKind::Uart { shift: 0, irq: 10 });
    let regions = [
        region(b"ram", Kind::Ram)?,
        region(b"uart@10000000", uart)?,
        region(b"plic", Kind::Device(DeviceKind::Plic))?,
        region(b"uart", uart)?,
    ];
    printer.clear();
    lists::ports(&mut printer, lists::port_count(&regions));
    lists::ports_of(&mut printer, b"a", &regions);
    let wanted: &[u8] = b"vserial 2\na/uart@10000000\na/uart\n";
    assert_eq!(rt; printer.bytes(), wanted);
    Ok(())
}

fn region(name: &[u8], kind: Kind) -> Result<Region, Fail> {
    Ok(Region {
        name: dev_name_of(name).ok_or("a node's name")?,
        base: 0,
        size: 4096,
        kind,
    })
}
