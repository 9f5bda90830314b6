use crate::{
    DirFiles, Failed, FetchFault, Fetched, Files, MemFile, MemFiles, MemSink, MemSource,
    ReaderSource, Sink, Source, WriterSink,
};
use std::alloc::Global;
use std::io::{Error, ErrorKind, Read, Write};
use std::test::Fail;
use std::{fs, io};
use xv_base::file_name_of;

fn numbers(alloc: Global, failing: &[u64]) -> Result<Vec<u64>, Fail> {
    Ok(failing.to_vec(alloc)?)
}

// A reader that is cut off by a signal, then gives two bytes, then fails, then ends, then fails.
#[derive(Drop)]
struct FakeReader {
    calls: u8,
}

impl Read for FakeReader {
    fn read(&mut self, buf: &mut [u8]) -> io::Result<usize> {
        self.calls = self.calls.saturating_add(1);
        match self.calls {
            1 => Err(Error::from(ErrorKind::Interrupted)),
            2 => {
                let n = buf.len().min(2);
                buf[..n].copy_from_slice(&b"ab"[..n]);
                Ok(n)
            }
            4 => Ok(0),
            _ => Err(Error::from(ErrorKind::PermissionDenied)),
        }
    }
}

// A writer whose first call is cut off by a signal, and that then takes two bytes a call, up to its
// room.
#[derive(Drop)]
struct FakeWriter {
    taken: Vec<u8>,
    calls: u8,
    room: usize,
    flushes: bool,
}

impl Write for FakeWriter {
    fn write(&mut self, buf: &[u8]) -> io::Result<usize> {
        self.calls = self.calls.saturating_add(1);
        if self.calls == 1 {
            return Err(Error::from(ErrorKind::Interrupted));
        }
        let n = buf.len().min(2).min(self.room);
        match self.taken.extend_from_slice(&buf[..n]) {
            Ok(()) => {
                self.room -= n;
                Ok(n)
            }
            Err(_) => Err(Error::from(ErrorKind::OutOfMemory)),
        }
    }

    fn flush(&mut self) -> io::Result<()> {
        if self.flushes {
            Ok(())
        } else {
            Err(Error::from(ErrorKind::BrokenPipe))
        }
    }
}

// Each answer of a source until its fourth call, in buffers of three bytes: their number, or 255.
// The bytes that were given are appended.
fn four_reads<S: Source>(source: &mut S, given: &mut Vec<u8>) -> Result<[u8; 4], Fail> {
    let mut answers = [0; 4];
    for answer in answers.iter_mut() {
        let mut buf = [0; 3];
        *answer = match source.read(&mut buf) {
            Ok(n) => {
                given.extend_from_slice(&buf[..n])?;
                n as u8
            }
            Err(Failed) => 255,
        };
    }
    Ok(answers)
}

fn puts<K: Sink>(sink: &mut K, pieces: &[&[u8]; 3]) -> [bool; 3] {
    let [first, second, third] = pieces;
    [
        sink.put(first).is_ok(),
        sink.put(second).is_ok(),
        sink.put(third).is_ok(),
    ]
}

#[test]
fn sources(rt: HostRuntime) -> Result<(), Fail> {
    let rows: [(&[u64], [u8; 4]); 3] = [
        (&[], [3, 2, 0, 0]),
        (&[0, 2], [255, 3, 255, 2]),
        (&[1, 3, 9], [3, 255, 2, 255]),
    ];
    for (failing, answers) in rows {
        let bytes = b"hello".to_vec(rt.alloc())?;
        let mut source = MemSource::new(bytes, numbers(rt.alloc(), failing)?);
        assert_eq!(rt; source.left(), b"hello".as_slice());
        let mut given = Vec::new(rt.alloc());
        assert_eq!(rt; four_reads(&mut source, &mut given)?, answers);
        assert_eq!(rt; given.as_slice(), b"hello".as_slice());
    }
    let mut source = ReaderSource::new(FakeReader { calls: 0 });
    let mut given = Vec::new(rt.alloc());
    assert_eq!(rt; four_reads(&mut source, &mut given)?, [2, 255, 0, 255]);
    assert_eq!(rt; given.as_slice(), b"ab".as_slice());
    Ok(())
}

#[test]
fn sinks(rt: HostRuntime) -> Result<(), Fail> {
    let pieces: [&[u8]; 3] = [b"abc", b"defg", b"h"];
    let rows: [(&[u64], usize, [bool; 3], &[u8]); 3] = [
        (&[], 8, [true, true, true], b"abcdefgh"),
        (&[], 6, [true, false, true], b"abch"),
        (&[0], 8, [false, true, true], b"defgh"),
    ];
    for (failing, room, answers, taken) in rows {
        let failing = numbers(rt.alloc(), failing)?;
        let mut sink = MemSink::new(rt.alloc(), failing, room)
            .ok()
            .ok_or("no memory")?;
        assert_eq!(rt; puts(&mut sink, &pieces), answers);
        assert_eq!(rt; sink.taken(), taken);
    }
    let rows: [(usize, bool, [bool; 3], &[u8]); 3] = [
        (8, true, [true, true, true], b"abcdefgh"),
        (6, true, [true, false, false], b"abcdef"),
        (8, false, [false, false, false], b"abcdefgh"),
    ];
    for (room, flushes, answers, taken) in rows {
        let mut writer = FakeWriter {
            taken: Vec::new(rt.alloc()),
            calls: 0,
            room,
            flushes,
        };
        let mut sink = WriterSink::new(&mut writer);
        assert_eq!(rt; puts(&mut sink, &pieces), answers);
        assert_eq!(rt; writer.taken.as_slice(), taken);
    }
    Ok(())
}

// What a fetch gives: the bytes, or in words why there are none.
fn fetched<F: Files>(
    files: &mut F,
    alloc: Global,
    name: &str,
    limit: usize,
) -> Result<Vec<u8>, Fail> {
    let reason = match files.fetch(alloc, name, limit) {
        Ok(Fetched::Bytes(bytes)) => return Ok(bytes),
        Ok(Fetched::Missing) => "missing",
        Ok(Fetched::TooBig) => "too big",
        Err(FetchFault::Failed) => "failed",
        Err(FetchFault::NoMemory) => "no memory",
    };
    Ok(reason.as_bytes().to_vec(alloc)?)
}

#[test]
fn files_in_memory(rt: HostRuntime) -> Result<(), Fail> {
    let mut entries = Vec::new(rt.alloc());
    for (name, bytes) in [("a", "one"), ("a", "other"), ("d/b", "")] {
        let name = file_name_of(name.as_bytes()).ok_or("no name")?;
        let bytes = bytes.as_bytes().to_vec(rt.alloc())?;
        entries.push(MemFile { name, bytes })?;
    }
    let mut files = MemFiles::new(entries, numbers(rt.alloc(), &[1])?);
    let rows = [
        ("a", 3, "one"),
        ("a", 3, "failed"),
        ("a", 4, "one"),
        ("a", 2, "too big"),
        ("d/b", 0, ""),
        ("b", 9, "missing"),
    ];
    for (name, limit, answer) in rows {
        let given = fetched(&mut files, rt.alloc(), name, limit)?;
        assert_eq!(rt; given.as_slice(), answer.as_bytes(), "{name} {limit}");
    }
    Ok(())
}

#[test]
fn files_of_the_folder(rt: HostRuntime) -> Result<(), Fail> {
    fs::write(&rt, "short", "0123")?;
    fs::write(&rt, "empty", "")?;
    let mut files = DirFiles::new(rt);
    let rows = [
        ("short", 4, "0123"),
        ("short", 3, "too big"),
        ("./short", 5000, "0123"),
        ("empty", 0, ""),
        ("other", 9, "missing"),
        ("short/other", 9, "failed"),
        (".", 9, "failed"),
    ];
    for (name, limit, answer) in rows {
        let given = fetched(&mut files, rt.alloc(), name, limit)?;
        assert_eq!(rt; given.as_slice(), answer.as_bytes(), "{name} {limit}");
    }
    Ok(())
}
