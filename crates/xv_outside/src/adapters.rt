//! Thin adapters over the process's own streams, and over any reader and writer.
ghost use Rattle.std.specs.Prelude.{◌≡◌, ◌<◌, ◌≤◌, ℕ, None, length, IfOk, OnOk, OnErr};
ghost use Rattle.std.specs.Io.KnownBytes.{Appends, ReadConsumes, WriteAppends};
ghost use Rattle.xv_base.specs.Fault.{Rose};
ghost use Rattle.xv_outside.specs.Memory.{next_count};
ghost use Rattle.xv_outside.specs.Stream.{StreamState, AppendsFront};

use crate::outside::{Failed, Sink, Source};
use std::io::{ErrorKind, Read, Stdin, Stdout, Write};
use std::marker::Model;

/// A source over any reader. As a source it tells no bytes.
#[derive(Drop)]
pub struct ReaderSource<R: Read> {
    reader: R,
    faults: u64,
}

/// Standard input.
pub type StdSource = ReaderSource<Stdin>;

impl<R: Read> Model for ReaderSource<R> {
    ghost Value = { StreamState };

    ghost view = { λ s. record { known = R.remaining s.reader; faults = s.faults } };
}

impl<R: Read> ReaderSource<R> {
    /// A source of what the reader gives from here on.
    pub fn new(reader: R) -> ReaderSource<R>
        ensures { result ≡ record { known = R.remaining reader; faults = 0 } }
    {
        ReaderSource { reader, faults: 0 }
    }
}

// One read that goes through. A read that a signal cut off is made again.
#[tactic(auto, using(crate::proofs::Tries::of_reads))]
pub(crate) fn read_some<R: Read>(reader: &mut R, buf: &mut [u8]) -> Result<usize, Failed>
    ensures within { IfOk result (λ n. n ≤ length buf.new) }
    ensures bytes { ReadConsumes (R.remaining reader.old) (R.remaining reader.new) result buf.new }
{
    for _ in 0..u64::MAX {
        match reader.read(buf) {
            Ok(n) => return Ok(n),
            Err(error) if error.kind() == ErrorKind::Interrupted => {}
            Err(_) => break,
        }
    }
    Err(Failed)
}

impl<R: Read> Source for ReaderSource<R> {
    ghost left = { λ _. None };

    ghost faults = { λ s. s.faults };

    /// A read that a signal cut off is made again.
    fn read(&mut self, buf: &mut [u8]) -> Result<usize, Failed>
        requires { 0 < length buf.old }
        ensures within { IfOk result (λ n. n ≤ length buf.new) }
        ensures quiet { OnOk result (self.new.faults ≡ self.old.faults) }
        ensures cause { OnErr result (Rose self.old.faults self.new.faults) }
        ensures once { OnErr result (self.new.faults ≡ next_count self.old.faults) }
        ensures later { self.old.faults ≤ self.new.faults }
        ensures bytes { ReadConsumes self.old.known self.new.known result buf.new }
    {
        let result = read_some(&mut self.reader, buf);
        if let Err(Failed) = result {
            self.faults = self.faults.saturating_add(1);
        }
        result
    }
}

/// A sink over any writer. As a sink it tells no bytes.
#[derive(Drop)]
pub struct WriterSink<W: Write> {
    writer: W,
    faults: u64,
}

/// Standard output.
pub type StdSink = WriterSink<Stdout>;

impl<W: Write> Model for WriterSink<W> {
    ghost Value = { StreamState };

    ghost view = { λ s. record { known = W.contents s.writer; faults = s.faults } };
}

impl<W: Write> WriterSink<W> {
    /// A sink that writes behind what the writer has.
    pub fn new(writer: W) -> WriterSink<W>
        ensures { result ≡ record { known = W.contents writer; faults = 0 } }
    {
        WriterSink { writer, faults: 0 }
    }
}

// One write that goes through. A write that a signal cut off is made again.
#[tactic(auto, using(crate::proofs::Tries::of_writes))]
fn write_some<W: Write>(writer: &mut W, piece: &[u8]) -> Result<usize, Failed>
    ensures within { IfOk result (λ n. n ≤ length piece.now) }
    ensures bytes { WriteAppends (W.contents writer.old) (W.contents writer.new) result piece.now }
{
    for _ in 0..u64::MAX {
        match writer.write(piece) {
            Ok(n) => return Ok(n),
            Err(error) if error.kind() == ErrorKind::Interrupted => {}
            Err(_) => break,
        }
    }
    Err(Failed)
}

// Writes the piece to its end. A write that takes nothing of what is left is a failure.
fn write_whole<W: Write>(writer: &mut W, piece: &[u8]) -> Result<(), Failed>
    ensures whole { OnOk result
        (Appends (W.contents writer.old) (W.contents writer.new) piece.now) }
    ensures front { OnErr result
        (AppendsFront (W.contents writer.old) (W.contents writer.new) piece.now) }
{
    let mut at = 0;
    while at < piece.len() {
        match write_some(writer, &piece[at..]) {
            Ok(0) => return Err(Failed),
            Ok(n) => at += n,
            Err(Failed) => return Err(Failed),
        }
    }
    match writer.flush() {
        Ok(()) => Ok(()),
        Err(_) => Err(Failed),
    }
}

impl<W: Write> Sink for WriterSink<W> {
    ghost taken = { λ _. None };

    ghost faults = { λ s. s.faults };

    /// Writes the piece to its end, and flushes.
    fn put(&mut self, piece: &[u8]) -> Result<(), Failed>
        ensures quiet { OnOk result (self.new.faults ≡ self.old.faults) }
        ensures cause { OnErr result (Rose self.old.faults self.new.faults) }
        ensures once { OnErr result (self.new.faults ≡ next_count self.old.faults) }
        ensures later { self.old.faults ≤ self.new.faults }
        ensures bytes { OnOk result (Appends self.old.known self.new.known piece.now) }
        ensures front { OnErr result (AppendsFront self.old.known self.new.known piece.now) }
    {
        let result = write_whole(&mut self.writer, piece);
        if let Err(Failed) = result {
            self.faults = self.faults.saturating_add(1);
        }
        result
    }
}
