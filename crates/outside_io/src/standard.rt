// The real outside: a source over std's reader and a sink over std's writer. They tell of their bytes
// what the reader and the writer state of themselves, as bytes in memory do and standard input doesn't.

ghost use Rattle.std.specs.Prelude.{◌≡◌, ◌<◌, ◌≤◌, length, IfOk, OnErr};
ghost use Rattle.outside_io.specs.Memory.{counted};
ghost use Rattle.outside_io.specs.Outside.{HasCause, GivesWhereTold, TakesWhereTold, KeepsWhereTold};

use crate::{Failed, Sink, Source, fail};
use std::io::{Read, Write};
use std::marker::Model;

/// Reads from std's reader, and counts each error.
#[derive(Drop)]
pub struct StdSource<R: Read> {
    reader: R,
    failed: u64,
}

impl<R: Read> Model for StdSource<R> {
    ghost use Rattle.outside_io.specs.Outside.{Reading};

    ghost Value = { Reading };

    ghost view = { λ s. record { left = R.remaining s.reader; faults = s.failed } };
}

impl<R: Read> StdSource<R> {
    /// No fault was counted yet.
    pub fn new(reader: R) -> StdSource<R>
        ensures left { result.left ≡ R.remaining reader }
        ensures faults { result.faults ≡ 0 }
    {
        StdSource { reader, failed: 0 }
    }
}

impl<R: Read> Source for StdSource<R> {
    ghost left = { λ s. s.left };

    ghost faults = { λ s. s.faults };

    fn read(&mut self, into: &mut [u8]) -> Result<usize, Failed>
        requires { 0 < length into.old }
        ensures within { IfOk result (λ n. n ≤ length into.new) }
        ensures bytes { IfOk result (λ n. GivesWhereTold self.old.left self.new.left into.new n) }
        ensures unchanged { OnErr result (KeepsWhereTold self.old.left self.new.left) }
        ensures cause { HasCause self.old.faults self.new.faults result }
        // A failed call is one fault, whatever the reader did.
        ensures counted { OnErr result (self.new.faults ≡ counted self.old.faults) }
    {
        match self.reader.read(into) {
            Ok(n) => Ok(n),
            Err(_) => fail(&mut self.failed),
        }
    }
}

/// Writes to std's writer, and counts each error and each write that takes nothing.
#[derive(Drop)]
pub struct StdSink<W: Write> {
    writer: W,
    failed: u64,
}

impl<W: Write> Model for StdSink<W> {
    ghost use Rattle.outside_io.specs.Outside.{Writing};

    ghost Value = { Writing };

    ghost view = { λ s. record { held = W.contents s.writer; faults = s.failed } };
}

impl<W: Write> StdSink<W> {
    /// No fault was counted yet.
    pub fn new(writer: W) -> StdSink<W>
        ensures held { result.held ≡ W.contents writer }
        ensures faults { result.faults ≡ 0 }
    {
        StdSink { writer, failed: 0 }
    }
}

impl<W: Write> Sink for StdSink<W> {
    ghost held = { λ s. s.held };

    ghost faults = { λ s. s.faults };

    fn write(&mut self, piece: &[u8]) -> Result<usize, Failed>
        requires { 0 < length piece.now }
        ensures within { IfOk result (λ n. n ≤ length piece.now) }
        ensures some { IfOk result (λ n. 0 < n) }
        ensures bytes { IfOk result (λ n. TakesWhereTold self.old.held self.new.held piece.now n) }
        ensures unchanged { OnErr result (KeepsWhereTold self.old.held self.new.held) }
        ensures cause { HasCause self.old.faults self.new.faults result }
        // A failed call is one fault, whatever the writer did.
        ensures counted { OnErr result (self.new.faults ≡ counted self.old.faults) }
    {
        match self.writer.write(piece) {
            Ok(n) if n > 0 => Ok(n),
            _ => fail(&mut self.failed),
        }
    }
}
