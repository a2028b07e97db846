// A source and a sink in memory, of which chosen calls fail.

ghost use Rattle.std.specs.Prelude.{◌≡◌, ◌≤◌, ◌+◌, ◌↔◌, ◌++◌, ◌<◌, [], length, take, drop, min, Some, IfOk, OnErr, OnOk, IsErr, IsTrue};
ghost use Rattle.outside_io.specs.Outside.{HasCause};
ghost use Rattle.outside_io.specs.Memory.{GivesOf, TakesOf, read_fails, source_failed, source_read, sink_failed, sink_wrote, write_fails};

use crate::{Failed, Sink, Source, SureSource, fail};
use std::alloc::{AllocError, Global};
use std::marker::Model;

/// Bytes in memory. Each read gives as many as fit, and the reads whose numbers stand in a given list
/// fail, counted from 1 (a count that ends at 2^64 - 1).
#[derive(Drop)]
pub struct MemSource {
    rest: SureSource,
    calls: u64,
    fails: Vec<u64>,
    failed: u64,
}

impl Model for MemSource {
    ghost use Rattle.outside_io.specs.Memory.{SourceInMemory};

    ghost Value = { SourceInMemory };

    ghost view = { λ s. record {
      left = s.rest;
      calls = s.calls;
      fails = s.fails.items;
      faults = s.failed;
    } };
}

impl MemSource {
    /// Nothing was read of `bytes` yet. The reads whose numbers stand in `fails` will fail.
    pub fn new(bytes: Vec<u8>, fails: Vec<u64>) -> MemSource
        ensures left { result.left ≡ bytes.items }
        ensures calls { result.calls ≡ 0 }
        ensures fails { result.fails ≡ fails.items }
        ensures faults { result.faults ≡ 0 }
    {
        MemSource {
            rest: SureSource::new(bytes),
            calls: 0,
            fails,
            failed: 0,
        }
    }
}

impl Source for MemSource {
    ghost left = { λ s. Some s.left };

    ghost faults = { λ s. s.faults };

    fn read(&mut self, into: &mut [u8]) -> Result<usize, Failed>
        requires { 0 < length into.old }
        ensures within { IfOk result (λ n. n ≤ length into.new) }
        ensures bytes { IfOk result (λ n. GivesOf self.old self.new into.new n) }
        ensures unchanged { OnErr result (Some self.new.left ≡ Some self.old.left) }
        ensures cause { HasCause self.old.faults self.new.faults result }
        ensures fails { IsErr result ↔ IsTrue (read_fails self.old) }
        ensures most { IfOk result (λ n. n ≡ min (length self.old.left) (length into.old)) }
        ensures failed { OnErr result (self.new ≡ source_failed self.old) }
        ensures read { IfOk result (λ n. self.new ≡ source_read self.old (drop n self.old.left)) }
    {
        self.calls = self.calls.saturating_add(1);
        if self.fails.contains(&self.calls) {
            return fail(&mut self.failed);
        }
        self.rest.read(into)
    }
}

/// Holds what it takes, up to a room that is reserved at once. A write takes the whole piece, and fails
/// where its number, counted from 1, stands in a given list or where the piece no longer fits.
#[derive(Drop)]
pub struct MemSink {
    bytes: Vec<u8>,
    room: usize,
    calls: u64,
    fails: Vec<u64>,
    failed: u64,
}

impl Model for MemSink {
    ghost use Rattle.std.specs.Prelude.{◌≤◌, vec_len, vec_capacity};
    ghost use Rattle.outside_io.specs.Memory.{SinkInMemory};

    ghost Value = { SinkInMemory };

    ghost view = { λ s. record {
      held = s.bytes.items;
      room = s.room;
      calls = s.calls;
      fails = s.fails.items;
      faults = s.failed;
    } };

    ghost invariant = { λ s. (vec_len s.bytes ≤ s.room) × (s.room ≤ vec_capacity s.bytes) };
}

impl MemSink {
    /// Reserves `room` bytes and holds none yet. The writes whose numbers stand in `fails` will fail.
    ///
    /// # Errors
    /// `AllocError` where the room can't be had.
    pub fn new(alloc: Global, room: usize, fails: Vec<u64>) -> Result<MemSink, AllocError>
        ensures held { IfOk result (λ s. s.held ≡ []) }
        ensures room { IfOk result (λ s. s.room ≡ room) }
        ensures calls { IfOk result (λ s. s.calls ≡ 0) }
        ensures fails { IfOk result (λ s. s.fails ≡ fails.items) }
        ensures faults { IfOk result (λ s. s.faults ≡ 0) }
    {
        Ok(MemSink {
            bytes: Vec::with_capacity(alloc, room)?,
            room,
            calls: 0,
            fails,
            failed: 0,
        })
    }

    /// Lends what it took.
    pub fn held(&self) -> &[u8]
        ensures { result.now ≡ self.now.held }
    {
        self.bytes.as_slice()
    }
}

impl Sink for MemSink {
    ghost held = { λ s. Some s.held };

    ghost faults = { λ s. s.faults };

    fn write(&mut self, piece: &[u8]) -> Result<usize, Failed>
        requires { 0 < length piece.now }
        ensures within { IfOk result (λ n. n ≤ length piece.now) }
        ensures some { IfOk result (λ n. 0 < n) }
        ensures bytes { IfOk result (λ n. TakesOf self.old self.new piece.now n) }
        ensures unchanged { OnErr result (Some self.new.held ≡ Some self.old.held) }
        ensures cause { HasCause self.old.faults self.new.faults result }
        ensures fails { IsErr result ↔ IsTrue (write_fails self.old piece.now) }
        ensures whole { IfOk result (λ n. n ≡ length piece.now) }
        ensures failed { OnErr result (self.new ≡ sink_failed self.old) }
        ensures wrote { OnOk result (self.new ≡ sink_wrote self.old (self.old.held ++ piece.now)) }
    {
        self.calls = self.calls.saturating_add(1);
        let fits = piece.len() <= self.room - self.bytes.len();
        if !fits || self.fails.contains(&self.calls) {
            return fail(&mut self.failed);
        }
        match self.bytes.extend_from_slice(piece) {
            Ok(()) => Ok(piece.len()),
            Err(_) => unreachable!(),
        }
    }
}
