// Each source and sink with ample memory, driven through its trait's bound.

ghost use Rattle.std.specs.Prelude.{◌<◌, length};

use outside_io::{
    Failed, Gate, MemSink, MemSource, OpenGate, Sink, Source, StdSink, StdSource, SureSink,
    SureSource,
};
use std::alloc::{AllocError, Global};
use std::io;
use std::io::{Error, ErrorKind, Read, Write};
use std::test::Fail;

/// Whether the next read gives this answer, and leaves these bytes in the buffer.
fn gives<S: Source>(
    source: &mut S,
    into: &mut [u8],
    answer: Result<usize, Failed>,
    seen: &[u8],
) -> bool
    requires { 0 < length into.old }
{
    source.read(into) == answer && *into == *seen
}

/// Whether a write of the piece gives this answer.
fn takes<K: Sink>(sink: &mut K, piece: &[u8], answer: Result<usize, Failed>) -> bool
    requires { 0 < length piece.now }
{
    sink.write(piece) == answer
}

/// Gives "ab", fails once, and then gives "c" and the end.
#[derive(Drop)]
struct FailsOnce {
    calls: u32,
}

impl Read for FailsOnce {
    fn read(&mut self, buf: &mut [u8]) -> io::Result<usize> {
        self.calls = self.calls.saturating_add(1);
        match self.calls {
            1 => b"ab".as_slice().read(buf),
            2 => Err(Error::from(ErrorKind::Other)),
            3 => b"c".as_slice().read(buf),
            _ => Ok(0),
        }
    }
}

/// Whether these reads of two bytes at most give what a source of "abc" must whose second read fails.
fn fails_in_mid_stream<S: Source>(source: &mut S) -> bool {
    let mut into = *b"..";
    gives(source, &mut into, Ok(2), b"ab")
        && gives(source, &mut into, Err(Failed), b"ab")
        && gives(source, &mut into, Ok(1), b"cb")
        && gives(source, &mut into, Ok(0), b"cb")
}

fn memory_fails_in_mid_stream(alloc: Global) -> Result<bool, AllocError> {
    let bytes = b"abc".to_vec(alloc)?;
    let fails = vec![in alloc; 2u64]?;
    Ok(fails_in_mid_stream(&mut MemSource::new(bytes, fails)))
}

fn a_sure_source_gives_all(alloc: Global) -> Result<bool, AllocError> {
    let mut source = SureSource::new(b"abc".to_vec(alloc)?);
    let mut into = *b"....";
    let whole = gives(&mut source, &mut into, Ok(3), b"abc.");
    Ok(whole && gives(&mut source, &mut into, Ok(0), b"abc."))
}

#[test]
fn sources_give_their_bytes(rt: HostRuntime) -> Result<(), Fail> {
    let alloc = rt.alloc();
    let memory = memory_fails_in_mid_stream(alloc)?;
    assert!(rt; memory);
    let sure = a_sure_source_gives_all(alloc)?;
    assert!(rt; sure);
    let standard = fails_in_mid_stream(&mut StdSource::new(FailsOnce { calls: 0 }));
    assert!(rt; standard);
    Ok(())
}

/// Takes nothing at its second write, and else all.
#[derive(Drop)]
struct RefusesOnce<'a> {
    to: &'a mut Vec<u8>,
    calls: u32,
}

impl<'a> Write for RefusesOnce<'a> {
    fn write(&mut self, buf: &[u8]) -> io::Result<usize> {
        self.calls = self.calls.saturating_add(1);
        if self.calls == 2 {
            return Ok(0);
        }
        self.to.write(buf)
    }

    fn flush(&mut self) -> io::Result<()> {
        Ok(())
    }
}

/// Whether these writes are taken as a sink must whose second one fails.
fn refuses_in_mid_stream<K: Sink>(sink: &mut K) -> bool {
    takes(sink, b"ab", Ok(2)) && takes(sink, b"cd", Err(Failed)) && takes(sink, b"e", Ok(1))
}

fn memory_refuses_in_mid_stream(alloc: Global) -> Result<bool, AllocError> {
    let mut sink = MemSink::new(alloc, 3, vec![in alloc; 2u64]?)?;
    let refused = refuses_in_mid_stream(&mut sink) && takes(&mut sink, b"f", Err(Failed));
    Ok(refused && sink.held() == b"abe".as_slice())
}

fn a_writer_refuses_in_mid_stream(alloc: Global) -> Result<bool, AllocError> {
    let mut held = Vec::new(alloc);
    let writer = RefusesOnce {
        to: &mut held,
        calls: 0,
    };
    let refused = refuses_in_mid_stream(&mut StdSink::new(writer));
    Ok(refused && held.as_slice() == b"abe".as_slice())
}

#[test]
fn sinks_take_their_bytes(rt: HostRuntime) -> Result<(), Fail> {
    let alloc = rt.alloc();
    let memory = memory_refuses_in_mid_stream(alloc)?;
    assert!(rt; memory);
    let standard = a_writer_refuses_in_mid_stream(alloc)?;
    assert!(rt; standard);
    let sure = takes(&mut SureSink::new(), b"d", Ok(1));
    assert!(rt; sure);
    let gate = OpenGate;
    gate.at_task(0, 0, 0);
    gate.at_answer(1, 1);
    Ok(())
}
