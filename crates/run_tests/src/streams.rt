// Runs whose reads or writes fail, or whose input comes in small pieces or is too long.

ghost use Rattle.std.specs.Prelude.{None};

use crate::case::{prints, sink_of, source_of};
use crate::inputs::{ONE_AND_TWO, TWO_LINES, TWO_LINES_AT_1};
use outside_io::{Failed, MemSource, OpenGate, Source};
use scatter_run::{Status, complete_job};
use scatter_text::LimitKind;
use std::alloc::{AllocError, Global};
use std::sync::Wait;
use std::test::Fail;
use std::thread::Threads;

/// Whether `complete 4 2` on these bytes ends so and prints this, where the reads and the writes with
/// these numbers fail.
fn is_told<R: Threads + Wait + Sync>(
    rt: &R,
    alloc: Global,
    fails: (u64, u64),
    status: Status,
    output: &str,
) -> Result<bool, AllocError> {
    let (read, write) = fails;
    let mut source = source_of(alloc, ONE_AND_TWO, read)?;
    let mut sink = sink_of(alloc, write)?;
    let told = (status, output.as_bytes());
    prints(rt, (alloc, "complete 4 2"), &mut source, &mut sink, told)
}

#[test]
fn failures_are_told(rt: HostRuntime) -> Result<(), Fail> {
    let alloc = rt.alloc();
    let read = is_told(&rt, alloc, (2, 0), Status::ReadFault, "fault read\n")?;
    assert!(rt; read);
    let write = is_told(
        &rt,
        alloc,
        (0, 3),
        Status::WriteFault,
        "scatter 1\nvars 2\n",
    )?;
    assert!(rt; write);
    Ok(())
}

/// Gives one byte at each read.
#[derive(Drop)]
struct Trickle {
    rest: MemSource,
}

impl Source for Trickle {
    ghost left = { λ s. None };

    ghost faults = { λ s. s.rest.faults };

    fn read(&mut self, into: &mut [u8]) -> Result<usize, Failed> {
        self.rest.read(&mut into[..1])
    }
}

/// Whether an input that comes byte by byte is completed as one that comes whole.
fn small_pieces_count_whole<R: Threads + Wait + Sync>(
    rt: &R,
    alloc: Global,
) -> Result<bool, AllocError> {
    let rest = source_of(alloc, TWO_LINES, 0)?;
    let mut source = Trickle { rest };
    let mut sink = sink_of(alloc, 0)?;
    let status = complete_job(rt, alloc, 1, 1, &mut source, &mut sink, &OpenGate);
    Ok(status == Status::Done && sink.held() == TWO_LINES_AT_1.as_bytes())
}

/// Whether an input of one byte too many is refused by its length.
fn one_byte_too_many_is_told<R: Threads + Wait + Sync>(
    rt: &R,
    alloc: Global,
) -> Result<bool, AllocError> {
    let input = vec![in alloc; b'\n'; 1048577]?;
    let mut source = MemSource::new(input, Vec::new(alloc));
    let mut sink = sink_of(alloc, 0)?;
    let which = LimitKind::Bytes;
    let told = (Status::Limit { which }, b"fault limit bytes\n".as_slice());
    prints(rt, (alloc, "complete 2 1"), &mut source, &mut sink, told)
}

#[test]
fn inputs_are_read_to_their_end(rt: HostRuntime) -> Result<(), Fail> {
    let alloc = rt.alloc();
    let small = small_pieces_count_whole(&rt, alloc)?;
    assert!(rt; small);
    let long = one_byte_too_many_is_told(&rt, alloc)?;
    assert!(rt; long);
    Ok(())
}
