//! Runs that are too long for a test: each line of standard input names a file and the words of a
//! command, and what the run on that file prints is told in short.
#![tactic(auto)]

use outside_io::{MemSink, MemSource, OpenGate};
use scatter_run::run;
use std::alloc::Global;
use std::io::Write;
use std::sync::Wait;
use std::thread::Threads;
use std::{fs, io};

/// The bytes that a run may print.
const ROOM: usize = 1 << 20;

/// How many lines are shown at each end of what a run prints.
const SHOWN: usize = 12;

fn main(rt: HostRuntime) -> io::Result<()> {
    let alloc = rt.alloc();
    for line in rt.lines(alloc) {
        let line = line?;
        let (file, command) = line.as_str().split_once(' ').unwrap_or(("", ""));
        let input = fs::read(&rt, format!(in alloc; "{file}.scatter")?)?;
        println!(rt; "{line}")?;
        show_run(&rt, command, input)?;
    }
    Ok(())
}

/// Runs the command on the input, and prints its status and what it wrote.
fn show_run<R: Threads + Wait + Sync + Print + Alloc<A = Global>>(
    rt: &R,
    command: &str,
    input: Vec<u8>,
) -> io::Result<()> {
    let alloc = rt.alloc();
    let mut words = Vec::new(alloc);
    for word in command.split(' ') {
        words.push(String::from_str(alloc, word)?)?;
    }
    let mut source = MemSource::new(input, Vec::new(alloc));
    let mut sink = MemSink::new(alloc, ROOM, Vec::new(alloc))?;
    let status = run(
        rt,
        alloc,
        words.as_slice(),
        &mut source,
        &mut sink,
        &OpenGate,
    );
    let code = status.code();
    println!(rt; "status {code}")?;
    show_text(rt, sink.held())
}

/// Prints the number of bytes and their checksum, and the first and the last lines.
fn show_text<R: Print>(rt: &R, text: &[u8]) -> io::Result<()> {
    let bytes = text.len();
    let sum = checksum(text);
    let lines = text.iter().filter(|byte| **byte == b'\n').count();
    println!(rt; "{lines} lines, {bytes} bytes, Adler-32 {sum}")?;
    for (at, line) in text.split(|byte| *byte == b'\n').enumerate() {
        if at < lines && (at < SHOWN || lines.saturating_sub(SHOWN) <= at) {
            let mut out = io::writer(rt);
            out.write_all(line)?;
            out.write_all(b"\n")?;
        }
    }
    Ok(())
}

/// The Adler-32 checksum of RFC 1950: b * 65536 + a, where a is 1 and the sum of the bytes, b the sum of
/// all a, both modulo 65521.
fn checksum(text: &[u8]) -> u32 {
    let mut a = 1u32;
    let mut b = 0u32;
    for byte in text {
        a = (a % 65521 + u32::from(*byte)) % 65521;
        b = (b % 65521 + a) % 65521;
    }
    b % 65521 * 65536 + a % 65521
}
