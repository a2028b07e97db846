//! Writes a text line by line.
ghost use Rattle.std.specs.Prelude.{◌≤◌, ◌<◌, length, OnOk, OnErr};
ghost use Rattle.outside_io.specs.Outside.{Rose};
ghost use Rattle.scatter_run.specs.Writing.{IsWritten, IsCutShort};

use outside_io::{Failed, Sink};

/// Offers each line of the text as a piece of its own, and what is left of it again, until it is taken.
pub(crate) fn write_text<K: Sink>(sink: &mut K, text: &[u8]) -> Result<(), Failed>
    ensures whole { OnOk result (IsWritten (K.held sink.old) (K.held sink.new) text.now) }
    ensures cut { OnErr result (IsCutShort (K.held sink.old) (K.held sink.new) text.now) }
    ensures failed { OnErr result (Rose (K.faults sink.old) (K.faults sink.new)) }
    ensures later { K.faults sink.old ≤ K.faults sink.new }
{
    let mut rest = text;
    while !rest.is_empty() {
        let end = line_end(rest);
        let taken = sink.write(&rest[..end])?;
        rest = &rest[taken..];
    }
    Ok(())
}

/// Where the first line ends, its line feed included; the length where there is none.
fn line_end(text: &[u8]) -> usize
    requires { 0 < length text.now }
    ensures some { 0 < result }
    ensures within { result ≤ length text.now }
{
    match text.iter().position(|byte| *byte == b'\n') {
        Some(at) => at + 1,
        None => text.len(),
    }
}
