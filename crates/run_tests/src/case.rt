// A run of words and an input, and how it must end.

ghost use Rattle.std.specs.Prelude.{◌≡◌, ◌<◌, ◌-◌, ◌^◌, IfOk};

use outside_io::{Gate, MemSink, MemSource, OpenGate, Sink, Source};
use scatter_run::{Status, run};
use std::alloc::{AllocError, Global};
use std::sync::Wait;
use std::thread::Threads;

/// A run: what it is an example of, its words and its input, and how it must end.
#[derive(Clone, Copy)]
pub struct Case {
    pub meaning: &'static str,
    pub words: &'static str,
    pub input: &'static str,
    pub status: Status,
    pub output: &'static str,
}

/// The words of a command, between spaces; none where there is no command.
fn words_of(alloc: Global, command: &str) -> Result<Vec<String>, AllocError> {
    let mut words = Vec::new(alloc);
    for word in command.split(' ') {
        if !word.is_empty() {
            words.push(String::from_str(alloc, word)?)?;
        }
    }
    Ok(words)
}

/// Whether a run from the source to the sink under this gate ends with this status.
pub fn ends_with<R: Threads + Wait + Sync, S: Source, K: Sink, G: Gate>(
    rt: &R,
    command: (Global, &str),
    source: &mut S,
    sink: &mut K,
    told: (&G, Status),
) -> Result<bool, AllocError>
    requires source { S.faults source.old < 2 ^ 64 - 1 }
    requires sink { K.faults sink.old < 2 ^ 64 - 1 }
{
    let (alloc, words) = command;
    let (gate, status) = told;
    let words = words_of(alloc, words)?;
    Ok(run(rt, alloc, words.as_slice(), source, sink, gate) == status)
}

/// Whether a run from the source to the sink ends with this status, and the sink then holds this.
pub fn prints<R: Threads + Wait + Sync, S: Source>(
    rt: &R,
    command: (Global, &str),
    source: &mut S,
    sink: &mut MemSink,
    told: (Status, &[u8]),
) -> Result<bool, AllocError>
    requires source { S.faults source.old < 2 ^ 64 - 1 }
    requires sink { sink.old.faults < 2 ^ 64 - 1 }
{
    let (status, output) = told;
    let ended = ends_with(rt, command, source, sink, (&OpenGate, status))?;
    Ok(ended && sink.held() == output)
}

/// A source of this input whose read of this number fails; none does where that is 0.
pub fn source_of(alloc: Global, input: &str, fails: u64) -> Result<MemSource, AllocError>
    ensures { IfOk result (λ s. s.faults ≡ 0) }
{
    let input = input.as_bytes().to_vec(alloc)?;
    Ok(MemSource::new(input, vec![in alloc; fails]?))
}

/// A sink whose write of this number fails; none does where that is 0.
pub fn sink_of(alloc: Global, fails: u64) -> Result<MemSink, AllocError>
    ensures { IfOk result (λ s. s.faults ≡ 0) }
{
    MemSink::new(alloc, 4096, vec![in alloc; fails]?)
}

/// Whether a run of the case, with no failure, ends and prints as it must.
fn is_met<R: Threads + Wait + Sync>(
    rt: &R,
    alloc: Global,
    case: &Case,
) -> Result<bool, AllocError> {
    let mut source = source_of(alloc, case.input, 0)?;
    let mut sink = sink_of(alloc, 0)?;
    let told = (case.status, case.output.as_bytes());
    prints(rt, (alloc, case.words), &mut source, &mut sink, told)
}

/// What the first case stands for that doesn't end and print as it must, if there is one.
pub fn first_unmet<R: Threads + Wait + Sync>(
    rt: &R,
    alloc: Global,
    cases: &[Case],
) -> Result<Option<&'static str>, AllocError> {
    for case in cases {
        if !is_met(rt, alloc, case)? {
            return Ok(Some(case.meaning));
        }
    }
    Ok(None)
}
