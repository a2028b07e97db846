// Runs whose input ends early, or whose reads or writes fail at each call in turn; and std's adapters over a
// reader and a writer that fail, give or take little, or end.

ghost use Rattle.std.specs.Prelude.{◌<◌, length};

use crate::case::{ends_with, prints, sink_of, source_of};
use crate::inputs::TWO_LINES;
use outside_io::{Failed, MemSource, OpenGate, Sink, Source, StdSink, StdSource};
use scatter_run::Status;
use scatter_text::TextKind;
use std::alloc::{AllocError, Global};
use std::io;
use std::io::{Error, ErrorKind, Read, Write};
use std::sync::Wait;
use std::test::Fail;
use std::thread::Threads;

/// A job that reads: its words, a good input, and what it prints of it.
#[derive(Clone, Copy)]
struct Job {
    words: &'static str,
    input: &'static str,
    output: &'static str,
}

const COMPLETE: Job = Job {
    words: "complete 2 1",
    input: TWO_LINES,
    output: "scatter 1
vars 2
order 2
line 1 0 at 0 0
term 1 1 1 0
line 0 1 at 0 0
term 1 1 0 1
ray 1 1 at 0 0
term 1 1 1 1
end
",
};

const THETA: Job = Job {
    words: "theta 2 1",
    input: "scatter 1
vars 2
line 1 0 at 0 0
term 1 1 1 0
line 0 1 at 0 0
term 1 1 0 1
ask 1 theta -1 -1 at 2 1
settle
end
",
    output: THETA_AT_ORDER_2,
};

// The ask waits for the last order, so it has one answer.
const SESSION: Job = Job {
    words: "session 2 1 1",
    input: "scatter 1
vars 2
line 1 0 at 0 0
term 1 1 1 0
line 0 1 at 0 0
term 1 1 0 1
settle
ask 1 theta -1 -1 at 2 1
end
",
    output: THETA_AT_ORDER_2,
};

const THETA_AT_ORDER_2: &str = "answers 1
published 2
answer 1 order 2 series
term 1 -1 -1 0 0
term 1 -1 0 0 1
term 1 0 -1 1 0
end
";

/// Whether the words refuse this text at this line, where it ends early.
fn ends_early<R: Threads + Wait + Sync>(
    rt: &R,
    command: (Global, &str),
    text: &[u8],
    line: u32,
    kind: TextKind,
) -> Result<bool, AllocError> {
    let alloc = command.0;
    let mut source = MemSource::new(text.to_vec(alloc)?, Vec::new(alloc));
    let mut sink = sink_of(alloc, 0)?;
    let word = match kind {
        TextKind::Missing => "missing",
        _ => "unfinished",
    };
    let output = format!(in alloc; "fault text {line} {word}\n")?;
    let told = (Status::Text { line, kind }, output.as_bytes());
    prints(rt, command, &mut source, &mut sink, told)
}

/// Whether every proper prefix of the job's input is refused: at the line after its last, where it ends with
/// a whole line, else at the line that isn't finished.
fn prefixes_are_refused<R: Threads + Wait + Sync>(
    rt: &R,
    alloc: Global,
    job: &Job,
) -> Result<bool, AllocError> {
    let text = job.input.as_bytes();
    let mut line = 1u32;
    let mut kind = TextKind::Missing;
    for n in 0..text.len() {
        if !ends_early(rt, (alloc, job.words), &text[..n], line, kind)? {
            return Ok(false);
        }
        if text[n] == b'\n' {
            line = line.saturating_add(1);
            kind = TextKind::Missing;
        } else {
            kind = TextKind::Unfinished;
        }
    }
    Ok(true)
}

#[test]
fn inputs_that_end_early_are_told(rt: HostRuntime) -> Result<(), Fail> {
    let alloc = rt.alloc();
    let complete = prefixes_are_refused(&rt, alloc, &COMPLETE)?;
    assert!(rt; complete);
    let theta = prefixes_are_refused(&rt, alloc, &THETA)?;
    assert!(rt; theta);
    let session = prefixes_are_refused(&rt, alloc, &SESSION)?;
    assert!(rt; session);
    Ok(())
}

/// Whether the job ends so and leaves this in the sink, where the read and the write of these numbers fail;
/// none does where the number is 0.
fn ends_where_calls_fail<R: Threads + Wait + Sync>(
    rt: &R,
    alloc: Global,
    job: &Job,
    fails: (u64, u64),
    told: (Status, &[u8]),
) -> Result<bool, AllocError> {
    let (read, write) = fails;
    let mut source = source_of(alloc, job.input, read)?;
    let mut sink = sink_of(alloc, write)?;
    prints(rt, (alloc, job.words), &mut source, &mut sink, told)
}

/// Whether a write that fails leaves the lines before it, for each call in turn, and none comes after the
/// last line.
fn lines_before_a_failed_write_are_held<R: Threads + Wait + Sync>(
    rt: &R,
    alloc: Global,
    job: &Job,
) -> Result<bool, AllocError> {
    let output = job.output.as_bytes();
    let mut call = 1u64;
    let mut held = 0;
    for n in 0..output.len() {
        if output[n] == b'\n' {
            let told = (Status::WriteFault, &output[..held.min(output.len())]);
            if !ends_where_calls_fail(rt, alloc, job, (0, call), told)? {
                return Ok(false);
            }
            call = call.saturating_add(1);
            held = n + 1;
        }
    }
    ends_where_calls_fail(rt, alloc, job, (0, call), (Status::Done, output))
}

#[test]
fn a_failed_write_leaves_whole_lines(rt: HostRuntime) -> Result<(), Fail> {
    let alloc = rt.alloc();
    let complete = lines_before_a_failed_write_are_held(&rt, alloc, &COMPLETE)?;
    assert!(rt; complete);
    let theta = lines_before_a_failed_write_are_held(&rt, alloc, &THETA)?;
    assert!(rt; theta);
    let session = lines_before_a_failed_write_are_held(&rt, alloc, &SESSION)?;
    assert!(rt; session);
    Ok(())
}

/// Whether a first and a second read that fail are told, also where the first write fails too.
fn failed_reads_are_told<R: Threads + Wait + Sync>(
    rt: &R,
    alloc: Global,
    job: &Job,
) -> Result<bool, AllocError> {
    let told = (Status::ReadFault, b"fault read\n".as_slice());
    let cut = (Status::WriteFault, b"".as_slice());
    let first = ends_where_calls_fail(rt, alloc, job, (1, 0), told)?;
    let second = ends_where_calls_fail(rt, alloc, job, (2, 0), told)?;
    let both = ends_where_calls_fail(rt, alloc, job, (2, 1), cut)?;
    Ok(first && second && both)
}

#[test]
fn a_failed_read_is_told(rt: HostRuntime) -> Result<(), Fail> {
    let alloc = rt.alloc();
    let complete = failed_reads_are_told(&rt, alloc, &COMPLETE)?;
    assert!(rt; complete);
    let theta = failed_reads_are_told(&rt, alloc, &THETA)?;
    assert!(rt; theta);
    let session = failed_reads_are_told(&rt, alloc, &SESSION)?;
    assert!(rt; session);
    Ok(())
}

/// What a reader does at one call.
#[derive(Clone, Copy)]
enum Given {
    Piece(&'static str),
    Fault,
}

/// Does what is listed, call after call, and is at its end after that.
#[derive(Drop)]
struct ListedReader {
    calls: &'static [Given],
    made: usize,
}

impl Read for ListedReader {
    fn read(&mut self, buf: &mut [u8]) -> io::Result<usize> {
        let given = self.calls.get(self.made);
        self.made = self.made.saturating_add(1);
        match given {
            Some(Given::Piece(piece)) => piece.as_bytes().read(buf),
            Some(Given::Fault) => Err(Error::from(ErrorKind::Other)),
            None => Ok(0),
        }
    }
}

/// What a reader does, and the answers of a source over it, each with what three bytes then are.
#[derive(Clone, Copy)]
struct ReaderCase {
    meaning: &'static str,
    calls: &'static [Given],
    answers: &'static [(Result<usize, Failed>, &'static str)],
}

const READERS: [ReaderCase; 5] = [
    ReaderCase {
        meaning: "a reader that fails at once",
        calls: &[Given::Fault, Given::Piece("ab")],
        answers: &[(Err(Failed), "..."), (Ok(2), "ab."), (Ok(0), "ab.")],
    },
    ReaderCase {
        meaning: "a reader that fails after a piece",
        calls: &[Given::Piece("ab"), Given::Fault, Given::Piece("c")],
        answers: &[
            (Ok(2), "ab."),
            (Err(Failed), "ab."),
            (Ok(1), "cb."),
            (Ok(0), "cb."),
        ],
    },
    ReaderCase {
        meaning: "a reader that fails twice",
        calls: &[Given::Fault, Given::Fault, Given::Piece("a")],
        answers: &[(Err(Failed), "..."), (Err(Failed), "..."), (Ok(1), "a..")],
    },
    ReaderCase {
        meaning: "a reader that gives short pieces",
        calls: &[Given::Piece("a"), Given::Piece("b"), Given::Piece("cd")],
        answers: &[
            (Ok(1), "a.."),
            (Ok(1), "b.."),
            (Ok(2), "cd."),
            (Ok(0), "cd."),
        ],
    },
    ReaderCase {
        meaning: "a reader that is at its end",
        calls: &[],
        answers: &[(Ok(0), "..."), (Ok(0), "...")],
    },
];

/// Whether a source gives these answers, each leaving these bytes.
fn answers_reads<S: Source>(
    source: &mut S,
    answers: &[(Result<usize, Failed>, &'static str)],
) -> bool {
    let mut into = *b"...";
    for (answer, seen) in answers {
        if source.read(&mut into) != *answer || into.as_slice() != seen.as_bytes() {
            return false;
        }
    }
    true
}

/// The first reader that isn't answered as it must be.
fn first_unlike_reader(cases: &[ReaderCase]) -> Option<&'static str> {
    for case in cases {
        let reader = ListedReader {
            calls: case.calls,
            made: 0,
        };
        if !answers_reads(&mut StdSource::new(reader), case.answers) {
            return Some(case.meaning);
        }
    }
    None
}

#[test]
fn readers_are_told_apart(rt: HostRuntime) -> Result<(), Fail> {
    assert_eq!(rt; first_unlike_reader(&READERS), None);
    Ok(())
}

/// What a writer does at one call.
#[derive(Clone, Copy)]
enum Taken {
    Whole,
    FirstByte,
    Nothing,
    Fault,
}

/// Does what is listed, call after call, and takes all after that.
#[derive(Drop)]
struct ListedWriter<'a> {
    to: &'a mut Vec<u8>,
    calls: &'static [Taken],
    made: usize,
}

impl<'a> Write for ListedWriter<'a> {
    fn write(&mut self, buf: &[u8]) -> io::Result<usize> {
        let taken = self.calls.get(self.made);
        self.made = self.made.saturating_add(1);
        match taken {
            Some(Taken::FirstByte) => self.to.write(&buf[..buf.len().min(1)]),
            Some(Taken::Nothing) => Ok(0),
            Some(Taken::Fault) => Err(Error::from(ErrorKind::Other)),
            Some(Taken::Whole) | None => self.to.write(buf),
        }
    }

    fn flush(&mut self) -> io::Result<()> {
        Ok(())
    }
}

/// What a writer does, the answers of a sink over it to three writes, of "ab", "cd" and "e", and what the
/// writer has then.
#[derive(Clone, Copy)]
struct WriterCase {
    meaning: &'static str,
    calls: &'static [Taken],
    answers: [Result<usize, Failed>; 3],
    held: &'static str,
}

const WRITERS: [WriterCase; 6] = [
    WriterCase {
        meaning: "a writer that takes all",
        calls: &[],
        answers: [Ok(2), Ok(2), Ok(1)],
        held: "abcde",
    },
    WriterCase {
        meaning: "a writer that takes short",
        calls: &[Taken::FirstByte, Taken::Whole, Taken::FirstByte],
        answers: [Ok(1), Ok(2), Ok(1)],
        held: "acde",
    },
    WriterCase {
        meaning: "a writer that takes nothing",
        calls: &[Taken::Nothing, Taken::Nothing, Taken::Nothing],
        answers: [Err(Failed), Err(Failed), Err(Failed)],
        held: "",
    },
    WriterCase {
        meaning: "a writer that takes nothing once",
        calls: &[Taken::Whole, Taken::Nothing],
        answers: [Ok(2), Err(Failed), Ok(1)],
        held: "abe",
    },
    WriterCase {
        meaning: "a writer that fails once and then works",
        calls: &[Taken::Fault],
        answers: [Err(Failed), Ok(2), Ok(1)],
        held: "cde",
    },
    WriterCase {
        meaning: "a writer that fails after a piece and goes on failing",
        calls: &[Taken::Whole, Taken::Fault, Taken::Fault],
        answers: [Ok(2), Err(Failed), Err(Failed)],
        held: "ab",
    },
];

/// Whether a write of the piece has this answer.
fn takes<K: Sink>(sink: &mut K, piece: &[u8], answer: Result<usize, Failed>) -> bool
    requires { 0 < length piece.now }
{
    sink.write(piece) == answer
}

/// Whether a sink has these answers to its three writes.
fn answers_writes<K: Sink>(sink: &mut K, answers: [Result<usize, Failed>; 3]) -> bool {
    let [first, second, third] = answers;
    takes(sink, b"ab", first) && takes(sink, b"cd", second) && takes(sink, b"e", third)
}

/// The first writer that isn't answered as it must be, or has something else then.
fn first_unlike_writer(
    alloc: Global,
    cases: &[WriterCase],
) -> Result<Option<&'static str>, AllocError> {
    for case in cases {
        let mut held = Vec::new(alloc);
        let writer = ListedWriter {
            to: &mut held,
            calls: case.calls,
            made: 0,
        };
        let answered = answers_writes(&mut StdSink::new(writer), case.answers);
        if !answered || held.as_slice() != case.held.as_bytes() {
            return Ok(Some(case.meaning));
        }
    }
    Ok(None)
}

#[test]
fn writers_are_told_apart(rt: HostRuntime) -> Result<(), Fail> {
    let unlike = first_unlike_writer(rt.alloc(), &WRITERS)?;
    assert_eq!(rt; unlike, None);
    Ok(())
}

/// Whether a run over std's adapters reads all of an input that comes in two pieces, and goes on where the
/// writer takes one byte.
fn short_calls_lose_nothing<R: Threads + Wait + Sync>(
    rt: &R,
    alloc: Global,
) -> Result<bool, AllocError> {
    let reader = ListedReader {
        calls: &[
            Given::Piece("scatter 1\nvars 2\nl"),
            Given::Piece("ine 0 1 at 0 0\nend\n"),
        ],
        made: 0,
    };
    let mut held = Vec::new(alloc);
    let writer = ListedWriter {
        to: &mut held,
        calls: &[
            Taken::FirstByte,
            Taken::FirstByte,
            Taken::Whole,
            Taken::FirstByte,
        ],
        made: 0,
    };
    let mut source = StdSource::new(reader);
    let mut sink = StdSink::new(writer);
    let told = (&OpenGate, Status::Done);
    let done = ends_with(rt, (alloc, "complete 2 1"), &mut source, &mut sink, told)?;
    let output = b"scatter 1\nvars 2\norder 2\nline 0 1 at 0 0\nend\n";
    Ok(done && held.as_slice() == output.as_slice())
}

#[test]
fn short_reads_and_writes_go_on(rt: HostRuntime) -> Result<(), Fail> {
    let whole = short_calls_lose_nothing(&rt, rt.alloc())?;
    assert!(rt; whole);
    Ok(())
}
