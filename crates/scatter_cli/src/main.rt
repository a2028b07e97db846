//! The program: the words after its name, standard input and standard output go to `run`, and its
//! status is the exit status.
#![tactic(auto)]

use outside_io::{OpenGate, StdSink, StdSource};
use scatter_run::{Status, run};
use std::alloc::Global;
use std::process::ExitCode;
use std::rt::Env;
use std::{env, io};

fn main(rt: HostRuntime) -> ExitCode {
    let alloc = rt.alloc();
    let status = match words_of(&rt) {
        Ok(words) => {
            let mut source = StdSource::new(rt.stdin());
            let mut sink = StdSink::new(rt.stdout());
            run(
                &rt,
                alloc,
                words.as_slice(),
                &mut source,
                &mut sink,
                &OpenGate,
            )
        }
        Err(_) => Status::Memory,
    };
    ExitCode::from(status.code())
}

/// The words after the program's name; none where one of them isn't UTF-8, since no job has such a word.
fn words_of<R: Env + Alloc<A = Global>>(rt: &R) -> io::Result<Vec<String>> {
    match env::args(rt) {
        Ok(words) => Ok(words.skip(1).collect(rt.alloc())?),
        Err(error) if error.kind() == io::ErrorKind::InvalidData => Ok(Vec::new(rt.alloc())),
        Err(error) => Err(error),
    }
}
