//! From words and bytes to the status and the text that is written.
ghost use Rattle.std.specs.Prelude.{◌≡◌, ℕ, ◌≤◌, ◌<◌, ◌-◌, ◌^◌, ◌⊎◌};
ghost use Rattle.limits.specs.Limits.{highest_order, most_readers, most_workers};
ghost use Rattle.scatter_run.specs.Words.{AreGenerateWords, NameNoJob, word_bytes};
ghost use Rattle.scatter_run.specs.Writing.{IsWritten, IsCutShort};
ghost use Rattle.scatter_run.specs.Outcome.{IsFormOutcome, IsFormAccepted, IsCompleteOutcome, IsAccepted, IsJsonOutcome, IsJsonAccepted, IsThetaOutcome, IsThetaAccepted, IsSessionOutcome, IsSessionAccepted, SaysRead, IsGenerateOutcome, IsUnstopped, IsRunOutcome, IsRunAccepted, SaysRunRead, words_fault_text};
ghost use Rattle.scatter_run.specs.Promise.{KeepsPromise, KeepsPromiseUnread, IsUntouched, IsOnlyOutcome, IsGiven, IsAnswerGiven, IsFaultGiven};

use crate::answer::{Answer, answer_in_session, answer_to};
use crate::form::Form;
use crate::generating::generate;
use crate::reading::{InputFault, read_input};
use crate::status::Status;
use crate::words::{Job, read_words};
use crate::writing::write_text;
use outside_io::{Gate, Sink, Source};
use scatter_text::LimitKind;
use std::alloc::{AllocError, Global};
use std::sync::Wait;
use std::thread::Threads;

/// Does all that the program does: reads the words, runs their job from the source to the sink, and
/// says how it ended. A session may wait, for readers that are just taking an order.
pub fn run<R: Threads + Wait + Sync, S: Source, K: Sink, G: Gate>(
    rt: &R,
    alloc: Global,
    words: &[String],
    source: &mut S,
    sink: &mut K,
    gate: &G,
) -> Status
    // The first fault is a rise.
    requires source { S.faults source.old < 2 ^ 64 - 1 }
    requires sink { K.faults sink.old < 2 ^ 64 - 1 }

    // What every job promises, of the outcomes of the words.
    ensures promise { KeepsPromise S.left S.faults K.held K.faults source.old source.new
        sink.old sink.new (IsRunOutcome (word_bytes words.now)) (IsRunAccepted (word_bytes words.now))
        (SaysRunRead (word_bytes words.now)) result }

    // It is the only outcome of words and bytes, for any number of workers; of a session the only status.
    ensures one { IsOnlyOutcome (word_bytes words.now) (S.left source.old)
        (K.held sink.old) (K.held sink.new) result }

    // What `generate` promises holds for every source, which isn't touched.
    ensures generate { (number : ℕ) → AreGenerateWords (word_bytes words.now) number
        → KeepsPromiseUnread K.held K.faults sink.old sink.new (IsGenerateOutcome number)
        (IsUnstopped number) result }
    ensures untouched { (number : ℕ) → AreGenerateWords (word_bytes words.now) number
        → IsUntouched S.left S.faults source.old source.new }

    // Words are refused exactly where they name no job, and by their text alone.
    ensures words { result ≡ Status.Words → NameNoJob (word_bytes words.now) }
    ensures no_job { NameNoJob (word_bytes words.now)
        → (result ≡ Status.Words) ⊎ (result ≡ Status.WriteFault) ⊎ (result ≡ Status.Memory) }
    ensures unread { NameNoJob (word_bytes words.now)
        → (S.left source.new ≡ S.left source.old) × (S.faults source.new ≡ S.faults source.old) }
    ensures words_text { result ≡ Status.Words
        → IsWritten (K.held sink.old) (K.held sink.new) words_fault_text }
    ensures words_cut { NameNoJob (word_bytes words.now) → result ≡ Status.WriteFault
        → IsCutShort (K.held sink.old) (K.held sink.new) words_fault_text }
{
    match read_words(alloc, words) {
        Ok(
            Some(
                Job::Complete {
                    form,
                    order,
                    workers,
                },
            ),
        ) => form_job(rt, alloc, form, order, workers, source, sink, gate),
        Ok(
            Some(
                Job::Session {
                    order,
                    workers,
                    readers,
                },
            ),
        ) => session_job(rt, alloc, order, workers, readers, source, sink, gate),
        Ok(Some(Job::Generate { number })) => generate_job(rt, alloc, number, sink, gate),
        Ok(None) => give(sink, Status::Words, b"fault words\n"),
        Err(_) => Status::Memory,
    }
}

/// `complete`: reads lines, and prints their completion at the order, which so many workers compute, from
/// 1 to 16. The gate is told of each task before a worker begins it.
pub fn complete_job<R: Threads + Sync, S: Source, K: Sink, G: Gate>(
    rt: &R,
    alloc: Global,
    order: u32,
    workers: u32,
    source: &mut S,
    sink: &mut K,
    gate: &G,
) -> Status
    requires order { order ≤ highest_order }
    requires some { 1 ≤ workers }
    requires few { workers ≤ most_workers }
    // The first fault is a rise.
    requires source { S.faults source.old < 2 ^ 64 - 1 }
    requires sink { K.faults sink.old < 2 ^ 64 - 1 }

    ensures promise { KeepsPromise S.left S.faults K.held K.faults source.old source.new
        sink.old sink.new (IsCompleteOutcome order) (IsAccepted order) SaysRead result }
    ensures no_words { result ≡ Status.Words → ⊥ }
{
    form_job(rt, alloc, Form::Text, order, workers, source, sink, gate)
}

/// `complete-json`: as `complete`, with the lines and their completion in JSON.
pub fn json_job<R: Threads + Sync, S: Source, K: Sink, G: Gate>(
    rt: &R,
    alloc: Global,
    order: u32,
    workers: u32,
    source: &mut S,
    sink: &mut K,
    gate: &G,
) -> Status
    requires order { order ≤ highest_order }
    requires some { 1 ≤ workers }
    requires few { workers ≤ most_workers }
    // The first fault is a rise.
    requires source { S.faults source.old < 2 ^ 64 - 1 }
    requires sink { K.faults sink.old < 2 ^ 64 - 1 }

    ensures promise { KeepsPromise S.left S.faults K.held K.faults source.old source.new
        sink.old sink.new (IsJsonOutcome order) (IsJsonAccepted order) SaysRead result }
    ensures no_words { result ≡ Status.Words → ⊥ }
{
    form_job(rt, alloc, Form::Json, order, workers, source, sink, gate)
}

/// `theta`: reads lines and asks, completes the lines as `complete` does, and prints the answer to each ask in the last
/// order: a theta function, a product of two as a family of theta functions, or why there is none. So many workers
/// compute and answer. An ask that wants a later order is told so.
pub fn theta_job<R: Threads + Sync, S: Source, K: Sink, G: Gate>(
    rt: &R,
    alloc: Global,
    order: u32,
    workers: u32,
    source: &mut S,
    sink: &mut K,
    gate: &G,
) -> Status
    requires order { order ≤ highest_order }
    requires some { 1 ≤ workers }
    requires few { workers ≤ most_workers }
    // The first fault is a rise.
    requires source { S.faults source.old < 2 ^ 64 - 1 }
    requires sink { K.faults sink.old < 2 ^ 64 - 1 }

    ensures promise { KeepsPromise S.left S.faults K.held K.faults source.old source.new
        sink.old sink.new (IsThetaOutcome order) (IsThetaAccepted order) SaysRead result }
    ensures no_words { result ≡ Status.Words → ⊥ }
{
    form_job(rt, alloc, Form::Asks, order, workers, source, sink, gate)
}

/// Reads an input in this form, completes its lines, and prints what the form asks for.
fn form_job<R: Threads + Sync, S: Source, K: Sink, G: Gate>(
    rt: &R,
    alloc: Global,
    form: Form,
    order: u32,
    workers: u32,
    source: &mut S,
    sink: &mut K,
    gate: &G,
) -> Status
    requires order { order ≤ highest_order }
    requires some { 1 ≤ workers }
    requires few { workers ≤ most_workers }
    // The first fault is a rise.
    requires source { S.faults source.old < 2 ^ 64 - 1 }
    requires sink { K.faults sink.old < 2 ^ 64 - 1 }

    ensures promise { KeepsPromise S.left S.faults K.held K.faults source.old source.new
        sink.old sink.new (IsFormOutcome form order) (IsFormAccepted form order) SaysRead result }
    ensures no_words { result ≡ Status.Words → ⊥ }
{
    match read_input(alloc, source) {
        Ok(bytes) => {
            let bytes = bytes.as_slice();
            let answered = answer_to(rt, alloc, form, order, workers, bytes, gate);
            give_answer(sink, answered)
        }
        Err(fault) => give_fault(sink, fault),
    }
}

/// `session`: reads lines and asks, and answers these by so many readers, from 1 to 8, while so many workers complete the
/// lines order by order. Each ask names its reader. The answer to one before `settle` is in an order that is published by
/// then, and in no lower one than the same reader's answer before it; one after `settle` is answered in the last order. An
/// ask that wants a later order is told so. The gate is told of each task before a worker begins it, and of each ask before
/// its reader takes an order. It may wait for readers that are just taking an order, and keeps its promise if it returns.
pub fn session_job<R: Threads + Wait + Sync, S: Source, K: Sink, G: Gate>(
    rt: &R,
    alloc: Global,
    order: u32,
    workers: u32,
    readers: u32,
    source: &mut S,
    sink: &mut K,
    gate: &G,
) -> Status
    requires order { order ≤ highest_order }
    requires some_workers { 1 ≤ workers }
    requires few_workers { workers ≤ most_workers }
    requires some_readers { 1 ≤ readers }
    requires few_readers { readers ≤ most_readers }
    // The first fault is a rise.
    requires source { S.faults source.old < 2 ^ 64 - 1 }
    requires sink { K.faults sink.old < 2 ^ 64 - 1 }

    ensures promise { KeepsPromise S.left S.faults K.held K.faults source.old source.new
        sink.old sink.new (IsSessionOutcome order readers) (IsSessionAccepted order readers)
        SaysRead result }
    ensures no_words { result ≡ Status.Words → ⊥ }
{
    match read_input(alloc, source) {
        Ok(bytes) => {
            let bytes = bytes.as_slice();
            let answered = answer_in_session(rt, alloc, order, workers, readers, bytes, gate);
            give_answer(sink, answered)
        }
        Err(fault) => give_fault(sink, fault),
    }
}

/// `generate`: makes lines from the number, and prints how many rays their completion at order 4 has, and
/// how many terms these have. Four workers compute it. The gate is told of each task before a worker begins
/// it.
pub fn generate_job<R: Threads + Sync, K: Sink, G: Gate>(
    rt: &R,
    alloc: Global,
    number: u32,
    sink: &mut K,
    gate: &G,
) -> Status
    // The first fault is a rise.
    requires { K.faults sink.old < 2 ^ 64 - 1 }

    ensures promise { KeepsPromiseUnread K.held K.faults sink.old sink.new
        (IsGenerateOutcome number) (IsUnstopped number) result }
    ensures no_words { result ≡ Status.Words → ⊥ }
    ensures no_read { result ≡ Status.ReadFault → ⊥ }
{
    give_answer(sink, generate(rt, alloc, number, gate))
}

/// Writes what was answered; nothing where memory was wanting.
fn give_answer<K: Sink>(sink: &mut K, answered: Result<Answer, AllocError>) -> Status
    ensures { IsAnswerGiven (K.held sink.old) (K.held sink.new) (K.faults sink.old)
        (K.faults sink.new) answered result }
{
    match answered {
        Ok(answer) => give(sink, answer.status, answer.text.as_slice()),
        Err(_) => Status::Memory,
    }
}

/// Writes why the input isn't there; nothing where memory was wanting.
fn give_fault<K: Sink>(sink: &mut K, fault: InputFault) -> Status
    ensures { IsFaultGiven (K.held sink.old) (K.held sink.new) (K.faults sink.old)
        (K.faults sink.new) fault result }
{
    match fault {
        InputFault::Memory => Status::Memory,
        InputFault::Failed => give(sink, Status::ReadFault, b"fault read\n"),
        InputFault::TooLong => {
            let which = LimitKind::Bytes;
            give(sink, Status::Limit { which }, b"fault limit bytes\n")
        }
    }
}

/// Writes the text of an answer: its status, or `WriteFault` where a write failed.
fn give<K: Sink>(sink: &mut K, status: Status, text: &[u8]) -> Status
    ensures given { IsGiven (K.held sink.old) (K.held sink.new) (K.faults sink.old) (K.faults sink.new)
        status text.now result }
{
    match write_text(sink, text) {
        Ok(()) => status,
        Err(_) => Status::WriteFault,
    }
}
