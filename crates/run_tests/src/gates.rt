// Runs whose workers are held by a gate: each task is begun by a worker of its own choice.

use crate::case::{ends_with, sink_of, source_of};
use crate::inputs::THREE_LINES;
use outside_io::Gate;
use scatter_run::Status;
use std::alloc::{AllocError, Global};
use std::sync::Wait;
use std::sync::atomic::{AtomicBool, AtomicU64, Ordering};
use std::test::Fail;
use std::thread::{Threads, yield_now};

/// The most turns that anyone is held.
const MOST_TURNS: u32 = 50_000_000;

/// Waits for this to be seen, for so many turns at most.
pub fn hold_until(seen: &AtomicBool) {
    for _ in 0..MOST_TURNS {
        if seen.load(Ordering::SeqCst) {
            return;
        }
        yield_now();
    }
}

/// Holds task 0 of an order until so many other tasks of it were begun.
#[derive(Drop)]
struct HoldsFirst {
    order: u32,
    others: u64,
    begun: AtomicU64,
    in_time: AtomicBool,
}

impl HoldsFirst {
    fn new(order: u32, others: u64) -> HoldsFirst {
        HoldsFirst {
            order,
            others,
            begun: AtomicU64::new(0),
            in_time: AtomicBool::new(false),
        }
    }

    /// Whether the other tasks were begun while task 0 was held.
    fn came_in_time(&self) -> bool {
        self.in_time.load(Ordering::SeqCst)
    }

    fn hold(&self) {
        for _ in 0..MOST_TURNS {
            if self.begun.load(Ordering::SeqCst) >= self.others {
                self.in_time.store(true, Ordering::SeqCst);
                return;
            }
            yield_now();
        }
    }
}

impl Gate for HoldsFirst {
    fn at_task(&self, _worker: u32, order: u32, task: u64) {
        if order != self.order {
            return;
        }
        if task == 0 {
            self.hold();
        } else {
            self.begun.fetch_add(1, Ordering::SeqCst);
        }
    }

    fn at_answer(&self, _reader: u32, _query: u32) {}
}

/// Whether the others of these tasks of the order are begun by one of two workers while the other worker
/// is held at task 0.
fn come_in_time<R: Threads + Wait + Sync>(
    rt: &R,
    command: (Global, &str),
    order: u32,
    others: u64,
) -> Result<bool, AllocError> {
    let gate = HoldsFirst::new(order, others);
    let mut source = source_of(command.0, THREE_LINES, 0)?;
    let mut sink = sink_of(command.0, 0)?;
    let done = ends_with(rt, command, &mut source, &mut sink, (&gate, Status::Done))?;
    Ok(done && gate.came_in_time())
}

#[test]
fn two_workers_share_an_order(rt: HostRuntime) -> Result<(), Fail> {
    let alloc = rt.alloc();
    let one = come_in_time(&rt, (alloc, "complete 2 2"), 2, 1)?;
    assert!(rt; one);
    Ok(())
}

#[test]
fn a_free_worker_draws_all_other_tasks(rt: HostRuntime) -> Result<(), Fail> {
    let alloc = rt.alloc();
    let two = come_in_time(&rt, (alloc, "complete 3 2"), 3, 2)?;
    assert!(rt; two);
    Ok(())
}
