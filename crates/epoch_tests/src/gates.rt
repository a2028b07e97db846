// A session whose reader is held by a gate: it answers while the orders are computed.

ghost use Rattle.std.specs.Prelude.{◌≡◌, IfOk, length};
ghost use Rattle.limits.specs.Limits.{highest_order};
ghost use Rattle.scatter_diagram.specs.Listed.{AreLines};

use crate::asks::{is_theta, theta_of};
use outside_io::Gate;
use sample_walls::monomials::{ONE, T3_X, X, Y};
use sample_walls::{line, place};
use scatter_diagram::{Initial, Wall};
use session_readers::hold_session;
use std::alloc::Global;
use std::sync::Wait;
use std::sync::atomic::{AtomicBool, Ordering};
use std::test::Fail;
use std::thread::{Threads, yield_now};
use trunc_series::Exp;

/// The most turns that anyone is held.
const MOST_TURNS: u32 = 50_000_000;

/// Holds the first ask until a task of order 2 was begun, and that task until the second ask is reached.
#[derive(Drop)]
struct HoldsOrderTwo {
    begun: AtomicBool,
    reached: AtomicBool,
}

fn hold_until(seen: &AtomicBool) {
    for _ in 0..MOST_TURNS {
        if seen.load(Ordering::SeqCst) {
            return;
        }
        yield_now();
    }
}

impl Gate for HoldsOrderTwo {
    fn at_task(&self, _worker: u32, order: u32, _task: u64) {
        if order == 2 {
            self.begun.store(true, Ordering::SeqCst);
            hold_until(&self.reached);
        }
    }

    fn at_answer(&self, _reader: u32, query: u32) {
        if query == 1 {
            hold_until(&self.begun);
        } else {
            self.reached.store(true, Ordering::SeqCst);
        }
    }
}

// The lines along (1, 0) through the origin and (0, 1), and along (0, 1) through the origin.
fn three_lines(alloc: Global) -> Result<Vec<Wall>, Fail>
    ensures lines { IfOk result (λ ws. AreLines highest_order ws.items) }
    ensures count { IfOk result (λ ws. length ws.items ≡ 3) }
{
    let mut lines = Vec::new(alloc);
    lines.push(line(alloc, 0, 0, 1, 0, &[(ONE, 1), (X, 1)])?)?;
    lines.push(line(alloc, 0, 1, 1, 0, &[(ONE, 1), (T3_X, 1)])?)?;
    lines.push(line(alloc, 0, 0, 0, 1, &[(ONE, 1), (Y, 1)])?)?;
    Ok(lines)
}

// Whether the first ask is answered in order 1, while order 2 is computed.
fn order_one_is_answered<R: Threads + Wait + Sync>(rt: &R, alloc: Global) -> Result<bool, Fail> {
    let lines = Initial::new(3, three_lines(alloc)?);
    let query = theta_of(Exp { a: 0, b: 0 }, place(2, 2)?, None);
    let asks = [(1, query), (1, query)];
    let gate = HoldsOrderTwo {
        begun: AtomicBool::new(false),
        reached: AtomicBool::new(false),
    };
    let held = hold_session(rt, alloc, &lines, 2, 2, 1, &asks, None, &gate)?;
    let [first, second] = held.answers.as_slice() else {
        return Ok(false);
    };
    let one = first.order == 1 && is_theta(first, [(ONE, 1)].as_slice());
    Ok(held.published == 2 && one && second.order >= 1 && is_theta(second, [(ONE, 1)].as_slice()))
}

#[test]
fn a_reader_answers_while_an_order_is_computed(rt: HostRuntime) -> Result<(), Fail> {
    let alloc = rt.alloc();
    assert!(rt; order_one_is_answered(&rt, alloc)?);
    Ok(())
}
