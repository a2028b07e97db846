//! What a program reads from and writes to, with a count of faults, and the gate that is told of its
//! steps. Contracts see a source as the bytes that are left, a sink as the bytes that it holds, each
//! where it tells them; a failure comes only where the count of faults rose in that call.
#![tactic(auto)]

ghost use Rattle.std.specs.Prelude.{◌≡◌, ◌<◌, ◌≤◌, ℕ, List, Option, length, IfOk, IsErr, OnErr};
ghost use Rattle.outside_io.specs.Memory.{counted};
ghost use Rattle.outside_io.specs.Outside.{HasCause, GivesWhereTold, TakesWhereTold, KeepsWhereTold};

mod memory;
mod standard;
mod sure;

pub use memory::{MemSink, MemSource};
pub use standard::{StdSink, StdSource};
pub use sure::{SureSink, SureSource};

/// A read or a write failed. Its source or sink has counted the fault.
#[derive(Clone, Copy, Debug, PartialEq, Eq)]
pub struct Failed;

/// Counts a fault, up to the end of the count, and answers it.
fn fail(faults: &mut u64) -> Result<usize, Failed>
    ensures answer { IsErr result }
    ensures counted { faults.new ≡ counted faults.old }
    ensures cause { HasCause faults.old faults.new result }
{
    *faults = faults.saturating_add(1);
    Err(Failed)
}

/// Bytes to be read.
pub trait Source {
    /// The bytes still to be read, where the source tells them.
    ghost left: { Self → Option (List ℕ) };

    /// How often a read has failed: a count that never falls and ends at 2^64 - 1.
    ghost faults: { Self → ℕ };

    /// Reads the next bytes to the front of `into` and gives their number, which is 0 only at the end
    /// where the source tells it.
    ///
    /// # Errors
    /// `Failed`, where the count of faults rose in this call or stands at its end; then nothing was
    /// taken from what is left where the source tells it.
    fn read(&mut self, into: &mut [u8]) -> Result<usize, Failed>
        requires { 0 < length into.old }
        ensures within { IfOk result (λ n. n ≤ length into.new) }
        ensures bytes { IfOk result (λ n. GivesWhereTold (left self.old) (left self.new) into.new n) }
        ensures unchanged { OnErr result (KeepsWhereTold (left self.old) (left self.new)) }
        ensures cause { HasCause (faults self.old) (faults self.new) result };
}

/// Takes bytes.
pub trait Sink {
    /// The bytes taken, where the sink tells them.
    ghost held: { Self → Option (List ℕ) };

    /// How often a write has failed: a count that never falls and ends at 2^64 - 1.
    ghost faults: { Self → ℕ };

    /// Appends the first bytes of the piece, at least one, and gives their number.
    ///
    /// # Errors
    /// `Failed`, where the count of faults rose in this call or stands at its end; then nothing was
    /// appended where the sink tells. To take nothing counts as a fault.
    fn write(&mut self, piece: &[u8]) -> Result<usize, Failed>
        requires { 0 < length piece.now }
        ensures within { IfOk result (λ n. n ≤ length piece.now) }
        ensures some { IfOk result (λ n. 0 < n) }
        ensures bytes { IfOk result (λ n. TakesWhereTold (held self.old) (held self.new) piece.now n) }
        ensures unchanged { OnErr result (KeepsWhereTold (held self.old) (held self.new)) }
        ensures cause { HasCause (faults self.old) (faults self.new) result };
}

/// Is told of each task and each answer before it is begun, so that a caller can hold a worker there.
pub trait Gate: Sync {
    /// Called after the task was claimed and before it is computed. `order` is the order that is being
    /// computed; workers and tasks are counted from 0.
    fn at_task(&self, worker: u32, order: u32, task: u64);

    /// Called before the order is pinned for that query. Readers and queries are counted from 1.
    fn at_answer(&self, reader: u32, query: u32);
}

/// A gate that holds nobody.
#[derive(Clone, Copy, Debug, Default, PartialEq, Eq)]
pub struct OpenGate;

impl Gate for OpenGate {
    fn at_task(&self, _worker: u32, _order: u32, _task: u64) {}

    fn at_answer(&self, _reader: u32, _query: u32) {}
}
