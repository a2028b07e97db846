// A reader that answers queries.

ghost use Rattle.std.specs.Prelude.{◌≡◌, ◌≤◌};
ghost use Rattle.order_epochs.specs.Seen.{learned};
ghost use Rattle.order_epochs.specs.Machine.{IsLearn};
ghost use Rattle.theta_algebra.specs.Answering.{IsQuery};
ghost use Rattle.diagram_reader.specs.Asked.{IsReplyTo, IsUnpinned};
ghost use Rattle.diagram_reader.specs.Machine.{IsMachineAsk};

use broken_lines::AskFault;
use order_epochs::{EpochReader, Told};
use std::alloc::Global;
use std::marker::Model;
use theta_algebra::{Answer, Query, answer};

/// A reader of a store that answers queries from its published orders. It may be sent to another
/// thread. Contracts see of it what they see of its reader: the lines of its store, and the greatest
/// order that it answered in or learned of.
#[derive(Drop)]
pub struct DiagramReader {
    reader: EpochReader,
}

impl Model for DiagramReader {
    ghost use Rattle.order_epochs.specs.Seen.{SeenEpoch};

    ghost Value = { SeenEpoch };

    ghost view = { λ d. d.reader };
}

/// What is answered where no order can be pinned.
fn refused(seen: u32) -> Answer
    ensures { IsUnpinned seen result }
{
    Answer {
        order: seen,
        result: Err(AskFault::Memory),
    }
}

impl DiagramReader {
    /// It takes no memory.
    pub fn new(reader: EpochReader) -> DiagramReader
        ensures { result ≡ reader }
    {
        DiagramReader { reader }
    }

    /// The greatest order that it answered in or learned of. It takes no memory.
    pub fn seen(&self) -> u32
        ensures { result ≡ self.now.order }
    {
        self.reader.seen()
    }

    /// Learns of an order of its store. It takes no memory.
    pub fn learn(self, told: Told) -> DiagramReader
        requires store { told.lines ≡ self.lines }
        ensures seen { result ≡ learned self told.order }
        ensures machine { IsLearn self.order told.order result.order }
    {
        DiagramReader {
            reader: self.reader.learn(told),
        }
    }

    /// Answers a query, whose exponents are from -64 to 64, and waits for nobody. It pins the order
    /// that was published last, answers in that order's diagram, which is lent, and gives the order
    /// back. The answer has the pinned order, which is at least the greatest seen before, and the theta
    /// function or the family of the product in the one completion of the store's lines at that order,
    /// or the first fault: `NotYet` with the pinned order exactly where the query wants a later one.
    /// Where no order can be pinned, as one owner more is refused or the store is ended, the fault is
    /// `Memory`, with the order that was seen.
    pub fn ask(self, alloc: Global, query: &Query) -> (DiagramReader, Answer)
        requires { IsQuery query.now }
        ensures store { result.0.lines ≡ self.lines }
        ensures seen { result.0.order ≡ result.1.order }
        ensures order { self.order ≤ result.1.order }
        ensures answer { IsReplyTo self query.now result.1 }
        ensures machine { IsMachineAsk self.order query.now.least result.1 }
    {
        match self.reader.pin() {
            Ok(pinned) => {
                let found = answer(alloc, pinned.completed().diagram(), query);
                let reader = pinned.back();
                (DiagramReader { reader }, found)
            }
            Err(reader) => {
                let found = refused(reader.seen());
                (DiagramReader { reader }, found)
            }
        }
    }
}
