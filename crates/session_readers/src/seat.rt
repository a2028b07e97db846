// One reader of a session.

ghost use Rattle.std.specs.Prelude.{◌≡◌, ◌≤◌, false, length, vec_len, All, IfOk, MatchResult};
ghost use Rattle.limits.specs.Limits.{most_asks};
ghost use Rattle.theta_algebra.specs.Answering.{IsQuery, IsToldAnswer};
ghost use Rattle.session_readers.specs.Seats.{IsReadersSeat, IsPlaced, HasAsked, IsOneMore, IsUnanswered, IsContinued, IsFinished, IsInformed};

use broken_lines::AskFault;
use diagram_reader::DiagramReader;
use order_epochs::Told;
use outside_io::Gate;
use std::alloc::{AllocError, Global};
use theta_algebra::{Answer, Query};

/// A reader with its number, which is counted from 1, and a place for each ask so far, with its answer where the
/// ask is this reader's.
#[derive(Drop)]
pub(crate) struct Seat {
    pub(crate) number: u32,
    pub(crate) reader: DiagramReader,
    pub(crate) answers: Vec<Option<Answer>>,
}

/// Whether this is want of memory.
pub(crate) fn is_memory(answer: &Answer) -> bool
    ensures { result ≡ false → IsToldAnswer answer.now }
{
    matches!(answer.result, Err(AskFault::Memory))
}

impl Seat {
    /// Learns of an order of the store.
    pub(crate) fn learn(self, told: Told) -> Seat
        requires { told.lines ≡ self.reader.lines }
        ensures { IsInformed told.order self result }
    {
        Seat {
            number: self.number,
            reader: self.reader.learn(told),
            answers: self.answers,
        }
    }

    /// Puts what stands for the next ask to the end. It comes back as it was where memory is wanting.
    fn keep(self, place: Option<Answer>) -> Result<Seat, Seat>
        ensures { MatchResult result (IsPlaced place self) (IsUnanswered self) }
    {
        let Seat {
            number,
            reader,
            mut answers,
        } = self;
        let kept = answers.push(place).is_ok();
        let seat = Seat {
            number,
            reader,
            answers,
        };
        if kept { Ok(seat) } else { Err(seat) }
    }

    /// Answers a query in the order that is published last.
    fn ask(self, alloc: Global, query: &Query) -> (Seat, Answer)
        requires { IsQuery query.now }
        ensures { HasAsked query.now self result.0 result.1 }
    {
        let (reader, found) = self.reader.ask(alloc, query);
        let seat = Seat {
            number: self.number,
            reader,
            answers: self.answers,
        };
        (seat, found)
    }

    /// Answers an ask where it is this reader's. Asks are counted from 1 for the gate. Where memory is wanting the
    /// ask has no place yet.
    fn answer_next<G: Gate>(
        self,
        alloc: Global,
        ask: &(u32, Query),
        count: u32,
        gate: &G,
    ) -> Result<Seat, Seat>
        requires { IsQuery ask.now.1 }
        ensures { MatchResult result (IsOneMore ask.now self) (IsUnanswered self) }
    {
        if ask.0 != self.number {
            return self.keep(None);
        }
        gate.at_answer(self.number, count);
        let (seat, found) = self.ask(alloc, &ask.1);
        if is_memory(&found) {
            return Err(seat);
        }
        seat.keep(Some(found))
    }
}

/// Answers this reader's asks among the next ones, up to so many, in their order, as far as memory is found.
pub(crate) fn answer_up_to<G: Gate>(
    alloc: Global,
    mut seat: Seat,
    asks: &[(u32, Query)],
    to: usize,
    gate: &G,
) -> Seat
    requires queries { All (λ a. IsQuery a.1) asks.now }
    requires few { length asks.now ≤ most_asks }
    requires within { to ≤ length asks.now }
    requires next { vec_len seat.answers ≤ to }
    requires seat { IsReadersSeat asks.now seat }
    ensures { IsContinued asks.now to seat result }
{
    for i in seat.answers.len()..to {
        match seat.answer_next(alloc, &asks[i], i as u32 + 1, gate) {
            Ok(next) => seat = next,
            Err(stopped) => return stopped,
        }
    }
    seat
}

/// Answers the rest of this reader's asks, while no other reader takes memory.
pub(crate) fn answer_rest<G: Gate>(
    alloc: Global,
    seat: Seat,
    asks: &[(u32, Query)],
    gate: &G,
) -> Result<Seat, AllocError>
    requires queries { All (λ a. IsQuery a.1) asks.now }
    requires few { length asks.now ≤ most_asks }
    requires next { vec_len seat.answers ≤ length asks.now }
    requires seat { IsReadersSeat asks.now seat }
    ensures { IfOk result (IsFinished asks.now seat) }
{
    let seat = answer_up_to(alloc, seat, asks, asks.len(), gate);
    if seat.answers.len() < asks.len() {
        return Err(AllocError);
    }
    Ok(seat)
}
