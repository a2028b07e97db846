// The state, and its steps.

ghost use Rattle.std.specs.Prelude.{◌≡◌, ◌<◌, ◌≤◌, [], length, IfOk, MatchResult};
ghost use Rattle.limits.specs.Limits.{highest_order, most_workers};
ghost use Rattle.order_machine.specs.declared.event.Event.TheVariants.{Begin, Claim, Finish, Publish, Tell, Learn, Pin, Ask};
ghost use Rattle.order_machine.specs.History.{IsNamed, tasks_end};
ghost use Rattle.order_machine.specs.Stands.{Stands};
ghost use Rattle.order_machine.specs.Steps.{IsStep, IsRefused, AreOfOneSize};
ghost use Rattle.order_machine.specs.Moves.{Moves, Stays, new_state};

use crate::board::Board;
use crate::reader::Reader;
use crate::{Event, MachineFault, Reply};
use std::alloc::{AllocError, Global};
use std::marker::Model;

/// A condition that fails.
const BARRED: MachineFault = MachineFault::NotEnabled { place: 0 };

/// The orders up to a goal, the board of the next one, and what readers know.
#[derive(Drop)]
pub struct State {
    alloc: Global,
    goal: u32,
    workers: u32,
    newest: u32,
    board: Option<Board>,
    readers: Vec<Reader>,
}

impl Model for State {
    ghost use Rattle.order_machine.specs.Seen.{SeenState, seen_state};
    ghost use Rattle.order_machine.specs.Moves.{IsProperState};

    ghost Value = { SeenState };

    ghost view = { λ s. seen_state s.goal s.workers s.newest s.board s.readers.items };

    ghost invariant = { λ s. IsProperState (seen_state s.goal s.workers s.newest s.board s.readers.items) };
}

impl State {
    /// No order is published, no board is up, and no reader was told anything. The goal is the highest order that is
    /// published; workers and readers are so many.
    pub fn new(alloc: Global, goal: u32, workers: u32, readers: u32) -> Result<State, AllocError>
        requires goal { goal ≤ highest_order }
        requires workers { workers ≤ most_workers }
        ensures state { IfOk result (λ s. s ≡ new_state goal workers readers) }
        ensures stands { IfOk result (λ s. Stands [] s) }
    {
        let new = Reader {
            told: 0,
            seen: 0,
            pinned: None,
        };
        Ok(State {
            alloc,
            goal,
            workers,
            newest: 0,
            board: None,
            readers: vec![in alloc; new; readers as usize]?,
        })
    }

    pub fn copy(&self) -> Result<State, AllocError>
        ensures { IfOk result (λ s. s ≡ self.now) }
    {
        let board = match &self.board {
            Some(board) => Some(board.copy(self.alloc)?),
            None => None,
        };
        Ok(State {
            alloc: self.alloc,
            goal: self.goal,
            workers: self.workers,
            newest: self.newest,
            board,
            readers: Vec::from_slice(self.alloc, self.readers.as_slice())?,
        })
    }

    /// Does what the event asks, or leaves the state as it was: `NotEnabled`, with the place 0, exactly where the condition
    /// of the event fails.
    pub fn step(&mut self, event: &Event) -> Result<Reply, MachineFault>
        requires named { IsNamed self.old.workers (length self.old.readers) event.now }
        ensures sizes { AreOfOneSize self.old self.new }
        ensures step { MatchResult result
            (λ r. IsStep self.old event.now r self.new)
            (λ f. (self.new ≡ self.old) × IsRefused self.old event.now f) }
    {
        self.act(event)
    }

    pub(crate) fn no_replies(&self) -> Vec<Reply>
        ensures { result.items ≡ [] }
    {
        Vec::new(self.alloc)
    }

    /// The table of the machine.
    fn act(&mut self, event: &Event) -> Result<Reply, MachineFault>
        requires named { IsNamed self.old.workers (length self.old.readers) event.now }
        ensures { MatchResult result
            (λ r. Moves self.old event.now r self.new)
            (λ f. Stays self.old event.now f self.new) }
    {
        match *event {
            Event::Begin { tasks } => self.begin(tasks),
            Event::Claim { worker } => self.claim(worker),
            Event::Finish { worker } => self.finish(worker),
            Event::Publish => self.publish(),
            Event::Tell { reader } => Ok(self.tell(reader)),
            Event::Learn { reader } => Ok(self.learn(reader)),
            Event::Pin { reader } => Ok(self.pin(reader)),
            Event::Ask { reader, least } => self.ask(reader, least),
        }
    }

    fn begin(&mut self, tasks: u64) -> Result<Reply, MachineFault>
        requires { tasks < tasks_end }
        ensures { MatchResult result
            (λ r. Moves self.old (Begin tasks) r self.new)
            (λ f. Stays self.old (Begin tasks) f self.new) }
    {
        if self.board.is_some() || self.newest >= self.goal {
            return Err(BARRED);
        }
        self.board = Some(Board::new(self.alloc, tasks, self.workers)?);
        Ok(Reply::Done)
    }

    fn claim(&mut self, worker: u32) -> Result<Reply, MachineFault>
        requires { worker < self.old.workers }
        ensures { MatchResult result
            (λ r. Moves self.old (Claim worker) r self.new)
            (λ f. Stays self.old (Claim worker) f self.new) }
    {
        let Some(board) = &mut self.board else {
            return Err(BARRED);
        };
        let Some(reply) = board.claim(worker as usize) else {
            return Err(BARRED);
        };
        Ok(reply)
    }

    fn finish(&mut self, worker: u32) -> Result<Reply, MachineFault>
        requires { worker < self.old.workers }
        ensures { MatchResult result
            (λ r. Moves self.old (Finish worker) r self.new)
            (λ f. Stays self.old (Finish worker) f self.new) }
    {
        let Some(board) = &mut self.board else {
            return Err(BARRED);
        };
        if !board.finish(worker as usize)? {
            return Err(BARRED);
        }
        Ok(Reply::Done)
    }

    fn publish(&mut self) -> Result<Reply, MachineFault>
        ensures { MatchResult result
            (λ r. Moves self.old Publish r self.new)
            (λ f. Stays self.old Publish f self.new) }
    {
        let Some(board) = &self.board else {
            return Err(BARRED);
        };
        if !board.is_finished() {
            return Err(BARRED);
        }
        self.newest += 1;
        self.board = None;
        Ok(Reply::Published(self.newest))
    }

    fn tell(&mut self, reader: u32) -> Reply
        requires { reader < length self.old.readers }
        ensures { Moves self.old (Tell reader) result self.new }
    {
        self.readers[reader as usize].told = self.newest;
        Reply::Done
    }

    fn learn(&mut self, reader: u32) -> Reply
        requires { reader < length self.old.readers }
        ensures { Moves self.old (Learn reader) result self.new }
    {
        let learner = &mut self.readers[reader as usize];
        learner.seen = learner.seen.max(learner.told);
        Reply::Done
    }

    fn pin(&mut self, reader: u32) -> Reply
        requires { reader < length self.old.readers }
        ensures { Moves self.old (Pin reader) result self.new }
    {
        let pinner = &mut self.readers[reader as usize];
        pinner.seen = self.newest;
        pinner.pinned = Some(self.newest);
        Reply::Pinned(self.newest)
    }

    fn ask(&self, reader: u32, least: u32) -> Result<Reply, MachineFault>
        requires { reader < length self.now.readers }
        ensures { MatchResult result
            (λ r. Moves self.now (Ask reader least) r self.now)
            (λ f. Stays self.now (Ask reader least) f self.now) }
    {
        let Some(order) = self.readers[reader as usize].pinned else {
            return Err(BARRED);
        };
        if order < least {
            return Ok(Reply::NotYet(order));
        }
        Ok(Reply::Answered(order))
    }
}
