// Workers at a board.

ghost use Rattle.std.specs.Prelude.{◌≡◌, length, IfOk, MatchResult};
ghost use Rattle.order_machine.specs.History.{draw};
ghost use Rattle.order_machine.specs.Moves.{idle, is_free, after_draw, Finishes};

use crate::Reply;
use std::alloc::{AllocError, Global};
use std::marker::Model;

/// The number that it holds, those that it finished, in the order in which it drew them, and whether it drew one that
/// is no task.
#[derive(Drop)]
pub(crate) struct Worker {
    held: Option<u64>,
    finished: Vec<u64>,
    done: bool,
}

impl Model for Worker {
    ghost use Rattle.order_machine.specs.Seen.{SeenWorker};

    ghost Value = { SeenWorker };

    ghost view = { λ w. record { held = w.held; finished = w.finished.items; done = w.done } };
}

impl Worker {
    pub(crate) fn new(alloc: Global) -> Worker
        ensures { result ≡ idle }
    {
        Worker {
            held: None,
            finished: Vec::new(alloc),
            done: false,
        }
    }

    pub(crate) fn copy(&self, alloc: Global) -> Result<Worker, AllocError>
        ensures { IfOk result (λ w. w ≡ self.now) }
    {
        Ok(Worker {
            held: self.held,
            finished: Vec::from_slice(alloc, self.finished.as_slice())?,
            done: self.done,
        })
    }

    /// Whether it may draw a number.
    pub(crate) fn is_free(&self) -> bool
        ensures { result ≡ is_free self.now }
    {
        self.held.is_none() && !self.done
    }

    pub(crate) fn is_done(&self) -> bool
        ensures { result ≡ self.now.done }
    {
        self.done
    }

    /// How many numbers it finished.
    pub(crate) fn finished(&self) -> usize
        ensures { result ≡ length self.now.finished }
    {
        self.finished.len()
    }

    /// Takes the number that it drew: holds it where it is a task, else is done.
    pub(crate) fn take(&mut self, number: u64, tasks: u64) -> Reply
        ensures worker { self.new ≡ after_draw number tasks self.old }
        ensures reply { result ≡ draw number tasks }
    {
        if number < tasks {
            self.held = Some(number);
            self.done = false;
            Reply::Drawn(number)
        } else {
            self.held = None;
            self.done = true;
            Reply::NoTask
        }
    }

    /// Finishes the number that it holds; false where it holds none.
    pub(crate) fn finish(&mut self) -> Result<bool, AllocError>
        ensures { MatchResult result
            (λ b. Finishes self.old b self.new)
            (λ _. self.new ≡ self.old) }
    {
        let Some(number) = self.held else {
            return Ok(false);
        };
        self.finished.push(number)?;
        self.held = None;
        Ok(true)
    }
}
