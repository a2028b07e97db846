// The board of an order.

ghost use Rattle.std.specs.Prelude.{◌≡◌, ◌<◌, ◌≤◌, length, true, false, IfOk, MatchOption, MatchResult};
ghost use Rattle.limits.specs.Limits.{most_workers};
ghost use Rattle.order_machine.specs.History.{draw, tasks_end};
ghost use Rattle.order_machine.specs.Moves.{is_free, is_finished, new_board, claimed, worker_at, FinishesAt};

use crate::Reply;
use crate::worker::Worker;
use std::alloc::{AllocError, Global};
use std::marker::Model;

/// How many tasks the order has, the number that is drawn next, and its workers.
#[derive(Drop)]
pub(crate) struct Board {
    tasks: u64,
    next: u64,
    workers: Vec<Worker>,
}

impl Model for Board {
    ghost use Rattle.order_machine.specs.Seen.{SeenBoard};
    ghost use Rattle.order_machine.specs.Moves.{CountsFit, seen_board};

    ghost Value = { SeenBoard };

    ghost view = { λ b. seen_board b.tasks b.next b.workers.items };

    ghost invariant = { λ b. CountsFit b.tasks b.next b.workers.items };
}

impl Board {
    /// A board of so many tasks, none of which was drawn.
    pub(crate) fn new(alloc: Global, tasks: u64, workers: u32) -> Result<Board, AllocError>
        requires tasks { tasks < tasks_end }
        requires workers { workers ≤ most_workers }
        ensures { IfOk result (λ b. b ≡ new_board tasks workers) }
    {
        let mut idle = Vec::with_capacity(alloc, workers as usize)?;
        for _ in 0..workers {
            idle.push(Worker::new(alloc))?;
        }
        Ok(Board {
            tasks,
            next: 0,
            workers: idle,
        })
    }

    pub(crate) fn copy(&self, alloc: Global) -> Result<Board, AllocError>
        ensures { IfOk result (λ b. b ≡ self.now) }
    {
        let mut workers = Vec::with_capacity(alloc, self.workers.len())?;
        for worker in &self.workers {
            workers.push(worker.copy(alloc)?)?;
        }
        Ok(Board {
            tasks: self.tasks,
            next: self.next,
            workers,
        })
    }

    /// The worker draws the next number, where it may.
    pub(crate) fn claim(&mut self, worker: usize) -> Option<Reply>
        requires { worker < length self.old.workers }
        ensures { MatchOption result
            ((is_free (worker_at self.old worker) ≡ false) × (self.new ≡ self.old))
            (λ r. (is_free (worker_at self.old worker) ≡ true) × (self.new ≡ claimed self.old worker)
            × (r ≡ draw self.old.next self.old.tasks)) }
    {
        let drawer = &mut self.workers[worker];
        if !drawer.is_free() {
            return None;
        }
        let drawn = self.next;
        self.next += 1;
        Some(drawer.take(drawn, self.tasks))
    }

    /// The worker finishes the number that it holds; false where it holds none.
    pub(crate) fn finish(&mut self, worker: usize) -> Result<bool, AllocError>
        requires { worker < length self.old.workers }
        ensures { MatchResult result
            (λ b. FinishesAt self.old worker b self.new)
            (λ _. self.new ≡ self.old) }
    {
        let finished = self.workers[worker].finish()?;
        Ok(finished)
    }

    /// Whether all workers are done and finished all tasks.
    pub(crate) fn is_finished(&self) -> bool
        ensures { result ≡ is_finished self.now }
    {
        let mut left = self.tasks;
        for worker in &self.workers {
            let finished = worker.finished() as u64;
            if !worker.is_done() || finished > left {
                return false;
            }
            left -= finished;
        }
        left == 0
    }
}
