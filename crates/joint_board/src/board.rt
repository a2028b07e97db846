// The board.

ghost use Rattle.std.specs.Prelude.{◌≡◌, ◌<◌, ◌≤◌, ℕ, true, false, List, All, IfOk, MatchOption, Some};
ghost use Rattle.std.specs.List.{range_with_len};
ghost use Rattle.limits.specs.Limits.{most_workers};
ghost use Rattle.order_machine.specs.declared.event.Event.{Event};
ghost use Rattle.order_machine.specs.History.{draw, may_publish, tasks_end};
ghost use Rattle.joint_board.specs.Seen.{draws_left, new_seats, seat_numbers, results_of, IsDrawn, AreInOrder};
ghost use Rattle.joint_board.specs.Machine.{reply_of, AllDrewAs};

use crate::gathering::{no_results, place_all, take_all};
use crate::seat::all_seats;
use crate::steps::{Tally, new_table};
use crate::view::Size;
use crate::{BoardSeat, Kept};
use std::alloc::{AllocError, Global};
use std::marker::Model;

/// The tasks of an order, numbered from 0, and how many numbers were drawn. Contracts see which board
/// it is, the number of its tasks, below 2^32, and that of its seats, from 1 to 16.
#[derive(Drop)]
pub struct Board {
    alloc: Global,
    table: Tally,
    tasks: u64,
}

impl Model for Board {
    ghost use Rattle.joint_board.specs.Seen.{ShownBoard};
    ghost use Rattle.joint_board.specs.Rule.{shown_board, IsOpen};

    ghost Value = { ShownBoard };

    ghost view = { λ b. shown_board b.table.shared.table_id b.table.shared.key };

    ghost invariant = { λ b. IsOpen b.table.shared.table_id b.table.shared.key b.tasks };
}

impl Board {
    /// A board of so many tasks, and a seat for each worker, in the order of their numbers from 0. Each
    /// seat beyond the first one costs one load.
    pub fn begin(
        alloc: Global,
        tasks: u64,
        workers: u32,
    ) -> Result<(Board, Vec<BoardSeat>), AllocError>
        requires tasks { tasks < tasks_end }
        requires some { 1 ≤ workers }
        requires few { workers ≤ most_workers }
        ensures board { IfOk result (λ r. (r.0.tasks ≡ tasks) × (r.0.workers ≡ workers)) }
        ensures seats { IfOk result (λ r. r.1.items ≡ new_seats r.0) }
    {
        let (table, first) = new_table(alloc, Size { tasks, workers })?;
        let seats = all_seats(&table, alloc, first, workers)?;
        let board = Board {
            alloc,
            table,
            tasks,
        };
        Ok((board, seats))
    }

    /// Draws the next number for a seat of this board that isn't done: the number of a task, or none,
    /// and then the seat is done. The number is above each one that the seat drew before. One atomic
    /// step; it takes no memory.
    pub fn claim(&self, seat: &mut BoardSeat) -> Option<u64>
        requires board { seat.old.board ≡ self.now }
        requires idle { seat.old.done ≡ false }
        ensures drawn { MatchOption result
            ((n : ℕ) × (self.now.tasks ≤ n) × IsDrawn seat.old n seat.new)
            (λ n. (n < self.now.tasks) × IsDrawn seat.old n seat.new) }
        ensures fewer { draws_left seat.new < draws_left seat.old }
        ensures machine { (n : ℕ) × (reply_of result ≡ draw n self.now.tasks)
            × IsDrawn seat.old n seat.new }
    {
        let number = seat.draw(&self.table, self.tasks);
        if number < self.tasks {
            Some(number)
        } else {
            None
        }
    }

    /// The results of the tasks 0, 1, .. in this order, each once, from what the workers of all seats
    /// kept, in the order of the seats' numbers. All memory is taken before a seat is joined; where it
    /// is wanting, board, seats and results are dropped.
    pub fn gather<T: Drop>(self, kept: Vec<Kept<T>>) -> Result<Vec<T>, AllocError>
        requires board { All (λ k. k.seat.board ≡ self) kept.items }
        requires seats { seat_numbers kept.items ≡ range_with_len 0 self.workers }
        ensures results { IfOk result
            (λ r. AreInOrder self.tasks (results_of kept.items) r.items) }
        ensures machine { IfOk result
            (λ _. (b : List Event) → AllDrewAs kept.items b →
            may_publish self.workers (Some (self.tasks, b)) ≡ true) }
    {
        let slots = no_results(self.alloc, self.tasks)?;
        let results = Vec::with_capacity(self.alloc, self.tasks as usize)?;
        let slots = place_all(&self.table, kept, slots);
        take_all(slots, results)
    }
}
