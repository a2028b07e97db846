// What a worker hands in.

ghost use Rattle.std.specs.Prelude.{◌≡◌, ℕ, true, List, map};
ghost use Rattle.order_machine.specs.declared.event.Event.{Event};
ghost use Rattle.order_machine.specs.History.{finished_by};
ghost use Rattle.joint_board.specs.Seen.{kept_of, numbers_of, tasks_drawn};
ghost use Rattle.joint_board.specs.Machine.{DrewAs};

use crate::BoardSeat;
use std::marker::Model;

/// A seat that is done, and the result of each task that it drew, with the task's number, in the order
/// in which it drew them. Contracts see the seat and the list of the numbered results.
#[derive(Drop)]
pub struct Kept<T> {
    seat: BoardSeat,
    results: Vec<(u64, T)>,
}

impl<T> Model for Kept<T> {
    ghost use Rattle.std.specs.Prelude.{◌≡◌, true};
    ghost use Rattle.joint_board.specs.Seen.{SeenKept, kept_of, numbers_of, tasks_drawn};

    ghost Value = { SeenKept T };

    ghost view = { λ k. kept_of k.seat k.results.items };

    ghost invariant = { λ k. (k.seat.done ≡ true)
        × (numbers_of k.results.items ≡ tasks_drawn k.seat) };
}

impl<T> Kept<T> {
    /// It takes no memory.
    pub fn new(seat: BoardSeat, results: Vec<(u64, T)>) -> Kept<T>
        requires done { seat.done ≡ true }
        requires results { numbers_of results.items ≡ tasks_drawn seat }
        ensures kept { result ≡ kept_of seat results.items }
        ensures machine { (w : ℕ) (b : List Event) → DrewAs seat w b →
            finished_by w seat.board.tasks b ≡ numbers_of results.items }
    {
        Kept { seat, results }
    }

    pub(crate) fn into_parts(self) -> (BoardSeat, Vec<(u64, T)>)
        ensures seat { result.0 ≡ self.seat }
        ensures results { result.1.items ≡ self.results }
        ensures done { self.seat.done ≡ true }
        ensures numbers { numbers_of self.results ≡ tasks_drawn self.seat }
    {
        (self.seat, self.results)
    }
}
