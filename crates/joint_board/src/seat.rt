// A worker's seat at the board.

ghost use Rattle.std.specs.Prelude.{◌≡◌, ◌<◌, ◌≤◌, [], false, map, IfOk};
ghost use Rattle.std.specs.List.{range_with_len};
ghost use Rattle.limits.specs.Limits.{most_workers};
ghost use Rattle.joint_board.specs.Seen.{IsDrawn, draws_left, new_seats};
ghost use Rattle.joint_board.specs.Rule.{IsSeat, shown_board, first_view, seen_seat};

use crate::steps::{Tally, draw, split};
use crate::view::View;
use atomic_table::Seat;
use std::alloc::{AllocError, Global};
use std::marker::Model;

/// A place at a board, from which one worker draws numbers. Contracts see its board, its number, the
/// numbers that it drew, and whether it is done: whether one of these is no task.
#[derive(Drop)]
pub struct BoardSeat {
    seat: Seat<(), View>,
    number: u32,
    done: bool,
}

impl Model for BoardSeat {
    ghost use Rattle.std.specs.Prelude.{◌≡◌};
    ghost use Rattle.joint_board.specs.Seen.{SeenSeat};
    ghost use Rattle.joint_board.specs.Rule.{IsSeat, seen_seat};

    ghost Value = { SeenSeat };

    ghost view = { λ s. seen_seat s.seat.table_id s.seat.me.0 };

    ghost invariant = { λ s. IsSeat s.seat.me × (s.seat.me.0.number ≡ s.number)
        × (s.seat.me.0.done ≡ s.done) };
}

impl BoardSeat {
    pub(crate) fn new(seat: Seat<(), View>, number: u32) -> BoardSeat
        requires seat { IsSeat seat.me }
        requires number { seat.me.0.number ≡ number }
        requires idle { seat.me.0.done ≡ false }
        ensures { result ≡ seen_seat seat.table_id seat.me.0 }
    {
        BoardSeat {
            seat,
            number,
            done: false,
        }
    }

    pub(crate) fn into_seat(self) -> Seat<(), View>
        ensures seat { IsSeat result.me }
        ensures seen { seen_seat result.table_id result.me.0 ≡ self }
    {
        self.seat
    }

    /// Draws the next number of its board, which has so many tasks.
    pub(crate) fn draw(&mut self, table: &Tally, tasks: u64) -> u64
        requires table { (self.old.board.table ≡ table.now.shared.table_id)
            × (table.now.shared.table_id.words ≡ 1) }
        requires tasks { self.old.board.tasks ≡ tasks }
        requires idle { self.old.done ≡ false }
        ensures drawn { IsDrawn self.old result self.new }
        ensures fewer { draws_left self.new < draws_left self.old }
    {
        let number = draw(table, &mut self.seat);
        self.done = number >= tasks;
        number
    }

    /// Its number among the seats of its board, which are numbered from 0. It takes no memory.
    pub fn number(&self) -> u32
        ensures { result ≡ self.now.number }
    {
        self.number
    }

    /// Whether it drew a number that is no task; then it draws no other. It takes no memory.
    pub fn done(&self) -> bool
        ensures { result ≡ self.now.done }
    {
        self.done
    }
}

/// All seats of the table, by its first seat, in the order of their numbers.
pub(crate) fn all_seats(
    table: &Tally,
    alloc: Global,
    mut first: Seat<(), View>,
    workers: u32,
) -> Result<Vec<BoardSeat>, AllocError>
    requires table { (first.table_id ≡ table.now.shared.table_id)
        × (table.now.shared.table_id.words ≡ 1) }
    requires first { (first.id ≡ 0) × (first.me ≡ (first_view table.now.shared.key, [])) }
    requires workers { table.now.shared.key.workers ≡ workers }
    requires some { 1 ≤ workers }
    requires few { workers ≤ most_workers }
    ensures { IfOk result (λ seats. seats.items ≡
        new_seats (shown_board table.now.shared.table_id table.now.shared.key)) }
{
    let mut seats = Vec::with_capacity(alloc, workers as usize)?;
    for number in 1..workers {
        let seat = split(table, &mut first);
        seats.push(BoardSeat::new(seat, number))?;
    }
    seats.insert(0, BoardSeat::new(first, 0))?;
    Ok(seats)
}
