// Seats at a board, in turns that one thread takes.

ghost use Rattle.std.specs.Prelude.{◌≡◌, ◌<◌, false, true, OnOk, IfOk};
ghost use Rattle.joint_board.specs.Seen.{draws_left, numbers_of, tasks_drawn};

use joint_board::{Board, BoardSeat, Kept};
use std::alloc::Global;
use std::test::Fail;

const MAX: u64 = u64::MAX;

/// One claim. The result of a task is its number, counted from the largest one down.
fn draw_one(
    board: &Board,
    seat: &mut BoardSeat,
    results: &mut Vec<(u64, u64)>,
) -> Result<bool, Fail>
    requires board { seat.old.board ≡ board.now }
    requires idle { seat.old.done ≡ false }
    requires results { numbers_of results.old.items ≡ tasks_drawn seat.old }
    ensures seat { (seat.new.board ≡ seat.old.board) × (seat.new.number ≡ seat.old.number) }
    ensures fewer { draws_left seat.new < draws_left seat.old }
    ensures results { OnOk result (numbers_of results.new.items ≡ tasks_drawn seat.new) }
{
    let Some(task) = board.claim(seat) else {
        return Ok(false);
    };
    results.push((task, MAX - task))?;
    Ok(true)
}

/// All claims that are left to the seat.
fn keep(board: &Board, mut seat: BoardSeat, mut results: Vec<(u64, u64)>) -> Result<Kept<u64>, Fail>
    requires board { seat.board ≡ board.now }
    requires results { numbers_of results.items ≡ tasks_drawn seat }
    ensures { IfOk result (λ k. (k.seat.board ≡ seat.board) × (k.seat.number ≡ seat.number)) }
{
    while !seat.done() {
        draw_one(board, &mut seat, &mut results)?;
    }
    Ok(Kept::new(seat, results))
}

fn two_seats_draw_two_tasks(alloc: Global) -> Result<bool, Fail> {
    let (board, mut seats) = Board::begin(alloc, 2, 2)?;
    let mut second = seats.remove(1);
    let mut first = seats.remove(0);
    let Some(a) = board.claim(&mut second) else {
        return Ok(false);
    };
    let Some(b) = board.claim(&mut first) else {
        return Ok(false);
    };
    let none = board.claim(&mut first).is_none() && board.claim(&mut second).is_none();
    Ok(a == 0 && b == 1 && none && first.done() && second.done())
}

fn no_task_is_drawn_of_none(alloc: Global) -> Result<bool, Fail> {
    let (board, mut seats) = Board::begin(alloc, 0, 1)?;
    let mut seat = seats.remove(0);
    Ok(board.claim(&mut seat).is_none() && seat.done())
}

fn results_come_in_order(alloc: Global) -> Result<bool, Fail> {
    let (board, mut seats) = Board::begin(alloc, 4, 2)?;
    let mut second = seats.remove(1);
    let first = seats.remove(0);
    let mut begun = Vec::new(alloc);
    let some = draw_one(&board, &mut second, &mut begun)?;
    let early = keep(&board, first, Vec::new(alloc))?;
    let late = keep(&board, second, begun)?;
    let mut kept = Vec::new(alloc);
    kept.push(early)?;
    kept.push(late)?;
    let results = board.gather(kept)?;
    Ok(some && results.as_slice() == [MAX, MAX - 1, MAX - 2, MAX - 3].as_slice())
}

#[test]
fn seats_draw_and_results_come_in_order(rt: HostRuntime) -> Result<(), Fail> {
    let alloc = rt.alloc();
    assert!(rt; two_seats_draw_two_tasks(alloc)?);
    assert!(rt; no_task_is_drawn_of_none(alloc)?);
    assert!(rt; results_come_in_order(alloc)?);
    Ok(())
}
