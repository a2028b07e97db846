// Boards are shared by threads, and seats are handed to them.

use crate::{Board, BoardSeat, Kept};

fn is_shared<T: Send + Sync>(_: &T) {}

fn is_sent<T: Send>(_: &T) {}

#[allow(dead_code)]
fn are_shared<T: Send>(board: &Board, seat: &BoardSeat, kept: &Kept<T>) {
    is_shared(board);
    is_sent(seat);
    is_sent(kept);
}
