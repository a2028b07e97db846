// What the table is told, and what a seat at it knows. No value of a view is made.

use std::collections::LinkedList;

/// The tasks of the order and the seats that are made.
#[derive(Clone, Copy)]
pub(crate) struct Size {
    pub tasks: u64,
    pub workers: u32,
}

pub(crate) struct View {
    pub number: u64,
    pub tasks: u64,
    pub workers: u64,
    /// The numbers that it drew, and those of the seats that were joined into it.
    pub drawn: LinkedList<u64>,
    /// It drew a number that is no task.
    pub done: bool,
    /// It was joined into the first seat.
    pub spent: bool,
    /// Of the first seat alone: how many seats were made.
    pub made: u64,
    /// Of the first seat alone: the numbers of the seats that were joined into it.
    pub joined: LinkedList<u64>,
}
