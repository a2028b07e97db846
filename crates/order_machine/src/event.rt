// The events of the machine, and what it replies to them.

/// Workers and readers are numbered from 0.
#[derive(Clone, Copy, Debug, PartialEq, Eq)]
pub enum Event {
    /// A board with so many tasks is put up for the next order.
    Begin { tasks: u64 },
    /// The worker draws the next number of the board.
    Claim { worker: u32 },
    /// The worker has finished the task that it holds.
    Finish { worker: u32 },
    /// The next order is published, and the board is taken down.
    Publish,
    /// The reader is told the newest order.
    Tell { reader: u32 },
    /// The reader learns what it was told last.
    Learn { reader: u32 },
    /// The reader pins the newest order.
    Pin { reader: u32 },
    /// The reader asks something of the order that it pinned, which is to be at least `least`.
    Ask { reader: u32, least: u32 },
}

#[derive(Clone, Copy, Debug, PartialEq, Eq)]
pub enum Reply {
    Done,
    /// The number of the task that the worker holds now.
    Drawn(u64),
    /// No task is left, and the worker is done.
    NoTask,
    /// The order that was published.
    Published(u32),
    /// The order that was pinned.
    Pinned(u32),
    /// The pinned order, which answers the ask.
    Answered(u32),
    /// The pinned order, which is below the least one that was asked for.
    NotYet(u32),
}
