// Readers, and what they are told and have pinned, are handed to threads.

use crate::{EpochReader, Pinned, Told};

fn is_sent<T: Send>(_: &T) {}

#[allow(dead_code)]
fn are_sent(reader: &EpochReader, pinned: &Pinned, told: &Told) {
    is_sent(reader);
    is_sent(pinned);
    is_sent(told);
}
