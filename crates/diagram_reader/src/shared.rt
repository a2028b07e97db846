// Readers are handed to threads.

use crate::DiagramReader;

fn is_sent<T: Send>(_: &T) {}

#[allow(dead_code)]
fn are_sent(reader: &DiagramReader) {
    is_sent(reader);
}
