// Diagrams are handed to threads.

use crate::{Diagram, Initial, Wall};

fn is_shared<T: Send + Sync>(_: &T) {}

#[allow(dead_code)]
fn are_shared(e: &Diagram, initial: &Initial, wall: &Wall) {
    is_shared(e);
    is_shared(initial);
    is_shared(wall);
}
