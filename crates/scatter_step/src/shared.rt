// Completions are handed to threads.

use crate::{Completed, Outcome};

fn is_shared<T: Send + Sync>(_: &T) {}

#[allow(dead_code)]
fn are_shared(c: &Completed, o: &Outcome) {
    is_shared(c);
    is_shared(o);
}
