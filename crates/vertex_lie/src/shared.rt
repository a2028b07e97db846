// Elements are handed to threads.

use crate::LieElement;

fn is_shared<T: Send + Sync>(_: &T) {}

#[allow(dead_code)]
fn are_shared(h: &LieElement) {
    is_shared(h);
}
