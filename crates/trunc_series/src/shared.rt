// Series are handed to threads.

use crate::{Majorant, Series};

fn is_shared<T: Send + Sync>(_: &T) {}

#[allow(dead_code)]
fn are_shared(f: &Series, m: &Majorant) {
    is_shared(f);
    is_shared(m);
}
