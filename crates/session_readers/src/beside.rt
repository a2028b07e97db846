// Two calls at once.

use std::thread::{Threads, join};

/// Calls `f` at a job, in a thread of its own, or last where none can be started, and `g` in this one.
///
/// The job is no capture of `f`, so that of a type whose `Send` is shown by hand nothing is looked for in a
/// closure.
pub(crate) fn run_beside<
    R: Threads,
    J: Send + Drop,
    X: Send,
    Y,
    F: FnOnce(J) -> X + Send + Drop,
    G: FnOnce() -> Y,
>(rt: &R, job: J, f: F, g: G) -> (X, Y)
    requires { F.pre f job × G.pre g }
    ensures first { F.post f job result.0 }
    ensures second { G.post g result.1 }
{
    join(
        rt,
        || -> X
            requires { F.pre f job }
            ensures { F.post f job result }
        { f(job) },
        g,
    )
}
