//! The JSON text of a diagram.

ghost use Rattle.std.specs.Prelude.{IfOk};
ghost use Rattle.scatter_diagram.specs.Listed.{AreLines};

use crate::reading::{TWO_LINES, file_of};
use scatter_diagram::{Diagram, Initial, StopCause, Wall};
use scatter_json::write_json;
use scatter_text::{check_limits, initial_of};
use std::alloc::{AllocError, Global};
use std::test::Fail;

fn initial(alloc: Global, text: &[u8]) -> Option<Initial> {
    let file = file_of(alloc, text)?;
    match check_limits(&file, 4, 1) {
        None => initial_of(alloc, &file).ok(),
        Some(_) => None,
    }
}

fn lines_of(alloc: Global, initial: &Initial) -> Result<Vec<Wall>, AllocError>
    ensures { IfOk result (λ r. AreLines 24 r.items) }
{
    let lines = initial.lines();
    let mut out = Vec::with_capacity(alloc, lines.len())?;
    for line in lines {
        out.push(line.copy()?)?;
    }
    Ok(out)
}

// The diagram of two lines, which has no rays.
fn prints(alloc: Global, stop: Option<(u32, StopCause)>, text: &[u8]) -> Result<bool, AllocError> {
    match initial(alloc, TWO_LINES) {
        Some(initial) => {
            let lines = lines_of(alloc, &initial)?;
            let e = Diagram::from_walls(alloc, 24, lines, Vec::new(alloc))?;
            Ok(write_json(alloc, &e, 2, stop)?.as_slice() == text)
        }
        None => Ok(false),
    }
}

const WHOLE: &[u8] =
    b"{\"lines\":[{\"at\":[\"0\",\"0\"],\"dir\":[1,0],\"terms\":[[\"1\",1,[1,0]]]},{\"at\":[\"-1/2\",\"0\"],\"dir\":[0,1],\"terms\":[[\"-5\",3,[0,1]]]}],\"order\":24,\"rays\":[],\"scatter\":1,\"vars\":2}\n";

const STOPPED: &[u8] =
    b"{\"lines\":[{\"at\":[\"0\",\"0\"],\"dir\":[1,0],\"terms\":[[\"1\",1,[1,0]]]},{\"at\":[\"-1/2\",\"0\"],\"dir\":[0,1],\"terms\":[[\"-5\",3,[0,1]]]}],\"order\":24,\"rays\":[],\"scatter\":1,\"stopped\":[25,\"weights\"],\"vars\":2}\n";

#[test]
fn whole_and_stopped(rt: HostRuntime) -> Result<(), Fail> {
    assert!(rt; prints(rt.alloc(), None, WHOLE)?);
    assert!(rt; prints(rt.alloc(), Some((25, StopCause::WeightTooLarge)), STOPPED)?);
    Ok(())
}
